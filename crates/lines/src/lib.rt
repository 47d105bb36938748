// The lines after the first: `F,cond,low,high`, `R,cond,weight,op,literal,...`, `Q,reading,cond`, `D,cond,U`, parsed by their form. What
// is out of range is for the caller to refuse, who has every field at hand.
#![tactic(auto)]

ghost use Rattle.std.specs.Prelude.{ℕ, ◌≡◌, get_or};
ghost use Rattle.fields.specs.Cursor.{InText};
ghost use Rattle.lines.specs.Lines.{PairLetter, PairAt, far_with, LiteralsAt, ParsedAs, kind_at, reading_at};

use fields::{number_before, read_literal};

// What a line says. Of a rule's literals: how many they are, and which is the first whose condition is out of range, from 1, if any is.
#[derive(Clone, Copy)]
pub enum Parsed {
    Fact {
        condition: u16,
        low: u16,
        high: u16,
    },
    Rule {
        condition: u16,
        weight: u16,
        count: usize,
        far: Option<usize>,
    },
    Query {
        condition: u16,
    },
    Default {
        condition: u16,
    },
}

// A line that has a form, and the place of the next.
#[derive(Clone, Copy)]
pub struct Line {
    pub says: Parsed,
    pub next: usize,
}

// The first two numbers behind a letter, and the place of the field after them.
#[derive(Clone, Copy)]
pub struct Pair {
    pub first: u16,
    pub second: u16,
    pub next: usize,
}

// The two numbers with which a fact and a rule begin.
fn parse_pair(bytes: &[u8], at: usize) -> Option<Pair>
    requires { InText bytes.now at × PairLetter (get_or bytes.now at 10) }
    ensures { PairAt bytes.now at result }
{
    if bytes[at + 1] != b',' {
        return None;
    }
    let first = number_before(bytes, at + 2, b',')?;
    let second = number_before(bytes, first.end, b',')?;
    Some(Pair {
        first: first.value,
        second: second.value,
        next: second.end,
    })
}

// The line at a place that begins with `F`.
fn parse_fact(bytes: &[u8], at: usize) -> Option<Line>
    requires { InText bytes.now at × (get_or bytes.now at 10 ≡ 70) }
    ensures { (n : ℕ) → ParsedAs bytes.now at n result }
{
    let pair = parse_pair(bytes, at)?;
    let high = number_before(bytes, pair.next, b'\n')?;
    Some(Line {
        says: Parsed::Fact {
            condition: pair.first,
            low: pair.second,
            high: high.value,
        },
        next: high.end,
    })
}

// The kind of a rule by its op letter; none for another letter. Kinds are numbers, and so are readings: an area is numbers that C reads
// (document 01, "Areas"), and an enum would be turned into the same number at the one place that writes it.
#[tactic(auto, using(std::proofs::lemmas::Bool::Decides::nat_tests), unfolding(crate::specs::Lines::kind_at))]
pub fn op_kind(letter: u8) -> Option<u16>
    ensures { result ≡ kind_at letter }
{
    match letter {
        b'M' => Some(1),
        b'X' => Some(2),
        b'L' => Some(3),
        b'B' => Some(4),
        b'P' => Some(5),
        _ => None,
    }
}

// Which literal is the first out of range, where `far` was before the literal number `n`.
#[tactic(auto, using(std::proofs::lemmas::Bool::Decides::nat_tests), unfolding(crate::specs::Lines::far_with))]
fn far_with(far: Option<usize>, n: usize, condition: u16, conditions: u16) -> Option<usize>
    ensures { result ≡ far_with far n condition conditions }
{
    if condition < conditions {
        return far;
    }
    far.or(Some(n))
}

// What is read of the literals of a rule, as in `Parsed`, and the place of the next line.
#[derive(Clone, Copy)]
struct Literals {
    count: usize,
    far: Option<usize>,
    next: usize,
}

// The literals to the end of a rule's line, 1 to 8.
fn parse_literals(bytes: &[u8], at: usize, conditions: u16) -> Option<Literals>
    requires { InText bytes.now at }
    ensures { LiteralsAt bytes.now at conditions result }
{
    let mut far = None;
    let mut i = at;
    for count in 1..=8 {
        let literal = read_literal(bytes, i)?;
        far = far_with(far, count, literal.value, conditions);
        i = literal.end + 1;
        match bytes[literal.end] {
            b'\n' => {
                return Some(Literals {
                    count,
                    far,
                    next: i,
                });
            }
            b',' => {}
            _ => return None,
        }
    }
    None
}

// The line at a place that begins with `R`.
fn parse_rule(bytes: &[u8], at: usize, conditions: u16) -> Option<Line>
    requires { InText bytes.now at × (get_or bytes.now at 10 ≡ 82) }
    ensures { ParsedAs bytes.now at conditions result }
{
    let pair = parse_pair(bytes, at)?;
    op_kind(bytes[pair.next])?;
    if bytes[pair.next + 1] != b',' {
        return None;
    }
    let literals = parse_literals(bytes, pair.next + 2, conditions)?;
    Some(Line {
        says: Parsed::Rule {
            condition: pair.first,
            weight: pair.second,
            count: literals.count,
            far: literals.far,
        },
        next: literals.next,
    })
}

// The number of a reading letter, a number as at `op_kind`; none for another letter.
#[tactic(auto, using(std::proofs::lemmas::Bool::Decides::nat_tests), unfolding(crate::specs::Lines::reading_at))]
pub fn reading_code(letter: u8) -> Option<u16>
    ensures { result ≡ reading_at letter }
{
    match letter {
        b'K' => Some(0),
        b'W' => Some(1),
        _ => None,
    }
}

// The line at a place that begins with `Q`.
fn parse_query(bytes: &[u8], at: usize) -> Option<Line>
    requires { InText bytes.now at × (get_or bytes.now at 10 ≡ 81) }
    ensures { (n : ℕ) → ParsedAs bytes.now at n result }
{
    if bytes[at + 1] != b',' {
        return None;
    }
    reading_code(bytes[at + 2])?;
    if bytes[at + 3] != b',' {
        return None;
    }
    let condition = number_before(bytes, at + 4, b'\n')?;
    Some(Line {
        says: Parsed::Query {
            condition: condition.value,
        },
        next: condition.end,
    })
}

// The line at a place that begins with `D`.
fn parse_default(bytes: &[u8], at: usize) -> Option<Line>
    requires { InText bytes.now at × (get_or bytes.now at 10 ≡ 68) }
    ensures { (n : ℕ) → ParsedAs bytes.now at n result }
{
    if bytes[at + 1] != b',' {
        return None;
    }
    let condition = number_before(bytes, at + 2, b',')?;
    let a = condition.end;
    if bytes[a] != b'U' {
        return None;
    }
    if bytes[a + 1] != b'\n' {
        return None;
    }
    Some(Line {
        says: Parsed::Default {
            condition: condition.value,
        },
        next: a + 2,
    })
}

// The line at a place, of a page with so many conditions; none where it has no form.
pub fn parse_line(bytes: &[u8], at: usize, conditions: u16) -> Option<Line>
    requires { InText bytes.now at }
    ensures { ParsedAs bytes.now at conditions result }
{
    let letter = bytes[at];
    match letter {
        b'F' => parse_fact(bytes, at),
        b'R' => parse_rule(bytes, at, conditions),
        b'Q' => parse_query(bytes, at),
        b'D' => parse_default(bytes, at),
        _ => None,
    }
}
