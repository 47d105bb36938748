// The first pass over a text: each line is parsed and its fields are checked, the used length is summed, and the conditions of the D lines
// are put into a set.
ghost use Rattle.std.specs.Prelude.{◌≡◌, ◌↔◌, [], ◌∷◌, ◌-◌, ◌≤◌, length, slice_get, IfSome, IsTrue};
ghost use Rattle.semantics.specs.Page.{fact};
ghost use Rattle.semantics.specs.Area.{head_length};
ghost use Rattle.semantics.specs.Call.{cause, first_of};
ghost use Rattle.semantics.specs.Text.{text_lines};
ghost use Rattle.semantics.specs.ReadPage.{placed, outside, head_ranges, line_ranges, leftmost, bad_line_of, text_refusal};
ghost use Rattle.fields.specs.Cursor.{InText};
ghost use Rattle.reader.specs.Causes.{number_of};
ghost use Rattle.reader.specs.Checks.{fault_of, rule_fault, query_fault, DefaultAs, Seen, CheckedLine, HeadAt, Tallied, CheckedAs};

use crate::{Cause, Refusal};
use bits::Set;
use fields::number_before;
use lines::{Parsed, parse_line};

// What is wrong with a line: the cause, and the place of the leftmost field that is not in range, from 1; 0 where none is told, as C is told it.
#[derive(Clone, Copy)]
pub struct Fault {
    cause: Cause,
    place: usize,
}

impl Fault {
    // The same, told with a line.
    fn at(self, line: usize) -> Refusal
        ensures { result ≡ record { cause = self.cause; line = line; place = self.place } }
    {
        Refusal {
            cause: self.cause,
            line,
            place: self.place,
        }
    }
}

// A line that has no form.
const FORMLESS: Fault = Fault {
    cause: Cause::Form,
    place: 0, // no field is told
};

// A fault at a place, where `holds` says that there is one.
fn refuse_if(holds: bool, why: Cause, place: usize) -> Result<(), Fault>
    ensures { fault_of result ≡ placed place (first_of (cause holds (number_of why) ∷ [])) }
{
    if holds {
        return Err(Fault { cause: why, place });
    }
    Ok(())
}

// Whether a number is below the least or above the most.
fn is_outside(least: u16, most: u16, x: u16) -> bool
    ensures { result ≡ outside least most x }
{
    !(least..=most).contains(&x)
}

// What is read of the first line, `G,top,C`: top, C and the place of the next line.
#[derive(Clone, Copy)]
struct Head {
    top: u16,
    conditions: u16,
    next: usize,
}

// The fields of a fact.
fn check_fact(condition: u16, low: u16, high: u16, head: &Head) -> Result<(), Fault>
    ensures { fault_of result ≡ leftmost 1 (line_ranges head.now.top head.now.conditions (fact condition low high)) }
{
    refuse_if(head.conditions <= condition, Cause::Range, 2)?;
    refuse_if(head.top < low, Cause::OverTop, 3)?;
    refuse_if(head.top < high, Cause::OverTop, 4)?;
    refuse_if(high < low, Cause::Crossed, 4)
}

// The fields of a rule, where `far` is the first literal that is out of range, from 1, if one is.
fn check_rule(condition: u16, weight: u16, far: Option<usize>, head: &Head) -> Result<(), Fault>
    requires { IfSome far (λ k. k ≤ 8) }
    ensures { fault_of result ≡ rule_fault head.now.top head.now.conditions condition weight far }
{
    refuse_if(head.conditions <= condition, Cause::Range, 2)?;
    refuse_if(is_outside(1, head.top, weight), Cause::Weight, 3)?;
    match far {
        Some(n) => Err(Fault {
            cause: Cause::Range,
            place: 4 + n,
        }),
        None => Ok(()),
    }
}

// The fields of a query.
fn check_query(condition: u16, conditions: u16) -> Result<(), Fault>
    ensures { fault_of result ≡ query_fault conditions condition }
{
    refuse_if(conditions <= condition, Cause::Range, 3)
}

// The fields of a D line, and then whether it is a second one for its condition, where `seen` has the conditions of those before it. That
// refusal has no place. The condition of a line that is in order is put into the set.
fn check_default(condition: u16, conditions: u16, seen: &mut Set) -> Result<(), Fault>
    requires { (conditions ≤ 512) }
    ensures { DefaultAs conditions condition seen.old.words seen.new.words result }
{
    refuse_if(conditions <= condition, Cause::Range, 2)?;
    refuse_if(!seen.insert(condition), Cause::SecondDefault, 0)
}

// A line that is in order: how many numbers its entry has, and the place of the next line.
#[derive(Clone, Copy)]
struct Entry {
    size: usize,
    next: usize,
}

// The line at a place, and its refusal: its form first, then its fields in their order, then whether it is a second D line. No other
// function refuses a line by what it says.
fn check_line(bytes: &[u8], at: usize, head: &Head, seen: &mut Set) -> Result<Entry, Fault>
    requires { InText bytes.now at × (head.now.conditions ≤ 512) }
    ensures { CheckedLine bytes.now at head.now.top head.now.conditions seen.old.words seen.new.words result }
{
    // with `ok_or` and `?` reading a page takes 160 bytes of stack more in C, and the header states its stack
    let Some(line) = parse_line(bytes, at, head.conditions) else {
        return Err(FORMLESS);
    };
    let next = line.next;
    match line.says {
        Parsed::Fact {
            condition,
            low,
            high,
        } => {
            check_fact(condition, low, high, head)?;
            Ok(Entry { size: 4, next })
        }
        Parsed::Rule {
            condition,
            weight,
            count,
            far,
        } => {
            check_rule(condition, weight, far, head)?;
            let size = 4 + count;
            Ok(Entry { size, next })
        }
        Parsed::Query { condition } => {
            check_query(condition, head.conditions)?;
            Ok(Entry { size: 4, next })
        }
        Parsed::Default { condition } => {
            check_default(condition, head.conditions, seen)?;
            Ok(Entry { size: 4, next })
        }
    }
}

// The first line; none where it has no form.
fn parse_head(bytes: &[u8]) -> Option<Head>
    requires { InText bytes.now 0 }
    ensures { HeadAt bytes.now result }
{
    if bytes[0] != b'G' {
        return None;
    }
    if bytes[1] != b',' {
        return None;
    }
    let top = number_before(bytes, 2, b',')?;
    let conditions = number_before(bytes, top.end, b'\n')?;
    Some(Head {
        top: top.value,
        conditions: conditions.value,
        next: conditions.end,
    })
}

// How many lines there are after the first, and the used length of the page.
#[derive(Clone, Copy)]
struct Tally {
    count: usize,
    used: usize,
}

// How many numbers stand before the lines of a page area, with so many conditions.
pub fn head_length(conditions: u16) -> usize
    ensures { result ≡ head_length conditions }
{
    4 + usize::from(conditions)
}

// The lines behind the first one. The conditions of their D lines are put into the set `seen`, which is empty.
// The parser says where the next line begins, so the place and the line's number go on by hand.
fn check_lines(bytes: &[u8], head: &Head, seen: &mut Set) -> Result<Tally, Refusal>
    requires { InText bytes.now 0 × (head.now.conditions ≤ 512) × Seen [] seen.old.words }
    ensures { Tallied bytes.now head.now.next head.now.top head.now.conditions seen.new.words result }
{
    let mut at = head.next;
    let mut line: usize = 2;
    let mut used = head_length(head.conditions);
    while at < bytes.len() {
        if line == 1026 {
            return Err(Refusal {
                cause: Cause::TooManyLines,
                line,
                place: 0,
            });
        }
        // with `map_err` and `?` reading a page takes 5 per cent more instructions in C, and it is at its limit
        match check_line(bytes, at, head, seen) {
            Ok(entry) => {
                at = entry.next;
                used += entry.size;
            }
            Err(fault) => return Err(fault.at(line)),
        }
        line += 1;
    }
    Ok(Tally {
        count: line - 2,
        used,
    })
}

// The fields of the first line.
fn check_head(top: u16, conditions: u16) -> Result<(), Fault>
    ensures { fault_of result ≡ leftmost 1 (head_ranges top conditions) }
{
    refuse_if(is_outside(1, 200, top), Cause::Range, 2)?;
    refuse_if(is_outside(1, 512, conditions), Cause::Range, 3)
}

// The numbers of a page: its top, its conditions, how many lines it has after the first, and its used length.
#[derive(Clone, Copy)]
pub struct Page {
    pub top: u16,
    pub conditions: u16,
    pub count: usize,
    pub used: usize,
}

// The lines of a text.
fn check_all(bytes: &[u8], seen: &mut Set) -> Result<Page, Refusal>
    requires { InText bytes.now 0 × Seen [] seen.old.words }
    ensures { CheckedAs (bad_line_of (text_lines bytes.now)) bytes.now seen.new.words result }
{
    let head = parse_head(bytes).ok_or(FORMLESS.at(1))?;
    check_head(head.top, head.conditions).map_err(|fault| fault.at(1))?;
    let tally = check_lines(bytes, &head, seen)?;
    Ok(Page {
        top: head.top,
        conditions: head.conditions,
        count: tally.count,
        used: tally.used,
    })
}

// Whether the last byte of a text is byte 10.
fn is_ended(bytes: &[u8]) -> bool
    ensures { IsTrue result ↔ (slice_get bytes.now (length bytes.now - 1) ≡ Some 10) }
{
    bytes.last() == Some(&b'\n')
}

// The text as a whole. The conditions of the D lines of a page are put into the set `seen`, which is empty.
pub fn check_page(bytes: &[u8], seen: &mut Set) -> Result<Page, Refusal>
    requires { Seen [] seen.old.words }
    ensures { CheckedAs (text_refusal bytes.now) bytes.now seen.new.words result }
{
    if 65535 < bytes.len() {
        return Err(Refusal::from(Cause::TooLong));
    }
    if !is_ended(bytes) {
        return Err(Refusal::from(Cause::Unended));
    }
    check_all(bytes, seen)
}
