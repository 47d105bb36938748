// All small pages (document 02, ticket 13): the text of the page with a number, by arithmetic on the number. It is made in a local array of the
// greatest length, and copied if the lent buffer has room.
#![tactic(auto)]

ghost use Rattle.std.specs.Prelude.{◌≡◌, [], ◌∷◌, ◌+◌, ◌*◌, ◌≤◌, ◌<◌, length};
ghost use Rattle.semantics.specs.Fields.{joined, ended_lines};
ghost use Rattle.semantics.specs.Written.{head_fields, line_texts, text_of};
ghost use Rattle.semantics.specs.SmallPages.{small_of};
ghost use Rattle.print.specs.Texts.{Room, Puts};
ghost use Rattle.small.specs.Numbers.{kinds, fact_ranked, rule_ranked, line_ranked, lines_numbered, page_numbered};
ghost use Rattle.small.specs.Answer.{number_of, answer_of};

use print::{Text, put_all};

// Why no text is written.
#[derive(Clone, Copy, PartialEq, Eq)]
pub enum SmallError {
    // a number over 241
    Number,
    // a buffer too short for the text
    Buffer,
}

impl SmallError {
    // The number of the refusal.
    pub fn number(self) -> u8
        ensures { result ≡ number_of self }
    {
        match self {
            SmallError::Number => 70,
            SmallError::Buffer => 71,
        }
    }
}

// `G,1,n`.
fn put_head(text: &mut Text<'_>, n: u8)
    requires { Room text.old 6 × (n ≤ 2) }
    ensures { Puts text.old (ended_lines (joined (head_fields 1 n) ∷ [])) text.new }
{
    text.put_bytes(&[b'G', b',', b'1', b',', b'0' + n, b'\n']);
}

// The fact with rank r: three on each condition, by their ends.
fn put_fact(text: &mut Text<'_>, r: u8)
    requires { Room text.old 8 × (r < 6) }
    ensures { Puts text.old (ended_lines (line_texts (fact_ranked r ∷ []))) text.new }
{
    let ends = r % 3;
    text.put_bytes(&[
        b'F',
        b',',
        b'0' + r / 3,
        b',',
        b'0' + ends / 2,
        b',',
        b'0' + (ends + 1) / 2,
        b'\n',
    ]);
}

// The rule with rank r on a page of n conditions: for each head the n negations, then the n conditions.
fn put_rule(text: &mut Text<'_>, n: u8, r: u8)
    requires { Room text.old 11 × (1 ≤ n) × (n ≤ 2) × (r < 2 * n * n) }
    ensures { Puts text.old (ended_lines (line_texts (rule_ranked n r ∷ []))) text.new }
{
    let head = r / (2 * n);
    let named = r % n;
    let negated = r % (2 * n) < n;
    text.put_bytes(&[b'R', b',', b'0' + head, b',', b'1', b',', b'M', b',']);
    if negated {
        text.put_byte(b'!');
    }
    text.put_bytes(&[b'0' + named, b'\n']);
}

// The line with rank r on a page of n conditions: the facts, then the rules.
fn put_line(text: &mut Text<'_>, n: u8, r: u8)
    requires { Room text.old 11 × (1 ≤ n) × (n ≤ 2) × (r < kinds n) }
    ensures { Puts text.old (ended_lines (line_texts (line_ranked n r ∷ []))) text.new }
{
    if r < 3 * n {
        put_fact(text, r);
        return;
    }
    put_rule(text, n, r - 3 * n);
}

// The lines of the page with number k among those of n conditions: none, one, or two.
fn put_lines(text: &mut Text<'_>, n: u8, k: u8)
    requires { Room text.old 22 × (1 ≤ n) × (n ≤ 2) × (k < 1 + kinds n + kinds n * kinds n) }
    ensures { Puts text.old (ended_lines (line_texts (lines_numbered n k))) text.new }
{
    if k < 1 {
        return;
    }
    let lines = n * (3 + 2 * n);
    if k < 1 + lines {
        put_line(text, n, k - 1);
        return;
    }
    let pair = k - 1 - lines;
    put_line(text, n, pair / lines);
    put_line(text, n, pair % lines);
}

// The text of the page with a number.
fn put_page(text: &mut Text<'_>, number: u8)
    requires { Room text.old 28 × (number < 242) }
    ensures { Puts text.old (text_of (page_numbered number)) text.new }
{
    if number < 31 {
        put_head(text, 1);
        put_lines(text, 1, number);
        return;
    }
    put_head(text, 2);
    put_lines(text, 2, number - 31);
}

// The text of a small page at the front of a buffer, and its length.
pub fn small_page(number: u32, buffer: &mut [u8]) -> Result<u8, SmallError>
    ensures answer { answer_of result ≡ (small_of number buffer.old).answer }
    ensures buffer { buffer.new ≡ (small_of number buffer.old).buffer }
{
    if 241 < number {
        return Err(SmallError::Number);
    }
    let mut bytes = [0u8; 28];
    let mut text = Text::new(&mut bytes);
    put_page(&mut text, number as u8);
    if buffer.len() < text.at {
        return Err(SmallError::Buffer);
    }
    put_all(buffer, 0, text.written());
    Ok(text.at as u8)
}
