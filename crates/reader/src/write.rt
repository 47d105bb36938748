// The second pass over a text that is accepted: the head of the page area and the entry of each line are written. A line is known to have
// a form, so nothing of it is checked again.
ghost use Rattle.std.specs.Prelude.{◌≡◌, true, ◌∷◌, ◌+◌, ◌≤◌, ◌<◌, length, get_or, drop};
ghost use Rattle.std.proofs.lemmas.List.Edits.{sets};
ghost use Rattle.fixpoint.specs.Sum.{bit};
ghost use Rattle.semantics.specs.Area.{head_length};
ghost use Rattle.semantics.specs.Table.{table};
ghost use Rattle.semantics.specs.Text.{all_literals};
ghost use Rattle.bits.specs.Words.{has};
ghost use Rattle.fields.specs.Cursor.{InText, fields_at};
ghost use Rattle.lines.specs.Lines.{PairLetter, PairThen};
ghost use Rattle.reader.specs.Checks.{LinesFit, entries_of};
ghost use Rattle.reader.specs.Entries.{Formed, LineFits, LinePut, LiteralsPut};

use crate::check::{Page, head_length};
use bits::Set;
use fields::{checked_literal, checked_number};
use lines::{Pair, op_kind, reading_code};

// Four numbers from a place on. Four stores: a copy of slices asks the host for memmove, which the C interface does not.
fn put_four(area: &mut [u16], at: usize, numbers: [u16; 4])
    requires { at + 4 ≤ length area.old }
    ensures { area.new ≡ sets area.old at numbers }
{
    area[at] = numbers[0];
    area[at + 1] = numbers[1];
    area[at + 2] = numbers[2];
    area[at + 3] = numbers[3];
}

// The D numbers: 1 for the conditions of the set, 0 for the others.
fn put_defaults(area: &mut [u16], conditions: u16, unknown: &Set)
    requires { (head_length conditions ≤ length area.old) × (conditions ≤ 512) }
    ensures { area.new ≡ sets area.old 4 (table conditions (λ c. bit (has unknown.now.words c))) }
{
    for c in 0..conditions {
        area[4 + usize::from(c)] = u16::from(unknown.contains(c));
    }
}

// The head of a page area, where `unknown` are the conditions that are unknown by default; answers where the lines begin.
pub fn put_head(area: &mut [u16], page: &Page, unknown: &Set) -> usize
    requires { (head_length page.now.conditions ≤ length area.old) × (page.now.conditions ≤ 512) × (page.now.count < 65536) × (page.now.used < 65536) }
    ensures head { area.new ≡ sets area.old 0 (page.now.top ∷ page.now.conditions ∷ page.now.count ∷ page.now.used ∷ table page.now.conditions (λ c. bit (has unknown.now.words c))) }
    ensures start { result ≡ head_length page.now.conditions }
{
    let count = page.count as u16;
    let used = page.used as u16;
    put_four(area, 0, [page.top, page.conditions, count, used]);
    put_defaults(area, page.conditions, unknown);
    head_length(page.conditions)
}

// Where the next line begins in the text, and where the next entry begins in the area.
#[derive(Clone, Copy)]
struct Place {
    next: usize,
    end: usize,
}

// The two numbers with which a fact and a rule begin.
fn checked_pair(bytes: &[u8], at: usize) -> Pair
    requires { Formed bytes.now at × PairLetter (get_or bytes.now at 10) }
    ensures { PairThen bytes.now at result.first result.second result.next }
{
    let first = checked_number(bytes, at + 2);
    let second = checked_number(bytes, first.end + 1);
    Pair {
        first: first.value,
        second: second.value,
        next: second.end + 1,
    }
}

// The line at a place that begins with `F`.
fn write_fact(bytes: &[u8], at: usize, area: &mut [u16], end: usize) -> Place
    requires { LineFits bytes.now at area.old end × (get_or bytes.now at 10 ≡ 70) }
    ensures { LinePut bytes.now at area.old end area.new result.next result.end }
{
    let pair = checked_pair(bytes, at);
    let high = checked_number(bytes, pair.next);
    put_four(area, end, [pair.first, 0, pair.second, high.value]);
    Place {
        next: high.end + 1,
        end: end + 4,
    }
}

// The literals to the end of a rule's line. Their codes are written. Each field tells where the next begins, so the places go on by hand.
fn write_literals(bytes: &[u8], at: usize, area: &mut [u16], start: usize) -> Place
    requires { InText bytes.now at × (all_literals (fields_at (drop at bytes.now)) ≡ true) × (start + length (fields_at (drop at bytes.now)) ≤ length area.old) }
    ensures { LiteralsPut bytes.now at area.old start area.new result.next result.end }
{
    let mut end = start;
    let mut i = at;
    loop {
        let literal = checked_literal(bytes, i);
        let e = literal.end;
        area[end] = literal.value;
        end += 1;
        i = e + 1;
        if bytes[e] == b'\n' {
            break;
        }
    }
    Place { next: i, end }
}

// The line at a place that begins with `R`.
fn write_rule(bytes: &[u8], at: usize, area: &mut [u16], end: usize) -> Place
    requires { LineFits bytes.now at area.old end × (get_or bytes.now at 10 ≡ 82) }
    ensures { LinePut bytes.now at area.old end area.new result.next result.end }
{
    let pair = checked_pair(bytes, at);
    let a = pair.next;
    let kind = op_kind(bytes[a]).unwrap();
    let start = end + 4;
    let place = write_literals(bytes, a + 2, area, start);
    let count = place.end - start;
    put_four(area, end, [pair.first, kind, pair.second, count as u16]);
    place
}

// The line at a place that begins with `Q`.
fn write_query(bytes: &[u8], at: usize, area: &mut [u16], end: usize) -> Place
    requires { LineFits bytes.now at area.old end × (get_or bytes.now at 10 ≡ 81) }
    ensures { LinePut bytes.now at area.old end area.new result.next result.end }
{
    let reading = reading_code(bytes[at + 2]).unwrap();
    let condition = checked_number(bytes, at + 4);
    put_four(area, end, [condition.value, 6, reading, 0]);
    Place {
        next: condition.end + 1,
        end: end + 4,
    }
}

// The line at a place that begins with `D`.
fn write_default(bytes: &[u8], at: usize, area: &mut [u16], end: usize) -> Place
    requires { LineFits bytes.now at area.old end × (get_or bytes.now at 10 ≡ 68) }
    ensures { LinePut bytes.now at area.old end area.new result.next result.end }
{
    let condition = checked_number(bytes, at + 2);
    put_four(area, end, [condition.value, 7, 0, 0]);
    Place {
        next: condition.end + 3,
        end: end + 4,
    }
}

// The line at a place.
fn write_line(bytes: &[u8], at: usize, area: &mut [u16], end: usize) -> Place
    requires { LineFits bytes.now at area.old end }
    ensures { LinePut bytes.now at area.old end area.new result.next result.end }
{
    let letter = bytes[at];
    match letter {
        b'F' => write_fact(bytes, at, area, end),
        b'R' => write_rule(bytes, at, area, end),
        b'Q' => write_query(bytes, at, area, end),
        _ => write_default(bytes, at, area, end),
    }
}

// The entries of the lines from a place on, to the area from `start` on. Each line tells where the next begins, so the places go on by hand.
pub fn write_lines(bytes: &[u8], from: usize, area: &mut [u16], start: usize)
    requires { LinesFit bytes.now from area.old start }
    ensures { area.new ≡ sets area.old start (entries_of bytes.now from) }
{
    let mut at = from;
    let mut used = start;
    while at < bytes.len() {
        let place = write_line(bytes, at, area, used);
        at = place.next;
        used = place.end;
    }
}
