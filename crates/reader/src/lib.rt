// Read a page, from its text to a page area, and show a line of it.
#![tactic(auto)]

mod check;
mod show;
mod write;

ghost use Rattle.std.specs.Prelude.{◌≡◌, ◌+◌, length};
ghost use Rattle.semantics.specs.ReadPage.{read_of, line_of, start_of};
ghost use Rattle.reader.specs.Answers.{answer_of};
ghost use Rattle.reader.specs.Causes.{number_of};
ghost use Rattle.reader.specs.Shown.{LineAt};

use crate::check::check_page;
use crate::show::{line_end, next_line};
use crate::write::{put_head, write_lines};
use bits::Set;

// Why a page is refused.
#[derive(Clone, Copy, Debug, PartialEq, Eq)]
pub enum Cause {
    TooLong,
    Unended,
    Form,
    Range,
    TooManyLines,
    AreaShort,
    Weight,
    OverTop,
    Crossed,
    SecondDefault,
}

impl Cause {
    // The number of the refusal.
    pub fn number(self) -> u16
        ensures { result ≡ number_of self }
    {
        match self {
            Cause::TooLong => 1,
            Cause::Unended => 2,
            Cause::Form => 3,
            Cause::Range => 4,
            Cause::TooManyLines => 5,
            Cause::AreaShort => 6,
            Cause::Weight => 21,
            Cause::OverTop => 22,
            Cause::Crossed => 23,
            Cause::SecondDefault => 24,
        }
    }
}

// A refusal: its cause, the line that it tells, from 1, and the place of the field in that line, from 1; 0 where none is told, as C is told it.
#[derive(Clone, Copy)]
pub struct Refusal {
    pub cause: Cause,
    pub line: usize,
    pub place: usize,
}

// A refusal of a text as a whole.
impl From<Cause> for Refusal {
    ghost from_gives = { λ c r. r ≡ record { cause = c; line = 0; place = 0 } };

    fn from(cause: Cause) -> Self {
        Refusal {
            cause,
            line: 0,
            place: 0,
        }
    }
}

// Read a page, in two passes: the area is written when no refusal can follow. The first pass finds the set of the conditions that are
// unknown by default. Answers the used length.
pub fn read_page(bytes: &[u8], area: &mut [u16]) -> Result<usize, Refusal>
    ensures answer { answer_of result ≡ (read_of bytes.now area.old).answer }
    ensures area { area.new ≡ (read_of bytes.now area.old).area }
{
    let mut seen = Set::empty();
    let page = check_page(bytes, &mut seen)?;
    if area.len() < page.used {
        return Err(Refusal::from(Cause::AreaShort));
    }
    let from = next_line(bytes, 0);
    let start = put_head(area, &page, &seen);
    write_lines(bytes, from, area, start);
    Ok(page.used)
}

// Where a line stands: from `start` up to `end`.
#[derive(Clone, Copy)]
pub struct Span {
    pub start: usize,
    pub end: usize,
}

// Where the line with a number stands, from 1. Where there is no such line the part is empty.
pub fn find_line(bytes: &[u8], number: usize) -> Span
    ensures { LineAt bytes.now number result.start result.end }
{
    if number == 0 {
        return Span { start: 0, end: 0 };
    }
    let mut at: usize = 0;
    for line in 1..number {
        if bytes.len() <= at {
            return Span { start: at, end: at };
        }
        at = next_line(bytes, at);
    }
    let end = line_end(bytes, at);
    Span { start: at, end }
}

// Show a line, by its number from 1: the part of the caller's own bytes, empty where there is no such line. A reference's `ptr` is a
// block, and an offset in bytes: the part lies in the caller's block, at the line's own place and not at another line of the same bytes.
pub fn show_line(bytes: &[u8], number: usize) -> &[u8]
    ensures line { result.now ≡ line_of bytes.now number }
    ensures block { result.ref_ptr.0 ≡ bytes.entry.ref_ptr.0 }
    ensures begins { result.ref_ptr.1 ≡ bytes.entry.ref_ptr.1 + start_of bytes.now number }
    ensures spans { length result.now ≡ length (line_of bytes.now number) }
{
    let span = find_line(bytes, number);
    let start = span.start;
    let end = span.end;
    &bytes[start..end]
}
