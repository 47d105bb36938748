// What the program `trials` writes (document 02, ticket 8), part by part: the refused line or the first line, and the answers of each trial.
// The last line is `answers::put_end`.
#![tactic(auto)]

ghost use Rattle.std.specs.Prelude.{◌≡◌, true, ◌*◌, ◌/◌, ◌≤◌, length};
ghost use Rattle.std.specs.Iterator.{at_most};
ghost use Rattle.semantics.specs.Area.{sound, page_of, top_of, conditions_of};
ghost use Rattle.semantics.specs.ReadPage.{or_else, text_refusal, page_read, read_of};
ghost use Rattle.semantics.specs.Trials.{list_refusal};
ghost use Rattle.print.specs.Texts.{Room};
ghost use Rattle.trial.specs.Parts.{list_left, ListIn, ReadAs, BegunAs, TrialEnd, GivesTrial, TrialPut};

use answers::{Solved, put_refusal, put_top};
use page::Page;
use print::Text;

// Why nothing is tried: the number of the refusal of the page or of the list, and the line that it tells. The number is printed as it is: an enum
// over the causes of both crates would be turned into it at its only use.
#[derive(Clone, Copy)]
pub struct Refusal {
    pub number: u16,
    pub line: usize,
}

impl From<reader::Refusal> for Refusal {
    ghost use Rattle.reader.specs.Causes.{number_of};

    ghost from_gives = { λ r e. (e.number ≡ number_of r.cause) × (e.line ≡ r.line) };

    fn from(page: reader::Refusal) -> Self {
        Refusal {
            number: page.cause.number(),
            line: page.line,
        }
    }
}

impl From<list::Refusal> for Refusal {
    ghost use Rattle.list.specs.Causes.{number_of};

    ghost from_gives = { λ r e. (e.number ≡ number_of r.cause) × (e.line ≡ r.line) };

    fn from(list: list::Refusal) -> Self {
        Refusal {
            number: list.cause.number(),
            line: list.line,
        }
    }
}

// The page is read to its area, then the list for it to four numbers a line. Answers how many lines the list has.
fn read(text: &[u8], bytes: &[u8], page: &mut [u16], list: &mut [u16]) -> Result<usize, Refusal>
    requires { (12804 ≤ length page.old) × (4096 ≤ length list.old) }
    ensures read { ReadAs text.now bytes.now page.new list.new result }
    ensures page { page.new ≡ (read_of text.now page.old).area }
    ensures list { list.new ≡ list_left (or_else (text_refusal text.now) (list_refusal (page_read text.now) bytes.now)) bytes.now list.old }
{
    reader::read_page(text, page)?;
    let lines = list::read_list(bytes, page[0], page[1], list)?;
    Ok(lines)
}

// The beginning: the page and the list are read, and the first line is written, or the refused line.
pub fn begin(
    text: &[u8],
    bytes: &[u8],
    page: &mut [u16],
    list: &mut [u16],
    out: &mut Text<'_>,
) -> Result<usize, Refusal>
    requires { (12804 ≤ length page.old) × (4096 ≤ length list.old) × Room out.old 17 }
    ensures begun { BegunAs text.now bytes.now page.new list.new out.old out.new result }
    ensures page { page.new ≡ (read_of text.now page.old).area }
    ensures list { list.new ≡ list_left (or_else (text_refusal text.now) (list_refusal (page_read text.now) bytes.now)) bytes.now list.old }
{
    match read(text, bytes, page, list) {
        Ok(lines) => {
            put_top(out, page[0]);
            Ok(lines)
        }
        Err(refusal) => {
            put_refusal(out, refusal.number, refusal.line);
            Err(refusal)
        }
    }
}

// How many lines at the front of a list are of its first line's trial.
fn trial_end(list: &[u16]) -> usize
    requires { 4 ≤ length list.now }
    ensures { TrialEnd list.now result }
{
    let number = list[0];
    list.chunks_exact(4)
        .position(|line| line[0] != number)
        .unwrap_or(list.len() / 4)
}

// The trials of a list, in their order: each item is the lines of one trial, four numbers a line.
#[derive(Drop)]
pub struct Trials<'a> {
    rest: &'a [u16],
}

impl<'a> Trials<'a> {
    // Those of all lines.
    pub fn of(list: &'a [u16]) -> Self
        ensures { result.rest.now ≡ list.now }
    {
        Trials { rest: list }
    }
}

impl<'a> Iterator for Trials<'a> {
    type Item = &'a [u16];

    ghost next_gives = { λ s r t. GivesTrial s.rest.now r t.rest.now };

    ghost remaining = { λ s. at_most (length s.rest.now) };

    fn next(&mut self) -> Option<&'a [u16]> {
        if self.rest.len() < 4 {
            return None;
        }
        let (trial, rest) = self.rest.split_at(4 * trial_end(self.rest));
        self.rest = rest;
        Some(trial)
    }
}

// The answers of a trial, on the page that its lines change; answers how many they are. Both readings of that page are solved once.
pub fn answer_trial(page: &Page, lines: &[u16], text: &mut Text<'_>) -> u16
    requires { (sound page.now ≡ true) × ListIn (top_of page.now) (conditions_of page.now) lines.now (length lines.now / 4) × (4 ≤ length lines.now) × Room text.old 27648 }
    ensures { TrialPut (page_of page.now) lines.now text.old text.new result }
{
    let mut area = [0u16; 14852];
    change::change(page, lines, &mut area);
    // not by `Page::of`, which takes sound areas alone: a page that a trial changes may have 1,536 lines
    let changed = Page { numbers: &area };
    let mut plain = [0u16; 3072];
    let mut closed = [0u16; 3072];
    solve::solve(&changed, &mut plain, &mut closed, false);
    let solved = Solved {
        page: &changed,
        plain: &plain,
        closed: &closed,
    };
    let mut bytes = [0u8; 4];
    let mut lead = Text::new(&mut bytes);
    lead.put_field(lines[0] as u32, b',');
    solved.put_lines(lead.written(), text)
}
