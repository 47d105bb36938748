// The high ends that the lines give the reached conditions unknown by default, over a table of high ends: one sweep over the page. An entry stays
// a number, since the table is lent with one byte for each condition: 0 where no line is seen, or 1 more than the highest high end.
#![tactic(auto)]

ghost use Rattle.std.specs.Prelude.{◌≡◌, ℕ, ◌≤◌, ◌<◌, length, get_or};
ghost use Rattle.semantics.specs.Area.{page_of, top_of, conditions_of};
ghost use Rattle.semantics.specs.Body.{bodyless};
ghost use Rattle.semantics.specs.Grade.{upper, rounding};
ghost use Rattle.semantics.specs.Table.{any_below};
ghost use Rattle.page.specs.Places.{LineIn, LineOf};
ghost use Rattle.value.specs.Table.{Grades};
ghost use Rattle.value.specs.LineEnds.{Computes};
ghost use Rattle.unknowns.specs.NextHighs.{sought, high_from, Places, Mapped, Taken, Looked, Swept, HighTable, NextHighs};

use page::Page;
use value::End;

// Whether c is reached and unknown by default. `marks` is a slice, here and below: an array of 512 marks would ask more of the callers.
pub fn is_sought(page: &Page, marks: &[bool], c: u16) -> bool
    requires { (conditions_of page.now ≤ length marks.now) × (c < conditions_of page.now) }
    ensures { result ≡ sought page.now marks.now c }
{
    marks[c as usize] && page.unknown_by_default(c)
}

// Whether a reached condition is unknown by default.
pub fn any_free(page: &Page, marks: &[bool]) -> bool
    requires { conditions_of page.now ≤ length marks.now }
    ensures { result ≡ any_below (conditions_of page.now) (sought page.now marks.now) }
{
    (0..page.conditions()).any(|c| is_sought(page, marks, c))
}

// The entry of each condition sought becomes what `made` makes of it.
fn map_sought<F: Fn(u16, u8) -> u8>(page: &Page, marks: &[bool], next: &mut [u8], made: F)
    requires { Places page.now marks.now next.old × ((c x : ℕ) → c < conditions_of page.now → F.pre made c x) }
    ensures { (f : ℕ → ℕ → ℕ) → Computes f (F.post made) → Mapped page.now marks.now f next.old next.new }
{
    for c in 0..page.conditions() {
        if is_sought(page, marks, c) {
            let t = c as usize;
            next[t] = made(c, next[t]);
        }
    }
}

// The entry of the head of the F or R line at `at` becomes 1 more than the high end of the line, if it is below that.
#[tactic(auto, using(crate::proofs::Sweeping::head_below))]
fn take_line(page: &Page, at: usize, values: &[u16], add: u16, next: &mut [u8])
    requires { Grades (top_of page.now) (conditions_of page.now) values.now × LineOf page.now (get_or page.now at 0) at × (add ≡ rounding upper (top_of page.now)) × (conditions_of page.now ≤ length next.old) }
    ensures { Taken page.now values.now at next.old next.new }
{
    let h = page.entry(at).condition as usize;
    let v = value::line_end(page, at, values, End::Upper, add);
    next[h] = next[h].max((v + 1) as u8);
}

// The same for any line: a query gives nothing, nor does a line of a condition that is not reached or not unknown by default.
fn look(page: &Page, at: usize, marks: &[bool], values: &[u16], add: u16, next: &mut [u8])
    requires { Places page.now marks.now next.old × Grades (top_of page.now) (conditions_of page.now) values.now × LineIn page.now at × (add ≡ rounding upper (top_of page.now)) }
    ensures { Looked page.now marks.now values.now at next.old next.new }
{
    let line = page.entry(at);
    if line.kind <= 5 && is_sought(page, marks, line.condition) {
        take_line(page, at, values, add, next);
    }
}

// Looks at all lines.
fn sweep(page: &Page, marks: &[bool], values: &[u16], next: &mut [u8])
    requires { Places page.now marks.now next.old × Grades (top_of page.now) (conditions_of page.now) values.now }
    ensures { Swept page.now marks.now values.now next.old next.new }
{
    let add = value::rounding(page.top(), End::Upper);
    for at in page.lines() {
        look(page, at, marks, values, add, next);
    }
}

// What the entry x of c stands for: the high end 1 below it, or where it is 0 that of a condition without lines.
fn high_from(page: &Page, c: u16, x: u8) -> u8
    requires { c < conditions_of page.now }
    ensures { result ≡ high_from (bodyless (page_of page.now) c).high x }
{
    if x == 0 {
        page.recall();
        let body = value::bodyless(page, c);
        return body.high as u8;
    }
    x - 1
}

// The high end that T gives each, at the intervals held; every other entry stays. At first no line is seen, and in the end each entry becomes the
// high end that it stands for.
pub fn next_highs(page: &Page, marks: &[bool], scratch: &[u16], next: &mut [u8])
    requires { Places page.now marks.now next.old × HighTable page.now scratch.now }
    ensures { NextHighs page.now marks.now scratch.now next.old next.new }
{
    let n = page.conditions() as usize;
    let base = 2 * n;
    let to = base + 2 * n;
    let values = &scratch[base..to];
    map_sought(page, marks, next, |_, _| 0);
    sweep(page, marks, values, next);
    map_sought(page, marks, next, |c, x| high_from(page, c, x));
}
