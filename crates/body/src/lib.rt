// Both ends of the body value T of a condition, over its lines: by the index, or by a scan where there is none. Which line holds the low end.
// The table `values` stands beside the page in each contract: an operation has it on its stack, and an evaluation that changes something writes it
// while the page stays as it is, so a struct of both would be made and taken apart at each evaluation (`step::step`).
#![tactic(auto)]

ghost use Rattle.std.specs.Prelude.{◌≡◌, true, ◌<◌, get_or, drop};
ghost use Rattle.fixpoint.specs.Interval.{Assign};
ghost use Rattle.semantics.specs.Area.{top_of, conditions_of, line_at};
ghost use Rattle.semantics.specs.Body.{line_body};
ghost use Rattle.semantics.specs.Grade.{lower};
ghost use Rattle.semantics.specs.Holding.{has_low};
ghost use Rattle.ends.specs.Mirror.{Mirrored};
ghost use Rattle.index.specs.Lookup.{LinesAre};
ghost use Rattle.page.specs.Places.{LineIn};
ghost use Rattle.value.specs.Table.{EndTable};
ghost use Rattle.body.specs.Body.{Taken, BestOf, Body};
ghost use Rattle.body.specs.FirstLine.{FirstLine};
ghost use Rattle.page.specs.Solvable.{solvable};

use index::Source;
use page::Page;
use value::Ends;

// The largest ends over the lines seen, `best`, and the line at `at`, which counts if it is an F or R line.
fn take_line(page: &Page, at: usize, values: &[u8], best: Option<Ends>) -> Option<Ends>
    requires { Mirrored (top_of page.now) (conditions_of page.now) values.now × LineIn page.now at }
    ensures taken { Taken page.now values.now (get_or page.now at 0) at best result }
    ensures sound { solvable page.now ≡ true }
{
    let line = page.entry(at);
    match line.kind {
        0..=5 => {
            let x = ends::line_ends(page, at, values);
            let best = best.unwrap_or(Ends { low: 0, high: 0 });
            Some(Ends {
                low: best.low.max(x.low),
                high: best.high.max(x.high),
            })
        }
        _ => best,
    }
}

// The lines of c, by a scan of the page.
fn by_scan(page: &Page, values: &[u8], c: u16) -> Option<Ends>
    requires { Mirrored (top_of page.now) (conditions_of page.now) values.now }
    ensures { BestOf page.now values.now c result }
{
    let mut best = None;
    for at in page.lines() {
        let line = page.entry(at);
        if line.condition == c {
            best = take_line(page, at, values, best);
        }
    }
    best
}

// The lines of c, which stand at the places.
fn by_places(page: &Page, places: &[u16], values: &[u8], c: u16) -> Option<Ends>
    requires { Mirrored (top_of page.now) (conditions_of page.now) values.now × LinesAre page.now c places.now }
    ensures { BestOf page.now values.now c result }
{
    let mut best = None;
    for &at in places {
        best = take_line(page, at as usize, values, best);
    }
    best
}

// The largest ends over the lines of c.
fn best_of(source: &Source, values: &[u8], c: u16) -> Option<Ends>
    requires { Mirrored (top_of source.now.area) (conditions_of source.now.area) values.now × (c < conditions_of source.now.area) }
    ensures best { BestOf source.now.area values.now c result }
    ensures sound { solvable source.now.area ≡ true }
{
    match source.lines_of(c) {
        Some(places) => by_places(source.page, places, values, c),
        None => by_scan(source.page, values, c),
    }
}

// The body value of c.
pub fn body(source: &Source, values: &[u8], c: u16) -> Ends
    requires { Mirrored (top_of source.now.area) (conditions_of source.now.area) values.now × (c < conditions_of source.now.area) }
    ensures { Body source.now.area values.now c result.low result.high }
{
    match best_of(source, values, c) {
        Some(best) => best,
        None => value::bodyless(source.page, c),
    }
}

// Whether the line at `at` is an F or R line with this low end.
fn has_low(page: &Page, at: usize, values: &[u8], low: u16) -> bool
    requires { Mirrored (top_of page.now) (conditions_of page.now) values.now × LineIn page.now at }
    ensures { (I : Assign) → EndTable lower (top_of page.now) (conditions_of page.now) I values.now → result ≡ has_low low (line_body (top_of page.now) I (get_or page.now at 0) (line_at (drop at page.now))) }
{
    match take_line(page, at, values, None) {
        Some(one) => one.low == low,
        None => false,
    }
}

// The number of the first F or R line of c with this low end. Every line of the page counts, and the G line is line 1. No line has the number 0,
// which stands for none, as in what the operations tell.
pub fn first_line(page: &Page, values: &[u8], c: u16, low: u16) -> u16
    requires { Mirrored (top_of page.now) (conditions_of page.now) values.now }
    ensures { FirstLine page.now values.now c low result }
{
    let mut lines = page.lines();
    // a `while let`: the scan counts the lines passed, and `enumerate` would count them once more
    while let Some(at) = lines.next() {
        let line = page.entry(at);
        if line.condition == c && has_low(page, at, values, low) {
            return lines.passed + 1;
        }
    }
    0
}
