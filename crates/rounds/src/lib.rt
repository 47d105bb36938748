// Rounds of two halves: the least high ends over the floor held, then the least floor over the high ends held. The floor is the low ends, and the
// high ends of the conditions that are unknown by default. `source`, `marks` and `scratch` go from call to call together, and `marks` is a slice, as
// in `settle`.
#![tactic(auto)]

ghost use Rattle.std.specs.Prelude.{◌≡◌, false, ◌⊎◌, [], ◌∷◌, ◌≤◌, ◌<◌, ◌+◌, ◌*◌, length, get_or, drop};
ghost use Rattle.semantics.specs.Area.{line_at, page_of, top_of, conditions_of};
ghost use Rattle.page.specs.Places.{LineIn};
ghost use Rattle.semantics.specs.Grade.{lower};
ghost use Rattle.semantics.specs.Table.{any_below};
ghost use Rattle.settle.specs.Waiting.{WaitSet, MaybeWaiting};
ghost use Rattle.unknowns.specs.NextHighs.{sought};
ghost use Rattle.rounds.specs.Round.{MarkedWait, HighsBegun, Renegated, Woke, LowsWait, LowsBegun, HighsIn, Comparable, Refreshed, Searched, LinesHave, Fallible, Lowered, Fell, FloorHalf, AllRest, FloorStep, Floored, RoundReady, Rounded, Alternated};

use bits::Set;
use index::Source;
use page::Page;
use settle::{settle, wake};
use value::End;

// The negations have their numbers over the low ends held.
fn refresh(page: &Page, scratch: &mut [u16])
    requires { Comparable page.now scratch.old }
    ensures { Refreshed page.now scratch.old scratch.new }
{
    let top = page.top();
    let n = page.conditions();
    for c in 0..n {
        let at = 2 * c as usize;
        scratch[2 * n as usize + at + 1] = top - scratch[at];
    }
}

// Every high end starts anew, but for those of the conditions that are unknown by default, with what the negations have over the low ends.
fn start_highs(page: &Page, scratch: &mut [u16])
    requires { Comparable page.now scratch.old }
    ensures { HighsBegun page.now scratch.old scratch.new }
{
    refresh(page, scratch);
    let n = page.conditions();
    let base = 2 * n as usize;
    for c in 0..n {
        if !page.unknown_by_default(c) {
            scratch[base + 2 * c as usize] = 0;
        }
    }
}

// The negation of c has its number over the high ends; if it is another, whoever negates c waits.
pub fn negate(source: &Source, scratch: &mut [u16], words: &mut Set, c: u16)
    requires { (4 * conditions_of source.now.area ≤ length scratch.old) × (c < conditions_of source.now.area) × (get_or scratch.old (2 * conditions_of source.now.area + 2 * c) 0 ≤ top_of source.now.area) × WaitSet (conditions_of source.now.area) words.old.words }
    ensures { Renegated source.now.area source.now.indexed c scratch.old scratch.new words.old.words words.new.words }
{
    let page = source.page;
    let base = 2 * page.conditions() as usize;
    let at = 2 * c as usize;
    let v = page.top() - scratch[base + at];
    if v == scratch[at + 1] {
        return;
    }
    scratch[at + 1] = v;
    wake(source, words, 2 * c + 1);
}

// The low ends go on, with what the negations have over the high ends.
fn start_lows(source: &Source, scratch: &mut [u16], words: &mut Set)
    requires { HighsIn source.now.area scratch.old × WaitSet (conditions_of source.now.area) words.old.words }
    ensures { LowsBegun source.now.area scratch.old scratch.new × Woke source.now.area source.now.indexed scratch.old scratch.new words.old.words words.new.words }
{
    for c in 0..source.page.conditions() {
        negate(source, scratch, words, c);
    }
}

// The set of the reached conditions.
pub fn marked(marks: &[bool], n: u16) -> Set
    requires { (n ≤ length marks.now) × (n ≤ 512) }
    ensures { MarkedWait n marks.now result.words }
{
    let mut words = Set::empty();
    for c in 0..n {
        if marks[c as usize] {
            words.insert(c);
        }
    }
    words
}

// Every reached condition waits, if there is an index; else nobody does.
fn all_waiting(source: &Source, marks: &[bool]) -> Set
    requires { conditions_of source.now.area ≤ length marks.now }
    ensures { WaitSet (conditions_of source.now.area) result.words × ((source.now.indexed ≡ false) ⊎ MarkedWait (conditions_of source.now.area) marks.now result.words) }
{
    if source.is_indexed() {
        return marked(marks, source.page.conditions());
    }
    Set::empty()
}

// Whether the literal is a negation whose number at its high end is not that over the low end held.
fn literal_stale(page: &Page, scratch: &[u16], code: u16) -> bool
    requires { Comparable page.now scratch.now × (code < 2 * conditions_of page.now) }
    ensures { Searched page.now scratch.now (λ t. t ≡ code) result }
{
    let t = code as usize;
    let base = 2 * page.conditions() as usize;
    code % 2 == 1 && scratch[base + t] != page.top() - scratch[t - 1]
}

// Whether a literal of the line at `at` is.
fn line_stale(page: &Page, at: usize, scratch: &[u16]) -> bool
    requires { Comparable page.now scratch.now × LineIn page.now at }
    ensures { Searched page.now scratch.now (LinesHave (line_at (drop at page.now) ∷ [])) result }
{
    match page.entry(at).kind {
        1..=5 => page
            .literals(at)
            .iter()
            .any(|&code| literal_stale(page, scratch, code)),
        _ => false,
    }
}

// Whether a literal of the page is: only then can a high end come out as another.
pub fn negation_stale(page: &Page, scratch: &[u16]) -> bool
    requires { Comparable page.now scratch.now }
    ensures { Searched page.now scratch.now (LinesHave (page_of page.now).lines) result }
{
    page.lines().any(|at| line_stale(page, at, scratch))
}

// If d is reached and unknown by default and its high end is above the next one, it falls to that, and whoever negates d waits; whether it fell.
fn lower_free(
    source: &Source,
    marks: &[bool],
    scratch: &mut [u16],
    words: &mut Set,
    next: &[u8],
    d: u16,
) -> bool
    requires { (4 * conditions_of source.now.area ≤ length scratch.old) × (conditions_of source.now.area ≤ length marks.now) × (conditions_of source.now.area ≤ length next.now) × (d < conditions_of source.now.area) × (get_or scratch.old (2 * conditions_of source.now.area + 2 * d) 0 ≤ top_of source.now.area) × WaitSet (conditions_of source.now.area) words.old.words }
    ensures { Lowered source.now.area marks.now source.now.indexed next.now d scratch.old scratch.new words.old.words words.new.words result }
{
    let page = source.page;
    if !unknowns::is_sought(page, marks, d) {
        return false;
    }
    let t = d as usize;
    let place = 2 * page.conditions() as usize + 2 * t;
    let v = next[t] as u16;
    if scratch[place] <= v {
        return false;
    }
    scratch[place] = v;
    negate(source, scratch, words, d);
    true
}

// Every high end that is above the next one falls to that; whether any fell.
fn fall(source: &Source, marks: &[bool], scratch: &mut [u16], words: &mut Set, next: &[u8]) -> bool
    requires { Fallible source.now.area marks.now next.now scratch.old words.old.words }
    ensures { Fell source.now.area marks.now source.now.indexed next.now scratch.old scratch.new words.new.words result }
{
    let mut fell = false;
    for c in 0..source.page.conditions() {
        fell |= lower_free(source, marks, scratch, words, next, c);
    }
    fell
}

// The high ends of the conditions that are unknown by default fall to what the lines give over the intervals held, and the low ends are settled
// again; whether any fell.
fn lower_floor(
    source: &Source,
    marks: &[bool],
    scratch: &mut [u16],
    words: &mut Set,
    next: &mut [u8],
) -> bool
    requires { FloorHalf source.now.area marks.now scratch.old × AllRest source.now.area marks.now scratch.old × WaitSet (conditions_of source.now.area) words.old.words × (conditions_of source.now.area ≤ length next.old) }
    ensures { FloorStep source.now.area marks.now scratch.old scratch.new result × WaitSet (conditions_of source.now.area) words.new.words × (length next.new ≡ length next.old) }
{
    source.recall();
    refresh(source.page, scratch);
    unknowns::next_highs(source.page, marks, scratch, next);
    if !fall(source, marks, scratch, words, next) {
        return false;
    }
    settle(source, marks, scratch, words, End::Lower);
    true
}

// The least floor over the other high ends: the low ends, and the high ends of the conditions that are unknown by default; whether one moved.
fn settle_floor(
    source: &Source,
    marks: &[bool],
    scratch: &mut [u16],
    words: &mut Set,
    next: &mut [u8],
) -> bool
    requires { FloorHalf source.now.area marks.now scratch.old × MaybeWaiting lower source.now.area marks.now source.now.indexed scratch.old words.old.words × WaitSet (conditions_of source.now.area) words.old.words × (conditions_of source.now.area ≤ length next.old) }
    ensures { Floored source.now.area marks.now scratch.old scratch.new result × WaitSet (conditions_of source.now.area) words.new.words × (length next.new ≡ length next.old) }
{
    source.recall();
    let mut moved = settle(source, marks, scratch, words, End::Lower);
    // a `while`: whether a high end falls again only the step itself tells
    while lower_floor(source, marks, scratch, words, next) {
        moved = true;
    }
    moved
}

// A round: the high ends anew, then the floor from where it is; whether an end moved that is read again. Where no reached condition is unknown by
// default the floor is the low ends, and one that no rule negates is read no more.
// `free` is what `any_free` said, asked once since it goes over all conditions: an enum would name true and false, a closure repeat this contract.
fn round(
    source: &Source,
    marks: &[bool],
    scratch: &mut [u16],
    lows: &mut Set,
    next: &mut [u8],
    free: bool,
) -> bool
    requires { RoundReady source.now.area marks.now scratch.old × LowsWait source.now.area marks.now source.now.indexed scratch.old lows.old.words × (conditions_of source.now.area ≤ length next.old) × (free ≡ any_below (conditions_of source.now.area) (sought source.now.area marks.now)) }
    ensures { Rounded source.now.area marks.now scratch.old scratch.new result × LowsWait source.now.area marks.now source.now.indexed scratch.new lows.new.words × (length next.new ≡ length next.old) }
{
    source.recall();
    start_highs(source.page, scratch);
    let mut tops = all_waiting(source, marks);
    settle(source, marks, scratch, &mut tops, End::Upper);
    start_lows(source, scratch, lows);
    if free {
        return settle_floor(source, marks, scratch, lows, next);
    }
    if !settle(source, marks, scratch, lows, End::Lower) {
        return false;
    }
    negation_stale(source.page, scratch)
}

// Rounds until one moves no end that is read again. In the first every reached condition waits in both halves.
pub fn alternate(source: &Source, marks: &[bool], scratch: &mut [u16], next: &mut [u8], free: bool)
    requires { RoundReady source.now.area marks.now scratch.old × (conditions_of source.now.area ≤ length next.old) × (free ≡ any_below (conditions_of source.now.area) (sought source.now.area marks.now)) }
    ensures { Alternated source.now.area marks.now scratch.old scratch.new × (length next.new ≡ length next.old) }
{
    let mut lows = all_waiting(source, marks);
    // a `while`: whether another round is needed only the round itself tells
    while round(source, marks, scratch, &mut lows, next, free) {}
}
