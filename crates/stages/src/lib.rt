// How many rounds the closed reading takes: assignment 0 is [0;top], each next one is T at the last joined with its support.
// `source`, `marks` and `scratch` go from call to call together, and `marks` is a slice, as in `settle`.
#![tactic(auto)]

ghost use Rattle.std.specs.Prelude.{◌≡◌, true, false, ℕ, ◌≤◌, ◌<◌, ◌+◌, ◌*◌, length, get_or};
ghost use Rattle.semantics.specs.Area.{top_of, conditions_of, count_of};
ghost use Rattle.semantics.specs.Table.{member, any_below};
ghost use Rattle.page.specs.Places.{place_of, LineIn};
ghost use Rattle.page.specs.Solvable.{solvable};
ghost use Rattle.bits.specs.Sets.{Nobody};
ghost use Rattle.settle.specs.Scratch.{Lookable};
ghost use Rattle.settle.specs.Waiting.{WaitSet};
ghost use Rattle.rounds.specs.Round.{LowsBegun, Woke, Comparable};
ghost use Rattle.stages.specs.Counted.{CountReady, Counted};
ghost use Rattle.stages.specs.Steps.{Notable, NotedAt, Noted, AllNoted, LowsRest, TakenOver, TakeReady, AllTaken, LoweredTop, LowerReady, Lowered, Whole, LookedAgain, FollowReady, Begun, first_top, TopsCopied, FreeTold, LoweredFree, FreeLowered, HighsReady, HighsTaken};
ghost use Rattle.stages.specs.Stages.{AtStage, AtSupport, Supported, Advanced};
ghost use Rattle.unknowns.specs.NextHighs.{sought, Places, HighTable, NextHighs};

use bits::Set;
use index::Source;
use page::Page;
use settle::{settle, wake};
use value::End;

// What c has in `tops` at first: top if it is free, else its high end.
fn first_top(page: &Page, scratch: &[u16], c: u16) -> u16
    requires { (4 * conditions_of page.now ≤ length scratch.now) × (c < conditions_of page.now) }
    ensures { result ≡ first_top page.now scratch.now c }
{
    if page.unknown_by_default(c) {
        return page.top();
    }
    scratch[2 * page.conditions() as usize + 2 * c as usize]
}

// The high ends of what is reached, which are those of the closed reading, and top where a condition is free.
fn copy_tops(page: &Page, marks: &[bool], scratch: &[u16], tops: &mut [u8])
    requires { (4 * conditions_of page.now ≤ length scratch.now) × (conditions_of page.now ≤ length marks.now) × (conditions_of page.now ≤ length tops.old) × ((c : ℕ) → c < conditions_of page.now → member marks.now c ≡ true → get_or scratch.now (2 * conditions_of page.now + 2 * c) 0 ≤ 200) }
    ensures { TopsCopied page.now marks.now scratch.now tops.old tops.new }
{
    for c in 0..page.conditions() {
        let t = c as usize;
        if marks[t] {
            tops[t] = first_top(page, scratch, c) as u8;
        }
    }
}

// Assignment 0: [0;top] for what is reached.
fn begin(page: &Page, marks: &[bool], scratch: &mut [u16])
    requires { (4 * conditions_of page.now ≤ length scratch.old) × (conditions_of page.now ≤ length marks.now) }
    ensures { Begun page.now marks.now scratch.old scratch.new }
{
    let top = page.top();
    let n = page.conditions() as usize;
    for c in 0..n {
        let high = if marks[c] { top } else { 0 };
        scratch[2 * c] = 0;
        scratch[2 * c + 1] = top - high;
        scratch[2 * n + 2 * c] = high;
        scratch[2 * n + (2 * c + 1)] = top;
    }
}

// If c is reached and its high end above that of the closed reading, it falls to it, and whoever names c plainly is looked at; whether it fell.
fn lower_top(
    source: &Source,
    marks: &[bool],
    scratch: &mut [u16],
    tops: &[u8],
    look: &mut Set,
    lowered: &mut Set,
    c: u16,
) -> bool
    requires { LowerReady source.now.area marks.now tops.now scratch.old look.old.words lowered.old.words × (c < conditions_of source.now.area) }
    ensures { LoweredTop source.now.area source.now.indexed marks.now tops.now c scratch.old scratch.new look.old.words look.new.words lowered.old.words lowered.new.words result }
{
    let t = c as usize;
    if !marks[t] {
        return false;
    }
    let place = 2 * source.page.conditions() as usize + 2 * t;
    let h = tops[t] as u16;
    if scratch[place] <= h {
        return false;
    }
    scratch[place] = h;
    lowered.insert(c);
    wake(source, look, 2 * c);
    true
}

// Lowers the high ends that are looked at, and those that read a lowered one; whether any fell.
fn lower_tops(
    source: &Source,
    marks: &[bool],
    scratch: &mut [u16],
    tops: &[u8],
    look: &mut Set,
    lowered: &mut Set,
) -> bool
    requires { LowerReady source.now.area marks.now tops.now scratch.old look.old.words lowered.old.words × Nobody lowered.old.words × Whole source.now.indexed (conditions_of source.now.area) marks.now look.old.words }
    ensures { Lowered source.now.area marks.now tops.now scratch.old scratch.new look.old.words look.new.words lowered.new.words result }
{
    source.recall();
    let mut fell = false;
    let mut last = 0;
    // a `while`: the set grows while it is gone through
    while let Some(c) = look.next_from(last) {
        look.remove(c);
        fell |= lower_top(source, marks, scratch, tops, look, lowered, c);
        last = c;
    }
    fell
}

// The negations of the lowered conditions have their numbers over the high ends, and whoever negates one that is another waits.
fn follow(source: &Source, scratch: &mut [u16], lowered: &mut Set, lows: &mut Set)
    requires { FollowReady source.now.area scratch.old lowered.old.words lows.old.words }
    ensures { LowsBegun source.now.area scratch.old scratch.new × Woke source.now.area source.now.indexed scratch.old scratch.new lows.old.words lows.new.words }
{
    source.recall();
    for c in lowered.drain() {
        rounds::negate(source, scratch, lows, c);
    }
}

// The high ends of the support: from those of the closed reading upwards, where they may be others. Whether one fell.
fn support(
    source: &Source,
    marks: &[bool],
    scratch: &mut [u16],
    tops: &[u8],
    look: &mut Set,
    lows: &mut Set,
) -> bool
    requires { (k : ℕ) × AtStage source.now.area marks.now source.now.indexed tops.now k scratch.old look.old.words lows.old.words }
    ensures { (k : ℕ) → AtStage source.now.area marks.now source.now.indexed tops.now k scratch.old look.old.words lows.old.words → Supported source.now.area marks.now source.now.indexed tops.now k scratch.old scratch.new look.new.words lows.new.words result }
{
    source.recall();
    let mut lowered = Set::empty();
    if !lower_tops(source, marks, scratch, tops, look, &mut lowered) {
        return false;
    }
    let mut waiting = lowered;
    settle(source, marks, scratch, &mut waiting, End::Upper);
    follow(source, scratch, &mut lowered, lows);
    true
}

// If the line at `at` is an F or R line, its head is reached and the line's low end is above the next one, it becomes the next one, and the head
// is noted. `settle` raises an end in like manner, but in the table that the lines read: of that another clause holds (`Raised`).
fn note(page: &Page, at: usize, marks: &[bool], scratch: &mut [u16], moved: &mut Set, n: usize)
    requires { Notable page.now marks.now scratch.old moved.old.words × (n ≡ conditions_of page.now) × LineIn page.now at }
    ensures { NotedAt page.now marks.now at scratch.old scratch.new moved.old.words moved.new.words }
{
    match page.kind(at) {
        0..=5 => {
            let h = page.condition(at);
            let t = h as usize;
            if !marks[t] {
                return;
            }
            let values = &scratch[..2 * n];
            let low = value::line_end(page, at, values, End::Lower, 0);
            let v = page.top() - low;
            let place = 2 * n + (2 * t + 1);
            if scratch[place] <= v {
                return;
            }
            scratch[place] = v;
            moved.insert(h);
        }
        _ => {}
    }
}

// Notes all lines in page order.
fn note_all(page: &Page, marks: &[bool], scratch: &mut [u16], moved: &mut Set)
    requires { Notable page.now marks.now scratch.old moved.old.words }
    ensures noted { Noted page.now marks.now (place_of page.now) (count_of page.now) scratch.old scratch.new moved.old.words moved.new.words }
    ensures sound { solvable page.now ≡ true }
{
    let n = page.conditions() as usize;
    for at in page.lines() {
        note(page, at, marks, scratch, moved, n);
    }
}

// Notes the lines at the places.
// Beside `note_all`: over any iterator the contract would have to say that it ends, that each place begins a line, and which places came.
fn note_group(
    page: &Page,
    places: &[u16],
    marks: &[bool],
    scratch: &mut [u16],
    moved: &mut Set,
    n: usize,
)
    requires { Notable page.now marks.now scratch.old moved.old.words × (n ≡ conditions_of page.now) × Lookable page.now places.now }
    ensures { Noted page.now marks.now (λ i. get_or places.now i 0) (length places.now) scratch.old scratch.new moved.old.words moved.new.words }
{
    for &at in places {
        note(page, at as usize, marks, scratch, moved, n);
    }
}

// Takes out one that waits after the other and notes its lines.
fn note_waiting(
    source: &Source,
    marks: &[bool],
    scratch: &mut [u16],
    lows: &mut Set,
    moved: &mut Set,
)
    requires { Notable source.now.area marks.now scratch.old moved.old.words × (source.now.indexed ≡ true) × WaitSet (conditions_of source.now.area) lows.old.words × LowsRest source.now.area marks.now scratch.old lows.old.words }
    ensures { AllNoted source.now.area marks.now scratch.old scratch.new moved.old.words moved.new.words × WaitSet (conditions_of source.now.area) lows.new.words }
{
    let page = source.page.again();
    let n = page.conditions() as usize;
    for c in lows.drain() {
        let group = source.lines_of(c).unwrap();
        note_group(&page, group, marks, scratch, moved, n);
    }
}

// The next low ends, over an index or by a scan of the page.
fn next_lows(source: &Source, marks: &[bool], scratch: &mut [u16], lows: &mut Set, moved: &mut Set)
    requires { Notable source.now.area marks.now scratch.old moved.old.words × WaitSet (conditions_of source.now.area) lows.old.words × (source.now.indexed ≡ true → LowsRest source.now.area marks.now scratch.old lows.old.words) }
    ensures { AllNoted source.now.area marks.now scratch.old scratch.new moved.old.words moved.new.words × WaitSet (conditions_of source.now.area) lows.new.words }
{
    if !source.is_indexed() {
        note_all(&source.page.again(), marks, scratch, moved);
        return;
    }
    note_waiting(source, marks, scratch, lows, moved);
}

// The next low end of c is taken over. Whoever names c plainly may have another low end next, and whoever negates c another high end.
fn take_over(source: &Source, scratch: &mut [u16], lows: &mut Set, look: &mut Set, c: u16)
    requires { (4 * conditions_of source.now.area ≤ length scratch.old) × (c < conditions_of source.now.area) × (get_or scratch.old (2 * conditions_of source.now.area + (2 * c + 1)) 0 ≤ top_of source.now.area) × WaitSet (conditions_of source.now.area) lows.old.words × WaitSet (conditions_of source.now.area) look.old.words }
    ensures { TakenOver source.now.area source.now.indexed c scratch.old scratch.new lows.old.words lows.new.words look.old.words look.new.words }
{
    let at = 2 * c as usize;
    let page = source.page;
    let base = 2 * page.conditions() as usize;
    scratch[at] = page.top() - scratch[base + (at + 1)];
    wake(source, lows, 2 * c);
    wake(source, look, 2 * c + 1);
}

// The next low ends of those that moved are taken over.
fn take_all(source: &Source, scratch: &mut [u16], moved: &mut Set, lows: &mut Set, look: &mut Set)
    requires { TakeReady source.now.area scratch.old moved.old.words lows.old.words look.old.words }
    ensures { AllTaken source.now.area source.now.indexed scratch.old scratch.new lows.old.words lows.new.words look.old.words look.new.words }
{
    source.recall();
    for c in moved.drain() {
        take_over(source, scratch, lows, look, c);
    }
}

// If c is free, `lower_top` is done.
fn lower_free_top(
    source: &Source,
    marks: &[bool],
    scratch: &mut [u16],
    tops: &[u8],
    look: &mut Set,
    lowered: &mut Set,
    c: u16,
) -> bool
    requires { LowerReady source.now.area marks.now tops.now scratch.old look.old.words lowered.old.words × (c < conditions_of source.now.area) }
    ensures { LoweredFree source.now.area source.now.indexed marks.now tops.now c scratch.old scratch.new look.old.words look.new.words lowered.old.words lowered.new.words result }
{
    if !source.page.unknown_by_default(c) {
        return false;
    }
    lower_top(source, marks, scratch, tops, look, lowered, c)
}

// Lowers the high ends of the free conditions to their next ones; whether any fell. It goes over all conditions, `lower_tops` over a set that grows
// meanwhile, so the two stay apart.
fn lower_free(
    source: &Source,
    marks: &[bool],
    scratch: &mut [u16],
    tops: &[u8],
    look: &mut Set,
    lowered: &mut Set,
) -> bool
    requires { LowerReady source.now.area marks.now tops.now scratch.old look.old.words lowered.old.words × Nobody lowered.old.words }
    ensures { FreeLowered source.now.area source.now.indexed marks.now tops.now scratch.old scratch.new look.old.words look.new.words lowered.new.words result }
{
    let mut fell = false;
    for c in 0..source.page.conditions() {
        fell |= lower_free_top(source, marks, scratch, tops, look, lowered, c);
    }
    fell
}

// The next high ends of the free conditions are taken over, if one is reached; whether any fell. Whoever names such a one plainly may have
// another high end next, and whoever negates it another low end.
// `free` is what `any_free` said, asked once since it goes over all conditions: an enum would name true and false, a closure repeat these contracts.
fn take_highs(
    source: &Source,
    marks: &[bool],
    scratch: &mut [u16],
    tops: &[u8],
    look: &mut Set,
    lows: &mut Set,
    free: bool,
) -> bool
    requires { HighsReady source.now.area marks.now tops.now scratch.old look.old.words lows.old.words × FreeTold source.now.area marks.now free }
    ensures { HighsTaken source.now.area source.now.indexed marks.now tops.now scratch.old scratch.new lows.new.words look.old.words look.new.words result }
{
    if !free {
        return false;
    }
    let mut down = Set::empty();
    let fell = lower_free(source, marks, scratch, tops, look, &mut down);
    follow(source, scratch, &mut down, lows);
    fell
}

// Without an index: everybody reached is looked at, if a high end fell or a low end that a rule negates is another next.
fn look_again(source: &Source, marks: &[bool], scratch: &[u16], look: &mut Set, dropped: bool)
    requires { Comparable source.now.area scratch.now × (conditions_of source.now.area ≤ length marks.now) × WaitSet (conditions_of source.now.area) look.old.words }
    ensures { LookedAgain source.now.area source.now.indexed marks.now scratch.now look.old.words look.new.words dropped }
{
    let page = source.page;
    if source.is_indexed() {
        return;
    }
    if dropped || rounds::negation_stale(page, scratch) {
        *look = rounds::marked(marks, page.conditions());
    }
}

// The next high ends of the free conditions, if one is reached.
fn next_tops(page: &Page, marks: &[bool], scratch: &[u16], tops: &mut [u8], free: bool)
    requires { Places page.now marks.now tops.old × HighTable page.now scratch.now × FreeTold page.now marks.now free }
    ensures { NextHighs page.now marks.now scratch.now tops.old tops.new }
{
    if free {
        unknowns::next_highs(page, marks, scratch, tops);
    }
}

// The next floor: the high ends of the free conditions, and the low ends. The high ends come first: the next low ends are noted where the
// negations stand that they read.
fn next_floor(
    source: &Source,
    marks: &[bool],
    scratch: &mut [u16],
    tops: &mut [u8],
    lows: &mut Set,
    moved: &mut Set,
    free: bool,
)
    requires { (Places source.now.area marks.now tops.old × HighTable source.now.area scratch.old × FreeTold source.now.area marks.now free) × (Notable source.now.area marks.now scratch.old moved.old.words × WaitSet (conditions_of source.now.area) lows.old.words × (source.now.indexed ≡ true → LowsRest source.now.area marks.now scratch.old lows.old.words)) }
    ensures { NextHighs source.now.area marks.now scratch.old tops.old tops.new × AllNoted source.now.area marks.now scratch.old scratch.new moved.old.words moved.new.words × WaitSet (conditions_of source.now.area) lows.new.words }
{
    next_tops(source.page, marks, scratch, tops, free);
    next_lows(source, marks, scratch, lows, moved);
}

// The next assignment, if the floor moves; whether it does. If not, nothing is taken over.
fn advance(
    source: &Source,
    marks: &[bool],
    scratch: &mut [u16],
    tops: &mut [u8],
    look: &mut Set,
    lows: &mut Set,
    free: bool,
) -> bool
    requires { ((k : ℕ) × AtSupport source.now.area marks.now source.now.indexed tops.old k scratch.old lows.old.words) × WaitSet (conditions_of source.now.area) look.old.words × Nobody look.old.words × FreeTold source.now.area marks.now free }
    ensures { (k : ℕ) → AtSupport source.now.area marks.now source.now.indexed tops.old k scratch.old lows.old.words → Advanced source.now.area marks.now source.now.indexed tops.old tops.new k scratch.old scratch.new look.new.words lows.new.words result }
{
    source.recall();
    let mut moved = Set::empty();
    next_floor(source, marks, scratch, tops, lows, &mut moved, free);
    let fallen = take_highs(source, marks, scratch, tops, look, lows, free);
    if !fallen && moved.is_empty() {
        return false;
    }
    look_again(source, marks, scratch, look, fallen);
    take_all(source, scratch, &mut moved, lows, look);
    true
}

// The count of rounds on what is marked: the number of the first assignment that the next one equals. If the floor does not move, the high
// ends are those of the closed reading, so the next one is another only if a high end fell to them. `tops` is lent, and `free` tells whether a
// reached condition is free (`take_highs`).
pub fn count_rounds(
    source: &Source,
    marks: &[bool],
    scratch: &mut [u16],
    tops: &mut [u8],
    free: bool,
) -> u32
    requires { CountReady source.now.area marks.now scratch.old × (conditions_of source.now.area ≤ length tops.old) × (free ≡ any_below (conditions_of source.now.area) (sought source.now.area marks.now)) }
    ensures { Counted source.now.area marks.now scratch.old scratch.new result }
{
    let page = source.page;
    let n = page.conditions();
    copy_tops(page, marks, scratch, tops);
    begin(page, marks, scratch);
    let mut look = rounds::marked(marks, n);
    let mut lows = look;
    let mut k: u32 = 0;
    // a `loop`: whether another assignment follows only the step itself tells
    loop {
        let fell = support(source, marks, scratch, tops, &mut look, &mut lows);
        if !advance(source, marks, scratch, tops, &mut look, &mut lows, free) {
            return k + u32::from(fell);
        }
        k += 1;
    }
}
