// Loops through an absence (document 02, ticket 3). The layers of a page are worked out by passes over its lines. Where they do not settle,
// a search in depth finds the lowest condition from which a chain through a negation leads back.
#![tactic(auto)]

ghost use Rattle.std.specs.Prelude.{◌≡◌, ◌+◌, ◌≤◌, ◌<◌, ◌++◌, length, get_or, drop};
ghost use Rattle.semantics.specs.Area.{page_of, conditions_of};
ghost use Rattle.semantics.specs.Layers.{LayersOf};
ghost use Rattle.page.specs.Places.{LineIn, RuleIn};
ghost use Rattle.layers.specs.Raising.{Low, Zero, Asked, Raised, LineRaised, PassRaised, Settled};
ghost use Rattle.layers.specs.Levels.{lower, RuleLooked, LineLooked, PartLooked, Relabelled, LowestAt, Entered, Finished, Open, Explored, HeadOpened, Begun, LoopFound};
ghost use Rattle.layers.specs.Verdict.{number_of, condition_of, verdict_of, Worked};

use page::Page;
use print::put_all;
use refusal::Refusal;

// The largest layer that the literals of the rule at `at` ask for: that of the condition, and one more for a negation.
fn asked(page: &Page, at: usize, layers: &[u16]) -> u16
    requires { RuleIn page.now at × (length layers.now ≡ conditions_of page.now) × Low 65534 layers.now }
    ensures { Asked page.now at layers.now result }
{
    let codes = page.literals(at);
    let layer_of = |&code: &u16| layers[code as usize / 2] + code % 2;
    codes.iter().map(layer_of).max().unwrap_or(0)
}

// The head of the rule at `at` gets the layer that its literals ask for, if that is higher. Answers that layer, if so.
fn raise_rule(page: &Page, at: usize, layers: &mut [u16]) -> Option<u16>
    requires { RuleIn page.now at × (length layers.old ≡ conditions_of page.now) × Low 65534 layers.old }
    ensures { Raised page.now at layers.old layers.new result }
{
    let head = page.entry(at).condition as usize;
    let layer = asked(page, at, layers);
    if layer <= layers[head] {
        return None;
    }
    layers[head] = layer;
    Some(layer)
}

// The same for the line at `at`, if it is an R line.
fn raise_line(page: &Page, at: usize, layers: &mut [u16]) -> Option<u16>
    requires { LineIn page.now at × (length layers.old ≡ conditions_of page.now) × Low 65534 layers.old }
    ensures { LineRaised page.now at layers.old layers.new result }
{
    match page.entry(at).kind {
        1..=5 => raise_rule(page, at, layers),
        _ => None,
    }
}

// One pass over the lines, in place: the highest layer that was raised to, if any was.
fn raise_pass(page: &Page, layers: &mut [u16]) -> Option<u16>
    requires { (length layers.old ≡ conditions_of page.now) × Low 511 layers.old }
    ensures { PassRaised (page_of page.now) layers.old layers.new result }
{
    let mut most = None;
    for at in page.lines() {
        most = most.max(raise_line(page, at, layers));
    }
    most
}

// Raises layers from 0, pass by pass: whether a pass changes nothing. At the latest pass C does, unless a chain through a negation leads back.
fn settle(page: &Page, layers: &mut [u16]) -> bool
    requires { (length layers.old ≡ conditions_of page.now) × Zero layers.old }
    ensures { Settled (page_of page.now) layers.new result }
{
    let n = page.conditions();
    for _ in 0..n {
        match raise_pass(page, layers) {
            None => return true,
            Some(most) if n <= most => return false,
            Some(_) => {}
        }
    }
    false
}

// A level stays a number, since the levels stand in the table of numbers that the layers were in: 0 not met, 513 done, else a part, from 1 on.

// Whether the rule at `at` negates a condition of the part at `level`; as an error the first condition that it names outside of the part.
fn look_rule(page: &Page, at: usize, levels: &[u16], level: u16) -> Result<bool, u16>
    requires { RuleIn page.now at × (length levels.now ≡ conditions_of page.now) }
    ensures { RuleLooked page.now at levels.now level result }
{
    let mut negated = false;
    for &code in page.literals(at) {
        let l = levels[code as usize / 2];
        if l == level {
            negated |= code % 2 == 1;
        } else if l != 513 {
            return Err(code / 2);
        }
    }
    Ok(negated)
}

// The same for the line at `at`, if it is an R line whose head is of the part.
fn look_line(page: &Page, at: usize, levels: &[u16], level: u16) -> Result<bool, u16>
    requires { LineIn page.now at × (length levels.now ≡ conditions_of page.now) }
    ensures { LineLooked page.now at levels.now level result }
{
    let line = page.entry(at);
    if levels[line.condition as usize] != level {
        return Ok(false);
    }
    match line.kind {
        1..=5 => look_rule(page, at, levels, level),
        _ => Ok(false),
    }
}

// The same for all lines: whether the part negates itself; as an error a condition that it names outside of it.
fn look(page: &Page, levels: &[u16], level: u16) -> Result<bool, u16>
    requires { length levels.now ≡ conditions_of page.now }
    ensures { PartLooked (page_of page.now) levels.now level result }
{
    let mut negated = false;
    for at in page.lines() {
        negated |= look_line(page, at, levels, level)?;
    }
    Ok(negated)
}

// The conditions with a level of low to high get the level `to`.
fn relabel(levels: &mut [u16], low: u16, high: u16, to: u16)
    ensures { Relabelled low high to levels.old levels.new }
{
    for l in levels.iter_mut() {
        if (low..=high).contains(l) {
            *l = to;
        }
    }
}

// The lowest condition of the part at `level`.
fn lowest_at(levels: &[u16], level: u16) -> Option<u16>
    requires { length levels.now ≤ 512 }
    ensures { LowestAt levels.now level result }
{
    levels.iter().position(|&l| l == level).map(|c| c as u16)
}

// The part at `level` names c, which is neither of it nor done. If c is not met it becomes the next part. Else it is of an earlier part, and
// all from that one on become one. Answers the level of c.
fn enter(levels: &mut [u16], level: u16, c: u16) -> u16
    requires { (c < length levels.old) × (level ≤ 512) }
    ensures { Entered level c levels.old levels.new result }
{
    let i = c as usize;
    let l = levels[i];
    if l == 0 {
        levels[i] = level + 1;
        return level + 1;
    }
    relabel(levels, l, level, l);
    l
}

// The lower of two conditions, where either may be none: not `min` of the library, which takes none to be below every condition.
fn lower(one: Option<u16>, other: Option<u16>) -> Option<u16>
    ensures { result ≡ lower one other }
{
    match (one, other) {
        (Some(c), Some(d)) => Some(c.min(d)),
        _ => one.or(other),
    }
}

// The part at `level` is done. Its conditions are on a loop through a negation if it negates itself, as `look` tells: answers the lowest such condition
// so far.
fn finish(levels: &mut [u16], level: u16, negated: bool, lowest: Option<u16>) -> Option<u16>
    requires { length levels.old ≤ 512 }
    ensures { Finished level negated lowest levels.old levels.new result }
{
    let mut least = lowest;
    if negated {
        least = lower(lowest, lowest_at(levels, level));
    }
    relabel(levels, level, level, 513);
    least
}

// Every condition that a chain from `root` leads to is done: answers the lowest condition on a loop through a negation so far.
// The path goes up and down, so the loop is no `for`.
fn explore(page: &Page, levels: &mut [u16], root: u16, lowest: Option<u16>) -> Option<u16>
    requires { Open (page_of page.now) levels.old 0 lowest × (root < conditions_of page.now) × (get_or levels.old root 0 ≡ 0) }
    ensures { Explored (page_of page.now) root levels.old levels.new result }
{
    page.recall();
    let mut least = lowest;
    let mut level: u16 = 1;
    levels[root as usize] = 1;
    while 0 < level {
        match look(page, levels, level) {
            Err(c) => level = enter(levels, level, c),
            Ok(negated) => {
                least = finish(levels, level, negated, least);
                level -= 1;
            }
        }
    }
    least
}

// The head of the line at `at` is not met, if it is an R line.
fn open_head(page: &Page, at: usize, levels: &mut [u16])
    requires { LineIn page.now at × (length levels.old ≡ conditions_of page.now) }
    ensures { HeadOpened page.now at levels.old levels.new }
{
    let line = page.entry(at);
    match line.kind {
        1..=5 => levels[line.condition as usize] = 0,
        _ => {}
    }
}

// The heads of R lines are not met. All others are done: no chain goes on from them.
fn begin(page: &Page, levels: &mut [u16])
    requires { length levels.old ≡ conditions_of page.now }
    ensures { Begun (page_of page.now) levels.new }
{
    levels.fill(513);
    for at in page.lines() {
        open_head(page, at, levels);
    }
}

// The lowest condition on a loop through a negation. What the levels are before does not matter.
fn lowest_loop(page: &Page, levels: &mut [u16]) -> Option<u16>
    requires { length levels.old ≡ conditions_of page.now }
    ensures { LoopFound (page_of page.now) levels.new result }
{
    begin(page, levels);
    let n = page.conditions();
    let mut lowest = None;
    for c in 0..n {
        if lowest.is_some_and(|d| d <= c) {
            break;
        }
        if levels[c as usize] == 0 {
            lowest = explore(page, levels, c, lowest);
        }
    }
    lowest
}

// Why no layers are written: a refusal, or a loop through a negation, with the lowest condition on one.
#[derive(Clone, Copy, PartialEq, Eq)]
pub enum LayersError {
    Refused(Refusal),
    Loop(u16),
}

impl LayersError {
    // The number of the refusal.
    pub fn number(self) -> u8
        ensures { result ≡ number_of self }
    {
        match self {
            LayersError::Refused(refusal) => refusal.number(),
            LayersError::Loop(_) => 30,
        }
    }

    // The condition that is told with it, 0 for none, as C is told it.
    pub fn condition(self) -> u16
        ensures { result ≡ condition_of self }
    {
        match self {
            LayersError::Refused(_) => 0,
            LayersError::Loop(c) => c,
        }
    }
}

// The check of a page that is sound, with a slice that is long enough. The table is C zeros.
fn work(page: &Page, layers: &mut [u16], table: &mut [u16]) -> Result<(), LayersError>
    requires { (conditions_of page.now ≤ length layers.old) × (length table.old ≡ conditions_of page.now) × Zero table.old }
    ensures { Worked (verdict_of result) (page_of page.now) layers.old layers.new }
{
    if settle(page, table) {
        put_all(layers, 0, table);
        return Ok(());
    }
    Err(LayersError::Loop(lowest_loop(page, table).unwrap()))
}

// The check for loops through an absence. The layers are worked out in a table of its own, since a refusal leaves the slice as it is.
pub fn check_layers(page: &[u16], layers: &mut [u16]) -> Result<(), LayersError>
    ensures { LayersOf (verdict_of result) page.now layers.old layers.new }
{
    let Some(page) = Page::of(page) else {
        return Err(LayersError::Refused(Refusal::PageNotSound));
    };
    let n = page.conditions() as usize;
    if layers.len() < n {
        return Err(LayersError::Refused(Refusal::LayersShort));
    }
    // there is no heap: the table is the front of an array
    let mut table = [0u16; 512];
    work(&page, layers, &mut table[..n])
}
