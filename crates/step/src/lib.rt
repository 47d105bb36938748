// An evaluation of a waiting condition: its cell, its dependants, and what is held beside the run area. Which line holds the new low end.
#![tactic(auto)]

ghost use Rattle.std.specs.Prelude.{◌≡◌, true, ◌≤◌, ◌<◌, ◌+◌, ◌*◌, length, get_or};
ghost use Rattle.semantics.specs.Area.{page_of, top_of, conditions_of};
ghost use Rattle.semantics.specs.Grade.{lower};
ghost use Rattle.semantics.specs.RunArea.{mark_at, interval_at, run_sound};
ghost use Rattle.value.specs.Table.{EndTable};
ghost use Rattle.step.specs.Beside.{Beside, Changed, EvaluatedBeside};
ghost use Rattle.step.specs.Before.{ToldBefore};

use bits::Set;
use index::Source;
use page::Page;
use value::Ends;

// The condition c holds the interval `held` and waits no longer, and its dependants wait. The table and the set follow.
fn change(
    source: &Source,
    run: &mut [u16],
    waiting: &mut Set,
    values: &mut [u8],
    c: u16,
    held: Ends,
)
    requires { (c < conditions_of source.now.area) × (held.low ≤ top_of source.now.area) × (held.high ≤ top_of source.now.area) × (3 * conditions_of source.now.area ≤ length run.old) × (2 * conditions_of source.now.area ≤ length values.old) }
    ensures { Changed source.now.area c held.low held.high run.old waiting.old.words values.old run.new waiting.new.words values.new }
{
    let top = source.page.top();
    worklist::store_cell(run, c, held.low, held.high, 1);
    ends::store(values, c, held.low, top - held.high);
    worklist::wake_dependants(source, run, waiting, c);
}

// An evaluation of c, which waits. The run area, the set and the table come apart, since the run area is lent by the caller, who reads it
// between two evaluations. The table stands beside the page: it is written here, and the page is not (`body`).
pub fn step(source: &Source, run: &mut [u16], waiting: &mut Set, values: &mut [u8], c: u16) -> bool
    requires { (run_sound (page_of source.now.area) run.old ≡ true) × (c < conditions_of source.now.area) × (mark_at run.old c ≡ 2) × Beside source.now.area run.old values.old }
    ensures { EvaluatedBeside source.now.area c run.old waiting.old.words run.new waiting.new.words values.new result }
{
    source.recall();
    let ends = body::body(source, values, c);
    waiting.remove(c);
    let before = held(run, c);
    if before.ends != ends {
        change(source, run, waiting, values, c, ends);
        return true;
    }
    run[3 * c as usize + 2] = 1;
    false
}

// A condition that is evaluated, and what it held before.
#[derive(Clone, Copy)]
pub struct Before {
    pub condition: u16,
    pub ends: Ends,
}

// What c holds now.
pub fn held(run: &[u16], c: u16) -> Before
    requires { 3 * c + 3 ≤ length run.now }
    ensures { (result.condition ≡ c) × (result.ends.low ≡ get_or run.now (3 * c) 0) × (result.ends.high ≡ get_or run.now (3 * c + 1) 0) }
{
    let at = 3 * c as usize;
    Before {
        condition: c,
        ends: Ends {
            low: run[at],
            high: run[at + 1],
        },
    }
}

// The line that holds the low end of a condition that was just evaluated, on the intervals held before: the table goes back to them.
pub fn line_told(page: &Page, run: &[u16], values: &mut [u8], before: Before) -> u16
    requires { (run_sound (page_of page.now) run.now ≡ true) × (2 * conditions_of page.now ≤ length values.old) × EndTable lower (top_of page.now) (conditions_of page.now) (interval_at run.now) values.old × (before.condition < conditions_of page.now) × (before.ends.low ≤ top_of page.now) × (before.ends.high ≤ top_of page.now) }
    ensures { ToldBefore page.now run.now before.condition before.ends.low before.ends.high result }
{
    let c = before.condition;
    let top = page.top();
    let low = run[3 * c as usize];
    ends::store(values, c, before.ends.low, top - before.ends.high);
    body::first_line(page, values, c, low)
}
