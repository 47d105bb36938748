// The closed reading, by rounds of two halves: the least high ends over the floor held, then the least floor over the high ends held.
#![tactic(auto)]

ghost use Rattle.std.specs.Prelude.{◌≡◌, ◌++◌, ℕ, ◌≤◌, ◌+◌, ◌<◌, ◌*◌, length, get_or, drop, IfOk};
ghost use Rattle.semantics.specs.Area.{top_of, conditions_of};
ghost use Rattle.semantics.specs.Operation.{ends, zeros, used_workspace, closed_workspace, ClosedOf};
ghost use Rattle.closed.specs.Solving.{ends_at, Begun, SolveReady, Solved};
ghost use Rattle.reach.specs.Queries.{refused_with};
ghost use Rattle.closed.specs.Answer.{closing_told, FirstCause};

use index::Source;
use page::Page;
use refusal::Refusal;

// Nothing is known: the low ends are 0 and the high ends top.
fn begin(page: &Page, scratch: &mut [u16])
    requires { 4 * conditions_of page.now ≤ length scratch.old }
    ensures { Begun (conditions_of page.now) (top_of page.now) scratch.old scratch.new }
{
    let top = page.top();
    let n = page.conditions() as usize;
    let base = 2 * n;
    for c in 0..n {
        scratch[2 * c] = 0;
        scratch[base + 2 * c] = top;
    }
}

// Low and high of each query, in list order: in the table the low end of c stands at `step` × c, and the high end `gap` numbers behind it.
pub fn write_ends(table: &[u16], step: usize, gap: usize, queries: &[u16], answers: &mut [u16])
    requires { ((k : ℕ) → k < length queries.now → gap + step * get_or queries.now k 0 < length table.now) × (2 * length queries.now ≤ length answers.old) }
    ensures { answers.new ≡ ends (ends_at table.now step gap) queries.now ++ drop (2 * length queries.now) answers.old }
{
    for (i, &c) in queries.iter().enumerate() {
        let at = step * c as usize;
        answers[2 * i] = table[at];
        answers[2 * i + 1] = table[gap + at];
    }
}

// The closed reading of every condition reached from the queries, in the scratch; its answers; and the count of rounds if it is asked for, which
// leaves other numbers in the scratch. `counting` stays a switch: a second function would repeat this one and its contract. Without a count it
// answers 0, which nobody reads: `solve_over` is public and answers a number, so it would have to make one of an `Option`.
fn solve(
    source: &Source,
    queries: &[u16],
    scratch: &mut [u16],
    answers: &mut [u16],
    counting: bool,
) -> u32
    requires { SolveReady source.now.area queries.now scratch.old answers.old }
    ensures { Solved source.now.area queries.now scratch.old answers.old scratch.new answers.new counting result }
{
    let page = source.page;
    let n = page.conditions();
    let mut marks = [false; 512];
    reach::mark_reached(page, queries, &mut marks);
    begin(page, scratch);
    let free = unknowns::any_free(page, &marks);
    let mut next = [0u8; 512];
    rounds::alternate(source, &marks, scratch, &mut next, free);
    write_ends(scratch, 2, 2 * n as usize, queries, answers);
    if !counting {
        return 0;
    }
    stages::count_rounds(source, &marks, scratch, &mut next, free)
}

// The page, or the first cause of a refusal.
fn check_call<'a>(
    page: &'a [u16],
    queries: &[u16],
    scratch: &[u16],
    answers: &[u16],
) -> Result<Page<'a>, Refusal>
    ensures cause { FirstCause (refused_with result) page.now queries.now scratch.now answers.now }
    ensures same { IfOk result (λ p. p ≡ page.now) }
{
    let Some(page) = Page::of(page) else {
        return Err(Refusal::PageNotSound);
    };
    let n = page.conditions();
    reach::check_queries(queries, n)?;
    if scratch.len() < 4 * n as usize {
        return Err(Refusal::ScratchShort);
    }
    if answers.len() < 2 * queries.len() {
        return Err(Refusal::AnswersShort);
    }
    Ok(page)
}

// The scratch ends as zeros.
fn clear(scratch: &mut [u16], n: u16)
    requires { (4 * n ≤ length scratch.old) × (n ≤ 512) }
    ensures { scratch.new ≡ zeros (4 * n) ++ drop (4 * n) scratch.old }
{
    index::erase(scratch, 4 * n as usize);
}

// Closed reading: low and high of each query in the closed reading of the page, and its count of rounds. Without a workspace and with one are two
// calls, since C has both.
pub fn closed_reading(
    page: &[u16],
    queries: &[u16],
    scratch: &mut [u16],
    answers: &mut [u16],
) -> Result<u32, Refusal>
    ensures { ClosedOf (closing_told result) page.now queries.now scratch.old answers.old scratch.new answers.new }
{
    let page = check_call(page, queries, scratch, answers)?;
    let source = Source::scanned(&page);
    let rounds = solve(&source, queries, scratch, answers, true);
    clear(scratch, page.conditions());
    Ok(rounds)
}

// The same as `solve`, with an index if the workspace has room for it. There is no heap: the index lies in the front of what is lent.
pub fn solve_over(
    page: &Page,
    queries: &[u16],
    scratch: &mut [u16],
    answers: &mut [u16],
    workspace: &mut [u16],
    counting: bool,
) -> u32
    requires { SolveReady page.now queries.now scratch.old answers.old }
    ensures { Solved page.now queries.now scratch.old answers.old scratch.new answers.new counting result × (workspace.new ≡ used_workspace page.now workspace.old) }
{
    let m = index::index_length(page);
    if workspace.len() < m {
        let source = Source::scanned(page);
        return solve(&source, queries, scratch, answers, counting);
    }
    index::build(page, &mut workspace[..m]);
    let source = Source::built(page, &workspace[..m]);
    let rounds = solve(&source, queries, scratch, answers, counting);
    index::erase(workspace, m);
    rounds
}

// Closed reading with a lent workspace: the same answers, and fast where the workspace has room for an index of the page.
pub fn closed_indexed(
    page: &[u16],
    queries: &[u16],
    scratch: &mut [u16],
    answers: &mut [u16],
    workspace: &mut [u16],
) -> Result<u32, Refusal>
    ensures { ClosedOf (closing_told result) page.now queries.now scratch.old answers.old scratch.new answers.new × (workspace.new ≡ closed_workspace page.now queries.now scratch.old answers.old workspace.old) }
{
    let page = check_call(page, queries, scratch, answers)?;
    let rounds = solve_over(&page, queries, scratch, answers, workspace, true);
    clear(scratch, page.conditions());
    Ok(rounds)
}
