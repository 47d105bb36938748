// Both readings of a page for all of its Q lines: one closed solving, and one plain run or one for each Q line.
#![tactic(auto)]

ghost use Rattle.std.specs.Prelude.{◌≡◌, true, ◌*◌, ◌≤◌, ◌<◌, length};
ghost use Rattle.semantics.specs.Area.{page_of, conditions_of, all_under};
ghost use Rattle.page.specs.Places.{LineIn};
ghost use Rattle.page.specs.Solvable.{solvable};
ghost use Rattle.solve.specs.Figures.{Noted, NotedAll, PlainSolved, Figures};

use page::Page;

// If the line at `at` is a Q line, puts its condition behind k others; how many there are then.
fn note_query(page: &Page, at: usize, queries: &mut [u16], k: usize) -> usize
    requires { LineIn page.now at × (k < length queries.old) }
    ensures { Noted page.now at queries.old k queries.new result }
{
    let line = page.entry(at);
    if line.kind != 6 {
        return k;
    }
    queries[k] = line.condition;
    k + 1
}

// The conditions of the Q lines, in page order; how many there are.
fn note_queries(page: &Page, queries: &mut [u16; 1536]) -> usize
    ensures noted { NotedAll page.now queries.new result }
    ensures sound { solvable page.now ≡ true }
{
    let mut k = 0;
    for at in page.lines() {
        k = note_query(page, at, queries, k);
    }
    k
}

// The plain answers: a run of the queries, driven by an index with more evaluations than any run takes. There is no heap: what is used of the
// workspace is the front of an array.
fn solve_plain(page: &Page, queries: &[u16], workspace: &mut [u16; 15362], answers: &mut [u16])
    requires { (all_under (conditions_of page.now) queries.now ≡ true) × (2 * length queries.now ≤ length answers.old) }
    ensures { PlainSolved (page_of page.now) queries.now answers.old answers.new }
{
    let mut marks = [false; 512];
    reach::mark_reached(page, queries, &mut marks);
    let mut run = [0u16; 1536];
    reach::write_run(&mut run, page.conditions(), page.top(), &marks);
    let m = index::index_length(page);
    run::drive_built(page, &mut run, &mut workspace[..m], u32::MAX);
    closed::write_ends(&run, 3, 1, queries, answers);
}

// The same, where each query has a run of its own. By index: after `chunks_exact_mut` a proof does not know what its parts hold.
fn solve_apart(page: &Page, queries: &[u16], workspace: &mut [u16; 15362], answers: &mut [u16])
    requires { (all_under (conditions_of page.now) queries.now ≡ true) × (2 * length queries.now ≤ length answers.old) }
    ensures { PlainSolved (page_of page.now) queries.now answers.old answers.new }
{
    for i in 0..queries.len() {
        solve_plain(page, &queries[i..i + 1], workspace, &mut answers[2 * i..]);
    }
}

// The plain answers, by a run for each query or by one run. `apart` stays a switch: a closure in its place would have this contract written out
// once more, and its two callers would name one of the two functions above in place of true or false.
fn solve_runs(
    page: &Page,
    queries: &[u16],
    workspace: &mut [u16; 15362],
    answers: &mut [u16],
    apart: bool,
)
    requires { (all_under (conditions_of page.now) queries.now ≡ true) × (2 * length queries.now ≤ length answers.old) }
    ensures { PlainSolved (page_of page.now) queries.now answers.old answers.new }
{
    if apart {
        solve_apart(page, queries, workspace, answers);
        return;
    }
    solve_plain(page, queries, workspace, answers);
}

// The figures of a page: low and high of the condition of each Q line, in page order, in the plain and in the closed reading. The plain ones come
// from one run of all Q lines, or from a run for each. Each reading fills a slice of its own; as an array it would have a narrower type than the
// program's slices.
pub fn solve(page: &Page, plain: &mut [u16], closed: &mut [u16], apart: bool)
    requires { (length plain.old ≡ 3072) × (length closed.old ≡ 3072) }
    ensures { Figures (page_of page.now) plain.new closed.new }
{
    // no heap: the queries, too, are the front of an array
    let mut queries = [0u16; 1536];
    let k = note_queries(page, &mut queries);
    let mut workspace = [0u16; 15362];
    solve_runs(page, &queries[..k], &mut workspace, plain, apart);
    let mut scratch = [0u16; 2048];
    closed::solve_over(
        page,
        &queries[..k],
        &mut scratch,
        closed,
        &mut workspace,
        false,
    );
}
