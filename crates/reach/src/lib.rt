// What a page needs of queries, and how a run is opened: the closure of the queries, as a set or as marks.
#![tactic(auto)]

ghost use Rattle.std.specs.Prelude.{◌≡◌, Bool, ℕ, true, not, ◌&&◌, map, ◌≤◌, ◌+◌, ◌<◌, ◌*◌, leb, length, drop, Ok};
ghost use Rattle.semantics.specs.Area.{sound, line_at, all_under, literal_of, page_of, top_of, conditions_of};
ghost use Rattle.semantics.specs.Operation.{open_of};
ghost use Rattle.semantics.specs.Page.{mentions, names};
ghost use Rattle.semantics.specs.RunArea.{mark_of};
ghost use Rattle.semantics.specs.Table.{member, listed};
ghost use Rattle.bits.specs.Words.{has};
ghost use Rattle.bits.specs.Sets.{Nobody};
ghost use Rattle.page.specs.Lines.{line_names};
ghost use Rattle.page.specs.Places.{LineIn};
ghost use Rattle.reach.specs.Opening.{opening_of, accepted, Written};
ghost use Rattle.reach.specs.Marks.{Unmarked, ClosureMarks};
ghost use Rattle.reach.specs.Queries.{QueriesChecked};
ghost use Rattle.reach.specs.Sets.{Takes, Joins, Inserts, Inside, Followed, Passed, ClosureSet, FoundIn, Counted, Swept, MarksBelow};

use bits::Set;
use page::Page;
use refusal::Refusal;

// A set of the conditions 0 to 511.
trait Conditions {
    // whether c is in the set
    ghost holds: { Self → ℕ → Bool };

    // Puts c into the set; whether it is new.
    fn add(&mut self, c: u16) -> bool
        requires { c < 512 }
        ensures set { Takes c (holds self.old) (holds self.new) }
        ensures new { result ≡ not (holds self.old c) };
}

impl Conditions for Set {
    ghost holds = { λ s. has s.words };

    fn add(&mut self, c: u16) -> bool {
        self.insert(c)
    }
}

// A mark for each condition, beside the sets: document 01 asks for the closure of the queries as a [false; 512] array.
impl Conditions for [bool; 512] {
    ghost holds = { λ s. member s };

    fn add(&mut self, c: u16) -> bool {
        let was = self[c as usize];
        self[c as usize] = true;
        !was
    }
}

// Puts the queries into the set.
fn insert_queries<S: Conditions>(queries: &[u16], set: &mut S)
    requires { all_under 512 queries.now ≡ true }
    ensures { Joins (λ c. listed c queries.now) (S.holds set.old) (S.holds set.new) }
{
    for &c in queries {
        set.add(c);
    }
}

// Puts the conditions that the literals name into the set; answers how many are new.
fn insert_literals<S: Conditions>(codes: &[u16], set: &mut S) -> u32
    requires { all_under 1024 codes.now ≡ true }
    ensures { Inserts (mentions (map literal_of codes.now)) (S.holds set.old) (S.holds set.new) result }
{
    let mut new: u32 = 0;
    for &code in codes {
        if set.add(code / 2) {
            new += 1;
        }
    }
    new
}

// Puts the conditions that the line at `at` names into the set, if it is an R line; answers how many are new.
fn insert_line<S: Conditions>(page: &Page, at: usize, set: &mut S) -> u32
    requires { LineIn page.now at }
    ensures { Inserts (line_names (line_at (drop at page.now))) (S.holds set.old) (S.holds set.new) result }
{
    let line = page.entry(at);
    match line.kind {
        1..=5 => insert_literals(page.literals(at), set),
        _ => 0,
    }
}

// Puts the conditions that the R lines of c name into the set, in one scan over the lines; answers how many are new.
fn insert_named(page: &Page, c: u16, set: &mut Set) -> u32
    ensures { Inserts (names (page_of page.now) c) (has set.old.words) (has set.new.words) result }
{
    let mut new: u32 = 0;
    for at in page.lines() {
        if page.condition(at) == c {
            new += insert_line(page, at, set);
        }
    }
    new
}

// Follows the condition c, in one scan. What its R lines name is found, and new if it was not found before; answers how many they name.
fn follow(page: &Page, c: u16, found: &mut Set, new: &mut Set) -> u32
    ensures { Followed (page_of page.now) c found.old.words new.old.words found.new.words new.new.words result }
{
    page.recall();
    let mut named = Set::empty();
    let edges = insert_named(page, c, &mut named);
    found.absorb(&named, new);
    edges
}

// How many conditions were followed, and how many those name.
#[derive(Clone, Copy)]
struct Counts {
    reached: u32,
    edges: u32,
}

// A pass: it follows the conditions of `fresh`, takes them from that set, and puts what it adds into the empty set `new`.
fn pass(page: &Page, fresh: &mut Set, found: &mut Set, new: &mut Set) -> Counts
    requires { Inside (conditions_of page.now) fresh.old.words × Nobody new.old.words }
    ensures passed { Passed (page_of page.now) fresh.old.words found.old.words found.new.words new.new.words }
    ensures counted { Counted (page_of page.now) fresh.old.words result.reached result.edges }
{
    page.recall();
    let mut reached: u32 = 0;
    let mut edges: u32 = 0;
    for c in fresh.drain() {
        edges += follow(page, c, found, new);
        reached += 1;
    }
    Counts { reached, edges }
}

// A set of conditions, the count of passes that found it, and its R and E.
#[derive(Clone, Copy)]
struct Found {
    set: Set,
    passes: u32,
    counts: Counts,
}

// The closure of the queries, in passes: the first that adds none is the last. How many there are only that one tells, and one is made for any
// queries, so the test stands at the end of a `loop`.
fn find(page: &Page, queries: &[u16]) -> Found
    requires { all_under (conditions_of page.now) queries.now ≡ true }
    ensures found { FoundIn (page_of page.now) queries.now result.set.words result.passes }
    ensures counted { Counted (page_of page.now) result.set.words result.counts.reached result.counts.edges }
{
    page.recall();
    let mut set = Set::empty();
    insert_queries(queries, &mut set);
    let mut fresh = set;
    let mut passes: u32 = 0;
    let mut reached: u32 = 0;
    let mut edges: u32 = 0;
    loop {
        let mut new = Set::empty();
        let more = pass(page, &mut fresh, &mut set, &mut new);
        passes += 1;
        reached += more.reached;
        edges += more.edges;
        fresh = new;
        if fresh.is_empty() {
            break;
        }
    }
    Found {
        set,
        passes,
        counts: Counts { reached, edges },
    }
}

// Marks the conditions of the set that are below n, where nothing is marked yet.
fn mark_set(set: &Set, n: u16, marks: &mut [bool])
    requires { (n ≤ 512) × Unmarked marks.old }
    ensures { MarksBelow n set.now.words marks.new }
{
    for c in 0..n {
        marks[c as usize] = set.contains(c);
    }
}

// One pass over the lines: what a line of a marked condition names is marked; answers how many are new. It stands beside `insert_named`, since
// its test reads the marks that it changes: with the test as a parameter no one fact says what both have done.
fn sweep(page: &Page, marks: &mut [bool; 512]) -> u32
    ensures { Swept (page_of page.now) marks.old marks.new result }
{
    let mut new: u32 = 0;
    for at in page.lines() {
        if marks[page.condition(at) as usize] {
            new += insert_line(page, at, marks);
        }
    }
    new
}

// The closure of the queries as a set.
pub fn spread(page: &Page, queries: &[u16]) -> Set
    requires { all_under (conditions_of page.now) queries.now ≡ true }
    ensures { ClosureSet (page_of page.now) queries.now result.words }
{
    find(page, queries).set
}

// Marks the closure of the queries, where nothing is marked yet, by passes over all lines until one adds nothing, which alone tells how many
// there are: fewer scans, where E is not asked for.
pub fn mark_reached(page: &Page, queries: &[u16], marks: &mut [bool; 512])
    requires { (all_under (conditions_of page.now) queries.now ≡ true) × Unmarked marks.old }
    ensures { ClosureMarks (page_of page.now) queries.now marks.new }
{
    page.recall();
    insert_queries(queries, marks);
    while 0 < sweep(&page.again(), marks) {}
}

// The same where the marks are 512 of a slice. What C calls has them in an array.
pub fn mark_closure(page: &Page, queries: &[u16], marks: &mut [bool])
    requires { (all_under (conditions_of page.now) queries.now ≡ true) × Unmarked marks.old }
    ensures { ClosureMarks (page_of page.now) queries.now marks.new }
{
    if let Some(flags) = marks.as_mut_array::<512>() {
        mark_reached(page, queries, flags);
    }
}

// R + top × E.
fn bound_of(reached: u32, top: u16, edges: u32) -> u32
    requires { (reached ≤ 512) × (top ≤ 200) × (edges ≤ 512 * 512) }
    ensures { result ≡ reached + top * edges }
{
    reached + top as u32 * edges
}

// The mark of a condition at the start, a number of the run area, as in `worklist`: it waits if it is reached.
fn first_mark(reached: bool) -> u16
    ensures { result ≡ mark_of reached reached }
{
    if reached { 2 } else { 0 }
}

// Writes n conditions: each holds [0;top], and waits if it is marked.
pub fn write_run(run: &mut [u16], n: u16, top: u16, marks: &[bool])
    requires { (3 * n ≤ length run.old) × (n ≤ length marks.now) }
    ensures { Written n top marks.now run.old run.new }
{
    for c in 0..n {
        let mark = first_mark(marks[c as usize]);
        worklist::store_cell(run, c, 0, top, mark);
    }
}

// Whether a list has 1 to 16 queries.
pub fn count_ok(queries: &[u16]) -> bool
    ensures { result ≡ (leb 1 (length queries.now) && leb (length queries.now) 16) }
{
    (1..=16).contains(&queries.len())
}

// Whether every query is below n.
pub fn all_below(queries: &[u16], n: u16) -> bool
    ensures { result ≡ all_under n queries.now }
{
    queries.iter().all(|&c| c < n)
}

// A list has 1 to 16 queries, and every query is below n; else why not.
pub fn check_queries(queries: &[u16], n: u16) -> Result<(), Refusal>
    ensures { QueriesChecked n queries.now result }
{
    if !count_ok(queries) {
        return Err(Refusal::QueryCount);
    }
    if !all_below(queries, n) {
        return Err(Refusal::QueryOutOfRange);
    }
    Ok(())
}

// What an opening answers: R, E, R + top × E, and the count of passes.
#[derive(Clone, Copy)]
pub struct Opened {
    pub reached: u32,
    pub edges: u32,
    pub bound: u32,
    pub passes: u32,
}

// The work of an opening that no cause refuses: "all 512 possible conditions begin as not reached", and the closure is then marked.
fn open_accepted(page: &Page, queries: &[u16], run: &mut [u16]) -> Opened
    requires { (all_under (conditions_of page.now) queries.now ≡ true) × (3 * conditions_of page.now ≤ length run.old) }
    ensures answer { opening_of (Ok result) ≡ (accepted page.now queries.now run.old).answer }
    ensures left { run.new ≡ (accepted page.now queries.now run.old).run }
{
    let top = page.top();
    let n = page.conditions();
    let found = find(page, queries);
    let Counts { reached, edges } = found.counts;
    let mut marks = [false; 512];
    mark_set(&found.set, n, &mut marks);
    write_run(run, n, top, &marks);
    Opened {
        reached,
        edges,
        bound: bound_of(reached, top, edges),
        passes: found.passes,
    }
}

// Open a run on a page that is sound.
pub fn open_sound(page: &Page, queries: &[u16], run: &mut [u16]) -> Result<Opened, Refusal>
    requires { sound page.now ≡ true }
    ensures answer { opening_of result ≡ (open_of page.now queries.now run.old).answer }
    ensures left { run.new ≡ (open_of page.now queries.now run.old).run }
{
    let n = page.conditions();
    check_queries(queries, n)?;
    if run.len() < 3 * n as usize {
        return Err(Refusal::RunShort);
    }
    Ok(open_accepted(page, queries, run))
}

// Open a run.
pub fn open_run(page: &[u16], queries: &[u16], run: &mut [u16]) -> Result<Opened, Refusal>
    ensures answer { opening_of result ≡ (open_of page.now queries.now run.old).answer }
    ensures left { run.new ≡ (open_of page.now queries.now run.old).run }
{
    let Some(page) = Page::of(page) else {
        return Err(Refusal::PageNotSound);
    };
    open_sound(&page, queries, run)
}
