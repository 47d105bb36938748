// The cells of a run area (low, high, mark for each condition): soundness, the lowest waiting condition, waking dependants, a store.
#![tactic(auto)]

ghost use Rattle.std.specs.Prelude.{◌≡◌, true, cond, ℕ, ◌≤◌, ◌+◌, ◌<◌, ◌*◌, length, get_or, drop};
ghost use Rattle.semantics.specs.Area.{page_of, conditions_of, every, line_at};
ghost use Rattle.semantics.specs.RunArea.{interval_at, mark_at, cell_tests, run_sound};
ghost use Rattle.page.specs.Lines.{line_names};
ghost use Rattle.page.specs.Places.{LineIn};
ghost use Rattle.worklist.specs.Cells.{Lowest, DependantsMarked};
ghost use Rattle.worklist.specs.Waiting.{WordsMatch, StillMatches, Digits};
ghost use Rattle.worklist.specs.Woken.{HeadsIn, HeadsWoken, SetKept};
ghost use Rattle.worklist.specs.Marks.{marked};
ghost use Rattle.worklist.specs.Evaluation.{stored};

use bits::Set;
use index::Source;
use page::Page;

// Whether the cell of c (low, high, mark) is sound. The marks are the numbers 0, 1 and 2, here and where they are tested, since a run area is numbers
// that C lends and reads (document 01, "Areas").
fn cell_ok(run: &[u16], c: u16, top: u16) -> bool
    requires { 3 * c + 3 ≤ length run.now }
    ensures { result ≡ every (cell_tests top (interval_at run.now c) (mark_at run.now c)) }
{
    let at = 3 * c as usize;
    let low = run[at];
    let high = run[at + 1];
    let mark = run[at + 2];
    let marked = match mark {
        0 => low == 0 && high == top,
        1..=2 => true,
        _ => false,
    };
    low <= high && high <= top && marked
}

// Whether a run area is long enough and sound.
pub fn run_sound(page: &Page, run: &[u16]) -> bool
    ensures { result ≡ run_sound (page_of page.now) run.now }
{
    let top = page.top();
    let n = page.conditions();
    if run.len() < 3 * n as usize {
        return false;
    }
    (0..n).all(|c| cell_ok(run, c, top))
}

// The lowest of n conditions that waits: a search loop that yields it by a labelled break, as document 01 asks.
pub fn lowest_waiting(run: &[u16], n: u16) -> Option<u16>
    requires { 3 * n ≤ length run.now }
    ensures { Lowest n run.now result }
{
    'search: {
        for k in 0..n {
            if run[3 * k as usize + 2] == 2 {
                break 'search Some(k);
            }
        }
        None
    }
}

// The conditions from `from` up to `to` that wait, as digits from the lowest on. A mark is 0, 1 or 2, so its half is the digit.
fn waiting_digits(run: &[u16], from: usize, to: usize) -> u64
    requires { (from ≤ to) × (to ≤ from + 64) × (3 * to ≤ length run.now) × ((c : ℕ) → c < to → mark_at run.now c ≤ 2) }
    ensures { Digits run.now from to result }
{
    let mut x: u64 = 0;
    for c in (from..to).rev() {
        x = 2 * x + (run[3 * c + 2] / 2) as u64;
    }
    x
}

// The set of the conditions that wait.
pub fn waiting_set(run: &[u16], n: u16) -> Set
    requires { (3 * n ≤ length run.now) × (n ≤ 512) × ((c : ℕ) → c < n → mark_at run.now c ≤ 2) }
    ensures { WordsMatch n run.now result.words }
{
    let limit = n as usize;
    let mut words = [0u64; 8];
    for (w, word) in words.iter_mut().enumerate() {
        let from = limit.min(64 * w);
        *word = waiting_digits(run, from, limit.min(from + 64));
    }
    Set::from(words)
}

// The head of the line at `at` waits if the line is a rule that names c and the head is reached. A head that is not reached
// or that waits already stays as it is, so its literals are not looked at.
fn wake_head(page: &Page, at: usize, run: &mut [u16], waiting: &mut Set, c: u16)
    requires { LineIn page.now at × (3 * conditions_of page.now ≤ length run.old) }
    ensures marks { run.new ≡ cond (line_names (line_at (drop at page.now)) c) (marked (get_or page.now at 0) run.old) run.old }
    ensures set { StillMatches (conditions_of page.now) run.old waiting.old.words run.new waiting.new.words }
{
    let line = page.entry(at);
    let h = line.condition;
    let place = 3 * h as usize + 2;
    let mark = run[place];
    if mark != 2 && mark != 0 && page.line_names(at, c) {
        run[place] = 2;
        waiting.insert(h);
    }
}

// Every reached condition with a rule that names c waits, and the set follows: by a scan of the page.
fn wake_by_scan(page: &Page, run: &mut [u16], waiting: &mut Set, c: u16)
    requires { 3 * conditions_of page.now ≤ length run.old }
    ensures { DependantsMarked (page_of page.now) c run.old run.new × StillMatches (conditions_of page.now) run.old waiting.old.words run.new waiting.new.words }
{
    for at in page.lines() {
        wake_head(page, at, run, waiting, c);
    }
}

// Every reached condition among the heads waits, and the set follows.
fn wake_heads(run: &mut [u16], waiting: &mut Set, heads: &[u16])
    requires { HeadsIn heads.now run.old }
    ensures { HeadsWoken heads.now (length heads.now) run.old run.new × SetKept heads.now (length heads.now) run.old waiting.old.words run.new waiting.new.words }
{
    for &h in heads {
        let at = 3 * h as usize + 2;
        let mark = run[at];
        if mark != 2 && mark != 0 {
            run[at] = 2;
            waiting.insert(h);
        }
    }
}

// Every reached condition with a rule that names c waits, and the set follows: by the dependants of the index, or by a scan where there is none.
pub fn wake_dependants(source: &Source, run: &mut [u16], waiting: &mut Set, c: u16)
    requires { (3 * conditions_of source.now.area ≤ length run.old) × (c < conditions_of source.now.area) }
    ensures { DependantsMarked (page_of source.now.area) c run.old run.new × StillMatches (conditions_of source.now.area) run.old waiting.old.words run.new waiting.new.words }
{
    match source.dependants_of(c) {
        Some(heads) => wake_heads(run, waiting, heads),
        None => wake_by_scan(source.page, run, waiting, c),
    }
}

// The cell of c becomes low, high, mark.
pub fn store_cell(run: &mut [u16], c: u16, low: u16, high: u16, mark: u16)
    requires { 3 * c + 3 ≤ length run.old }
    ensures { run.new ≡ stored c low high mark run.old }
{
    let at = 3 * c as usize;
    run[at] = low;
    run[at + 1] = high;
    run[at + 2] = mark;
}
