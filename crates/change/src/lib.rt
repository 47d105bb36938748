// The page that a trial changes (document 02, ticket 8), as a page area. The head and the D numbers are the page's; its F lines of the
// conditions that the trial's lines name go; behind its other lines each such condition has one fact, that of its last line. For each F line
// and each condition the lines of the trial are looked through: no table of conditions is kept.
#![tactic(auto)]

ghost use Rattle.std.specs.Prelude.{◌≡◌, true, ◌++◌, ◌+◌, ◌≤◌, ◌<◌, length, drop};
ghost use Rattle.semantics.specs.Area.{sound, line_at, used_of, first_line};
ghost use Rattle.semantics.specs.Trials.{interval_for, tried, kept_line, fact_if};
ghost use Rattle.page.specs.Lines.{step_at};
ghost use Rattle.page.specs.Places.{LineIn};
ghost use Rattle.change.specs.Trial.{trial_at, lines_in, changed_area, given_of, goes};
ghost use Rattle.change.specs.Written.{PutsEntry, PutsLines, FactsFit, LinesKept, FactsWrote};

use page::{Page, span_of};
use print::put_all;
use value::Ends;

// What a line of the trial gives c. A line is four numbers, and no struct: `list` promises what the slice of lines holds as numbers.
fn line_gives(line: &[u16], c: u16) -> Option<Ends>
    requires { 4 ≤ length line.now }
    ensures { given_of result ≡ interval_for (trial_at line.now) c }
{
    if line[1] != c {
        return None;
    }
    Some(Ends {
        low: line[2],
        high: line[3],
    })
}

// What the lines of the trial give c: the last that gives something wins.
fn trial_gives(lines: &[u16], c: u16) -> Option<Ends>
    ensures { given_of result ≡ tried (lines_in lines.now) c }
{
    let mut given = None;
    for line in lines.chunks_exact(4) {
        given = line_gives(line, c).or(given);
    }
    given
}

// Whether the line at `at` is an F line of a condition that the trial's lines name.
fn line_goes(page: &Page, at: usize, lines: &[u16]) -> bool
    requires { LineIn page.now at }
    ensures { result ≡ goes (lines_in lines.now) (line_at (drop at page.now)) }
{
    let line = page.entry(at);
    line.kind == 0 && trial_gives(lines, line.condition).is_some()
}

// A lent area, the place up to which entries are written, and how many they are.
#[derive(Drop)]
struct Entries<'a> {
    area: &'a mut [u16],
    end: usize,
    count: u16,
}

impl<'a> Entries<'a> {
    // One entry.
    fn put(&mut self, entry: &[u16])
        requires { (self.old.end + length entry.now ≤ length self.old.area.now) × (self.old.count < 65535) }
        ensures { PutsEntry self.old entry.now self.new }
    {
        self.end = put_all(self.area, self.end, entry);
        self.count += 1;
    }
}

// The entry of the line at `at`, unless the line goes.
fn keep_line(page: &Page, at: usize, lines: &[u16], entries: &mut Entries<'_>)
    requires { LineIn page.now at × (entries.old.end + step_at page.now at ≤ length entries.old.area.now) × (entries.old.count < 65535) }
    ensures { PutsLines entries.old (kept_line (lines_in lines.now) (line_at (drop at page.now))) entries.new }
{
    if line_goes(page, at, lines) {
        return;
    }
    let line = page.entry(at);
    let a = page.numbers;
    let behind = at + span_of(line.kind, line.y);
    entries.put(&a[at..behind]);
}

// The entries of the page's lines that stay, from where its lines begin.
fn keep_lines(page: &Page, lines: &[u16], entries: &mut Entries<'_>)
    requires { (sound page.now ≡ true) × (used_of page.now ≤ length entries.old.area.now) × (entries.old.end ≡ first_line page.now) × (entries.old.count ≡ 0) }
    ensures { LinesKept page.now (lines_in lines.now) entries.old entries.new }
{
    for at in page.lines() {
        keep_line(page, at, lines, entries);
    }
}

// The fact that the trial gives c, if it names c.
fn put_fact(lines: &[u16], c: u16, entries: &mut Entries<'_>)
    requires { (entries.old.end + 4 ≤ length entries.old.area.now) × (entries.old.count < 65535) }
    ensures { PutsLines entries.old (fact_if c (tried (lines_in lines.now) c)) entries.new }
{
    if let Some(ends) = trial_gives(lines, c) {
        entries.put(&[c, 0, ends.low, ends.high]);
    }
}

// The facts that the trial gives the n conditions, in their order.
fn put_facts(lines: &[u16], n: u16, entries: &mut Entries<'_>)
    requires { FactsFit n entries.old }
    ensures { FactsWrote (lines_in lines.now) n entries.old entries.new }
{
    for c in 0..n {
        put_fact(lines, c, entries);
    }
}

// The area of the page that the lines of a trial change: four numbers for each line, its trial, condition, low and high. The count of lines
// and the used length are written last.
pub fn change(page: &Page, lines: &[u16], area: &mut [u16])
    requires { (sound page.now ≡ true) × (14852 ≤ length area.old) }
    ensures { area.new ≡ changed_area page.now lines.now ++ drop (used_of (changed_area page.now lines.now)) area.old }
{
    let n = page.conditions();
    let first = 4 + n as usize;
    let end = put_all(area, 0, &page.numbers[..first]);
    let mut entries = Entries {
        area,
        end,
        count: 0,
    };
    keep_lines(page, lines, &mut entries);
    put_facts(lines, n, &mut entries);
    let (end, count) = (entries.end, entries.count);
    area[2] = count;
    area[3] = end as u16;
}
