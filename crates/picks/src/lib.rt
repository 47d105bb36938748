// The check of a simulator's picks and figures. It borrows no run area: the run that the picks make is held in a table of the low end of every
// literal, which a drive holds beside the run area, and in two sets of conditions.
#![tactic(auto)]

ghost use Rattle.std.specs.Prelude.{◌≡◌, true, ◌&&◌, ◌+◌, ◌*◌, ◌≤◌, ◌<◌, eqb, ltb, length, get_or, drop};
ghost use Rattle.std.proofs.Math.Option.{none};
ghost use Rattle.semantics.specs.Area.{page_of, top_of, conditions_of, line_at, all_under};
ghost use Rattle.semantics.specs.Call.{first_of};
ghost use Rattle.semantics.specs.Operation.{query_causes};
ghost use Rattle.semantics.specs.Page.{names};
ghost use Rattle.semantics.specs.Picks.{PicksOf};
ghost use Rattle.bits.specs.Words.{has};
ghost use Rattle.page.specs.Lines.{line_names};
ghost use Rattle.page.specs.Places.{LineIn};
ghost use Rattle.reach.specs.Sets.{Joins};
ghost use Rattle.value.specs.Table.{Grades};
ghost use Rattle.picks.specs.Answer.{number_of, place_of, checked_of, Judged};
ghost use Rattle.picks.specs.declared.PickError.TheVariants.{Refused};
ghost use Rattle.picks.specs.Book.{HoldSome, Evaluates};
ghost use Rattle.picks.specs.Figures.{table_at, Compared};

use bits::Set;
use index::Source;
use page::Page;
use refusal::Refusal;
use value::Ends;

// The head of the line at `at` waits if it is reached and the line is a rule that names c. The literals of a head that waits already are not
// looked at. It and `wake` stand beside worklist's, which find the head in a run area and mark it there: one pair for both takes a trait with four
// ghost members and their laws, and a struct of lent parts for each, to save eleven lines.
fn wake_head(page: &Page, at: usize, reached: &Set, waiting: &mut Set, c: u16)
    requires { LineIn page.now at }
    ensures { Joins (λ h. has reached.now.words h && (eqb (get_or page.now at 0) h && line_names (line_at (drop at page.now)) c)) (has waiting.old.words) (has waiting.new.words) }
{
    let h = page.entry(at).condition;
    if reached.contains(h) && !waiting.contains(h) && page.line_names(at, c) {
        waiting.insert(h);
    }
}

// Every reached condition with a rule that names c waits.
fn wake(page: &Page, reached: &Set, waiting: &mut Set, c: u16)
    ensures { Joins (λ h. has reached.now.words h && names (page_of page.now) h c) (has waiting.old.words) (has waiting.new.words) }
{
    for at in page.lines() {
        wake_head(page, at, reached, waiting, c);
    }
}

// What c holds.
fn held(values: &[u8], c: u16, top: u16) -> Ends
    requires { (2 * c + 1 < length values.now) × (get_or values.now (2 * c + 1) 0 ≤ top) }
    ensures { record { low = result.low; high = result.high } ≡ table_at top values.now c }
{
    let at = 2 * c as usize;
    Ends {
        low: values[at] as u16,
        high: top - values[at + 1] as u16,
    }
}

// An evaluation of c: it waits no longer and holds T of what is held; if that changed it, its dependants wait.
fn evaluate(page: &Page, reached: &Set, waiting: &mut Set, values: &mut [u8], c: u16)
    requires { (c < conditions_of page.now) × HoldSome page.now reached.now.words waiting.old.words values.old }
    ensures { Evaluates page.now c reached.now.words waiting.old.words values.old waiting.new.words values.new }
{
    let top = page.top();
    let source = Source::scanned(page);
    let new = body::body(&source, values, c);
    let old = held(values, c, top);
    waiting.remove(c);
    if old != new {
        ends::store(values, c, new.low, top - new.high);
        wake(page, reached, waiting, c);
    }
}

// Whether a pick is one of n conditions, and waits.
fn waits(waiting: &Set, n: u16, pick: u16) -> bool
    requires { n ≤ 512 }
    ensures { result ≡ (ltb pick n && has waiting.now.words pick) }
{
    pick < n && waiting.contains(pick)
}

// Whether the figures are low, high of each query, in list order.
fn figures_held(page: &Page, queries: &[u16], figures: &[u16], values: &[u8]) -> bool
    requires { (all_under (conditions_of page.now) queries.now ≡ true) × (length queries.now ≤ 16) × Grades (top_of page.now) (conditions_of page.now) values.now }
    ensures { Compared (top_of page.now) queries.now figures.now values.now result }
{
    if figures.len() != 2 * queries.len() {
        return false;
    }
    let top = page.top();
    let mut pairs = queries.iter().zip(figures.chunks_exact(2));
    pairs.all(|(&query, figure)| {
        let told = Ends {
            low: figure[0],
            high: figure[1],
        };
        told == held(values, query, top)
    })
}

// Why picks or figures are not accepted: the page or the queries are refused; a pick is not waiting, with its place; not at rest; wrong figures.
#[derive(Clone, Copy)]
pub enum PickError {
    Refused(Refusal),
    NotWaiting(u32),
    NotAtRest,
    WrongFigures,
}

impl PickError {
    // The number of the refusal.
    pub fn number(self) -> u8
        ensures { result ≡ number_of self }
    {
        match self {
            PickError::Refused(refusal) => refusal.number(),
            PickError::NotWaiting(_) => 50,
            PickError::NotAtRest => 51,
            PickError::WrongFigures => 52,
        }
    }

    // The place that is told with it, 0 for none, as C is told it.
    pub fn place(self) -> u32
        ensures { result ≡ place_of self }
    {
        match self {
            PickError::NotWaiting(place) => place,
            _ => 0,
        }
    }
}

impl From<Refusal> for PickError {
    ghost from_gives = { λ r e. e ≡ Refused r };

    fn from(cause: Refusal) -> Self {
        PickError::Refused(cause)
    }
}

// The check past 10, 11 and 12: the picks are evaluated in turn, from the opening. At the opening every condition holds [0;top], whose two
// literals have the low end 0, and exactly the reached conditions wait.
fn judge(page: &Page, queries: &[u16], picks: &[u16], figures: &[u16]) -> Result<(), PickError>
    requires { first_of (query_causes page.now queries.now) ≡ none }
    ensures { Judged (checked_of result) (page_of page.now) queries.now picks.now figures.now }
{
    let n = page.conditions();
    let reached = reach::spread(page, queries);
    let mut waiting = reached;
    let mut values = [0u8; 1024];
    for (i, &pick) in picks.iter().enumerate() {
        if !waits(&waiting, n, pick) {
            return Err(PickError::NotWaiting(i as u32 + 1));
        }
        evaluate(page, &reached, &mut waiting, &mut values, pick);
    }
    if !waiting.is_empty() {
        return Err(PickError::NotAtRest);
    }
    if !figures_held(page, queries, figures, &values) {
        return Err(PickError::WrongFigures);
    }
    Ok(())
}

// The check of picks and figures: 10 page area not sound, 11 fewer than 1 or more than 16 queries, 12 a query is C or more, 50 a pick is not of
// a waiting condition, 51 the run is not at rest after the last pick, 52 the figures are not the plain answers.
pub fn check_picks(
    page: &[u16],
    queries: &[u16],
    picks: &[u16],
    figures: &[u16],
) -> Result<(), PickError>
    ensures { PicksOf (checked_of result) page.now queries.now picks.now figures.now }
{
    let Some(page) = Page::of(page) else {
        return Err(PickError::Refused(Refusal::PageNotSound));
    };
    reach::check_queries(queries, page.conditions())?;
    judge(&page, queries, picks, figures)
}
