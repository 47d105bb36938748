// How far a condition reaches: the conditions that name it, directly or through others, as a set of 512 marks in eight words.
#![tactic(auto)]

ghost use Rattle.std.specs.Prelude.{◌≡◌, map, ◌≤◌, ◌<◌, ◌+◌, get_or, take, drop};
ghost use Rattle.semantics.specs.Area.{line_at, literal_of, page_of, conditions_of};
ghost use Rattle.semantics.specs.Followers.{FollowersOf};
ghost use Rattle.semantics.specs.Page.{mentions};
ghost use Rattle.page.specs.Lines.{line_names};
ghost use Rattle.page.specs.Places.{LineIn, RuleIn};
ghost use Rattle.followers.specs.Rows.{meets, Covers, LineFollowed, PageFollowed, FollowerRow};
ghost use Rattle.followers.specs.Answers.{count_answer_of};

use bits::Set;
use page::Page;
use refusal::Refusal;

// Whether some literal of the rule at `at`, plain or negated, is of a condition of the set.
fn literals_meet(page: &Page, at: usize, set: &Set) -> bool
    requires { RuleIn page.now at }
    ensures { result ≡ meets set.now.words (mentions (map literal_of (take (get_or page.now (at + 3) 0) (drop (at + 4) page.now)))) }
{
    page.literals(at).iter().any(|&code| set.contains(code / 2))
}

// Whether the line at `at` is an R line that names a condition of the set.
fn line_meets(page: &Page, at: usize, set: &Set) -> bool
    requires { LineIn page.now at }
    ensures { result ≡ meets set.now.words (line_names (line_at (drop at page.now))) }
{
    match page.entry(at).kind {
        1..=5 => literals_meet(page, at, set),
        _ => false,
    }
}

// The head of the line at `at` enters both sets, if it is not in the row and the line names a condition that is seen; answers how many are new.
fn follow_line(page: &Page, at: usize, seen: &mut Set, row: &mut Set) -> u32
    requires { LineIn page.now at × Covers seen.old.words row.old.words }
    ensures { LineFollowed page.now at seen.old.words row.old.words seen.new.words row.new.words result }
{
    let head = page.entry(at).condition;
    if row.contains(head) || !line_meets(page, at, seen) {
        return 0;
    }
    seen.insert(head);
    row.insert(head);
    1
}

// One pass over the lines, which uses what it has just found; answers how many conditions are new in the row.
fn pass(page: &Page, seen: &mut Set, row: &mut Set) -> u32
    requires { Covers seen.old.words row.old.words }
    ensures { PageFollowed (page_of page.now) seen.old.words row.old.words seen.new.words row.new.words result }
{
    let mut new: u32 = 0;
    for at in page.lines() {
        new += follow_line(page, at, seen, row);
    }
    new
}

// The row of the followers of c, by passes until one adds nothing, which alone tells how many there are. What is seen is the row and c, which
// enters the row only if a line of its own names one of those.
fn followers_of(page: &Page, c: u16) -> Set
    requires { c < conditions_of page.now }
    ensures { FollowerRow (page_of page.now) c result.words }
{
    page.recall();
    let mut row = Set::empty();
    let mut seen = Set::empty();
    seen.insert(c);
    while pass(page, &mut seen, &mut row) != 0 {}
    row
}

// How many conditions follow one.
pub fn count_followers(page: &[u16], condition: u32) -> Result<u16, Refusal>
    ensures { FollowersOf (count_answer_of result) page.now condition }
{
    let Some(page) = Page::of(page) else {
        return Err(Refusal::PageNotSound);
    };
    if page.conditions() as u32 <= condition {
        return Err(Refusal::ConditionOutOfRange);
    }
    let row = followers_of(&page, condition as u16);
    Ok(row.len() as u16)
}
