// Two runs on one page, in one shared area: opening and evaluating one of them, and a turn of evaluations that both share.
#![tactic(auto)]

ghost use Rattle.std.specs.Prelude.{◌≡◌, true, ◌≤◌, length, None};
ghost use Rattle.semantics.specs.Area.{sound, page_of};
ghost use Rattle.semantics.specs.RunArea.{run_sound};
ghost use Rattle.semantics.specs.Stalls.{first, second, beginning as Stalls·beginning, shared_length, part_of, open_stall, evaluate_stall, turn_of};
ghost use Rattle.reach.specs.Opening.{opening_of};
ghost use Rattle.run.specs.Answers.{Answered, evaluate_answer_of};
ghost use Rattle.stalls.specs.Answers.{stall_of, number_of_stall, turned_of, turn_answer_of, PartDrives};
ghost use Rattle.stalls.specs.Checks.{SharedChecked, PartPlaced, PartChecked};

use page::Page;
use reach::Opened;
use refusal::Refusal;
use run::{Counted, Told};

// The first stall's run, or the second's.
#[derive(Clone, Copy)]
pub enum Stall {
    First,
    Second,
}

impl Stall {
    // The number that the C interface hands back.
    pub fn number(self) -> u8
        ensures { result ≡ number_of_stall self }
    {
        match self {
            Stall::First => 1,
            Stall::Second => 2,
        }
    }
}

// Where the run of a stall begins in the shared area: the second at 3 × C.
fn beginning(page: &Page, stall: Stall) -> usize
    ensures { result ≡ Stalls·beginning (page_of page.now) (stall_of stall) }
{
    match stall {
        Stall::First => 0,
        Stall::Second => 3 * page.conditions() as usize,
    }
}

// 10 page area not sound, 60 shared area shorter than 6 × C.
fn check_shared<'a>(page: &'a [u16], area: &[u16]) -> Result<Page<'a>, Refusal>
    ensures { SharedChecked page.now area.now result }
{
    let Some(page) = Page::of(page) else {
        return Err(Refusal::PageNotSound);
    };
    if area.len() < 6 * page.conditions() as usize {
        return Err(Refusal::SharedShort);
    }
    Ok(page)
}

// The page, and where the part of a stall begins: 10 or 60.
fn part_at<'a>(page: &'a [u16], stall: Stall, area: &[u16]) -> Result<(Page<'a>, usize), Refusal>
    ensures { PartPlaced page.now stall area.now result }
{
    let page = check_shared(page, area)?;
    let at = beginning(&page, stall);
    Ok((page, at))
}

// Open the run of one stall: 10, 60, then as on its part alone.
pub fn open_stall(
    page: &[u16],
    stall: Stall,
    area: &mut [u16],
    queries: &[u16],
) -> Result<Opened, Refusal>
    ensures answer { opening_of result ≡ (open_stall page.now (stall_of stall) queries.now area.old).answer }
    ensures left { area.new ≡ (open_stall page.now (stall_of stall) queries.now area.old).run }
{
    let (page, at) = part_at(page, stall, area)?;
    reach::open_sound(&page, queries, &mut area[at..])
}

// Evaluate a condition of one stall: 10, 60, then as on its part alone.
pub fn evaluate_stall(
    page: &[u16],
    stall: Stall,
    area: &mut [u16],
    condition: u32,
) -> Result<Told, Refusal>
    ensures { Answered (evaluate_stall page.now (stall_of stall) area.old condition) (evaluate_answer_of result) area.new }
{
    let (page, at) = part_at(page, stall, area)?;
    run::evaluate_sound(&page, &mut area[at..], condition)
}

// A drive of one stall's part.
fn drive_part(page: &Page, stall: Stall, area: &mut [u16], allowance: u32) -> Counted
    requires { (sound page.now ≡ true) × (shared_length (page_of page.now) ≤ length area.old) × (run_sound (page_of page.now) (part_of (page_of page.now) (stall_of stall) area.old) ≡ true) }
    ensures { PartDrives page.now (stall_of stall) area.old allowance result.taken result.rest area.new }
{
    let at = beginning(page, stall);
    run::drive_counted(page, &mut area[at..], allowance)
}

// What each stall took in a turn, and whether it rests.
#[derive(Clone, Copy)]
pub struct Turned {
    pub first: Counted,
    pub second: Counted,
}

// Why a turn is refused, and the stall whose part is not sound, where that is why.
#[derive(Clone, Copy)]
pub struct TurnError {
    pub cause: Refusal,
    pub stall: Option<Stall>,
}

impl From<Refusal> for TurnError {
    ghost from_gives = { λ r e. e ≡ record { cause = r; stall = None } };

    fn from(cause: Refusal) -> Self {
        TurnError { cause, stall: None }
    }
}

// 14 the part of a stall is not sound.
fn check_part(page: &Page, stall: Stall, area: &[u16]) -> Result<(), TurnError>
    requires { (sound page.now ≡ true) × (shared_length (page_of page.now) ≤ length area.now) }
    ensures { PartChecked page.now stall area.now result }
{
    let at = beginning(page, stall);
    if worklist::run_sound(page, &area[at..]) {
        return Ok(());
    }
    Err(TurnError {
        cause: Refusal::RunNotSound,
        stall: Some(stall),
    })
}

// A turn that nothing refuses: the first stall its half, the second its half and what the first left of its own, the first what then remains.
fn turn_sound(page: &Page, area: &mut [u16], allowance: u32) -> Turned
    requires { (sound page.now ≡ true) × (shared_length (page_of page.now) ≤ length area.old) × (run_sound (page_of page.now) (part_of (page_of page.now) first area.old) ≡ true) × (run_sound (page_of page.now) (part_of (page_of page.now) second area.old) ≡ true) }
    ensures answer { turned_of result ≡ (turn_of page.now area.old allowance).answer }
    ensures left { area.new ≡ (turn_of page.now area.old allowance).area }
{
    let smaller = allowance / 2;
    let larger = allowance - smaller;
    let half = drive_part(page, Stall::First, area, larger);
    let used = half.taken;
    let second = drive_part(page, Stall::Second, area, allowance - used);
    let both = used + second.taken;
    let more = drive_part(page, Stall::First, area, allowance - both);
    let taken = used + more.taken;
    let rest = more.rest;
    let first = Counted { taken, rest };
    Turned { first, second }
}

// A turn of so many evaluations: 10, 60, then 14 with the stall, the first before the second.
pub fn turn(page: &[u16], area: &mut [u16], allowance: u32) -> Result<Turned, TurnError>
    ensures answer { turn_answer_of result ≡ (turn_of page.now area.old allowance).answer }
    ensures left { area.new ≡ (turn_of page.now area.old allowance).area }
{
    let page = check_shared(page, area)?;
    check_part(&page, Stall::First, area)?;
    check_part(&page, Stall::Second, area)?;
    Ok(turn_sound(&page, area, allowance))
}
