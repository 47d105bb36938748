// The operations Evaluate, Drive, Value and Line held.
#![tactic(auto)]

ghost use Rattle.std.specs.Prelude.{◌≡◌, true, ◌*◌, ◌≤◌, ◌<◌, length};
ghost use Rattle.semantics.specs.Area.{sound, page_of, conditions_of};
ghost use Rattle.semantics.specs.Operation.{evaluate_of, drive_of, value_of, line_held_of, drive_workspace, index_length};
ghost use Rattle.semantics.specs.RunArea.{mark_at, worklist_of, run_sound};
ghost use Rattle.semantics.specs.Worklist.{holder};
ghost use Rattle.worklist.specs.Evaluation.{Evaluated};
ghost use Rattle.worklist.specs.Waiting.{WordsMatch};
ghost use Rattle.run.specs.Answers.{Answered, Drives, evaluate_answer_of, value_answer_of, line_answer_of, drove_of, drive_answer_of};
ghost use Rattle.run.specs.Checks.{PageChecked, RunChecked, AreasChecked, InPage, Reading};
ghost use Rattle.run.specs.Steps.{drive_left, Ready, LastLine, Stopped};
ghost use Rattle.page.specs.Solvable.{solvable};
ghost use Rattle.step.specs.Beside.{Beside};

use bits::Set;
use index::Source;
use page::Page;
use refusal::Refusal;
use step::Before;

// Whether an evaluation changed the interval, and which line holds its low end. A line is told as a number, here and below, and none as 0, as the
// operations tell it.
#[derive(Clone, Copy)]
pub struct Told {
    pub changed: bool,
    pub line: u16,
}

// 10 page area not sound.
fn check_page(page: &[u16]) -> Result<Page, Refusal>
    ensures { PageChecked page.now result }
{
    Page::of(page).ok_or(Refusal::PageNotSound)
}

// 14 run area too short or not sound.
fn check_run(page: &Page, run: &[u16]) -> Result<(), Refusal>
    requires { sound page.now ≡ true }
    ensures { RunChecked page.now run.now result }
{
    if worklist::run_sound(page, run) {
        return Ok(());
    }
    Err(Refusal::RunNotSound)
}

// 10, then 14.
fn check_areas<'a>(page: &'a [u16], run: &[u16]) -> Result<Page<'a>, Refusal>
    ensures { AreasChecked page.now run.now result }
{
    let page = check_page(page)?;
    check_run(&page, run)?;
    Ok(page)
}

// The condition of that number: 15 it is C or more.
fn condition_in(page: &Page, condition: u32) -> Result<u16, Refusal>
    requires { sound page.now ≡ true }
    ensures { InPage page.now condition result }
{
    if page.conditions() as u32 <= condition {
        return Err(Refusal::ConditionOutOfRange);
    }
    Ok(condition as u16)
}

// The table of a run area: the low end of every literal at the intervals held.
fn fill(page: &Page, run: &[u16], values: &mut [u8; 1024])
    requires { run_sound (page_of page.now) run.now ≡ true }
    ensures held { Beside page.now run.now values.new }
    ensures sound { solvable page.now ≡ true }
{
    ends::fill(run, page.conditions(), page.top(), values);
}

// An evaluation that nothing refuses. The set of those that wait is not asked for, so it begins empty.
fn evaluate_waiting(page: &Page, run: &mut [u16], c: u16) -> Told
    requires { (run_sound (page_of page.now) run.old ≡ true) × (c < conditions_of page.now) × (mark_at run.old c ≡ 2) }
    ensures { Evaluated (page_of page.now) c run.old run.new result.changed × (result.line ≡ holder (page_of page.now) (worklist_of (page_of page.now) run.old) c) }
{
    let mut waiting = Set::empty();
    let mut values = [0u8; 1024];
    fill(page, run, &mut values);
    let source = Source::scanned(page);
    let before = step::held(run, c);
    let changed = step::step(&source, run, &mut waiting, &mut values, c);
    let line = step::line_told(page, run, &mut values, before);
    Told { changed, line }
}

// Evaluate on a page that is sound: 14, then 15, then 16 the condition is not waiting.
pub fn evaluate_sound(page: &Page, run: &mut [u16], condition: u32) -> Result<Told, Refusal>
    requires { sound page.now ≡ true }
    ensures { Answered (evaluate_of page.now run.old condition) (evaluate_answer_of result) run.new }
{
    check_run(page, run)?;
    let c = condition_in(page, condition)?;
    let waits = run[3 * c as usize + 2] == 2;
    if !waits {
        return Err(Refusal::NotWaiting);
    }
    Ok(evaluate_waiting(page, run, c))
}

// Evaluate: 10, then as on a page that is sound.
pub fn evaluate(page: &[u16], run: &mut [u16], condition: u32) -> Result<Told, Refusal>
    ensures { Answered (evaluate_of page.now run.old condition) (evaluate_answer_of result) run.new }
{
    let page = check_page(page)?;
    evaluate_sound(&page, run, condition)
}

// The page, and the condition that is read: 10, 14, 15, then 17 it is not reached.
fn reached<'a>(page: &'a [u16], run: &[u16], condition: u32) -> Result<(Page<'a>, u16), Refusal>
    ensures { Reading page.now run.now condition result }
{
    let page = check_areas(page, run)?;
    let c = condition_in(&page, condition)?;
    let marked = 1 <= run[3 * c as usize + 2];
    if !marked {
        return Err(Refusal::NotReached);
    }
    Ok((page, c))
}

// The interval that a condition holds, and whether the whole run is at rest.
#[derive(Clone, Copy)]
pub struct Held {
    pub low: u16,
    pub high: u16,
    pub rest: bool,
}

// Value: 10, 14, 15 or 17.
pub fn value(page: &[u16], run: &[u16], condition: u32) -> Result<Held, Refusal>
    ensures { value_answer_of result ≡ value_of page.now run.now condition }
{
    let (page, c) = reached(page, run, condition)?;
    let at = 3 * c as usize;
    Ok(Held {
        low: run[at],
        high: run[at + 1],
        rest: worklist::lowest_waiting(run, page.conditions()).is_none(),
    })
}

// The line that holds the low end of T of the intervals held, where nothing refuses.
fn line_now(page: &Page, run: &[u16], c: u16) -> u16
    requires { (run_sound (page_of page.now) run.now ≡ true) × (c < conditions_of page.now) }
    ensures { result ≡ holder (page_of page.now) (worklist_of (page_of page.now) run.now) c }
{
    let mut values = [0u8; 1024];
    fill(page, run, &mut values);
    let source = Source::scanned(page);
    let body = body::body(&source, &values, c);
    body::first_line(page, &values, c, body.low)
}

// Line held: 10, 14, 15 or 17.
pub fn line_held(page: &[u16], run: &[u16], condition: u32) -> Result<u16, Refusal>
    ensures { line_answer_of result ≡ line_held_of page.now run.now condition }
{
    let (page, c) = reached(page, run, condition)?;
    Ok(line_now(&page, run, c))
}

// What a drive takes, the line that its last evaluation told, 0 if it took none, and whether the run is then at rest.
#[derive(Clone, Copy)]
pub struct Drove {
    pub taken: u32,
    pub line: u16,
    pub rest: bool,
}

// Where the evaluations of a drive stop: how many were taken, whether none waits, and what the condition of the last one held before it.
#[derive(Clone, Copy)]
struct Steps {
    taken: u32,
    rest: bool,
    before: Option<Before>,
}

// The evaluations, lowest waiting condition first.
fn drive_steps(
    source: &Source,
    run: &mut [u16],
    waiting: &mut Set,
    values: &mut [u8],
    allowance: u32,
) -> Steps
    requires { (run_sound (page_of source.now.area) run.old ≡ true) × Beside source.now.area run.old values.old × WordsMatch (conditions_of source.now.area) run.old waiting.old.words }
    ensures { Stopped source.now.area run.old allowance run.new values.new result.taken result.rest result.before }
{
    source.recall();
    let mut taken: u32 = 0;
    let mut before = None;
    // a `while let`: an evaluation takes its condition out of the set and may put others in
    while let Some(c) = waiting.lowest() {
        let spent = allowance <= taken;
        if spent {
            return Steps {
                taken,
                rest: false,
                before,
            };
        }
        before = Some(step::held(run, c));
        step::step(source, run, waiting, values, c);
        taken += 1;
    }
    Steps {
        taken,
        rest: true,
        before,
    }
}

// The line that the last evaluation told, 0 if none was taken, as Drive tells it.
fn last_line(page: &Page, run: &[u16], values: &mut [u8], before: Option<Before>) -> u16
    requires { Ready page.now run.now values.old before }
    ensures { LastLine page.now run.now before result }
{
    match before {
        None => 0,
        Some(last) => step::line_told(page, run, values, last),
    }
}

// The table and the set are made of the run area, then the evaluations are taken.
fn drive_filled(source: &Source, run: &mut [u16], values: &mut [u8; 1024], allowance: u32) -> Steps
    requires { run_sound (page_of source.now.area) run.old ≡ true }
    ensures { Stopped source.now.area run.old allowance run.new values.new result.taken result.rest result.before }
{
    fill(source.page, run, values);
    let mut waiting = worklist::waiting_set(run, source.page.conditions());
    drive_steps(source, run, &mut waiting, values, allowance)
}

// A drive that nothing refuses.
fn drive_over(source: &Source, run: &mut [u16], allowance: u32) -> Drove
    requires { run_sound (page_of source.now.area) run.old ≡ true }
    ensures { Answered (drive_left source.now.area run.old allowance) (drove_of result) run.new }
{
    let mut values = [0u8; 1024];
    let steps = drive_filled(source, run, &mut values, allowance);
    let taken = steps.taken;
    let rest = steps.rest;
    let line = last_line(source.page, run, &mut values, steps.before);
    Drove { taken, line, rest }
}

// What a drive that tells no line takes, and whether the run is then at rest.
#[derive(Clone, Copy)]
pub struct Counted {
    pub taken: u32,
    pub rest: bool,
}

// A drive that nothing refuses and that tells no line, for a turn. It stands beside `drive_over`, which scans the page once more to find the line.
pub fn drive_counted(page: &Page, run: &mut [u16], allowance: u32) -> Counted
    requires { (sound page.now ≡ true) × (run_sound (page_of page.now) run.old ≡ true) }
    ensures { Drives (drive_of page.now run.old allowance) result.taken result.rest run.new }
{
    let mut values = [0u8; 1024];
    let source = Source::scanned(page);
    let steps = drive_filled(&source, run, &mut values, allowance);
    Counted {
        taken: steps.taken,
        rest: steps.rest,
    }
}

// The same with a line and with an index, which is built in the workspace.
pub fn drive_built(page: &Page, run: &mut [u16], workspace: &mut [u16], allowance: u32) -> Drove
    requires { (run_sound (page_of page.now) run.old ≡ true) × (length workspace.old ≡ index_length page.now) }
    ensures { Answered (drive_left page.now run.old allowance) (drove_of result) run.new }
{
    index::build(page, workspace);
    let source = Source::built(page, workspace);
    drive_over(&source, run, allowance)
}

// Drive: 10 or 14. The areas are tested once; an evaluation keeps the run area sound. Without a workspace and with one are two calls, since C has both.
pub fn drive(page: &[u16], run: &mut [u16], allowance: u32) -> Result<Drove, Refusal>
    ensures { Answered (drive_of page.now run.old allowance) (drive_answer_of result) run.new }
{
    let page = check_areas(page, run)?;
    Ok(drive_over(&Source::scanned(&page), run, allowance))
}

// Drive, with an index in a workspace that the caller lends. A workspace that is too short is not touched, and the page is scanned. There is no heap,
// so the index takes the front of what is lent.
pub fn drive_indexed(
    page: &[u16],
    run: &mut [u16],
    workspace: &mut [u16],
    allowance: u32,
) -> Result<Drove, Refusal>
    ensures answer { Answered (drive_of page.now run.old allowance) (drive_answer_of result) run.new }
    ensures workspace { workspace.new ≡ drive_workspace page.now run.old workspace.old }
{
    let page = check_areas(page, run)?;
    let m = index::index_length(&page);
    if workspace.len() < m {
        return Ok(drive_over(&Source::scanned(&page), run, allowance));
    }
    let drove = drive_built(&page, run, &mut workspace[..m], allowance);
    index::erase(workspace, m);
    Ok(drove)
}
