// The functions that C calls. Each makes one call of the engine and hands its answer over as numbers.
#![tactic(auto)]

ghost use Rattle.std.specs.Prelude.{◌≡◌, ◌+◌, ◌≤◌, length, take, drop};
ghost use Rattle.semantics.specs.ReadPage.{read_of, line_of, start_of};
ghost use Rattle.semantics.specs.Operation.{open_of, evaluate_of, drive_of, value_of, line_held_of, drive_workspace, closed_workspace};
ghost use Rattle.semantics.specs.Stalls.{first, second, open_stall, evaluate_stall, turn_of};
ghost use Rattle.reach.specs.Opening.{opening_of};
ghost use Rattle.semantics.specs.SmallPages.{small_of};
ghost use Rattle.semantics.specs.Season.{season_of};
ghost use Rattle.run.specs.Answers.{status_if, evaluate_answer_of, drive_answer_of};
ghost use Rattle.stalls.specs.Answers.{turn_answer_of};
ghost use Rattle.closed.specs.Answer.{closing_told};
ghost use Rattle.capi.specs.Codes.{minus, status_code, answer_code, taken_or, line_or, interval_or, open_code, counts_or, read_code, line_told, place_told, closed_code, rounds_or, ClosedCall, LayersCall, PicksCall, rest_told, turn_code, stall_told, first_or, second_or, FollowersCall, small_code, season_code, pair_told, figures_or};

use reach::Opened;
use refusal::Refusal;
use run::{Drove, Told};
use stalls::{Stall, TurnError, Turned};

// Minus the number of a refusal.
fn minus(number: u8) -> i32
    ensures { result ≡ minus number }
{
    -(number as i32)
}

// 1 at rest, 0 not.
fn rest_code(rest: bool) -> i32
    ensures { result ≡ status_code (status_if rest) }
{
    i32::from(rest)
}

// Read a page: the used length, or minus 1, 2, 5, 3, 4, 21, 22, 23, 24 or 6.
#[unsafe(no_mangle)]
pub extern "C" fn simjorad_read(
    text: &[u8],
    area: &mut [u16],
    line: &mut u32,
    place: &mut u32,
) -> i32
    ensures code { result ≡ read_code (read_of text.now area.old).answer }
    ensures area { area.new ≡ (read_of text.now area.old).area }
    ensures line { line.new ≡ line_told (read_of text.now area.old).answer }
    ensures place { place.new ≡ place_told (read_of text.now area.old).answer }
{
    match reader::read_page(text, area) {
        Ok(used) => {
            *line = 0;
            *place = 0;
            used as i32
        }
        Err(refusal) => {
            *line = refusal.line as u32;
            *place = refusal.place as u32;
            minus(refusal.cause.number() as u8)
        }
    }
}

// Show a line: its length, and where it starts.
#[unsafe(no_mangle)]
pub extern "C" fn simjorad_show_line(text: &[u8], number: usize, start: &mut usize) -> usize
    ensures line { take result (drop start.new text.now) ≡ line_of text.now number }
    ensures inside { start.new + result ≤ length text.now }
    ensures begins { start.new ≡ start_of text.now number }
    ensures spans { result ≡ length (line_of text.now number) }
{
    let span = reader::find_line(text, number);
    *start = span.start;
    span.end - span.start
}

// What an opening answers: 0, or minus a refusal; the counts are told unless it is refused.
fn open_code(
    answer: Result<Opened, Refusal>,
    reached: &mut u32,
    edges: &mut u32,
    bound: &mut u32,
    passes: &mut u32,
) -> i32
    ensures code { result ≡ open_code (opening_of answer) }
    ensures counts { record { reached = reached.new; edges = edges.new; bound = bound.new; passes = passes.new } ≡ counts_or (record { reached = reached.old; edges = edges.old; bound = bound.old; passes = passes.old }) (opening_of answer) }
{
    match answer {
        Ok(opened) => {
            *reached = opened.reached;
            *edges = opened.edges;
            *bound = opened.bound;
            *passes = opened.passes;
            0
        }
        Err(no_run) => minus(no_run.number()),
    }
}

// Open a run: 0, or minus 10, 11, 12 or 13.
#[unsafe(no_mangle)]
pub extern "C" fn simjorad_open(
    page: &[u16],
    queries: &[u16],
    run: &mut [u16],
    reached: &mut u32,
    edges: &mut u32,
    bound: &mut u32,
    passes: &mut u32,
) -> i32
    ensures code { result ≡ open_code (open_of page.now queries.now run.old).answer }
    ensures area { run.new ≡ (open_of page.now queries.now run.old).run }
    ensures counts { record { reached = reached.new; edges = edges.new; bound = bound.new; passes = passes.new } ≡ counts_or (record { reached = reached.old; edges = edges.old; bound = bound.old; passes = passes.old }) (open_of page.now queries.now run.old).answer }
{
    let answer = reach::open_run(page, queries, run);
    open_code(answer, reached, edges, bound, passes)
}

// What an evaluation answers: 1 changed, 0 unchanged, or minus a refusal.
fn evaluate_code(answer: Result<Told, Refusal>) -> i32
    ensures { result ≡ answer_code (evaluate_answer_of answer) }
{
    match answer {
        Ok(told) => i32::from(told.changed),
        Err(no_evaluation) => minus(no_evaluation.number()),
    }
}

// Evaluate: 1 changed, 0 unchanged, or minus 10, 14, 15 or 16.
#[unsafe(no_mangle)]
pub extern "C" fn simjorad_evaluate(page: &[u16], run: &mut [u16], condition: u32) -> i32
    ensures code { result ≡ answer_code (evaluate_of page.now run.old condition).answer }
    ensures area { run.new ≡ (evaluate_of page.now run.old condition).run }
{
    let answer = run::evaluate(page, run, condition);
    evaluate_code(answer)
}

// What a drive answers: 1 rest, 0 spent, or minus a refusal; the count and the line are told unless it is refused.
fn drive_code(answer: Result<Drove, Refusal>, taken: &mut u32, line: &mut u32) -> i32
    ensures code { result ≡ answer_code (drive_answer_of answer) }
    ensures count { taken.new ≡ taken_or taken.old (drive_answer_of answer) }
    ensures line { line.new ≡ line_or line.old (drive_answer_of answer) }
{
    match answer {
        Ok(drove) => {
            *taken = drove.taken;
            *line = drove.line as u32;
            rest_code(drove.rest)
        }
        Err(no_drive) => minus(no_drive.number()),
    }
}

// Drive: 1 rest, 0 spent, or minus 10 or 14.
#[unsafe(no_mangle)]
pub extern "C" fn simjorad_drive(
    page: &[u16],
    run: &mut [u16],
    allowance: u32,
    taken: &mut u32,
    line: &mut u32,
) -> i32
    ensures code { result ≡ answer_code (drive_of page.now run.old allowance).answer }
    ensures area { run.new ≡ (drive_of page.now run.old allowance).run }
    ensures count { taken.new ≡ taken_or taken.old (drive_of page.now run.old allowance).answer }
    ensures line { line.new ≡ line_or line.old (drive_of page.now run.old allowance).answer }
{
    let answer = run::drive(page, run, allowance);
    drive_code(answer, taken, line)
}

// Drive, with an index in the workspace.
#[unsafe(no_mangle)]
pub extern "C" fn simjorad_drive_indexed(
    page: &[u16],
    run: &mut [u16],
    workspace: &mut [u16],
    allowance: u32,
    taken: &mut u32,
    line: &mut u32,
) -> i32
    ensures code { result ≡ answer_code (drive_of page.now run.old allowance).answer }
    ensures area { run.new ≡ (drive_of page.now run.old allowance).run }
    ensures workspace { workspace.new ≡ drive_workspace page.now run.old workspace.old }
    ensures count { taken.new ≡ taken_or taken.old (drive_of page.now run.old allowance).answer }
    ensures line { line.new ≡ line_or line.old (drive_of page.now run.old allowance).answer }
{
    let answer = run::drive_indexed(page, run, workspace, allowance);
    drive_code(answer, taken, line)
}

// Value: 1 if the run is at rest, 0 if not, or minus 10, 14, 15 or 17.
#[unsafe(no_mangle)]
pub extern "C" fn simjorad_value(
    page: &[u16],
    run: &[u16],
    condition: u32,
    low: &mut u16,
    high: &mut u16,
) -> i32
    ensures code { result ≡ answer_code (value_of page.now run.now condition) }
    ensures interval { record { low = low.new; high = high.new } ≡ interval_or (record { low = low.old; high = high.old }) (value_of page.now run.now condition) }
{
    match run::value(page, run, condition) {
        Ok(held) => {
            *low = held.low;
            *high = held.high;
            rest_code(held.rest)
        }
        Err(no_value) => minus(no_value.number()),
    }
}

// Line held: the line, or minus 10, 14, 15 or 17.
#[unsafe(no_mangle)]
pub extern "C" fn simjorad_line(page: &[u16], run: &[u16], condition: u32) -> i32
    ensures { result ≡ answer_code (line_held_of page.now run.now condition) }
{
    match run::line_held(page, run, condition) {
        Ok(line) => line as i32,
        Err(no_line) => minus(no_line.number()),
    }
}

// What a closed reading answers: 0, or minus a refusal; the count of rounds goes to `rounds`.
fn closed_code(answer: Result<u32, Refusal>, rounds: &mut u32) -> i32
    ensures code { result ≡ closed_code (closing_told answer) }
    ensures rounds { rounds.new ≡ rounds_or rounds.old (closing_told answer) }
{
    match answer {
        Ok(k) => {
            *rounds = k;
            0
        }
        Err(no_reading) => minus(no_reading.number()),
    }
}

// Closed reading: 0, or minus 10, 11, 12, 18 or 19.
#[unsafe(no_mangle)]
pub extern "C" fn simjorad_closed(
    page: &[u16],
    queries: &[u16],
    scratch: &mut [u16],
    answers: &mut [u16],
    rounds: &mut u32,
) -> i32
    ensures { ClosedCall result rounds.old rounds.new page.now queries.now scratch.old answers.old scratch.new answers.new }
{
    let answer = closed::closed_reading(page, queries, scratch, answers);
    closed_code(answer, rounds)
}

// Closed reading, with an index in the workspace.
#[unsafe(no_mangle)]
pub extern "C" fn simjorad_closed_indexed(
    page: &[u16],
    queries: &[u16],
    scratch: &mut [u16],
    answers: &mut [u16],
    workspace: &mut [u16],
    rounds: &mut u32,
) -> i32
    ensures call { ClosedCall result rounds.old rounds.new page.now queries.now scratch.old answers.old scratch.new answers.new }
    ensures workspace { workspace.new ≡ closed_workspace page.now queries.now scratch.old answers.old workspace.old }
{
    let answer = closed::closed_indexed(page, queries, scratch, answers, workspace);
    closed_code(answer, rounds)
}

// The check for loops through an absence: 0, or minus 10, 31 or 30.
#[unsafe(no_mangle)]
pub extern "C" fn simjorad_layers(page: &[u16], layers: &mut [u16], condition: &mut u32) -> i32
    ensures { LayersCall result condition.new page.now layers.old layers.new }
{
    *condition = 0;
    match layers::check_layers(page, layers) {
        Ok(()) => 0,
        Err(no_layers) => {
            *condition = no_layers.condition() as u32;
            minus(no_layers.number())
        }
    }
}

// The check of picks and figures: 0, or minus 10, 11, 12, 50, 51 or 52.
#[unsafe(no_mangle)]
pub extern "C" fn simjorad_check_picks(
    page: &[u16],
    queries: &[u16],
    picks: &[u16],
    figures: &[u16],
    place: &mut u32,
) -> i32
    ensures { PicksCall result place.new page.now queries.now picks.now figures.now }
{
    *place = 0;
    match picks::check_picks(page, queries, picks, figures) {
        Ok(()) => 0,
        Err(not_accepted) => {
            *place = not_accepted.place();
            minus(not_accepted.number())
        }
    }
}

// Open the first stall's run: 0, or minus 10, 60, 11 or 12.
#[unsafe(no_mangle)]
pub extern "C" fn simjorad_open_first(
    page: &[u16],
    area: &mut [u16],
    queries: &[u16],
    reached: &mut u32,
    edges: &mut u32,
    bound: &mut u32,
    passes: &mut u32,
) -> i32
    ensures code { result ≡ open_code (open_stall page.now first queries.now area.old).answer }
    ensures area { area.new ≡ (open_stall page.now first queries.now area.old).run }
    ensures counts { record { reached = reached.new; edges = edges.new; bound = bound.new; passes = passes.new } ≡ counts_or (record { reached = reached.old; edges = edges.old; bound = bound.old; passes = passes.old }) (open_stall page.now first queries.now area.old).answer }
{
    let answer = stalls::open_stall(page, Stall::First, area, queries);
    open_code(answer, reached, edges, bound, passes)
}

// Open the second stall's run: 0, or minus 10, 60, 11 or 12.
#[unsafe(no_mangle)]
pub extern "C" fn simjorad_open_second(
    page: &[u16],
    area: &mut [u16],
    queries: &[u16],
    reached: &mut u32,
    edges: &mut u32,
    bound: &mut u32,
    passes: &mut u32,
) -> i32
    ensures code { result ≡ open_code (open_stall page.now second queries.now area.old).answer }
    ensures area { area.new ≡ (open_stall page.now second queries.now area.old).run }
    ensures counts { record { reached = reached.new; edges = edges.new; bound = bound.new; passes = passes.new } ≡ counts_or (record { reached = reached.old; edges = edges.old; bound = bound.old; passes = passes.old }) (open_stall page.now second queries.now area.old).answer }
{
    let answer = stalls::open_stall(page, Stall::Second, area, queries);
    open_code(answer, reached, edges, bound, passes)
}

// Evaluate a condition of the first stall: 1 changed, 0 unchanged, or minus 10, 60, 14, 15 or 16.
#[unsafe(no_mangle)]
pub extern "C" fn simjorad_evaluate_first(page: &[u16], area: &mut [u16], condition: u32) -> i32
    ensures code { result ≡ answer_code (evaluate_stall page.now first area.old condition).answer }
    ensures area { area.new ≡ (evaluate_stall page.now first area.old condition).run }
{
    let answer = stalls::evaluate_stall(page, Stall::First, area, condition);
    evaluate_code(answer)
}

// Evaluate a condition of the second stall: 1 changed, 0 unchanged, or minus 10, 60, 14, 15 or 16.
#[unsafe(no_mangle)]
pub extern "C" fn simjorad_evaluate_second(page: &[u16], area: &mut [u16], condition: u32) -> i32
    ensures code { result ≡ answer_code (evaluate_stall page.now second area.old condition).answer }
    ensures area { area.new ≡ (evaluate_stall page.now second area.old condition).run }
{
    let answer = stalls::evaluate_stall(page, Stall::Second, area, condition);
    evaluate_code(answer)
}

// 1 if a stall rests, 0 if not: beside `rest_code`, since C has a uint32_t here.
fn rest_told(rest: bool) -> u32
    ensures { result ≡ rest_told (status_if rest) }
{
    u32::from(rest)
}

// What a turn answers: 0, or minus a refusal with the stall, 0 where there is none; the counts are told unless it is refused.
fn turn_code(
    answer: Result<Turned, TurnError>,
    taken_first: &mut u32,
    rest_first: &mut u32,
    taken_second: &mut u32,
    rest_second: &mut u32,
    stall: &mut u32,
) -> i32
    ensures code { result ≡ turn_code (turn_answer_of answer) }
    ensures first { record { taken = taken_first.new; rest = rest_first.new } ≡ first_or (record { taken = taken_first.old; rest = rest_first.old }) (turn_answer_of answer) }
    ensures second { record { taken = taken_second.new; rest = rest_second.new } ≡ second_or (record { taken = taken_second.old; rest = rest_second.old }) (turn_answer_of answer) }
    ensures stall { stall.new ≡ stall_told (turn_answer_of answer) }
{
    match answer {
        Err(no_turn) => {
            *stall = no_turn.stall.map_or(0, |s| s.number() as u32);
            minus(no_turn.cause.number())
        }
        Ok(turn) => {
            *taken_first = turn.first.taken;
            *rest_first = rest_told(turn.first.rest);
            *taken_second = turn.second.taken;
            *rest_second = rest_told(turn.second.rest);
            *stall = 0;
            0
        }
    }
}

// A turn of both stalls: 0, or minus 10, 60 or 14.
#[unsafe(no_mangle)]
pub extern "C" fn simjorad_turn(
    page: &[u16],
    area: &mut [u16],
    allowance: u32,
    taken_first: &mut u32,
    rest_first: &mut u32,
    taken_second: &mut u32,
    rest_second: &mut u32,
    stall: &mut u32,
) -> i32
    ensures code { result ≡ turn_code (turn_of page.now area.old allowance).answer }
    ensures area { area.new ≡ (turn_of page.now area.old allowance).area }
    ensures first { record { taken = taken_first.new; rest = rest_first.new } ≡ first_or (record { taken = taken_first.old; rest = rest_first.old }) (turn_of page.now area.old allowance).answer }
    ensures second { record { taken = taken_second.new; rest = rest_second.new } ≡ second_or (record { taken = taken_second.old; rest = rest_second.old }) (turn_of page.now area.old allowance).answer }
    ensures stall { stall.new ≡ stall_told (turn_of page.now area.old allowance).answer }
{
    let answer = stalls::turn(page, area, allowance);
    turn_code(
        answer,
        taken_first,
        rest_first,
        taken_second,
        rest_second,
        stall,
    )
}

// How many conditions follow one: the count, or minus 10 or 15.
#[unsafe(no_mangle)]
pub extern "C" fn simjorad_followers(page: &[u16], condition: u32) -> i32
    ensures { FollowersCall result page.now condition }
{
    match followers::count_followers(page, condition) {
        Ok(count) => count as i32,
        Err(refusal) => minus(refusal.number()),
    }
}

// The text of a small page: its length, or minus 70 or 71.
#[unsafe(no_mangle)]
pub extern "C" fn simjorad_small_page(number: u32, buffer: &mut [u8]) -> i32
    ensures code { result ≡ small_code (small_of number buffer.old).answer }
    ensures buffer { buffer.new ≡ (small_of number buffer.old).buffer }
{
    match small::small_page(number, buffer) {
        Ok(n) => n as i32,
        Err(error) => minus(error.number()),
    }
}

// A season's figures: 0, or minus 80 or 81.
#[unsafe(no_mangle)]
pub extern "C" fn simjorad_season(
    pairs: &[u16],
    count: &mut u32,
    sum_low: &mut u32,
    sum_width: &mut u32,
    smallest: &mut u32,
    largest: &mut u32,
    mean: &mut u32,
    remainder: &mut u32,
    change: &mut i32,
    place: &mut u32,
) -> i32
    ensures code { result ≡ season_code (season_of pairs.now) }
    ensures figures { record { count = count.new; sum_low = sum_low.new; sum_width = sum_width.new; smallest = smallest.new; largest = largest.new; mean = mean.new; remainder = remainder.new; change = change.new } ≡ figures_or (record { count = count.old; sum_low = sum_low.old; sum_width = sum_width.old; smallest = smallest.old; largest = largest.old; mean = mean.old; remainder = remainder.old; change = change.old }) (season_of pairs.now) }
    ensures place { place.new ≡ pair_told (season_of pairs.now) }
{
    *place = 0;
    match season::season(pairs) {
        Err(no_figures) => {
            *place = no_figures.place();
            minus(no_figures.number())
        }
        Ok(f) => {
            let signed = f.change;
            *count = f.count;
            *sum_low = f.lows;
            *sum_width = f.widths;
            *smallest = f.smallest;
            *largest = f.largest;
            *mean = f.mean;
            *remainder = f.remainder;
            *change = signed;
            0
        }
    }
}
