// The first pass over a list: each line is parsed and checked. The lines up to the last byte 10 are a text that ends with byte 10, as the
// parser wants it. Bytes behind it form a line that is not ended.
ghost use Rattle.std.specs.Prelude.{◌≡◌, ◌≤◌};
ghost use Rattle.semantics.specs.Call.{first_of};
ghost use Rattle.fields.specs.Cursor.{InText};
ghost use Rattle.list.specs.Causes.{told};
ghost use Rattle.list.specs.Lines.{line_of};
ghost use Rattle.list.specs.Checks.{range_causes, order_causes, Ended, EndedPart, CheckedLine, LinesAs, CheckedAs};

use crate::parse::{Known, Trial, parse_trial};
use crate::{Cause, Refusal};

// The top and the number of conditions of the page, in which the numbers of a line lie.
#[derive(Clone, Copy)]
pub struct Limits {
    pub top: u16,
    pub conditions: u16,
}

// The condition and the ends of a line are in range.
fn check_range(line: Trial, limits: Limits) -> Result<(), Cause>
    ensures { told result ≡ first_of (range_causes limits.top limits.conditions (line_of line)) }
{
    if line.condition < limits.conditions && line.low <= line.high && line.high <= limits.top {
        return Ok(());
    }
    Err(Cause::Range)
}

// The trial of a line is not below that of the line before it.
fn check_order(trial: u16, before: u16) -> Result<(), Cause>
    ensures { told result ≡ first_of (order_causes before trial) }
{
    if trial < before {
        return Err(Cause::Order);
    }
    Ok(())
}

// The line at a place: its form first, then whether it holds byte 65,536 of the list, then its numbers.
fn check_line(bytes: &[u8], at: usize, before: u16, limits: Limits) -> Result<Known, Cause>
    requires { InText bytes.now at × (at ≤ 65535) }
    ensures { CheckedLine bytes.now at before limits.top limits.conditions result }
{
    let known = parse_trial(bytes, at).ok_or(Cause::Form)?;
    if 65536 <= known.next {
        return Err(Cause::Form);
    }
    check_range(known.line, limits)?;
    check_order(known.line.trial, before)?;
    Ok(known)
}

// The lines of a list that ends with byte 10 or is empty; answers how many there are. The parser says where the next line begins, so the
// place and the line's number go on by hand.
fn check_lines(bytes: &[u8], limits: Limits) -> Result<usize, Refusal>
    requires { Ended bytes.now }
    ensures { LinesAs bytes.now limits.top limits.conditions result }
{
    let mut at: usize = 0;
    let mut line: usize = 1;
    let mut before: u16 = 0;
    while at < bytes.len() {
        if line == 1025 {
            return Err(Cause::Form.at(line));
        }
        let known = check_line(bytes, at, before, limits).map_err(|cause| cause.at(line))?;
        before = known.line.trial;
        at = known.next;
        line += 1;
    }
    Ok(line - 1)
}

// How many bytes there are up to the last byte 10, it counted.
fn ended_length(bytes: &[u8]) -> usize
    ensures { EndedPart bytes.now result }
{
    bytes
        .iter()
        .rposition(|&b| b == b'\n')
        .map_or(0, |at| at + 1)
}

// The list as a whole: its ended lines, and then the line that is not ended. Answers how many lines there are.
pub fn check_list(bytes: &[u8], limits: Limits) -> Result<usize, Refusal>
    ensures { CheckedAs bytes.now limits.top limits.conditions result }
{
    let (ended, rest) = bytes.split_at(ended_length(bytes));
    let count = check_lines(ended, limits)?;
    if !rest.is_empty() {
        return Err(Cause::Form.at(count + 1));
    }
    Ok(count)
}
