// A line of a list, `T,trial,cond,low,high`: parsed by its form, or read where it is known to have that form. What is out of range is for
// the caller to refuse.
ghost use Rattle.std.specs.Prelude.{◌≡◌, true, drop};
ghost use Rattle.semantics.specs.Trials.{is_trial};
ghost use Rattle.fields.specs.Cursor.{InText, fields_at};
ghost use Rattle.list.specs.Lines.{FrontAt, ParsedAs, Says};

use fields::{checked_number, number_before};
use lines::Pair;

// The numbers of a line.
#[derive(Clone, Copy)]
pub struct Trial {
    pub trial: u16,
    pub condition: u16,
    pub low: u16,
    pub high: u16,
}

// A line that has the form, and the place of the next line.
#[derive(Clone, Copy)]
pub struct Known {
    pub line: Trial,
    pub next: usize,
}

// The letter of a line.
const LETTER: u8 = b'T';

// The letter `T` and the two numbers behind it, the trial and the condition; none where the line has no form. Not `lines::parse_pair`: its contract
// speaks of the forms of a page's lines.
fn parse_front(bytes: &[u8], at: usize) -> Option<Pair>
    requires { InText bytes.now at }
    ensures { FrontAt bytes.now at result }
{
    if bytes[at] != LETTER {
        return None;
    }
    if bytes[at + 1] != b',' {
        return None;
    }
    let trial = number_before(bytes, at + 2, b',')?;
    let condition = number_before(bytes, trial.end, b',')?;
    Some(Pair {
        first: trial.value,
        second: condition.value,
        next: condition.end,
    })
}

// The line at a place; none where it has no form.
pub fn parse_trial(bytes: &[u8], at: usize) -> Option<Known>
    requires { InText bytes.now at }
    ensures { ParsedAs bytes.now at result }
{
    let front = parse_front(bytes, at)?;
    let low = number_before(bytes, front.next, b',')?;
    let high = number_before(bytes, low.end, b'\n')?;
    Some(Known {
        line: Trial {
            trial: front.first,
            condition: front.second,
            low: low.value,
            high: high.value,
        },
        next: high.end,
    })
}

// The line at a place, where it is known to have the form.
pub fn checked_trial(bytes: &[u8], at: usize) -> Known
    requires { InText bytes.now at × (is_trial (fields_at (drop at bytes.now)) ≡ true) }
    ensures { Says bytes.now at result.line result.next }
{
    let trial = checked_number(bytes, at + 2);
    let condition = checked_number(bytes, trial.end + 1);
    let low = checked_number(bytes, condition.end + 1);
    let high = checked_number(bytes, low.end + 1);
    Known {
        line: Trial {
            trial: trial.value,
            condition: condition.value,
            low: low.value,
            high: high.value,
        },
        next: high.end + 1,
    }
}
