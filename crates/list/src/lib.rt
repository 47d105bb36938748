// Read a list of trials, `T,trial,cond,low,high` in each line, in two passes: the first checks every line, and the second writes what they
// say when no refusal can follow.
#![tactic(auto)]

mod check;
mod parse;
mod write;

ghost use Rattle.std.specs.Prelude.{◌≡◌, ◌≤◌, length};
ghost use Rattle.list.specs.Answers.{ListAs};
ghost use Rattle.list.specs.Causes.{number_of};

use crate::check::{Limits, check_list};
use crate::write::write_trials;

// Why a list is refused.
#[derive(Clone, Copy, Debug, PartialEq, Eq)]
pub enum Cause {
    Form,
    Range,
    Order,
}

impl Cause {
    // The number of the refusal.
    pub fn number(self) -> u16
        ensures { result ≡ number_of self }
    {
        match self {
            Cause::Form => 40,
            Cause::Range => 41,
            Cause::Order => 42,
        }
    }

    // A refusal for it, told with a line.
    fn at(self, line: usize) -> Refusal
        ensures { result ≡ record { cause = self; line = line } }
    {
        Refusal { cause: self, line }
    }
}

// A refusal: its cause, and the line, from 1.
#[derive(Clone, Copy)]
pub struct Refusal {
    pub cause: Cause,
    pub line: usize,
}

// Reads the list for a page with such a top and so many conditions: four numbers for each line, at the front of `list`. Answers how many
// lines there are. A refused list leaves the slice as it is.
pub fn read_list(
    bytes: &[u8],
    top: u16,
    conditions: u16,
    list: &mut [u16],
) -> Result<usize, Refusal>
    requires { 4096 ≤ length list.old }
    ensures { ListAs bytes.now top conditions list.old list.new result }
{
    let count = check_list(bytes, Limits { top, conditions })?;
    write_trials(bytes, list);
    Ok(count)
}
