// The second pass over a list that is accepted: the four numbers of each line are written. A line is known to have its form, so nothing of
// it is checked again.
ghost use Rattle.std.specs.Prelude.{◌≡◌, ◌+◌, ◌≤◌, length};
ghost use Rattle.std.proofs.lemmas.List.Edits.{sets};
ghost use Rattle.list.specs.Codes.{trial_code};
ghost use Rattle.list.specs.Lines.{line_of};
ghost use Rattle.list.specs.Checks.{LinesFit, codes_from};

use crate::parse::{Trial, checked_trial};

// The numbers of a line, from a place on. Numbers, and no array of structs: `read_list` promises what the slice holds as numbers, four a line.
fn put_trial(list: &mut [u16], at: usize, line: Trial)
    requires { at + 4 ≤ length list.old }
    ensures { list.new ≡ sets list.old at (trial_code (line_of line)) }
{
    list[at..at + 4].copy_from_slice(&[line.trial, line.condition, line.low, line.high]);
}

// The numbers of all lines. Each line tells where the next begins, so the places go on by hand.
pub fn write_trials(bytes: &[u8], list: &mut [u16])
    requires { LinesFit bytes.now 0 list.old 0 }
    ensures { list.new ≡ sets list.old 0 (codes_from bytes.now 0) }
{
    let mut at: usize = 0;
    let mut end: usize = 0;
    while at < bytes.len() {
        let known = checked_trial(bytes, at);
        put_trial(list, end, known.line);
        at = known.next;
        end += 4;
    }
}
