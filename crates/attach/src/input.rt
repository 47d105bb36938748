// Standard input, to its end.
ghost use Rattle.std.specs.Prelude.{take, IfSome};
ghost use Rattle.std.specs.Counts.{IsPrefixLen};
ghost use Rattle.std.specs.Io.{StartsWith};

use fill::read_full;
use std::io::Read;

// One read of what is not wanted; whether there was any.
fn skip_some(reader: &mut impl Read) -> bool {
    let mut space = [0u8; 4096];
    reader.read(&mut space).is_ok_and(|n| n > 0)
}

// Reads to the end of the input. A proved loop has to end, and nothing says that the input does: the turns have a number that no run uses up.
fn skip_rest(reader: &mut impl Read) {
    for _ in 0..u64::MAX {
        if !skip_some(reader) {
            break;
        }
    }
}

// Puts the input at the front of the buffer, and answers how many bytes that is; what has no room is read and dropped.
pub fn read_input<R: Read>(reader: &mut R, buffer: &mut [u8]) -> usize
    ensures bound { IsPrefixLen result buffer.new }
    ensures bytes { IfSome (R.remaining reader.old) (λ xs. StartsWith xs (take result buffer.new)) }
{
    let n = read_full(reader, buffer);
    if n == buffer.len() {
        skip_rest(reader);
    }
    n
}
