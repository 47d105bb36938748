// A file in the folder that the program is run in.
ghost use Rattle.std.specs.Counts.{IsPrefixLen};

use fill::read_full;
use std::fs;
use std::rt::Files;

// Puts the file at the front of the buffer, and answers how many bytes that is: what has no room is not read, and a file that cannot be opened
// counts as empty.
pub fn read_file(rt: &impl Files, path: &[u8], buffer: &mut [u8]) -> usize
    ensures { IsPrefixLen result buffer.new }
{
    let Ok(name) = str::from_utf8(path) else {
        return 0;
    };
    let Ok(mut file) = fs::open(rt, name) else {
        return 0;
    };
    read_full(&mut file, buffer)
}
