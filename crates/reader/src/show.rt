// Where a line ends, and where the next begins.
ghost use Rattle.std.specs.Prelude.{◌≤◌, length};
ghost use Rattle.reader.specs.Shown.{LineStop, NextLine};

// The place of the byte 10 that ends the line at a place, or the end of the text.
pub fn line_end(bytes: &[u8], at: usize) -> usize
    requires { at ≤ length bytes.now }
    ensures { LineStop bytes.now at result }
{
    let rest = &bytes[at..];
    at + rest.iter().position(|&b| b == b'\n').unwrap_or(rest.len())
}

// The place behind the line at a place.
pub fn next_line(bytes: &[u8], at: usize) -> usize
    requires { at ≤ length bytes.now }
    ensures { NextLine bytes.now at result }
{
    let end = line_end(bytes, at);
    if end < bytes.len() {
        return end + 1;
    }
    end
}
