// attach: reads a page from standard input and answers its Q lines. What it prints is made by `answers::answer_page`; here are one array for
// the input, one for the output, and the calls of the standard library.
#![tactic(auto)]

mod input;

use answers::answer_page;
use input::read_input;
use std::io;

fn main(rt: HostRuntime) -> io::Result<()> {
    // there is no heap: what is read, and what is printed, is the front of an array
    let mut text = [0u8; 65536];
    let n = read_input(&mut rt.stdin(), &mut text);
    let mut output = [0u8; 14353];
    let size = answer_page(&text[..n], &mut output);
    rt.write_all(&output[..size])
}
