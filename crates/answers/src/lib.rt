// The lines that the programs print, each written behind what a text holds, and the output of the program `attach` for a text.
#![tactic(auto)]

ghost use Rattle.std.specs.Prelude.{◌≡◌, [], ◌∷◌, ◌+◌, ◌≤◌, ◌<◌, length};
ghost use Rattle.semantics.specs.Fields.{number_text, reading_letter};
ghost use Rattle.semantics.specs.Output.{top_fields, answer_fields, end_fields, refusal_fields, printed, Prints};
ghost use Rattle.print.specs.Texts.{Room, Puts};
ghost use Rattle.solve.specs.Asked.{reading_of};

mod output;
mod solved_page;

use output::put_output;
use print::{Text, put_all};
pub use solved_page::Solved;
use value::Ends;

// `top,` and the top.
pub fn put_top(text: &mut Text<'_>, top: u16)
    requires { Room text.old 8 × (top < 1000) }
    ensures { Puts text.old (printed (top_fields top ∷ [])) text.new }
{
    text.put_bytes(b"top,");
    text.put_field(top as u32, b'\n');
}

// `end,` and the count of answers.
pub fn put_end(text: &mut Text<'_>, count: u32)
    requires { Room text.old (4 + length (number_text count) + 1) }
    ensures { Puts text.old (printed (end_fields count ∷ [])) text.new }
{
    text.put_bytes(b"end,");
    text.put_field(count, b'\n');
}

// `refused,number,line`.
pub fn put_refusal(text: &mut Text<'_>, number: u16, line: usize)
    requires { Room text.old 17 × (number < 1000) × (line < 10000) }
    ensures { Puts text.old (printed (refusal_fields number line ∷ [])) text.new }
{
    text.put_bytes(b"refused,");
    text.put_field(number as u32, b',');
    text.put_field(line as u32, b'\n');
}

// The letter of a reading. A reading is a number, 0 for K and 1 for W, as it stands in the area that C reads (document 01, "Areas"): an enum would be
// made of it and matched at once.
fn letter(reading: u16) -> u8
    ensures { result ≡ reading_letter (reading_of reading) }
{
    if reading == 0 { b'K' } else { b'W' }
}

// Reading, condition, low, high.
fn put_answer(text: &mut Text<'_>, reading: u16, c: u16, ends: Ends)
    requires { Room text.old 14 × (c < 1000) × (ends.low < 1000) × (ends.high < 1000) }
    ensures { Puts text.old (printed (answer_fields (record { reading = reading_of reading; condition = c }) (record { low = ends.low; high = ends.high }) ∷ [])) text.new }
{
    text.put_byte(letter(reading));
    text.put_byte(b',');
    text.put_field(c as u32, b',');
    text.put_field(ends.low as u32, b',');
    text.put_field(ends.high as u32, b'\n');
}

// What the program `attach` prints for a text, at the front of a slice; answers how many bytes that is. A slice that is shorter is left as it
// is: the output is made in a local array of the greatest length first.
pub fn answer_page(text: &[u8], out: &mut [u8]) -> usize
    ensures { Prints text.now out.old out.new result }
{
    let mut bytes = [0u8; 14353];
    let mut output = Text::new(&mut bytes);
    put_output(text, &mut output);
    if output.at <= out.len() {
        put_all(out, 0, output.written());
    }
    output.at
}
