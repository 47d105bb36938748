// What the program `attach` prints, written behind what a text holds.
ghost use Rattle.std.specs.Prelude.{◌≡◌, true};
ghost use Rattle.semantics.specs.Area.{sound, page_of};
ghost use Rattle.print.specs.Texts.{Room};
ghost use Rattle.answers.specs.Printing.{PutPage, PutOutput};

use crate::{Solved, put_end, put_refusal, put_top};
use page::Page;
use print::Text;

// The output for a page that is read: "a K query opens a run of its own", and nothing stands before an answer.
fn put_page(page: &Page, text: &mut Text<'_>)
    requires { (sound page.now ≡ true) × Room text.old 14353 }
    ensures { PutPage (page_of page.now) text.old text.new }
{
    let mut plain = [0u16; 3072];
    let mut closed = [0u16; 3072];
    solve::solve(page, &mut plain, &mut closed, true);
    let solved = Solved {
        page,
        plain: &plain,
        closed: &closed,
    };
    put_top(text, page.top());
    let count = solved.put_lines(b"", text);
    put_end(text, count as u32);
}

// The output for a text. The longest is 14,353 bytes.
pub fn put_output(text: &[u8], output: &mut Text<'_>)
    requires { Room output.old 14353 }
    ensures { PutOutput text.now output.old output.new }
{
    let mut area = [0u16; 12804];
    // what is read is a sound page, so `Page::of` need not test it
    match reader::read_page(text, &mut area) {
        Ok(_) => put_page(&Page { numbers: &area }, output),
        Err(refusal) => put_refusal(output, refusal.cause.number(), refusal.line),
    }
}
