// trials: tries the page in the file `page` against the list of sensor states in the file `trials`, and prints the answers of each trial. What is
// printed is made by the crate `trial`; here are the arrays, the calls of the standard library, and the loop over the trials.
#![tactic(auto)]

ghost use Rattle.std.specs.Prelude.{◌≡◌, true, ◌/◌, ◌≤◌, length};
ghost use Rattle.semantics.specs.Area.{sound, top_of, conditions_of};
ghost use Rattle.trial.specs.Parts.{ListIn};

mod input;

use input::read_file;
use page::Page;
use print::Text;
use std::io;
use trial::Trials;

// Prints the answers of each trial of the list and the last line.
fn print_trials(rt: &impl Print, page: &Page, list: &[u16], out: &mut [u8]) -> io::Result<()>
    requires { (sound page.now ≡ true) × ListIn (top_of page.now) (conditions_of page.now) list.now (length list.now / 4) × (27648 ≤ length out.old) }
{
    let mut count: u32 = 0;
    for lines in Trials::of(list) {
        let mut text = Text::new(out);
        count += trial::answer_trial(page, lines, &mut text) as u32;
        rt.write_all(text.written())?;
    }
    let mut text = Text::new(out);
    answers::put_end(&mut text, count);
    rt.write_all(text.written())
}

fn main(rt: HostRuntime) -> io::Result<()> {
    // there is no heap: what is read is the front of an array
    let mut text = [0u8; 65536];
    let n = read_file(&rt, b"page", &mut text);
    let mut bytes = [0u8; 65536];
    let m = read_file(&rt, b"trials", &mut bytes);
    let mut area = [0u16; 12804];
    let mut list = [0u16; 4096];
    let mut out = [0u8; 27648];
    let mut first = Text::new(&mut out);
    let begun = trial::begin(&text[..n], &bytes[..m], &mut area, &mut list, &mut first);
    rt.write_all(first.written())?;
    match begun {
        Ok(lines) => {
            // what is read is a sound page, so `Page::of` need not test it
            let page = Page { numbers: &area };
            print_trials(&rt, &page, &list[..4 * lines], &mut out)
        }
        Err(_) => Ok(()),
    }
}
