// A page whose readings are solved, and the answers to its Q lines.
ghost use Rattle.semantics.specs.Area.{page_of};
ghost use Rattle.solve.specs.Figures.{Figures};

use crate::put_answer;
use page::Page;
use print::Text;
use value::Ends;

// A page, and low and high of each of its queries, in page order, in the plain and in the closed reading.
#[derive(Clone, Copy)]
pub struct Solved<'a> {
    pub page: &'a Page<'a>,
    pub plain: &'a [u16],
    pub closed: &'a [u16],
    ghost figures: { Figures (page_of page.now) plain.now closed.now },
}

impl Solved<'_> {
    ghost use Rattle.std.specs.Prelude.{◌≡◌, ◌+◌, ◌*◌, ◌<◌, length, get_or};
    ghost use Rattle.semantics.specs.Area.{count_of};
    ghost use Rattle.page.specs.Places.{LineIn};
    ghost use Rattle.print.specs.Texts.{Room};
    ghost use Rattle.solve.specs.Asked.{reading_of};
    ghost use Rattle.answers.specs.Printing.{SmallFigures, figured, PutLine, PutLines};

    // Low and high of the query with the number i, in a reading.
    fn ends(&self, reading: u16, i: u16) -> Ends
        requires { i < 1536 }
        ensures { record { low = result.low; high = result.high } ≡ figured self.now.plain.now self.now.closed.now (reading_of reading) i }
    {
        let figures = if reading == 0 {
            self.plain
        } else {
            self.closed
        };
        let at = 2 * i as usize;
        Ends {
            low: figures[at],
            high: figures[at + 1],
        }
    }

    // The answer to the line at `at`, behind the bytes of `lead`, if it is a Q line: its figures are those of the query with the number
    // `count`. Answers how many answers there are then.
    fn put_line(&self, at: usize, count: u16, lead: &[u8], text: &mut Text<'_>) -> u16
        requires { LineIn self.now.page.now at × (get_or self.now.page.now (at + 1) 0 ≡ 6 → SmallFigures self.now.plain.now self.now.closed.now (reading_of (get_or self.now.page.now (at + 2) 0)) count) × Room text.old (14 + length lead.now) }
        ensures { PutLine self.now.page.now at self.now.plain.now self.now.closed.now lead.now count text.old text.new result }
    {
        let line = self.page.entry(at);
        if line.kind != 6 {
            return count;
        }
        let reading = line.x;
        text.put_bytes(lead);
        put_answer(text, reading, line.condition, self.ends(reading, count));
        count + 1
    }

    // The answers to the Q lines, in page order, each behind the bytes of `lead`; answers how many they are.
    pub fn put_lines(&self, lead: &[u8], text: &mut Text<'_>) -> u16
        requires { Room text.old ((14 + length lead.now) * count_of self.now.page.now) }
        ensures { PutLines (page_of self.now.page.now) lead.now (page_of self.now.page.now).lines 0 text.old text.new result }
    {
        let mut count = 0;
        for at in self.page.lines() {
            count = self.put_line(at, count, lead, text);
        }
        count
    }
}
