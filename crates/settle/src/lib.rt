// One end of every reached condition, settled while the other ends stay.
//
// `source`, `marks` and `scratch` go from call to call together. The first two are only read; the scratch is lent, changes, and is read between the
// steps. A struct of the three could keep three of the seven facts of `Half` (`long`, `marked`, `shut`), and the contracts would say the rest as now.
// `marks` stays a slice: an array of 512 marks would ask more of whoever calls `settle`.
#![tactic(auto)]

ghost use Rattle.std.specs.Prelude.{◌≡◌, true, ◌*◌, ◌<◌, length, get_or};
ghost use Rattle.semantics.specs.Area.{conditions_of, count_of};
ghost use Rattle.page.specs.Places.{place_of, LineIn};
ghost use Rattle.page.specs.Solvable.{solvable};
ghost use Rattle.value.specs.Table.{side};
ghost use Rattle.settle.specs.Figures.{FiguresOf};
ghost use Rattle.settle.specs.Scratch.{Half, Raised, Lookable, Looked, Settled};
ghost use Rattle.settle.specs.Waiting.{WaitSet, Woken, Waiting, MaybeWaiting};

use bits::Set;
use index::Source;
use page::Page;
use value::End;

// The heads of the rules that have the literal `code` wait, if there is an index; else nothing is done.
pub fn wake(source: &Source, words: &mut Set, code: u16)
    requires { (code < 2 * conditions_of source.now.area) × WaitSet (conditions_of source.now.area) words.old.words }
    ensures { Woken source.now.area source.now.indexed code words.old.words words.new.words }
{
    if let Some(heads) = source.users_of(code) {
        for &h in heads {
            words.insert(h);
        }
    }
}

// The end that is settled, how many conditions there are, where the table of the end begins, and what the end adds before a division.
#[derive(Clone, Copy)]
struct Figures {
    end: End,
    n: usize,
    base: usize,
    add: u16,
}

impl Figures {
    // The figures of a page at an end.
    fn of(page: &Page, end: End) -> Self
        ensures { (result.end ≡ end) × FiguresOf page.now result }
    {
        let n = page.conditions() as usize;
        let add = value::rounding(page.top(), end);
        match end {
            End::Lower => Figures {
                end,
                n,
                base: 0,
                add,
            },
            End::Upper => Figures {
                end,
                n,
                base: 2 * n,
                add,
            },
        }
    }

    // If the line at `at` is an F or R line and its head is reached, the end of the head becomes the line's where the line's is higher; whether it rose.
    #[tactic(auto, using(crate::proofs::Raising::mark_in, crate::proofs::Raising::place_in, crate::proofs::Raising::apart_here))]
    fn raise(self, page: &Page, at: usize, marks: &[bool], scratch: &mut [u16]) -> bool
        requires { Half (side self.end) page.now marks.now scratch.old × FiguresOf page.now self × LineIn page.now at }
        ensures raised { Raised (side self.end) page.now marks.now at scratch.old scratch.new result }
        ensures sound { solvable page.now ≡ true }
    {
        match page.kind(at) {
            0..=5 => {
                let h = page.condition(at) as usize;
                if !marks[h] {
                    return false;
                }
                let to = self.base + 2 * self.n;
                let values = &scratch[self.base..to];
                let v = value::line_end(page, at, values, self.end, self.add);
                let place = self.base + 2 * h;
                if v <= scratch[place] {
                    return false;
                }
                scratch[place] = v;
                true
            }
            _ => false,
        }
    }

    // Looks at the lines at the places and raises the ends of their heads; whether any rose.
    fn look(self, page: &Page, places: &[u16], marks: &[bool], scratch: &mut [u16]) -> bool
        requires { Half (side self.end) page.now marks.now scratch.old × FiguresOf page.now self × Lookable page.now places.now }
        ensures { Looked (side self.end) page.now marks.now (λ i. get_or places.now i 0) (length places.now) scratch.old scratch.new result }
    {
        let mut rose = false;
        for &at in places {
            if self.raise(page, at as usize, marks, scratch) {
                rose = true;
            }
        }
        rose
    }

    // The same with all lines, in page order.
    // Two loops: over any iterator the contract would have to say that it ends, that each place begins a line, and which places came.
    fn sweep(self, page: &Page, marks: &[bool], scratch: &mut [u16]) -> bool
        requires { Half (side self.end) page.now marks.now scratch.old × FiguresOf page.now self }
        ensures looked { Looked (side self.end) page.now marks.now (place_of page.now) (count_of page.now) scratch.old scratch.new result }
        ensures sound { solvable page.now ≡ true }
    {
        let mut rose = false;
        for at in page.lines() {
            if self.raise(page, at, marks, scratch) {
                rose = true;
            }
        }
        rose
    }

    // Sweeps until one raises no end; whether any rose.
    fn settle_sweeping(self, page: &Page, marks: &[bool], scratch: &mut [u16]) -> bool
        requires { Half (side self.end) page.now marks.now scratch.old × FiguresOf page.now self }
        ensures { Settled (side self.end) page.now marks.now scratch.old scratch.new result }
    {
        let mut changed = false;
        // a `while`: how many sweeps there are only the last one tells
        while self.sweep(page, marks, scratch) {
            changed = true;
        }
        changed
    }

    // Takes out one that waits after the other and looks at its lines; if it rose, whoever names it plainly waits. Whether any rose.
    fn drain(self, source: &Source, marks: &[bool], scratch: &mut [u16], words: &mut Set) -> bool
        requires { Half (side self.end) source.now.area marks.now scratch.old × FiguresOf source.now.area self × (source.now.indexed ≡ true) × Waiting (side self.end) source.now.area marks.now scratch.old words.old.words }
        ensures { Settled (side self.end) source.now.area marks.now scratch.old scratch.new result × WaitSet (conditions_of source.now.area) words.new.words }
    {
        source.recall();
        let page = source.page.again();
        let mut changed = false;
        let mut last = 0;
        // a `while`: the set grows while it is gone through
        while let Some(c) = words.any_from(last) {
            words.remove(c);
            let places = source.lines_of(c).unwrap();
            if self.look(&page, places, marks, scratch) {
                changed = true;
                wake(source, words, 2 * c);
            }
            last = c;
        }
        changed
    }
}

// Settles the ends over an index, or by sweeps; whether any rose.
pub fn settle(
    source: &Source,
    marks: &[bool],
    scratch: &mut [u16],
    words: &mut Set,
    end: End,
) -> bool
    requires { Half (side end) source.now.area marks.now scratch.old × MaybeWaiting (side end) source.now.area marks.now source.now.indexed scratch.old words.old.words × WaitSet (conditions_of source.now.area) words.old.words }
    ensures { Settled (side end) source.now.area marks.now scratch.old scratch.new result × WaitSet (conditions_of source.now.area) words.new.words }
{
    let figures = Figures::of(source.page, end);
    if source.is_indexed() {
        return figures.drain(&source.again(), marks, scratch, words);
    }
    figures.settle_sweeping(&source.page.again(), marks, scratch)
}
