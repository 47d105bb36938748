// A page with an index of it, or with none: where the lines of a condition and the dependants of a literal are looked up.
#![tactic(auto)]

ghost use Rattle.std.specs.Prelude.{◌≡◌, true, false, ℕ, ◌+◌, ◌≤◌, ◌<◌, ◌*◌, length, take, drop, MatchOption, is_some};
ghost use Rattle.semantics.specs.Area.{conditions_of};
ghost use Rattle.page.specs.Solvable.{solvable};
ghost use Rattle.index.specs.Parts.{Lines, Users, Index, LinesCut, UsersCut};
ghost use Rattle.index.specs.Lookup.{Sourced, LinesAre, HeadsAre, DependantsAre, Between, items_between};

use page::Page;
use std::marker::Model;

// A part of an index, cut in two: the group of the key t is the items from the place starts[t] up to starts[t + 1].
#[derive(Clone, Copy)]
struct Groups<'a> {
    starts: &'a [u16],
    items: &'a [u16],
}

// The parts of an index: the lines by head, and the dependants by literal. They are cut when the source is made, so that a look-up has only to
// read where its group begins and ends.
#[derive(Clone, Copy)]
struct Parts<'a> {
    lines: Groups<'a>,
    users: Groups<'a>,
}

// A clause sees the numbers of the page, and whether there is an index.
#[derive(Drop)]
pub struct Source<'a> {
    pub page: &'a Page<'a>,
    index: Option<Parts<'a>>,
}

impl<'a> Model for Source<'a> {
    ghost Value = { Sourced };

    ghost view = { λ s. record { area = s.page.now; indexed = is_some s.index } };

    ghost invariant = { λ s. MatchOption s.index (Unit {0}) (λ i. LinesCut s.page.now i.lines.starts.now i.lines.items.now × UsersCut s.page.now i.users.starts.now i.users.items.now) };
}

impl<'a> Groups<'a> {
    // Cuts a part whose first numbers, one more than there are keys, say where each group begins.
    fn of(part: &'a [u16], keys: usize) -> Self
        requires { keys + 1 ≤ length part.now }
        ensures { (result.starts.now ≡ take (keys + 1) part.now) × (result.items.now ≡ drop (keys + 1) part.now) }
    {
        let (starts, items) = part.split_at(keys + 1);
        Groups { starts, items }
    }

    // The items of the groups of the keys from t up to `end`.
    fn between(self, t: usize, end: usize) -> &'a [u16]
        requires { Between t end self.starts.now self.items.now }
        ensures { result.now ≡ items_between t end self.entry.starts.now self.entry.items.now }
    {
        &self.items[self.starts[t] as usize..self.starts[end] as usize]
    }
}

impl<'a> Source<'a> {
    // A page without an index: its lines are looked through.
    pub fn scanned(page: &'a Page<'a>) -> Self
        ensures { result ≡ record { area = page.now; indexed = false } }
    {
        Source { page, index: None }
    }

    // A page with the two parts of an index of it, wherever they lie.
    pub fn parted(page: &'a Page<'a>, lines: &'a [u16], users: &'a [u16]) -> Self
        requires { Lines page.now lines.now × Users page.now users.now }
        ensures { result ≡ record { area = page.now; indexed = true } }
    {
        let n = page.conditions() as usize;
        let parts = Parts {
            lines: Groups::of(lines, n),
            users: Groups::of(users, 2 * n),
        };
        Source {
            page,
            index: Some(parts),
        }
    }

    // A page with the index that was built in w. There is no heap, so its parts are the front and the rest of the slice that is lent.
    pub fn built(page: &'a Page<'a>, w: &'a [u16]) -> Self
        requires { Index page.now w.now }
        ensures { result ≡ record { area = page.now; indexed = true } }
    {
        let k = crate::lines_length(page);
        Source::parted(page, &w[..k], &w[k..])
    }

    // The same source as a value of its own: in a loop that changes numbers a compiler need not read its parts in each turn, nor ask whether they are there.
    pub fn again(&self) -> Source<'a>
        ensures { result ≡ self.now }
    {
        Source {
            page: self.page,
            index: self.index,
        }
    }

    // Does nothing: a proof learns here that the page passes its tests.
    pub fn recall(&self)
        ensures { solvable self.now.area ≡ true }
    {
        self.page.recall();
    }

    // Whether there is an index.
    pub fn is_indexed(&self) -> bool
        ensures { result ≡ self.now.indexed }
    {
        self.index.is_some()
    }

    // The places of the F and R lines of c, if there is an index.
    pub fn lines_of(&self, c: u16) -> Option<&'a [u16]>
        requires { c < conditions_of self.now.area }
        ensures found { MatchOption result (self.now.indexed ≡ false) (λ places. (self.now.indexed ≡ true) × LinesAre self.now.area c places.now) }
        ensures sound { solvable self.now.area ≡ true }
    {
        self.page.recall();
        let parts = self.index?;
        let t = c as usize;
        Some(parts.lines.between(t, t + 1))
    }

    // The heads of the rules that have the literal `code`, if there is an index.
    pub fn users_of(&self, code: u16) -> Option<&'a [u16]>
        requires { code < 2 * conditions_of self.now.area }
        ensures found { MatchOption result (self.now.indexed ≡ false) (λ heads. (self.now.indexed ≡ true) × HeadsAre self.now.area code heads.now) }
        ensures sound { solvable self.now.area ≡ true }
    {
        self.page.recall();
        let parts = self.index?;
        let t = code as usize;
        Some(parts.users.between(t, t + 1))
    }

    // The heads of the rules that name c, plainly or negated, if there is an index.
    pub fn dependants_of(&self, c: u16) -> Option<&'a [u16]>
        requires { c < conditions_of self.now.area }
        ensures found { MatchOption result (self.now.indexed ≡ false) (λ heads. (self.now.indexed ≡ true) × DependantsAre self.now.area c heads.now) }
        ensures sound { solvable self.now.area ≡ true }
    {
        self.page.recall();
        let parts = self.index?;
        let t = 2 * c as usize;
        Some(parts.users.between(t, t + 2))
    }
}
