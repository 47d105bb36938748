// Sets of up to 512 conditions as eight words of 64 bits.
#![tactic(auto)]

ghost use Rattle.std.specs.Prelude.{◌≡◌, ◌↔◌, ◌<◌, ℕ, false, not, length, IsTrue};
ghost use Rattle.fixpoint.specs.Sum.{count};
ghost use Rattle.bits.specs.Words.{has, Inserted, Removed, Absorbed};
ghost use Rattle.bits.specs.Sets.{Nobody, Member, LowestIn, AnyIn, TakesOut};
ghost use Rattle.std.specs.Iterator.{at_most};
ghost use Rattle.std.specs.Option.{ForSome, ForNone};

// The bit c % 64 of the word c / 64 tells whether c is in the set.
#[derive(Clone, Copy, PartialEq, Eq)]
pub struct Set {
    words: [u64; 8],
    ghost eight: { length words ≡ 8 },
}

impl Set {
    // The set of nobody.
    pub fn empty() -> Self
        ensures { (c : ℕ) → has result.words c ≡ false }
    {
        Set { words: [0; 8] }
    }

    // Puts c into the set; whether it is new.
    pub fn insert(&mut self, c: u16) -> bool
        requires { c < 512 }
        ensures set { Inserted c self.old.words self.new.words }
        ensures new { result ≡ not (has self.old.words c) }
    {
        let i = c as usize;
        let old = self.words[i / 64];
        self.words[i / 64] = old | 1u64 << (i % 64);
        (old >> (i % 64)) % 2 == 0
    }

    // Whether c is in the set.
    pub fn contains(&self, c: u16) -> bool
        requires { c < 512 }
        ensures { result ≡ has self.now.words c }
    {
        let i = c as usize;
        (self.words[i / 64] >> (i % 64)) % 2 == 1
    }

    // Takes c out of the set.
    pub fn remove(&mut self, c: u16)
        requires { c < 512 }
        ensures { Removed c self.old.words self.new.words }
    {
        let i = c as usize;
        self.words[i / 64] &= !(1u64 << (i % 64));
    }

    // Puts `named` into the set, and those of it that are new into `waiting`.
    pub fn absorb(&mut self, named: &Set, waiting: &mut Set)
        ensures { Absorbed named.now.words self.old.words waiting.old.words self.new.words waiting.new.words }
    {
        for (k, &x) in named.words.iter().enumerate() {
            let y = self.words[k];
            self.words[k] = y | x;
            waiting.words[k] |= x & !y;
        }
    }

    // The lowest of the set. By a labelled break: a drive finds its lowest waiting condition here, and document 01 asks that of the search.
    pub fn lowest(&self) -> Option<u16>
        ensures { LowestIn self.now.words result }
    {
        'search: {
            for (w, &x) in self.words.iter().enumerate() {
                if x != 0 {
                    break 'search Some((64 * w) as u16 + x.trailing_zeros() as u16);
                }
            }
            None
        }
    }

    // One of the set: the next from `from` down in its word, else the highest of that word, else of the next word that has one.
    pub fn any_from(&self, from: u16) -> Option<u16>
        requires { from < 512 }
        ensures { AnyIn self.now.words result }
    {
        let first = from as usize / 64;
        let y = self.words[first] & (u64::MAX >> (63 - from % 64));
        if y != 0 {
            return Some((64 * first) as u16 + (63 - y.leading_zeros() as u16));
        }
        for passed in 0..8 {
            let w = (first + passed) % 8;
            let z = self.words[w];
            if z != 0 {
                return Some((64 * w) as u16 + (63 - z.leading_zeros() as u16));
            }
        }
        None
    }

    // The same where the set is likely to be empty, which is told without a look at each word.
    pub fn next_from(&self, from: u16) -> Option<u16>
        requires { from < 512 }
        ensures { AnyIn self.now.words result }
    {
        if self.is_empty() {
            return None;
        }
        self.any_from(from)
    }

    // All of the set, one after the other: each is taken out of it. A set that is drained is likely to have somebody, and none after one was taken.
    pub fn drain(&mut self) -> Drain<'_>
        ensures { (result.set.now.words ≡ self.old.words) × (result.set.ghost_name ≡ self.entry.ghost_name) }
    {
        let upcoming = self.any_from(0);
        Drain {
            set: self,
            upcoming,
        }
    }

    // How many are in the set.
    pub fn len(&self) -> u32
        ensures { result ≡ count 512 (has self.now.words) }
    {
        let mut ones = 0;
        for x in self.words {
            ones += x.count_ones();
        }
        ones
    }

    // Whether nobody is in the set. The eight words at once: a loop over them took a quarter of the instructions of a long closed reading in C, which
    // docs/C.md holds to 1.3 times the static library.
    pub fn is_empty(&self) -> bool
        ensures { IsTrue result ↔ Nobody self.now.words }
    {
        let w = &self.words;
        (w[0] | w[1] | w[2] | w[3] | w[4] | w[5] | w[6] | w[7]) == 0
    }
}

// The set that eight words say.
impl From<[u64; 8]> for Set {
    fn from(words: [u64; 8]) -> Self
        ensures { result.words ≡ words }
    {
        Set { words }
    }
}

// Those of a set that are still to come, which are in the set, and the one that comes first.
#[derive(Drop)]
pub struct Drain<'a> {
    set: &'a mut Set,
    upcoming: Option<u16>,
    ghost found: { ForSome upcoming (λ c. Member set.now.words c) },
    ghost none: { ForNone upcoming (Nobody set.now.words) },
}

impl<'a> Iterator for Drain<'a> {
    type Item = u16;

    ghost next_gives = { λ s r t. TakesOut s.set.now.words r t.set.now.words × (t.set.ghost_name ≡ s.set.ghost_name) };

    ghost remaining = { λ s. at_most (count 512 (has s.set.now.words)) };

    fn next(&mut self) -> Option<u16> {
        let c = self.upcoming?;
        self.set.remove(c);
        self.upcoming = self.set.next_from(c);
        Some(c)
    }
}
