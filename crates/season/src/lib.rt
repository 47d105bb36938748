// A season's figures (document 02, ticket 14): the answers for one condition are checked, and then gone through once.
#![tactic(auto)]

ghost use Rattle.std.specs.Prelude.{◌≡◌, map, ◌≤◌, pos, ◌-ℤ◌, length};
ghost use Rattle.std.proofs.Math.Option.{none};
ghost use Rattle.semantics.specs.ReadPage.{leftmost};
ghost use Rattle.semantics.specs.Season.{pairs_in, bad_pair, pair_causes, larger, season_refusal, season_of};
ghost use Rattle.season.specs.Answer.{number_of, place_of, answer_of, wrong_length, fault_at};
ghost use Rattle.season.specs.Sums.{Small, begun, grown, sums_of};

use std::cmp::max_by_key;

// Sums and extremes of some answers: the figures but for the count and the mean.
#[derive(Clone, Copy)]
pub struct Sums {
    pub lows: u32,
    pub widths: u32,
    pub smallest: u32,
    pub largest: u32,
    pub change: i32,
}

#[derive(Clone, Copy)]
pub struct Figures {
    pub count: u32,
    pub lows: u32,
    pub widths: u32,
    pub smallest: u32,
    pub largest: u32,
    pub mean: u32,
    pub remainder: u32,
    pub change: i32,
}

// Why a list has no figures.
#[derive(Clone, Copy, PartialEq, Eq)]
pub enum SeasonError {
    // an odd count of numbers, or not 1 to 4,096 pairs
    Length,
    // the place, counted from 1, of the first pair with its low end above its high end, or that over 200
    BadPair(u32),
}

impl SeasonError {
    // The number of the refusal.
    pub fn number(self) -> u8
        ensures { result ≡ number_of self }
    {
        match self {
            SeasonError::Length => 80,
            SeasonError::BadPair(_) => 81,
        }
    }

    // The place that is told with it, 0 for none, as C is told it.
    pub fn place(self) -> u32
        ensures { result ≡ place_of self }
    {
        match self {
            SeasonError::Length => 0,
            SeasonError::BadPair(place) => place,
        }
    }
}

// Whether a pair is refused: low above high, or high over 200.
fn is_bad(low: u16, high: u16) -> bool
    ensures { result ≡ bad_pair (record { low = low; high = high }) }
{
    high < low || 200 < high
}

// The place of the first bad pair, counted from 1.
fn first_bad(pairs: &[u16]) -> Option<u32>
    requires { length pairs.now ≤ 8192 }
    ensures { leftmost 1 (map pair_causes (pairs_in pairs.now)) ≡ fault_at result }
{
    pairs
        .chunks_exact(2)
        .position(|pair| is_bad(pair[0], pair[1]))
        .map(|i| (i + 1) as u32)
}

// The change from one low end to the next; a fall is negative.
fn change_of(before: u16, after: u16) -> i32
    ensures { result ≡ pos after -ℤ pos before }
{
    (after as i32) - (before as i32)
}

// The greater in size of two changes, the earlier one if they are of one size: of two equal keys `max_by_key` takes the second.
fn larger_of(earlier: i32, later: i32) -> i32
    ensures { result ≡ larger earlier later }
{
    max_by_key(later, earlier, |change| change.unsigned_abs())
}

// The sums with one answer more, before which the low end was `before`.
fn add(sums: Sums, before: u16, low: u16, high: u16) -> Sums
    requires { Small 4095 sums × (before ≤ 200) × (low ≤ high) × (high ≤ 200) }
    ensures { result ≡ grown sums before (record { low = low; high = high }) }
{
    let change = larger_of(sums.change, change_of(before, low));
    Sums {
        lows: sums.lows + low as u32,
        widths: sums.widths + (high - low) as u32,
        smallest: sums.smallest.min(low as u32),
        largest: sums.largest.max(high as u32),
        change,
    }
}

// The sums of the first answer.
fn first(low: u16, high: u16) -> Sums
    requires { low ≤ high }
    ensures { result ≡ begun (record { low = low; high = high }) }
{
    Sums {
        lows: low as u32,
        widths: (high - low) as u32,
        smallest: low as u32,
        largest: high as u32,
        change: 0,
    }
}

// The sums of all answers, in one pass: each is held against the low end before it.
#[tactic(auto, using(crate::proofs::Growing::some_answer))]
fn sums_of(pairs: &[u16]) -> Sums
    requires { season_refusal pairs.now ≡ none }
    ensures { (result ≡ sums_of (pairs_in pairs.now)) × Small 4096 result }
{
    let mut before = pairs[0];
    let mut sums = first(before, pairs[1]);
    for pair in pairs[2..].chunks_exact(2) {
        sums = add(sums, before, pair[0], pair[1]);
        before = pair[0];
    }
    sums
}

// Whether a list has a wrong length: an odd count of numbers, or not 1 to 4,096 pairs.
fn wrong_length(n: usize) -> bool
    ensures { result ≡ wrong_length n }
{
    n % 2 != 0 || !(2..=8192).contains(&n)
}

// A season's figures.
pub fn season(pairs: &[u16]) -> Result<Figures, SeasonError>
    ensures { answer_of result ≡ season_of pairs.now }
{
    let n = pairs.len();
    if wrong_length(n) {
        return Err(SeasonError::Length);
    }
    if let Some(place) = first_bad(pairs) {
        return Err(SeasonError::BadPair(place));
    }
    let sums = sums_of(pairs);
    let count = (n / 2) as u32;
    Ok(Figures {
        count,
        lows: sums.lows,
        widths: sums.widths,
        smallest: sums.smallest,
        largest: sums.largest,
        mean: sums.lows / count,
        remainder: sums.lows % count,
        change: sums.change,
    })
}
