// Page areas (document 01, "Areas"): soundness of raw areas, and a page as a type, its head, its lines in order and the entry of each.
#![tactic(auto)]

ghost use Rattle.std.specs.Prelude.{◌≡◌, true, false, List, map, ℕ, ◌≤◌, ◌<◌, ◌+◌, ◌-◌, length, get_or, take, drop, MatchOption};
ghost use Rattle.std.specs.Iterator.{at_most};
ghost use Rattle.semantics.specs.Page.{mentions};
ghost use Rattle.semantics.specs.Body.{unknown_by_default};
ghost use Rattle.semantics.specs.Table.{all_below};
ghost use Rattle.semantics.specs.Area.{sound, page_of, top_of, conditions_of, count_of, used_of, head_tests, field_tests, every, kind, span_as, first_line, literal_of, line_at};
ghost use Rattle.bits.specs.Sets.{Nobody};
ghost use Rattle.page.specs.Lines.{EntryIn, Next, Scanning, BeginsAt, line_names};
ghost use Rattle.page.specs.Places.{place_of, LineIn, RuleIn, Proceeds, EntryIs};
ghost use Rattle.page.specs.Checks.{rule_tests, head_ok, rule_ok, Headed, CollectedAt, LinesChecked, number_tells};
ghost use Rattle.page.specs.Solvable.{solvable};

use bits::Set;
use std::marker::Model;

// How many numbers an entry of the kind k takes, with y as its fourth.
#[tactic(auto, unfolding(semantics::specs::Area::kind))]
pub fn span_of(k: u16, y: u16) -> usize
    ensures { result ≡ span_as (kind k) y }
{
    match k {
        1..=5 => 4 + y as usize,
        _ => 4,
    }
}

// A place among the lines of any area whose entries lie in it: `passed` lines lie before it, and the entry of the next one begins at `at`.
#[derive(Clone, Copy)]
pub struct Cursor {
    pub at: usize,
    pub passed: u16,
}

impl Cursor {
    // Before the first line.
    pub fn first(a: &[u16]) -> Self
        requires { 4 ≤ length a.now }
        ensures { (result.at ≡ first_line a.now) × (result.passed ≡ 0) }
    {
        Cursor {
            at: 4 + a[1] as usize,
            passed: 0,
        }
    }

    // Behind the entry that begins here, with one line more passed.
    pub fn next(self, a: &[u16]) -> Self
        requires { EntryIn a.now self.at × (self.passed < 65535) }
        ensures { Next a.now self.at self.passed result.at result.passed }
    {
        let at = self.at;
        Cursor {
            at: at + span_of(a[at + 1], a[at + 3]),
            passed: self.passed + 1,
        }
    }
}

// Where the lines begin: behind the four head numbers and the D numbers.
fn first_line(a: &[u16]) -> usize
    requires { 4 ≤ length a.now }
    ensures { result ≡ first_line a.now }
{
    Cursor::first(a).at
}

// The lines that are still to come, `passed` of them lying before: each item is the place where the entry of a line begins. How many are left is a
// number of its own: a loop that does not ask for `passed` then holds one number for the count, and tests it where it falls.
#[derive(Drop)]
pub struct Lines<'a> {
    pub numbers: &'a [u16],
    left: u32,
    pub at: usize,
    pub passed: u16,
    ghost counted: { left + passed ≡ count_of numbers.now },
    ghost scanning: { Scanning numbers.now at passed },
    ghost placed: { at ≡ place_of numbers.now passed },
}

impl<'a> Lines<'a> {
    // The lines of an area whose lines pass their tests.
    fn checked(a: &'a [u16]) -> Self
        requires { (4 ≤ length a.now) × Scanning a.now (first_line a.now) 0 }
        ensures { BeginsAt a.now result.numbers.now result.at result.passed }
    {
        Lines {
            numbers: a,
            left: a[2] as u32,
            at: first_line(a),
            passed: 0,
        }
    }
}

impl<'a> Iterator for Lines<'a> {
    type Item = usize;

    ghost next_gives = { λ s r t. Proceeds s.numbers.now s.at s.passed r t.numbers.now t.at t.passed };

    ghost remaining = { λ s. at_most (count_of s.numbers.now - s.passed) };

    fn next(&mut self) -> Option<usize> {
        if self.left == 0 {
            return None;
        }
        let a = self.numbers;
        let at = self.at;
        self.at = at + span_of(a[at + 1], a[at + 3]);
        self.left -= 1;
        self.passed += 1;
        Some(at)
    }
}

// Whether the numbers of a rule are in range, its literals apart: weight x 1 to top, 1 to 8 literals.
fn rule_ok(x: u16, y: u16, top: u16) -> bool
    ensures { result ≡ every (rule_tests top x y) }
{
    (1..=top).contains(&x) && (1..=8).contains(&y)
}

// Whether the fields of an entry without literals are in range: 0 is a fact, 6 a query, 7 a D line, and no other is a kind.
#[tactic(auto, unfolding(semantics::specs::Area::kind))]
fn short_ok(k: u16, x: u16, y: u16, top: u16) -> bool
    requires { 1 ≤ k → 6 ≤ k }
    ensures { (n : ℕ) (codes : List ℕ) → result ≡ every (field_tests top n (kind k) x y codes) }
{
    match k {
        0 => x <= y && y <= top,
        6 => x <= 1 && y == 0,
        7 => x == 0 && y == 0,
        _ => false,
    }
}

// Whether the first four numbers of the entry at `at` end at `used` or before, and its condition is below C, which is n.
fn head_passes(a: &[u16], at: usize, used: usize, n: u16) -> bool
    requires { (at ≤ used) × (used ≤ length a.now) }
    ensures { result ≡ head_ok n used a.now at }
{
    at + 4 <= used && a[at] < n
}

// Whether the rule at `at` with y literals ends at `used` or before, and its numbers, its literals apart, are in range.
fn rule_passes(a: &[u16], at: usize, used: usize, y: u16, top: u16) -> bool
    requires { (at + 4 ≤ used) × (used ≤ length a.now) }
    ensures { result ≡ rule_ok top used a.now at y }
{
    at + 4 + y as usize <= used && rule_ok(a[at + 2], y, top)
}

// If the entry at `at` is a D line, puts its condition into the set; whether it was not there.
fn collect_default(a: &[u16], at: usize, seen: &mut Set) -> bool
    requires { (at + 4 ≤ length a.now) × (get_or a.now at 0 < 512) }
    ensures { CollectedAt a.now at seen.old.words seen.new.words result }
{
    a[at + 1] != 7 || seen.insert(a[at])
}

// Whether the numbers from where the lines begin up to the used length are exactly the entries of the lines, and no condition has two D lines;
// the conditions of the D lines are put into the set. What is not in range ends the scan of the lines, a literal too: from inside the scan of
// literals, by the label, as document 01 asks.
fn lines_ok(a: &[u16], seen: &mut Set) -> bool
    requires { Headed a.now × Nobody seen.old.words }
    ensures { LinesChecked a.now seen.new.words result }
{
    let n = a[1];
    let used = a[3] as usize;
    let codes = 2 * n;
    let mut at = first_line(a);
    'lines: {
        for _ in 0..a[2] {
            if !head_passes(a, at, used, n) {
                break 'lines false;
            }
            let k = a[at + 1];
            let y = a[at + 3];
            let literals = at + 4;
            at = match k {
                1..=5 => {
                    if !rule_passes(a, at, used, y, a[0]) {
                        break 'lines false;
                    }
                    let to = literals + y as usize;
                    for &code in &a[literals..to] {
                        if codes <= code {
                            break 'lines false;
                        }
                    }
                    to
                }
                _ => {
                    if !short_ok(k, a[at + 2], y, a[0]) || !collect_default(a, at, seen) {
                        break 'lines false;
                    }
                    literals
                }
            };
        }
        at == used
    }
}

// Whether the D number of c is 1 if c is in the set, and 0 if not.
fn number_tells(a: &[u16], seen: &Set, c: u16) -> bool
    requires { (first_line a.now ≤ length a.now) × (c < conditions_of a.now) × (c < 512) }
    ensures { result ≡ number_tells a.now seen.now.words c }
{
    a[4 + c as usize] == u16::from(seen.contains(c))
}

// Whether each D number is 1 where its condition is in the set, and 0 elsewhere.
fn numbers_tell(a: &[u16], seen: &Set) -> bool
    requires { Headed a.now }
    ensures { result ≡ all_below (conditions_of a.now) (number_tells a.now seen.now.words) }
{
    (0..a[1]).all(|c| number_tells(a, seen, c))
}

// Whether the four head numbers of an area are in range, and the used length lies in the area.
fn head_sound(a: &[u16]) -> bool
    ensures { result ≡ every (head_tests 1024 a.now) }
{
    let [top, n, count, used, ..] = *a else {
        return false;
    };
    let used = used as usize;
    4 + n as usize <= used
        && used <= a.len()
        && (1..=200).contains(&top)
        && (1..=512).contains(&n)
        && count <= 1024
}

// Whether a page area is sound. The answer is yes or no for every slice, whatever its length and content. The lines are gone through once.
pub fn page_sound(a: &[u16]) -> bool
    ensures { result ≡ sound a.now }
{
    if !head_sound(a) {
        return false;
    }
    let mut seen = Set::empty();
    lines_ok(a, &mut seen) && numbers_tell(a, &seen)
}

// Whether c is among the m literals from `from` on, plain or negated.
fn literals_name(a: &[u16], from: usize, m: u16, c: u16) -> bool
    requires { from + m ≤ length a.now }
    ensures { result ≡ mentions (map literal_of (take m (drop from a.now))) c }
{
    a[from..from + m as usize].iter().any(|&code| code / 2 == c)
}

// A page area that passes its tests, but may have 1,536 lines. A clause sees the list of its numbers. What only a sound area has is asked beside it,
// as `sound page.now`: a page that a trial changes can have more lines than a sound one. A second type for sound pages would have all methods of
// this one again, or hand out a `Page` at each call.
#[derive(Drop)]
pub struct Page<'a> {
    pub numbers: &'a [u16],
}

impl<'a> Model for Page<'a> {
    ghost Value = { List ℕ };

    ghost view = { λ p. p.numbers.now };

    ghost invariant = { λ p. solvable p.numbers.now ≡ true };
}

// The four numbers with which the entry of a line begins: its condition, its kind, and two that the kind gives a meaning. The kind is matched on as
// the number that it is, as document 01 asks: an area is numbers that C reads, and an enum would name each of 0 to 7 once more.
#[derive(Clone, Copy)]
pub struct Entry {
    pub condition: u16,
    pub kind: u16,
    pub x: u16,
    pub y: u16,
}

// The entry at `at`.
fn entry_at(a: &[u16], at: usize) -> Entry
    requires { EntryIn a.now at }
    ensures { EntryIs a.now at result.condition result.kind result.x result.y }
{
    Entry {
        condition: a[at],
        kind: a[at + 1],
        x: a[at + 2],
        y: a[at + 3],
    }
}

// The condition of the entry at `at`.
fn condition_at(a: &[u16], at: usize) -> u16
    requires { EntryIn a.now at }
    ensures { result ≡ get_or a.now at 0 }
{
    a[at]
}

// Its kind.
fn kind_at(a: &[u16], at: usize) -> u16
    requires { EntryIn a.now at }
    ensures { result ≡ get_or a.now (at + 1) 0 }
{
    a[at + 1]
}

impl<'a> Page<'a> {
    // The page of a sound area.
    pub fn of(a: &'a [u16]) -> Option<Self>
        ensures { MatchOption result (sound a.now ≡ false) (λ page. (sound a.now ≡ true) × (page ≡ a.now)) }
    {
        if page_sound(a) {
            return Some(Page { numbers: a });
        }
        None
    }

    // Does nothing: a proof learns here that the page passes its tests.
    pub fn recall(&self)
        ensures { solvable self.now ≡ true }
    {
        let _ = &self.numbers;
    }

    // The largest grade.
    #[tactic(auto, using(crate::proofs::Head::head_of))]
    pub fn top(&self) -> u16
        ensures value { result ≡ top_of self.now }
        ensures grade { (1 ≤ result) × (result ≤ 200) }
        ensures sound { solvable self.now ≡ true }
    {
        self.numbers[0]
    }

    // How many conditions there are.
    #[tactic(auto, using(crate::proofs::Head::head_of))]
    pub fn conditions(&self) -> u16
        ensures value { result ≡ conditions_of self.now }
        ensures few { result ≤ 512 }
        ensures sound { solvable self.now ≡ true }
    {
        self.numbers[1]
    }

    // How many lines there are.
    #[tactic(auto, using(crate::proofs::Head::head_of))]
    pub fn line_count(&self) -> u16
        ensures value { result ≡ count_of self.now }
        ensures few { result ≤ 1536 }
        ensures sound { solvable self.now ≡ true }
    {
        self.numbers[2]
    }

    // How many of the numbers the page takes.
    #[tactic(auto, using(crate::proofs::Head::head_of, crate::proofs::Solvable::solvable_used))]
    pub fn used(&self) -> u16
        ensures value { result ≡ used_of self.now }
        ensures few { result ≤ 18948 }
        ensures sound { solvable self.now ≡ true }
    {
        self.numbers[3]
    }

    // The lines.
    pub fn lines(&self) -> Lines<'a>
        ensures scan { BeginsAt self.now result.numbers.now result.at result.passed }
        ensures sound { solvable self.now ≡ true }
    {
        Lines::checked(self.numbers)
    }

    // The same page as a value of its own. A loop that changes numbers and holds the page as a local need not read in each turn where its area lies.
    pub fn again(&self) -> Page<'a>
        ensures { result ≡ self.now }
    {
        Page {
            numbers: self.numbers,
        }
    }

    // The condition of the line at `at`, alone: a scan that asks for no more of the entry than it needs holds fewer numbers at hand.
    pub fn condition(&self, at: usize) -> u16
        requires { LineIn self.now at }
        ensures value { result ≡ get_or self.now at 0 }
        ensures inside { (result < conditions_of self.now) × (conditions_of self.now ≤ 512) }
        ensures sound { solvable self.now ≡ true }
    {
        condition_at(self.numbers, at)
    }

    // The kind of the line at `at`, alone.
    pub fn kind(&self, at: usize) -> u16
        requires { LineIn self.now at }
        ensures value { result ≡ get_or self.now (at + 1) 0 }
        ensures sound { solvable self.now ≡ true }
    {
        kind_at(self.numbers, at)
    }

    // The entry at `at`.
    pub fn entry(&self, at: usize) -> Entry
        requires { LineIn self.now at }
        ensures value { EntryIs self.now at result.condition result.kind result.x result.y }
        ensures inside { (result.condition < conditions_of self.now) × (conditions_of self.now ≤ 512) }
        ensures sound { solvable self.now ≡ true }
    {
        entry_at(self.numbers, at)
    }

    // Whether c is unknown by default.
    pub fn unknown_by_default(&self, c: u16) -> bool
        requires { c < conditions_of self.now }
        ensures { result ≡ unknown_by_default (page_of self.now) c }
    {
        self.numbers[4 + c as usize] == 1
    }

    // Whether the line at `at` is an R line that names c: one with c among its literals, plain or negated.
    pub fn line_names(&self, at: usize, c: u16) -> bool
        requires { LineIn self.now at }
        ensures { result ≡ line_names (line_at (drop at self.now)) c }
    {
        line_names(self.numbers, at, c)
    }

    // The literals of the rule at `at`.
    pub fn literals(&self, at: usize) -> &'a [u16]
        requires { RuleIn self.now at }
        ensures value { result.now ≡ take (get_or self.now (at + 3) 0) (drop (at + 4) self.now) }
        ensures sound { solvable self.now ≡ true }
    {
        literals_at(self.numbers, at)
    }
}

// Whether the entry at `at` is an R line that names c: one with c among its literals, plain or negated.
#[tactic(auto, using(crate::proofs::Scan::line_at_lem), unfolding(semantics::specs::Area::kind))]
pub fn line_names(a: &[u16], at: usize, c: u16) -> bool
    requires { EntryIn a.now at }
    ensures { result ≡ line_names (line_at (drop at a.now)) c }
{
    let k = a[at + 1];
    match k {
        1..=5 => literals_name(a, at + 4, a[at + 3], c),
        _ => false,
    }
}

// The literals of the rule at `at`.
fn literals_at(a: &[u16], at: usize) -> &[u16]
    requires { at + 4 + get_or a.now (at + 3) 0 ≤ length a.now }
    ensures { result.now ≡ take (get_or a.now (at + 3) 0) (drop (at + 4) a.now) }
{
    let from = at + 4;
    &a[from..from + a[at + 3] as usize]
}
