// The value of one line at one end, over a table of that end of every literal (document 01, "The page").
#![tactic(auto)]

ghost use Rattle.std.specs.Prelude.{◌≡◌, true, ℕ, ◌≤◌, ◌<◌, ◌+◌, ◌*◌, ◌/◌, length, get_or};
ghost use Rattle.semantics.specs.Area.{page_of, top_of, conditions_of, kind, rule_kind};
ghost use Rattle.semantics.specs.Body.{bodyless};
ghost use Rattle.semantics.specs.Grade.{Op, combine, divided, rounding};
ghost use Rattle.page.specs.Graded.{RuleAt};
ghost use Rattle.page.specs.Places.{LineOf};
ghost use Rattle.value.specs.Table.{side, Grades};
ghost use Rattle.value.specs.LineEnds.{slice, behind_first, Foldable, Folded, OnGrades, Computes, excess, bounded, product, Adds, EndAdding, RuleEnd, LineEnd};

use page::Page;

// An end of an interval.
#[derive(Clone, Copy)]
pub enum End {
    Lower,
    Upper,
}

// The two ends of an interval.
#[derive(Clone, Copy, PartialEq, Eq)]
pub struct Ends {
    pub low: u16,
    pub high: u16,
}

// What a condition without F and R lines has.
#[tactic(auto, using(crate::proofs::Defaults::bodyless_free, crate::proofs::Defaults::bodyless_kept))]
pub fn bodyless(page: &Page, c: u16) -> Ends
    requires { c < conditions_of page.now }
    ensures { record { low = result.low; high = result.high } ≡ bodyless (page_of page.now) c }
{
    let high = if page.unknown_by_default(c) {
        page.top()
    } else {
        0
    };
    Ends { low: 0, high }
}

// What an end adds to a number before it is divided by top: the low end rounds down, the high end up.
#[tactic(auto, unfolding(semantics::specs::Grade::rounding))]
pub fn rounding(top: u16, end: End) -> u16
    requires { 1 ≤ top }
    ensures { result ≡ rounding (side end) top }
{
    match end {
        End::Lower => 0,
        End::Upper => top - 1,
    }
}

// A number divided by top, with what is added before.
fn quotient(x: u16, top: u16, add: u16) -> u16
    requires { (1 ≤ top) × (x + add < 65536) }
    ensures { result ≡ (x + add) / top }
{
    (x + add) / top
}

// A number divided by top, at one end.
pub fn divided(x: u16, top: u16, end: End) -> u16
    requires { (1 ≤ top) × (x + top ≤ 65536) }
    ensures { result ≡ divided (side end) x top }
{
    quotient(x, top, rounding(top, end))
}

// L: what a sum has over top.
pub fn excess(p: u16, q: u16, top: u16) -> u16
    requires { p + q < 65536 }
    ensures { result ≡ excess top p q }
{
    (p + q).saturating_sub(top)
}

// B: the sum, at most top.
pub fn bounded(p: u16, q: u16, top: u16) -> u16
    requires { p + q < 65536 }
    ensures { result ≡ bounded top p q }
{
    (p + q).min(top)
}

// P: the product divided by top, with what an end adds.
fn product(p: u16, q: u16, top: u16, add: u16) -> u16
    requires { (top ≤ 200) × (p ≤ top) × (q ≤ top) × (add < top) }
    ensures value { result ≡ product add top p q }
    ensures grade { result ≤ top }
{
    quotient(p * q, top, add)
}

// An op over the numbers of the literals from one place up to another, from left to right. By index: over a slice of them a line's end takes
// a fifth more instructions, and the closed reading is at its limit of docs/BENCH.md or over it. The index counts the literals: a compiler sees of
// their count, and not of two places, that there is one.
fn fold<F: Fn(u16, u16) -> u16>(
    a: &[u16],
    from: usize,
    to: usize,
    values: &[u16],
    first: u16,
    op: F,
) -> u16
    requires { (from ≤ to) × (to ≤ length a.now) × (top : ℕ) × Foldable top (slice a.now from to) values.now first × OnGrades top (F.pre op) (F.post op) }
    ensures { (f : ℕ → ℕ → ℕ) → Computes f (F.post op) → Folded f (slice a.now from to) values.now first result }
{
    let count = to - from;
    let mut r = first;
    for i in 0..count {
        r = op(r, values[a[from + i] as usize]);
    }
    r
}

// The op of the rule at `at` over the numbers of its literals behind the first: the kinds 1 to 5 are M, X, L, B, P. With no other literal there
// is nothing to choose. The kind is matched on as the number of the area, as document 01 asks.
fn fold_by_op(a: &[u16], at: usize, values: &[u16], first: u16, top: u16, add: u16) -> u16
    requires { RuleAt top (conditions_of a.now) a.now at × Foldable top (behind_first a.now at) values.now first × (add < top) }
    ensures { EndAdding top add (λ e. (op : Op) → kind (get_or a.now (at + 1) 0) ≡ rule_kind op → Folded (combine top op e) (behind_first a.now at) values.now first result) }
{
    if a[at + 3] < 2 {
        return first;
    }
    let from = at + 5;
    let to = at + 4 + a[at + 3] as usize;
    let k = a[at + 1];
    match k {
        1 => fold(a, from, to, values, first, |p, q| p.min(q)),
        2 => fold(a, from, to, values, first, |p, q| p.max(q)),
        3 => fold(a, from, to, values, first, |p, q| excess(p, q, top)),
        4 => fold(a, from, to, values, first, |p, q| bounded(p, q, top)),
        _ => fold(a, from, to, values, first, |p, q| product(p, q, top, add)),
    }
}

// One end of the value of the rule at `at`: its op over its literals' numbers from left to right, then its weight.
#[tactic(auto, using(crate::proofs::RuleEnds::code_under))]
fn rule_end(page: &Page, at: usize, values: &[u16], add: u16) -> u16
    requires { Grades (top_of page.now) (conditions_of page.now) values.now × RuleAt (top_of page.now) (conditions_of page.now) page.now at × Adds (top_of page.now) add }
    ensures { EndAdding (top_of page.now) add (λ e. RuleEnd e page.now values.now at result) }
{
    let a = page.numbers;
    let top = a[0];
    let first = values[a[at + 4] as usize];
    let r = fold_by_op(a, at, values, first, top, add);
    product(r, a[at + 2], top, add)
}

// One end of the value of the F or R line at `at`; `add` is what the end adds before a division.
pub fn line_end(page: &Page, at: usize, values: &[u16], end: End, add: u16) -> u16
    requires { Grades (top_of page.now) (conditions_of page.now) values.now × LineOf page.now (get_or page.now at 0) at × (add ≡ rounding (side end) (top_of page.now)) }
    ensures { LineEnd (side end) page.now values.now at result }
{
    match page.kind(at) {
        0 => {
            let fact = page.entry(at);
            match end {
                End::Lower => fact.x,
                End::Upper => fact.y,
            }
        }
        _ => rule_end(page, at, values, add),
    }
}
