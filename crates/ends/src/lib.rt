// Both ends of the value of one line at once, over a table of bytes that holds the low end of every literal: the high end of a literal is top
// less the low end of its negation. A drive evaluates both ends of every line, and half of the memory serves it.
#![tactic(auto)]

ghost use Rattle.std.specs.Prelude.{◌≡◌, true, ◌≤◌, ◌<◌, ◌+◌, ◌*◌, ◌-◌, length, get_or, set};
ghost use Rattle.semantics.specs.Area.{top_of, conditions_of, kind, rule_kind};
ghost use Rattle.semantics.specs.Grade.{Op, lower, upper, combine};
ghost use Rattle.semantics.specs.RunArea.{interval_at};
ghost use Rattle.page.specs.Graded.{Graded, RuleAt};
ghost use Rattle.page.specs.Places.{LineOf};
ghost use Rattle.value.specs.Table.{side, Grades, EndTable};
ghost use Rattle.value.specs.LineEnds.{Folded, RuleEnd, LineEnd};
ghost use Rattle.ends.specs.Mirror.{flip, mirrored, Mirrored, BothFoldable};

use page::Page;
use value::{End, Ends, bounded, divided, excess};

// The low end of every literal at the intervals held.
pub fn fill(run: &[u16], n: u16, top: u16, values: &mut [u8])
    requires { Graded top n run.now × (2 * n ≤ length values.old) }
    ensures { EndTable lower top n (interval_at run.now) values.new }
{
    for c in 0..n {
        let at = 3 * c as usize;
        store(values, c, run[at], top - run[at + 1]);
    }
}

// The numbers of the two literals of c.
pub fn store(values: &mut [u8], c: u16, plain: u16, negated: u16)
    requires { (2 * c + 1 < length values.old) × (plain ≤ 200) × (negated ≤ 200) }
    ensures { values.new ≡ set (set values.old (2 * c) plain) (2 * c + 1) negated }
{
    let at = 2 * c as usize;
    values[at] = plain as u8;
    values[at + 1] = negated as u8;
}

// The high end of a literal.
#[tactic(auto, unfolding(crate::specs::Mirror::flip))]
fn high_of(values: &[u8], code: u16, top: u16) -> u16
    requires { (flip code < length values.now) × (get_or values.now (flip code) 0 ≤ top) }
    ensures { result ≡ top - get_or values.now (flip code) 0 }
{
    top - values[(code ^ 1) as usize] as u16
}

// What the op of the kind k makes of two grades, at one end: the numbers 1 to 5 of the area are M, X, L, B, P. Beside `value::fold_by_op`, which
// chooses the op once for one end of a rule: here both ends go on at once, so a closure of it would be two.
#[tactic(auto, unfolding(semantics::specs::Area::kind, semantics::specs::Grade::combine))]
fn combine(k: u16, p: u16, q: u16, top: u16, end: End) -> u16
    requires { (1 ≤ k) × (k ≤ 5) × (1 ≤ top) × (top ≤ 200) × (p ≤ top) × (q ≤ top) }
    ensures { (op : Op) → kind k ≡ rule_kind op → result ≡ combine top op (side end) p q }
{
    match k {
        1 => p.min(q),
        2 => p.max(q),
        3 => excess(p, q, top),
        4 => bounded(p, q, top),
        _ => divided(p * q, top, end),
    }
}

// The op of the kind k over the ends of literals, from left to right. Not `value::fold`: both ends go on at once, over bytes and their mirror.
fn fold_ends(codes: &[u16], k: u16, values: &[u8], top: u16, first: Ends) -> Ends
    requires { BothFoldable top codes.now values.now first.low first.high × (1 ≤ k) × (k ≤ 5) }
    ensures low { (op : Op) → kind k ≡ rule_kind op → Folded (combine top op lower) codes.now values.now first.low result.low }
    ensures high { (op : Op) → kind k ≡ rule_kind op → Folded (combine top op upper) codes.now (mirrored top values.now) first.high result.high }
    ensures grades { (result.low ≤ top) × (result.high ≤ top) }
{
    let mut low = first.low;
    let mut high = first.high;
    for &code in codes {
        low = combine(k, low, values[code as usize] as u16, top, End::Lower);
        high = combine(k, high, high_of(values, code, top), top, End::Upper);
    }
    Ends { low, high }
}

// Both ends of the value of the rule at `at`: its op over its literals, then its weight.
#[tactic(auto, using(crate::proofs::Rules::first_in, crate::proofs::Rules::first_grade, page::proofs::Head::head_of, page::proofs::Entries::small_product, value::proofs::Dividing::product_divides))]
fn rule_ends(page: &Page, at: usize, values: &[u8]) -> Ends
    requires { Mirrored (top_of page.now) (conditions_of page.now) values.now × RuleAt (top_of page.now) (conditions_of page.now) page.now at }
    ensures { RuleEnd lower page.now values.now at result.low × RuleEnd upper page.now (mirrored (top_of page.now) values.now) at result.high }
{
    let a = page.numbers;
    let top = a[0];
    let w = a[at + 2];
    let from = at + 5;
    let to = at + 4 + a[at + 3] as usize;
    let code = a[at + 4];
    let first = Ends {
        low: values[code as usize] as u16,
        high: high_of(values, code, top),
    };
    let r = fold_ends(&a[from..to], a[at + 1], values, top, first);
    Ends {
        low: divided(r.low * w, top, End::Lower),
        high: divided(r.high * w, top, End::Upper),
    }
}

// Both ends of the value of the F or R line at `at`.
pub fn line_ends(page: &Page, at: usize, values: &[u8]) -> Ends
    requires { Mirrored (top_of page.now) (conditions_of page.now) values.now × LineOf page.now (get_or page.now at 0) at }
    ensures { LineEnd lower page.now values.now at result.low × LineEnd upper page.now (mirrored (top_of page.now) values.now) at result.high }
{
    let line = page.entry(at);
    match line.kind {
        0 => Ends {
            low: line.x,
            high: line.y,
        },
        _ => rule_ends(page, at, values),
    }
}
