//! Lists of literals compared as if they were sorted downwards.
//!
//! Nothing is sorted: of the literals whose ground forms occur more often in one list than in the other, the
//! greatest decides, as in the multiset extension of an order (Dershowitz and Manna, Proving termination with
//! multiset orderings, 1979). The comparisons of literals are as many as the square of their number.
#![tactic(auto)]

ghost use Rattle.std.specs.Prelude.{◌≡◌, ◌≢◌, ◌↔◌, ◌++◌, ◌∷◌, [], List, IsTrue, IfSome, MatchOption, ⊤};
ghost use Rattle.std.specs.Option.{option_copied};
ghost use Rattle.std.specs.Ordering.{is_eq, nat_cmp};
ghost use Rattle.std.specs.Cmp.Lexicographic.{slice_cmp};
ghost use Rattle.std.specs.declared.cmp.Ordering.TheVariants.{Less};
ghost use Rattle.cd_clause.specs.declared.Literal.{Literal};
ghost use Rattle.cd_key.specs.Literals.{HasSmallSides, AreComparable};
ghost use Rattle.cd_key.specs.Forms.{literal_compare};
ghost use Rattle.cd_key.specs.Multisets.{sorted_down, count_of, counts_differ, IsTop};

use crate::forms::form_cmp;
use cd_clause::Literal;
use cd_kbo::Order;
use std::cmp::Ordering;

/// How many literals of a list have the ground form of a literal.
fn count_same(l: &Literal, ls: &[Literal], order: &Order) -> usize
    requires literal { HasSmallSides l.now.atom }
    requires list { AreComparable ls.now }
    ensures { result ≡ count_of (literal_compare order.now) l.now ls.now }
{
    let mut count: usize = 0;
    for m in ls {
        if form_cmp(l, m, order).is_eq() {
            count += 1;
        }
    }
    count
}

/// Whether a ground form occurs more often in one list than in the other.
fn is_uneven(l: &Literal, c: &[Literal], d: &[Literal], order: &Order) -> bool
    requires literal { HasSmallSides l.now.atom }
    requires left { AreComparable c.now }
    requires right { AreComparable d.now }
    ensures { result ≡ counts_differ (literal_compare order.now) c.now d.now l.now }
{
    count_same(l, c, order) != count_same(l, d, order)
}

/// Whether a literal is greater than the one that was found before, if any.
fn is_higher(l: &Literal, best: Option<&Literal>, order: &Order) -> bool
    requires literal { HasSmallSides l.now.atom }
    requires best { IfSome best (λ b. HasSmallSides b.now.atom) }
    ensures { IsTrue result ↔ MatchOption (option_copied best.entry) ⊤ (λ b. literal_compare order.now b l.now ≡ Less) }
{
    match best {
        None => true,
        Some(best) => form_cmp(best, l, order).is_lt(),
    }
}

/// The greater of a literal and the one that was found before, of those whose ground forms occur more often in
/// one list than in the other.
fn better<'a>(
    l: &'a Literal,
    best: Option<&'a Literal>,
    c: &[Literal],
    d: &[Literal],
    order: &Order,
) -> Option<&'a Literal>
    requires literal { HasSmallSides l.now.atom }
    requires best { IfSome best (λ b. HasSmallSides b.now.atom) }
    requires left { AreComparable c.now }
    requires right { AreComparable d.now }
    ensures value { (ls : List Literal) →
        IsTop (literal_compare order.now) (counts_differ (literal_compare order.now) c.now d.now) ls (option_copied best.entry) →
        IsTop (literal_compare order.now) (counts_differ (literal_compare order.now) c.now d.now) (ls ++ l.now ∷ []) (option_copied result) }
    ensures small { IfSome result (λ b. HasSmallSides b.now.atom) }
{
    if !is_uneven(l, c, d, order) {
        return best;
    }
    if !is_higher(l, best, order) {
        return best;
    }
    Some(l)
}

/// The greatest literal of a list whose ground form occurs more often in one of two lists.
fn top<'a>(ls: &'a [Literal], c: &[Literal], d: &[Literal], order: &Order) -> Option<&'a Literal>
    requires list { AreComparable ls.now }
    requires left { AreComparable c.now }
    requires right { AreComparable d.now }
    ensures value { IsTop (literal_compare order.now) (counts_differ (literal_compare order.now) c.now d.now) ls.now (option_copied result) }
    ensures small { IfSome result (λ l. HasSmallSides l.now.atom) }
{
    let mut best: Option<&Literal> = None;
    for l in ls {
        best = better(l, best, c, d, order);
    }
    best
}

/// Compares how often a ground form occurs.
fn count_cmp(l: &Literal, c: &[Literal], d: &[Literal], order: &Order) -> Ordering
    requires literal { HasSmallSides l.now.atom }
    requires left { AreComparable c.now }
    requires right { AreComparable d.now }
    ensures { result ≡ nat_cmp (count_of (literal_compare order.now) l.now c.now) (count_of (literal_compare order.now) l.now d.now) }
{
    count_same(l, c, order).cmp(&count_same(l, d, order))
}

/// Compares the ground forms of two lists of literals, sorted downwards, as lists.
pub fn sorted_cmp(c: &[Literal], d: &[Literal], order: &Order) -> Ordering
    requires left { AreComparable c.now }
    requires right { AreComparable d.now }
    ensures { result ≡ slice_cmp (literal_compare order.now) (sorted_down (literal_compare order.now) c.now) (sorted_down (literal_compare order.now) d.now) }
{
    match (top(c, c, d, order), top(d, c, d, order)) {
        (None, None) => Ordering::Equal,
        (Some(l), None) => count_cmp(l, c, d, order),
        (None, Some(m)) => count_cmp(m, c, d, order),
        (Some(l), Some(m)) => {
            if form_cmp(l, m, order).is_lt() {
                count_cmp(m, c, d, order)
            } else {
                count_cmp(l, c, d, order)
            }
        }
    }
}
