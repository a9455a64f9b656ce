//! The ground order.
#![tactic(auto)]

ghost use Rattle.std.specs.Prelude.{◌≡◌, ◌-◌, ◌^◌, ◌<◌, min};
ghost use Rattle.cd_term.specs.Terms.{size_of};
ghost use Rattle.cd_kbo.specs.Sides.{term_of};
ghost use Rattle.cd_kbo.specs.Kbo.{weight_of, ground_compare};

use crate::weights::{head_cmp, symbol_weight, weight};
use crate::{Order, Side};
use cd_term::Term;
use std::cmp::Ordering;

/// How two terms compare, and what they weigh; the weights stop at the greatest u64.
#[derive(Clone, Copy)]
struct Compared {
    answer: Ordering,
    left: u64,
    right: u64,
}

/// Compares two terms in the ground order, and weighs them, in one pass over each.
fn walk(s: Side, t: Side, order: &Order) -> Compared
    requires left { size_of (term_of s) < 2 ^ 32 }
    requires right { size_of (term_of t) < 2 ^ 32 }
    ensures answer { result.answer ≡ ground_compare order.now (term_of s.entry) (term_of t.entry) }
    ensures left { result.left ≡ min (weight_of order.now (term_of s.entry)) (2 ^ 64 - 1) }
    ensures right { result.right ≡ min (weight_of order.now (term_of t.entry)) (2 ^ 64 - 1) }
{
    match (s, t) {
        (Side::Symbol(f, args), Side::Symbol(g, others)) => {
            let heads = head_cmp(f, args.len(), g, others.len(), order);
            if heads.is_ne() {
                let left = weight(s, order);
                let right = weight(t, order);
                return Compared {
                    answer: left.cmp(&right).then(heads),
                    left,
                    right,
                };
            }
            let mut answer = Ordering::Equal;
            let mut left: u64 = 0;
            let mut right: u64 = 0;
            for (i, arg) in args.iter().enumerate() {
                let other = &others[i];
                if answer.is_ne() {
                    left = left.saturating_add(weight(Side::of(arg), order));
                    right = right.saturating_add(weight(Side::of(other), order));
                    continue;
                }
                let one = walk(Side::of(arg), Side::of(other), order);
                answer = one.answer;
                left = left.saturating_add(one.left);
                right = right.saturating_add(one.right);
            }
            let left = left.saturating_add(symbol_weight(f, order));
            let right = right.saturating_add(symbol_weight(g, order));
            Compared {
                answer: left.cmp(&right).then(answer),
                left,
                right,
            }
        }
        (Side::Variable(_), Side::Variable(_)) => Compared {
            answer: Ordering::Equal,
            left: 1,
            right: 1,
        },
        (Side::Variable(_), Side::Symbol(_, _)) => {
            let one: u64 = 1;
            let right = weight(t, order);
            Compared {
                answer: one.cmp(&right).then(Ordering::Less),
                left: 1,
                right,
            }
        }
        (Side::Symbol(_, _), Side::Variable(_)) => {
            let one: u64 = 1;
            let left = weight(s, order);
            Compared {
                answer: left.cmp(&one).then(Ordering::Greater),
                left,
                right: 1,
            }
        }
    }
}

/// Compares two terms or atoms in the ground order, in which each variable is read as the constant `bot`. The
/// answer is `Equal` exactly where they are then the same. No memory is taken, and the time is linear in the sizes.
/// Recurs to the depth of its terms: see 'How deep terms may be' in docs/ARCHITECTURE.md.
pub fn side_cmp(s: Side, t: Side, order: &Order) -> Ordering
    requires left { size_of (term_of s) < 2 ^ 32 }
    requires right { size_of (term_of t) < 2 ^ 32 }
    ensures { result ≡ ground_compare order.now (term_of s.entry) (term_of t.entry) }
{
    walk(s, t, order).answer
}

/// Compares two terms in the ground order, as [`side_cmp`].
/// Recurs to the depth of its terms: see 'How deep terms may be' in docs/ARCHITECTURE.md.
pub fn ground_cmp(s: &Term, t: &Term, order: &Order) -> Ordering
    requires left { size_of s.now < 2 ^ 32 }
    requires right { size_of t.now < 2 ^ 32 }
    ensures { result ≡ ground_compare order.now s.now t.now }
{
    side_cmp(Side::of(s), Side::of(t), order)
}
