//! The Knuth-Bendix order.
//!
//! Two terms are compared in one pass over each, as in Löchner, Things to Know when Implementing KBO (Journal
//! of Automated Reasoning 36, 2006): the walk goes down both terms together, sums up their weights, and counts
//! occurrences of variables in tables that are passed down. What stands before the first difference is the same
//! in both terms and adds as much to either table, so at each level of the first difference the tables tell
//! whether the variables of one side cover those of the other, and nothing is counted again. Where a term has
//! only variables below 16, one walk decides. The others are taken 16 at a time by one more walk for each such
//! block in which the smaller term has a variable, so there are no more walks than distinct variables, and one.
#![tactic(auto)]

ghost use Rattle.std.specs.Prelude.{◌≡◌, ◌+◌, ◌-◌, ◌^◌, ◌<◌, ◌≤◌, ◌↔◌, ◌⊎◌, ℕ, min, true, IsTrue, slice_index};
ghost use Rattle.cd_term.specs.Terms.{size_of};
ghost use Rattle.cd_kbo.specs.Sides.{term_of};
ghost use Rattle.cd_kbo.specs.Kbo.{weight_of, occurrences, GreaterOn, Greater};
ghost use Rattle.cd_kbo.specs.Blocks.{InBlock, IsSameVariable};

use crate::variables::{is_covered, next_variable, weigh};
use crate::weights::{head_cmp, symbol_weight};
use crate::{Order, Side};
use cd_term::Term;

/// What a walk tells of two terms: whether they are the same, whether the first is greater as far as the
/// variables of the block tell, and what they weigh; the weights stop at the greatest u64.
#[derive(Clone, Copy)]
struct Walked {
    same: bool,
    is_greater: bool,
    heavy: u64,
    light: u64,
}

/// Whether the weights decide, or at equal weights what follows, and the counts of variables allow it.
fn decided(heavy: u64, light: u64, rest: bool, left: &[u64; 16], right: &[u64; 16]) -> bool
    ensures { IsTrue result ↔ (((k : ℕ) → k < 16 → slice_index right.now k ≤ slice_index left.now k)
        × ((light < heavy) ⊎ ((light ≡ heavy) × (rest ≡ true)))) }
{
    if light > heavy || (light == heavy && !rest) {
        return false;
    }
    is_covered(left, right)
}

/// Whether both are the same variable.
fn is_same_variable(s: Side, t: Side) -> bool
    ensures { IsTrue result ↔ IsSameVariable s.entry t.entry }
{
    match (s, t) {
        (Side::Variable(m), Side::Variable(n)) => m == n,
        _ => false,
    }
}

/// Compares two terms by the variables `base` to `base + 15`, weighs them, and adds the occurrences of these
/// variables to two tables that were the same, in one pass.
fn walk(
    s: Side,
    t: Side,
    order: &Order,
    base: u64,
    left: &mut [u64; 16],
    right: &mut [u64; 16],
) -> Walked
    requires small_left { size_of (term_of s) < 2 ^ 32 }
    requires small_right { size_of (term_of t) < 2 ^ 32 }
    requires alike { (k : ℕ) → k < 16 → slice_index left.old k ≡ slice_index right.old k }
    requires room_left { (k : ℕ) → k < 16 → slice_index left.old k + size_of (term_of s) < 2 ^ 33 }
    requires room_right { (k : ℕ) → k < 16 → slice_index right.old k + size_of (term_of t) < 2 ^ 33 }
    ensures same { IsTrue result.same ↔ (term_of s.entry ≡ term_of t.entry) }
    ensures greater { IsTrue result.is_greater ↔ GreaterOn (InBlock base) order.now (term_of s.entry) (term_of t.entry) }
    ensures heavy { result.heavy ≡ min (weight_of order.now (term_of s.entry)) (2 ^ 64 - 1) }
    ensures light { result.light ≡ min (weight_of order.now (term_of t.entry)) (2 ^ 64 - 1) }
    ensures left { (k : ℕ) → k < 16 → slice_index left.new k ≡
        min (slice_index left.old k + occurrences (base + k) (term_of s.entry)) (2 ^ 64 - 1) }
    ensures right { (k : ℕ) → k < 16 → slice_index right.new k ≡
        min (slice_index right.old k + occurrences (base + k) (term_of t.entry)) (2 ^ 64 - 1) }
{
    match (s, t) {
        (Side::Symbol(f, args), Side::Symbol(g, others)) => {
            let heads = head_cmp(g, others.len(), f, args.len(), order);
            if heads.is_ne() {
                let heavy = weigh(s, order, base, left);
                let light = weigh(t, order, base, right);
                return Walked {
                    same: false,
                    is_greater: decided(heavy, light, heads.is_lt(), left, right),
                    heavy,
                    light,
                };
            }
            let mut same = true;
            let mut above = false;
            let mut heavy: u64 = 0;
            let mut light: u64 = 0;
            for (i, arg) in args.iter().enumerate() {
                let other = &others[i];
                if !same {
                    heavy = heavy.saturating_add(weigh(Side::of(arg), order, base, left));
                    light = light.saturating_add(weigh(Side::of(other), order, base, right));
                    continue;
                }
                let one = walk(Side::of(arg), Side::of(other), order, base, left, right);
                same = one.same;
                above = one.is_greater;
                heavy = heavy.saturating_add(one.heavy);
                light = light.saturating_add(one.light);
            }
            let heavy = heavy.saturating_add(symbol_weight(f, order));
            let light = light.saturating_add(symbol_weight(g, order));
            Walked {
                same,
                is_greater: decided(heavy, light, above, left, right),
                heavy,
                light,
            }
        }
        _ => {
            let heavy = weigh(s, order, base, left);
            let light = weigh(t, order, base, right);
            Walked {
                same: is_same_variable(s, t),
                is_greater: decided(heavy, light, false, left, right),
                heavy,
                light,
            }
        }
    }
}

/// Whether `s` is greater than `t` as far as the variables `base` to `base + 15` tell.
fn block_greater(s: Side, t: Side, order: &Order, base: u64) -> bool
    requires left { size_of (term_of s) < 2 ^ 32 }
    requires right { size_of (term_of t) < 2 ^ 32 }
    ensures { IsTrue result ↔ GreaterOn (InBlock base) order.now (term_of s.entry) (term_of t.entry) }
{
    let mut left = [0; 16];
    let mut right = [0; 16];
    walk(s, t, order, base, &mut left, &mut right).is_greater
}

/// Whether `s` is greater than `t` in the Knuth-Bendix order, where each is a term or an atom.
/// Recurs to the depth of its terms: see 'How deep terms may be' in docs/ARCHITECTURE.md.
pub fn side_greater(s: Side, t: Side, order: &Order) -> bool
    requires left { size_of (term_of s) < 2 ^ 32 }
    requires right { size_of (term_of t) < 2 ^ 32 }
    ensures { IsTrue result ↔ Greater order.now (term_of s.entry) (term_of t.entry) }
{
    if !block_greater(s, t, order, 0) {
        return false;
    }
    let mut from: u64 = 16;
    while let Some(base) = next_variable(t, from) {
        let base = u64::from(base);
        if !block_greater(s, t, order, base) {
            return false;
        }
        from = base + 16;
    }
    true
}

/// Whether `s` is greater than `t` in the Knuth-Bendix order. No memory is taken. The time is linear in the sizes
/// where all variables of `t` are below 16, and otherwise at most that for each distinct variable.
/// Recurs to the depth of its terms: see 'How deep terms may be' in docs/ARCHITECTURE.md.
pub fn greater(s: &Term, t: &Term, order: &Order) -> bool
    requires left { size_of s.now < 2 ^ 32 }
    requires right { size_of t.now < 2 ^ 32 }
    ensures { IsTrue result ↔ Greater order.now s.now t.now }
{
    side_greater(Side::of(s), Side::of(t), order)
}
