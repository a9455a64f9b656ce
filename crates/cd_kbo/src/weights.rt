//! Weights of terms, and symbols compared.
#![tactic(auto)]

ghost use Rattle.std.specs.Prelude.{◌≡◌, ◌-◌, ◌^◌, min, [], ◌∷◌};
ghost use Rattle.std.specs.Ordering.{nat_cmp};
ghost use Rattle.std.specs.Cmp.Lexicographic.{slice_cmp};
ghost use Rattle.cd_kbo.specs.Orders.{weight_at, rank_at};
ghost use Rattle.cd_kbo.specs.Sides.{term_of};
ghost use Rattle.cd_kbo.specs.Kbo.{weight_of};

use crate::{Order, Side};
use std::cmp::Ordering;

/// What a symbol weighs.
pub fn symbol_weight(f: u16, order: &Order) -> u64
    ensures { result ≡ weight_at order.now f }
{
    let weights = order.weights.as_slice();
    let place = usize::from(f);
    if place < weights.len() {
        u64::from(weights[place])
    } else {
        1
    }
}

/// The rank of a symbol.
fn symbol_rank(f: u16, order: &Order) -> u16
    ensures { result ≡ rank_at order.now f }
{
    let ranks = order.ranks.as_slice();
    let place = usize::from(f);
    if place < ranks.len() { ranks[place] } else { 0 }
}

/// The sum of the weights of a term, which stops at the greatest u64.
pub fn weight(s: Side, order: &Order) -> u64
    ensures { result ≡ min (weight_of order.now (term_of s.entry)) (2 ^ 64 - 1) }
{
    match s {
        Side::Variable(_) => 1,
        Side::Symbol(f, args) => {
            let mut total: u64 = 0;
            for arg in args {
                total = total.saturating_add(weight(Side::of(arg), order));
            }
            total.saturating_add(symbol_weight(f, order))
        }
    }
}

/// Compares the heads `f` with `m` arguments and `g` with `n`: by rank, then by the number of arguments, then by
/// the symbol.
pub fn head_cmp(f: u16, m: usize, g: u16, n: usize, order: &Order) -> Ordering
    ensures { result ≡ slice_cmp nat_cmp (rank_at order.now f ∷ m ∷ f ∷ []) (rank_at order.now g ∷ n ∷ g ∷ []) }
{
    let by_rank = symbol_rank(f, order).cmp(&symbol_rank(g, order));
    by_rank.then(m.cmp(&n)).then(f.cmp(&g))
}
