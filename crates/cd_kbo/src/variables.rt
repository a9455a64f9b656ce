//! Occurrences of variables, counted for 16 variables at a time.
#![tactic(auto)]

ghost use Rattle.std.specs.Prelude.{◌≡◌, ◌+◌, ◌-◌, ◌^◌, ◌<◌, ◌≤◌, ◌↔◌, ℕ, min, nat_eq, if◌then◌else◌, IsTrue, slice_index};
ghost use Rattle.cd_kbo.specs.Sides.{term_of};
ghost use Rattle.cd_kbo.specs.Kbo.{occurrences, weight_of};
ghost use Rattle.cd_kbo.specs.Blocks.{IsNext, least_of};

use crate::weights::symbol_weight;
use crate::{Order, Side};

/// Counts one variable, where it is in the block that begins at `base`. A count stops at the greatest u64.
fn mark(n: u32, base: u64, table: &mut [u64; 16])
    ensures { (k : ℕ) → k < 16 → slice_index table.new k ≡
        min (slice_index table.old k + (if nat_eq n (base + k) then 1 else 0)) (2 ^ 64 - 1) }
{
    let n = u64::from(n);
    if n < base {
        return;
    }
    let place = n - base;
    if place < 16 {
        let place = place as usize;
        table[place] = table[place].saturating_add(1);
    }
}

/// Weighs a term, and adds the occurrences of the variables `base` to `base + 15` to a table, in one pass. Sums
/// stop at the greatest u64.
pub fn weigh(s: Side, order: &Order, base: u64, table: &mut [u64; 16]) -> u64
    ensures weight { result ≡ min (weight_of order.now (term_of s.entry)) (2 ^ 64 - 1) }
    ensures table { (k : ℕ) → k < 16 → slice_index table.new k ≡
        min (slice_index table.old k + occurrences (base + k) (term_of s.entry)) (2 ^ 64 - 1) }
{
    match s {
        Side::Variable(n) => {
            mark(n, base, table);
            1
        }
        Side::Symbol(f, args) => {
            let mut total: u64 = 0;
            for arg in args {
                total = total.saturating_add(weigh(Side::of(arg), order, base, table));
            }
            total.saturating_add(symbol_weight(f, order))
        }
    }
}

/// Whether no count of the second table is above that of the first.
pub fn is_covered(left: &[u64; 16], right: &[u64; 16]) -> bool
    ensures { IsTrue result ↔ ((k : ℕ) → k < 16 → slice_index right.now k ≤ slice_index left.now k) }
{
    for k in 0..16 {
        if left[k] < right[k] {
            return false;
        }
    }
    true
}

/// The smaller of two variables, or the only one, where there is one.
pub fn least_variable(a: Option<u32>, b: Option<u32>) -> Option<u32>
    ensures { result ≡ least_of a b }
{
    match (a, b) {
        (Some(m), Some(n)) => Some(m.min(n)),
        (Some(m), None) => Some(m),
        (None, b) => b,
    }
}

/// The least variable of a term that is no less than `from`, or `None` where there is none.
/// Recurs to the depth of its terms: see 'How deep terms may be' in docs/ARCHITECTURE.md.
pub fn next_variable(s: Side, from: u64) -> Option<u32>
    ensures { IsNext from (λ k. occurrences k (term_of s.entry)) result }
{
    match s {
        Side::Variable(n) => if u64::from(n) < from { None } else { Some(n) },
        Side::Symbol(_, args) => {
            let mut found: Option<u32> = None;
            for arg in args {
                found = least_variable(found, next_variable(Side::of(arg), from));
            }
            found
        }
    }
}
