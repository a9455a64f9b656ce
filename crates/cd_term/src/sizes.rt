//! Sizes, depths and variables of terms.
#![tactic(auto)]

ghost use Rattle.std.specs.Prelude.{◌≡◌, ◌-◌, ◌^◌, min};
ghost use Rattle.cd_term.specs.Terms.{size_of, depth_of, bound_of};

use crate::Term;

/// The number of symbols and variables of a term, each as often as it occurs. It stops at the greatest u64.
/// Recurs to the depth of its terms: see 'How deep terms may be' in docs/ARCHITECTURE.md.
pub fn size(t: &Term) -> u64
    ensures { result ≡ min (size_of t.now) (2 ^ 64 - 1) }
{
    match t {
        Term::Var(_) => 1,
        Term::App(_, args) => {
            let mut total: u64 = 1;
            for arg in args.as_slice() {
                total = total.saturating_add(size(arg));
            }
            total
        }
    }
}

/// The number of levels of a term: 1 for a variable or a constant. It stops at the greatest u64.
/// Recurs to the depth of its terms: see 'How deep terms may be' in docs/ARCHITECTURE.md.
pub fn depth(t: &Term) -> u64
    ensures { result ≡ min (depth_of t.now) (2 ^ 64 - 1) }
{
    match t {
        Term::Var(_) => 1,
        Term::App(_, args) => {
            let mut deepest: u64 = 0;
            for arg in args.as_slice() {
                deepest = deepest.max(depth(arg));
            }
            deepest.saturating_add(1)
        }
    }
}

/// One more than the greatest variable of a term, or 0 where it has none: each of its variables is below.
/// Recurs to the depth of its terms: see 'How deep terms may be' in docs/ARCHITECTURE.md.
pub fn variable_bound(t: &Term) -> u64
    ensures { result ≡ bound_of t.now }
{
    match t {
        Term::Var(k) => u64::from(*k) + 1,
        Term::App(_, args) => {
            let mut bound: u64 = 0;
            for arg in args.as_slice() {
                bound = bound.max(variable_bound(arg));
            }
            bound
        }
    }
}
