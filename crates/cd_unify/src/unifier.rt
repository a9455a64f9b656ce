//! The most general unifier in its normal form.
#![tactic(auto)]

ghost use Rattle.std.specs.Prelude.{◌≡◌, ◌≤◌, List, map, length, IfOk, IfSome, IsTrue, ◌↔◌};
ghost use Rattle.cd_term.specs.declared.Term.{Term};
ghost use Rattle.cd_term.specs.Terms.{bound_of, greatest, AreWithin};
ghost use Rattle.cd_unify.specs.Unifiers.{raised, IsMgu, IsUnifierOrNone};

use crate::classes::singles;
use crate::direct::{Direct, unify_directly};
use crate::normal::normalized;
use crate::solved::solve_classes;
use crate::trees::{build_all, measure_nodes};
use cd_term::{Args, MAX_LEVELS, MAX_SYMBOLS, Subst, Term, TermFault, variable_bound};
use std::alloc::Global;

/// Whether all variables of some terms are below a number, as [`mgu`] and [`matches`](crate::matches) ask of
/// their caller.
/// Recurs to the depth of its terms: see 'How deep terms may be' in docs/ARCHITECTURE.md.
pub fn are_below(terms: &[Term], vars: u32) -> bool
    ensures { IsTrue result ↔ (greatest (map bound_of terms.now) ≤ vars) }
{
    for term in terms {
        if variable_bound(term) > u64::from(vars) {
            return false;
        }
    }
    true
}

/// The most general unifier of two lists of one length, in normal form, with a term for each variable below
/// `vars`. `None` exactly where there is no unifier. `OutOfBounds` only where there is one, and its terms
/// together have more than 65,535 symbols and variables, or one of them has more than 1,000 levels.
/// Recurs to the depth of its terms: see 'How deep terms may be' in docs/ARCHITECTURE.md.
pub fn mgu(alloc: Global, left: &Args, right: &Args, vars: u32) -> Result<Option<Subst>, TermFault>
    requires as_many { length left.now ≡ length right.now }
    requires left { greatest (map bound_of left.now) ≤ vars }
    requires right { greatest (map bound_of right.now) ≤ vars }
    ensures answer { IfOk result (IsUnifierOrNone vars left.now right.now) }
    ensures within { IfOk result (λ o. IfSome o (AreWithin 65535 1000)) }
    ensures out_of_bounds { result ≡ Err TermFault.OutOfBounds →
        (s : List Term) × IsMgu vars left.now right.now s × ¬ AreWithin 65535 1000 s }
{
    mgu_apart(alloc, left.as_slice(), right.as_slice(), 0, vars)
}

/// The same of two lists of terms where they stand, the second with its variables moved up by `up`. Nothing is
/// copied.
/// Recurs to the depth of its terms: see 'How deep terms may be' in docs/ARCHITECTURE.md.
pub fn mgu_apart(
    alloc: Global,
    left: &[Term],
    right: &[Term],
    up: u32,
    vars: u32,
) -> Result<Option<Subst>, TermFault>
    requires as_many { length left.now ≡ length right.now }
    requires left { greatest (map bound_of left.now) ≤ vars }
    requires right { greatest (map bound_of (map (raised up) right.now)) ≤ vars }
    ensures answer { IfOk result (IsUnifierOrNone vars left.now (map (raised up) right.now)) }
    ensures within { IfOk result (λ o. IfSome o (AreWithin 65535 1000)) }
    ensures out_of_bounds { result ≡ Err TermFault.OutOfBounds →
        (s : List Term) × IsMgu vars left.now (map (raised up) right.now) s × ¬ AreWithin 65535 1000 s }
{
    match unify_directly(alloc, left, right, up, vars) {
        Err(_) => Err(TermFault::Memory),
        Ok(Direct::Refuted) => Ok(None),
        Ok(Direct::Unified(subst)) => Ok(Some(subst)),
        Ok(Direct::Undecided) => mgu_by_classes(alloc, left, right, up, vars),
    }
}

/// The same by classes of nodes, which decide it always.
fn mgu_by_classes(
    alloc: Global,
    left: &[Term],
    right: &[Term],
    up: u32,
    vars: u32,
) -> Result<Option<Subst>, TermFault>
    requires as_many { length left.now ≡ length right.now }
    requires left { greatest (map bound_of left.now) ≤ vars }
    requires right { greatest (map bound_of (map (raised up) right.now)) ≤ vars }
    ensures answer { IfOk result (IsUnifierOrNone vars left.now (map (raised up) right.now)) }
    ensures within { IfOk result (λ o. IfSome o (AreWithin 65535 1000)) }
    ensures out_of_bounds { result ≡ Err TermFault.OutOfBounds →
        (s : List Term) × IsMgu vars left.now (map (raised up) right.now) s × ¬ AreWithin 65535 1000 s }
{
    let Some(solved) = solve_classes(alloc, left, right, up, vars)? else {
        return Ok(None);
    };
    let count = vars as usize;
    let nodes = singles(alloc, count)?;
    let roots = solved.roots.as_slice();
    let Some(_) = measure_nodes(
        &solved.graph,
        count,
        roots,
        nodes.as_slice(),
        MAX_SYMBOLS,
        MAX_LEVELS,
    ) else {
        return Err(TermFault::OutOfBounds);
    };
    let terms = build_all(
        alloc,
        &solved.graph,
        count,
        roots,
        nodes.as_slice(),
        MAX_LEVELS,
    )?;
    Ok(Some(normalized(alloc, terms.as_slice())?))
}
