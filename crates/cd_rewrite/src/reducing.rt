//! Whether an equation reduces a clause, and what it makes of it.
#![tactic(auto)]

ghost use Rattle.std.specs.Prelude.{◌≡◌, ◌≤◌, ◌↔◌, List, IsTrue, false, IfOk, IfSome, MatchOption};
ghost use Rattle.cd_term.specs.declared.Term.{Term};
ghost use Rattle.cd_clause.specs.declared.Clause.{Clause};
ghost use Rattle.cd_clause.specs.Clauses.{clause_size, variable_bound_of, IsWithinBounds};
ghost use Rattle.cd_rewrite.specs.Reduction.{Reduces, ReducesAt, Spot, IsReduct};

use crate::equations::{equation_of, sides_of_one};
use crate::falling::is_met;
use crate::lowering::Lowering;
use crate::places::{Place, first_place};
use crate::rewriting::{other_side, path_of, rewritten};
use cd_clause::{Clause, variables};
use cd_kbo::Order;
use cd_term::{Path, Subst, TermFault};
use std::alloc::{AllocError, Global};

/// Whether clause `e` is one positive equation that reduces clause `c` somewhere. Most subterms are refused by their
/// symbols, without memory and without the order. Where a side matches a subterm the order is asked of the two sides,
/// and of the instances only where neither side is greater.
pub fn reduces(alloc: Global, e: &Clause, c: &Clause, order: &Order) -> Result<bool, AllocError>
    requires { clause_size c.now ≤ 65535 }
    ensures { IfOk result (λ b. IsTrue b ↔ Reduces order.now e.now c.now) }
{
    reduces_from(alloc, e, variables(e), true, true, c, order)
}

/// The same where the caller knows how many variables `e` has, and which of its sides, the left one and the right one,
/// may reduce `c`.
#[inline(never)]
pub fn reduces_from(
    alloc: Global,
    e: &Clause,
    count: u64,
    from_left: bool,
    from_right: bool,
    c: &Clause,
    order: &Order,
) -> Result<bool, AllocError>
    requires size { clause_size c.now ≤ 65535 }
    requires count { count ≡ variable_bound_of e.now }
    requires left { from_left ≡ false → (at : Spot) → at.side ≡ 0 → ¬ ReducesAt order.now e.now c.now at }
    requires right { from_right ≡ false → (at : Spot) → at.side ≡ 1 → ¬ ReducesAt order.now e.now c.now at }
    ensures { IfOk result (λ b. IsTrue b ↔ Reduces order.now e.now c.now) }
{
    if !from_left && !from_right {
        return Ok(false);
    }
    let Some((left, right)) = sides_of_one(e) else {
        return Ok(false);
    };
    let met = is_met(alloc, from_left, left, right, count, c, order)?;
    if met {
        return Ok(true);
    }
    let met = is_met(alloc, from_right, right, left, count, c, order)?;
    Ok(met)
}

/// What an equation makes of a clause at the first place that it reduces: the side of the equation, the literal and
/// the path in it, the substitution, with a term for each variable of the equation, and the clause before tidying.
#[derive(Debug, Drop)]
pub struct ReductAt {
    pub s: u8,
    pub j: u16,
    pub at: Path,
    pub subst: Subst,
    pub clause: Clause,
}

/// What clause `e`, where it is one positive equation, makes of clause `c` at the first place that it reduces: of the
/// first literal, in it of the first path, and there of the first side. `None` exactly where it reduces `c` nowhere,
/// and `OutOfBounds` only where the reduct at the first place is out of bounds. It looks at each subterm of `c` once.
pub fn reduct(
    alloc: Global,
    e: &Clause,
    c: &Clause,
    order: &Order,
) -> Result<Option<ReductAt>, TermFault>
    requires { clause_size c.now ≤ 65535 }
    ensures value { IfOk result (λ o. MatchOption o (¬ Reduces order.now e.now c.now)
        (λ r. IsReduct order.now e.now c.now (record { literal = r.j; path = r.at; side = r.s }) r.subst r.clause)) }
    ensures within { IfOk result (λ o. IfSome o (λ r. IsWithinBounds r.clause)) }
    ensures refused { result ≡ Err TermFault.OutOfBounds →
        (at : Spot) × (s : List Term) × (d : Clause) × IsReduct order.now e.now c.now at s d × (¬ IsWithinBounds d) }
{
    let Some((left, right)) = sides_of_one(e) else {
        return Ok(None);
    };
    let eq = equation_of(e, left, right, variables(e));
    let Some(place) = first_place(alloc, &eq, c, order)? else {
        return Ok(None);
    };
    let Place {
        literal,
        way,
        lowering,
    } = place;
    let Lowering { side, subst } = lowering;
    let at = path_of(alloc, way.as_slice())?;
    let to = other_side(left, right, side);
    match rewritten(alloc, c, literal, &at, to, &subst) {
        Err(fault) => Err(fault),
        Ok(None) => Ok(None),
        Ok(Some(clause)) => Ok(Some(ReductAt {
            s: side,
            j: literal,
            at,
            subst,
            clause,
        })),
    }
}
