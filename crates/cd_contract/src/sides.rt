//! From which of its sides a held equation may reduce a clause.
#![tactic(auto)]

ghost use Rattle.std.specs.Prelude.{◌≡◌, ◌≤◌, ◌⊎◌, false, IfOk};
ghost use Rattle.cd_term.specs.Terms.{bound_of};
ghost use Rattle.cd_clause.specs.declared.Clause.{Clause};
ghost use Rattle.cd_rewrite.specs.Reduction.{Spot, ReducesAt};
ghost use Rattle.cd_contract.specs.Needs.{IsNeeds};
ghost use Rattle.cd_contract.specs.Parts.{AreSmall, IsSoughtBy, Misses};
ghost use Rattle.cd_contract.specs.Rows.{IsRow};

use crate::held::Kept;
use crate::needs::Needs;
use crate::parts::{Part, Sought};
use cd_kbo::Order;
use cd_rewrite::{falls_at, sides_of_one};
use cd_term::Term;
use std::alloc::{AllocError, Global};

/// Whether both tests hold.
pub fn are_both(one: bool, other: bool) -> bool
    ensures { result ≡ false → (one ≡ false) ⊎ (other ≡ false) }
{
    one && other
}

/// Whether a side that is wanted lowers a part. Most parts aren't looked at, since they don't have its shape.
fn is_met(
    alloc: Global,
    wanted: bool,
    shape: u16,
    from: &Term,
    to: &Term,
    variables: u64,
    parts: &[Part],
    order: &Order,
) -> Result<bool, AllocError>
    requires small { AreSmall parts.now }
    requires below { bound_of from.now ≤ variables }
    ensures { IfOk result (λ b. b ≡ false → (wanted ≡ false) ⊎ Misses order.now from.now to.now shape parts.now) }
{
    if !wanted {
        return Ok(false);
    }
    for part in parts {
        if !part.marks.has(shape) {
            continue;
        }
        let found = falls_at(alloc, from, to, variables, part.term, order)?;
        if found {
            return Ok(true);
        }
    }
    Ok(false)
}

/// From which of its sides, the left one and the right one, a held clause may reduce another one: by the marks, by the
/// counts, and by a look at the parts that have the side's shape.
pub fn sides_met(
    alloc: Global,
    needs: &Needs,
    kept: &Kept,
    sought: &Sought,
    order: &Order,
) -> Result<(bool, bool), AllocError>
    requires needs { IsNeeds order.now kept.now.entry.clause needs.now }
    requires row { IsRow kept.now.entry.clause kept.now.row }
    requires small { AreSmall sought.now.parts.items }
    ensures left { IfOk result (λ m. m.0 ≡ false → (c : Clause) → IsSoughtBy c sought.now →
        (at : Spot) → at.side ≡ 0 → ¬ ReducesAt order.now kept.now.entry.clause c at) }
    ensures right { IfOk result (λ m. m.1 ≡ false → (c : Clause) → IsSoughtBy c sought.now →
        (at : Spot) → at.side ≡ 1 → ¬ ReducesAt order.now kept.now.entry.clause c at) }
{
    let row = &kept.row;
    let from_left = are_both(
        needs.may_reduce_left(&sought.marks),
        row.may_reduce_left(&sought.row),
    );
    let from_right = are_both(
        needs.may_reduce_right(&sought.marks),
        row.may_reduce_right(&sought.row),
    );
    if !from_left && !from_right {
        return Ok((false, false));
    }
    let Some((left, right)) = sides_of_one(&kept.entry.clause) else {
        return Ok((false, false));
    };
    let parts = sought.parts.as_slice();
    let at_left = is_met(
        alloc,
        from_left,
        needs.left,
        left,
        right,
        row.variables,
        parts,
        order,
    )?;
    let at_right = is_met(
        alloc,
        from_right,
        needs.right,
        right,
        left,
        row.variables,
        parts,
        order,
    )?;
    Ok((at_left, at_right))
}
