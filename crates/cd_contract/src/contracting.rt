//! Forward and backward contraction.
//!
//! Most held clauses are passed over by a look into a table of shapes, and most others by their counts. Keys are
//! compared last, only where a clause subsumes or reduces another.
#![tactic(auto)]

ghost use Rattle.std.specs.Prelude.{◌≡◌, ◌⊎◌, false, ◌≤◌, ◌<◌, ◌↔◌, ◌∷◌, [], Some, None, List, IsTrue, IfOk, length, slice_index_or};
ghost use Rattle.std.specs.Option.{option_copied};
ghost use Rattle.cd_clause.specs.declared.Clause.{Clause};
ghost use Rattle.cd_clause.specs.Clauses.{IsWithinBounds};
ghost use Rattle.cd_subsume.specs.Subsumption.{Subsumes};
ghost use Rattle.cd_rewrite.specs.Reduction.{Spot, ReducesAt};
ghost use Rattle.cd_contract.specs.declared.held.Entry.{Entry};
ghost use Rattle.cd_contract.specs.Hits.{Contracting, IsFirstOf, IsForward, IsWay, IsStruckBy, AreStruck, Contracts, IsReducer};
ghost use Rattle.cd_contract.specs.Rows.{IsRow, IsKept, AreKept, entries_of};
ghost use Rattle.cd_contract.specs.Needs.{AreInStep, HasNeeds, IsNeeds};
ghost use Rattle.cd_contract.specs.Parts.{AreSmall, IsSoughtBy};

use crate::held::{Entry, Held, Hit, Hits, Kept, Struck};
use crate::needs::{Needs, next_place};
use crate::parts::Sought;
use crate::rows::Row;
use crate::sides::{are_both, sides_met};
use cd_clause::Clause;
use cd_kbo::Order;
use cd_key::key_cmp;
use cd_names::{How, Name};
use cd_rewrite::reduces_from;
use cd_subsume::subsumes;
use std::alloc::{AllocError, Global};

/// Whether a clause subsumes another one. Most don't come here, so it stands apart from the tests before it.
#[inline(never)]
fn is_subsumer(alloc: Global, d: &Clause, c: &Clause) -> Result<bool, AllocError>
    ensures { IfOk result (λ b. IsTrue b ↔ Subsumes d.now c.now) }
{
    let Some(_subst) = subsumes(alloc, d, c)? else {
        return Ok(false);
    };
    Ok(true)
}

/// Whether a clause makes another one superfluous in a way, given from which sides it may reduce. Most don't by their
/// counts.
fn contracts(
    alloc: Global,
    how: How,
    d: &Clause,
    row: &Row,
    sides: (bool, bool),
    c: &Clause,
    sought: &Row,
    order: &Order,
) -> Result<bool, AllocError>
    requires clause { IsWithinBounds c.now }
    requires row { IsRow d.now row.now }
    requires sought { IsRow c.now sought.now }
    requires left { sides.0 ≡ false → (at : Spot) → at.side ≡ 0 → ¬ ReducesAt order.now d.now c.now at }
    requires right { sides.1 ≡ false → (at : Spot) → at.side ≡ 1 → ¬ ReducesAt order.now d.now c.now at }
    ensures { IfOk result (λ b. IsTrue b ↔ Contracts order.now how d.now c.now) }
{
    match how {
        How::Subsumes => {
            if !row.may_subsume(sought) {
                return Ok(false);
            }
            let found = is_subsumer(alloc, d, c)?;
            Ok(found)
        }
        How::Reduces => {
            let (left, right) = sides;
            let from_left = are_both(left, row.may_reduce_left(sought));
            let from_right = are_both(right, row.may_reduce_right(sought));
            let found = reduces_from(alloc, d, row.variables, from_left, from_right, c, order)?;
            Ok(found)
        }
    }
}

/// Whether a held clause of smaller key makes a clause superfluous in a way.
fn is_contracting(
    alloc: Global,
    how: How,
    c: &Clause,
    name: Option<Name>,
    sought: &Row,
    kept: &Kept,
    sides: (bool, bool),
    order: &Order,
) -> Result<bool, AllocError>
    requires clause { IsWithinBounds c.now }
    requires sought { IsRow c.now sought.now }
    requires kept { IsKept kept.now }
    requires left { sides.0 ≡ false → (at : Spot) → at.side ≡ 0 → ¬ ReducesAt order.now kept.now.entry.clause c.now at }
    requires right { sides.1 ≡ false → (at : Spot) → at.side ≡ 1 → ¬ ReducesAt order.now kept.now.entry.clause c.now at }
    ensures { IfOk result (λ b. IsTrue b ↔ Contracting order.now how c.now name kept.now.entry) }
{
    let e = &kept.entry;
    if !contracts(alloc, how, &e.clause, &kept.row, sides, c, sought, order)? {
        return Ok(false);
    }
    cd_key::laws::bounded_clauses();
    let compared = key_cmp(&e.clause, Some(e.name), c, name, order);
    Ok(compared.is_lt())
}

/// The entry in a place with its counts.
fn kept_at(held: &[Kept], i: usize) -> &Kept
    requires { i < length held.now }
    ensures { result.now ≡ slice_index_or held.entry.now i result.now }
{
    &held[i]
}

/// From which of its sides a held clause may make another one superfluous in a way.
fn sides_of(
    alloc: Global,
    how: How,
    needs: &Needs,
    kept: &Kept,
    sought: &Sought,
    order: &Order,
) -> Result<(bool, bool), AllocError>
    requires needs { IsNeeds order.now kept.now.entry.clause needs.now }
    requires row { IsRow kept.now.entry.clause kept.now.row }
    requires small { AreSmall sought.now.parts.items }
    ensures left { IfOk result (λ m. m.0 ≡ false → (c : Clause) → IsSoughtBy c sought.now →
        (at : Spot) → at.side ≡ 0 → ¬ ReducesAt order.now kept.now.entry.clause c at) }
    ensures right { IfOk result (λ m. m.1 ≡ false → (c : Clause) → IsSoughtBy c sought.now →
        (at : Spot) → at.side ≡ 1 → ¬ ReducesAt order.now kept.now.entry.clause c at) }
{
    match how {
        How::Subsumes => Ok((true, true)),
        How::Reduces => {
            let met = sides_met(alloc, needs, kept, sought, order)?;
            Ok(met)
        }
    }
}

/// The first held clause of smaller key that makes a clause superfluous in a way.
fn first_contracting<'a>(
    alloc: Global,
    how: How,
    held: &'a [Kept],
    needs: &[Needs],
    c: &Clause,
    name: Option<Name>,
    sought: &Sought,
    order: &Order,
) -> Result<Option<&'a Entry>, AllocError>
    requires clause { IsWithinBounds c.now }
    requires sought { IsSoughtBy c.now sought.now }
    requires kept { AreKept held.now }
    requires needs { AreInStep (HasNeeds order.now) (entries_of held.now) needs.now }
    ensures { IfOk result (λ o. IsFirstOf (Contracting order.now how c.now name) (entries_of held.entry.now) (option_copied o)) }
{
    let mut i = next_place(how, needs, &sought.marks, 0);
    while i < needs.len() {
        let kept = kept_at(held, i);
        let sides = sides_of(alloc, how, &needs[i], kept, sought, order)?;
        if is_contracting(alloc, how, c, name, &sought.row, kept, sides, order)? {
            return Ok(Some(&kept.entry));
        }
        i = next_place(how, needs, &sought.marks, i + 1);
    }
    Ok(None)
}

/// The shapes that each of some held clauses needs by an order.
fn needs_of(alloc: Global, held: &[Kept], order: &Order) -> Result<Vec<Needs>, AllocError>
    ensures { IfOk result (λ ns. AreInStep (HasNeeds order.now) (entries_of held.now) ns.items) }
{
    let mut needs = Vec::new(alloc);
    for kept in held {
        needs.push(Needs::of(&kept.entry.clause, order))?;
    }
    Ok(needs)
}

/// The first clause of smaller key that subsumes a clause, else the first equation of smaller key that reduces it.
fn forward_among(
    alloc: Global,
    kept: &[Kept],
    needs: &[Needs],
    c: &Clause,
    name: Option<Name>,
    order: &Order,
) -> Result<Option<Hit>, AllocError>
    requires clause { IsWithinBounds c.now }
    requires kept { AreKept kept.now }
    requires needs { AreInStep (HasNeeds order.now) (entries_of kept.now) needs.now }
    ensures { IfOk result (IsForward order.now c.now name (entries_of kept.now)) }
{
    let sought = Sought::of(alloc, c)?;
    let found = first_contracting(alloc, How::Subsumes, kept, needs, c, name, &sought, order)?;
    if let Some(e) = found {
        return Ok(Some(Hit {
            by: e.name,
            how: How::Subsumes,
        }));
    }
    let found = first_contracting(alloc, How::Reduces, kept, needs, c, name, &sought, order)?;
    if let Some(e) = found {
        return Ok(Some(Hit {
            by: e.name,
            how: How::Reduces,
        }));
    }
    Ok(None)
}

/// The first held clause of smaller key that subsumes a clause, else the first held equation of smaller key that
/// reduces it, else `None`. A reduct out of bounds is a hit all the same.
pub fn forward(
    alloc: Global,
    held: &Held,
    c: &Clause,
    name: Option<Name>,
    order: &Order,
) -> Result<Option<Hit>, AllocError>
    requires { IsWithinBounds c.now }
    ensures { IfOk result (IsForward order.now c.now name held.now) }
{
    let kept = held.kept();
    if let Some(needs) = held.needs(order) {
        let hit = forward_among(alloc, kept, needs, c, name, order)?;
        return Ok(hit);
    }
    let needs = needs_of(alloc, kept, order)?;
    let hit = forward_among(alloc, kept, needs.as_slice(), c, name, order)?;
    Ok(hit)
}

/// The first equation of smaller key that reduces a clause.
fn reducer_among(
    alloc: Global,
    kept: &[Kept],
    needs: &[Needs],
    c: &Clause,
    name: Option<Name>,
    order: &Order,
) -> Result<Option<Name>, AllocError>
    requires clause { IsWithinBounds c.now }
    requires kept { AreKept kept.now }
    requires needs { AreInStep (HasNeeds order.now) (entries_of kept.now) needs.now }
    ensures { IfOk result (λ o. IsReducer order.now c.now name (entries_of kept.now) o) }
{
    let sought = Sought::of(alloc, c)?;
    let found = first_contracting(alloc, How::Reduces, kept, needs, c, name, &sought, order)?;
    let Some(e) = found else {
        return Ok(None);
    };
    Ok(Some(e.name))
}

/// The first held equation of smaller key that reduces a clause, or `None` exactly where there is none.
pub fn reducer(
    alloc: Global,
    held: &Held,
    c: &Clause,
    name: Option<Name>,
    order: &Order,
) -> Result<Option<Name>, AllocError>
    requires { IsWithinBounds c.now }
    ensures { IfOk result (λ o. IsReducer order.now c.now name held.now o) }
{
    let kept = held.kept();
    if let Some(needs) = held.needs(order) {
        let by = reducer_among(alloc, kept, needs, c, name, order)?;
        return Ok(by);
    }
    let needs = needs_of(alloc, kept, order)?;
    let by = reducer_among(alloc, kept, needs.as_slice(), c, name, order)?;
    Ok(by)
}

/// How a clause makes another one superfluous, if it does, given from which sides it may reduce.
fn way_of(
    alloc: Global,
    d: &Clause,
    row: &Row,
    sides: (bool, bool),
    c: &Clause,
    sought: &Row,
    order: &Order,
) -> Result<Option<How>, AllocError>
    requires clause { IsWithinBounds c.now }
    requires row { IsRow d.now row.now }
    requires sought { IsRow c.now sought.now }
    requires left { sides.0 ≡ false → (at : Spot) → at.side ≡ 0 → ¬ ReducesAt order.now d.now c.now at }
    requires right { sides.1 ≡ false → (at : Spot) → at.side ≡ 1 → ¬ ReducesAt order.now d.now c.now at }
    ensures { IfOk result (IsWay order.now d.now c.now) }
{
    if contracts(alloc, How::Subsumes, d, row, sides, c, sought, order)? {
        return Ok(Some(How::Subsumes));
    }
    if contracts(alloc, How::Reduces, d, row, sides, c, sought, order)? {
        return Ok(Some(How::Reduces));
    }
    Ok(None)
}

/// How a clause makes a held clause of greater key superfluous, if it does.
fn strikes(
    alloc: Global,
    d: &Clause,
    name: Name,
    row: &Row,
    sides: (bool, bool),
    kept: &Kept,
    order: &Order,
) -> Result<Option<How>, AllocError>
    requires clause { IsWithinBounds d.now }
    requires row { IsRow d.now row.now }
    requires kept { IsKept kept.now }
    requires left { sides.0 ≡ false → (at : Spot) → at.side ≡ 0 → ¬ ReducesAt order.now d.now kept.now.entry.clause at }
    requires right { sides.1 ≡ false → (at : Spot) → at.side ≡ 1 → ¬ ReducesAt order.now d.now kept.now.entry.clause at }
    ensures { IfOk result (IsStruckBy order.now d.now name kept.now.entry) }
{
    let e = &kept.entry;
    let Some(how) = way_of(alloc, d, row, sides, &e.clause, &kept.row, order)? else {
        return Ok(None);
    };
    cd_key::laws::bounded_clauses();
    if !key_cmp(d, Some(name), &e.clause, Some(e.name), order).is_lt() {
        return Ok(None);
    }
    Ok(Some(how))
}

/// Each held clause of greater key that a clause subsumes, or else reduces, in their order.
pub fn backward(
    alloc: Global,
    held: &Held,
    d: &Clause,
    name: Name,
    order: &Order,
) -> Result<Hits, AllocError>
    requires { IsWithinBounds d.now }
    ensures { IfOk result (AreStruck order.now d.now name held.now) }
{
    let row = Row::of(d);
    let needs = Needs::of(d, order);
    let all = held.kept();
    let mut hits = Hits::new(alloc);
    for (i, marks) in held.marks().iter().enumerate() {
        if !needs.may_strike(marks) {
            continue;
        }
        let kept = kept_at(all, i);
        let sides = needs.strike_sides(marks);
        let Some(how) = strikes(alloc, d, name, &row, sides, kept, order)? else {
            continue;
        };
        hits.push(Struck {
            of: kept.entry.name,
            how,
        })?;
    }
    Ok(hits)
}
