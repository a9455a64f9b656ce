//! What is to become of a pending item, wherever it stands.
#![tactic(auto)]

ghost use Rattle.std.specs.Prelude.{◌≡◌, None, IfOk, slice_get};
ghost use Rattle.std.specs.List.{AllByRecursion as Each};
ghost use Rattle.std.specs.Option.{option_copied};
ghost use Rattle.cd_acts.specs.Answers.{IsSubsumerOf};
ghost use Rattle.cd_acts.specs.View.{local_of};
ghost use Rattle.cd_clause.specs.Clauses.{IsWithinBounds};
ghost use Rattle.cd_kbo.specs.declared.order.Order.{Order};
ghost use Rattle.cd_laws.specs.Turns.{IsForcedHere};
ghost use Rattle.cd_machine.specs.Hits.{IsReducer};
ghost use Rattle.cd_acts.specs.Indexed.{IsIndexed, IsSensible};
ghost use Rattle.cd_peer.specs.Choices.{IsRewriterNamed};
ghost use Rattle.cd_replay.specs.Prospects.{IsProspect};

use cd_acts::State;
use cd_acts::rules::{Reduction, Standing, reduction_of, standing_of};
use cd_kbo::Order;
use cd_ledger::{Item, Outcome};
use cd_names::Name;
use cd_rewrite::ReductAt;
use std::alloc::{AllocError, Global};

/// What is to become of an item.
#[derive(Drop)]
pub enum Prospect {
    /// The equation with this name rewrites it so.
    Rewritten(Name, ReductAt),
    /// It would be rewritten, out of bounds.
    TooLarge,
    /// Nothing rewrites it, and it ends so.
    Kept(Outcome),
    /// Nothing rewrites it, it would be named, and no name is left.
    Nameless,
}

/// How the equation with this name rewrites an item.
fn rewriting_by(
    alloc: Global,
    state: &State,
    order: &Order,
    item: &Item,
    by: Name,
) -> Result<Prospect, AllocError>
    requires indexed { IsIndexed state.now }
    requires sensible { IsSensible (local_of state.now) }
    requires within { IsWithinBounds item.now.clause }
    requires rewriter { IsRewriterNamed order.now state.now.known item.now by }
    ensures { IfOk result (IsProspect order.now (local_of state.now) item.now) }
{
    let Some(equation) = state.look(by) else {
        unreachable!();
    };
    let reduction = reduction_of(alloc, &equation.entry.clause, &item.clause, order)?;
    match reduction {
        Reduction::To(r) => Ok(Prospect::Rewritten(by, r)),
        Reduction::TooLarge => Ok(Prospect::TooLarge),
    }
}

/// How an item ends that nothing rewrites, given the first held clause that subsumes it.
fn ending_of(state: &State, item: &Item, subsumer: Option<Name>) -> Prospect
    requires free { item.now.forced ≡ None }
    requires subsumer { IsSubsumerOf item.now.clause state.now.known subsumer }
    ensures { (order : Order) → Each (λ e. ¬ IsReducer order item.now.clause e) state.now.known → IsProspect order (local_of state.now) item.now result }
{
    match state.outcome_of(item, subsumer) {
        Some(outcome) => Prospect::Kept(outcome),
        None => Prospect::Nameless,
    }
}

/// What is to become of an item that no equation is to rewrite before others.
fn prospect_of_free(
    alloc: Global,
    state: &State,
    order: &Order,
    item: &Item,
) -> Result<Prospect, AllocError>
    requires indexed { IsIndexed state.now }
    requires sensible { IsSensible (local_of state.now) }
    requires within { IsWithinBounds item.now.clause }
    requires free { item.now.forced ≡ None }
    ensures { IfOk result (IsProspect order.now (local_of state.now) item.now) }
{
    let standing = standing_of(alloc, &state.held, &item.clause, order)?;
    match standing {
        Standing::Reduced(by) => {
            let prospect = rewriting_by(alloc, state, order, item, by)?;
            Ok(prospect)
        }
        Standing::Subsumed(by) => Ok(ending_of(state, item, Some(by))),
        Standing::Free => Ok(ending_of(state, item, None)),
    }
}

/// What is to become of an item.
pub fn prospect_of(
    alloc: Global,
    state: &State,
    order: &Order,
    item: &Item,
) -> Result<Prospect, AllocError>
    requires indexed { IsIndexed state.now }
    requires sensible { IsSensible (local_of state.now) }
    requires within { IsWithinBounds item.now.clause }
    requires forced { IsForcedHere order.now state.now.known item.now }
    ensures { IfOk result (IsProspect order.now (local_of state.now) item.now) }
{
    match item.forced {
        Some(by) => {
            let prospect = rewriting_by(alloc, state, order, item, by)?;
            Ok(prospect)
        }
        None => {
            let prospect = prospect_of_free(alloc, state, order, item)?;
            Ok(prospect)
        }
    }
}

/// The pending item in a place.
pub fn item_at(state: &State, place: u64) -> Option<&Item>
    ensures { option_copied result ≡ slice_get (local_of state.now).pending place }
{
    state.pending.get(place as usize)
}
