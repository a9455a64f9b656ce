//! The conclusion of one inference: its most general unifier, and the clause that follows.
#![tactic(auto)]

ghost use Rattle.cd_steps.specs.Drafts.{inference_of};
ghost use Rattle.cd_infer.specs.Concluding.{IsConcluded, IsBounded, IsUnifier};

use crate::clashing::all_clash;
use cd_clause::Clause;
use cd_steps::drafts::Draft;
use cd_steps::gives;
use cd_term::{Subst, TermFault};
use cd_unify::mgu_apart;
use std::alloc::Global;

/// A most general unifier in normal form, and the clause that follows with it.
#[derive(Drop)]
pub struct Concluded {
    pub subst: Subst,
    pub clause: Clause,
}

/// What follows with the most general unifier, if both are within bounds.
fn finish(alloc: Global, draft: &Draft, subst: Subst) -> Result<Option<Concluded>, TermFault>
    requires bounded { IsBounded draft.now }
    requires unifier { IsUnifier (inference_of draft.now) subst }
    ensures { IsConcluded (inference_of draft.now) result }
{
    match gives(alloc, draft, subst.as_slice()) {
        Err(fault) => Err(fault),
        Ok(None) => Ok(None),
        Ok(Some(clause)) => Ok(Some(Concluded { subst, clause })),
    }
}

/// What follows by an inference with the most general unifier of its terms, or `None` where they have none.
/// `OutOfBounds` only where they have one, and the substitution or the clause is out of bounds.
pub fn conclude(alloc: Global, draft: &Draft) -> Result<Option<Concluded>, TermFault>
    requires { IsBounded draft.now }
    ensures { IsConcluded (inference_of draft.now) result }
{
    if draft.left.len() != draft.right.len() {
        return Ok(None);
    }
    if all_clash(draft.left, draft.right) {
        return Ok(None);
    }
    let up = draft.up as u32;
    let vars = (draft.up + draft.more) as u32;
    match mgu_apart(alloc, draft.left, draft.right, up, vars) {
        Err(fault) => Err(fault),
        Ok(None) => Ok(None),
        Ok(Some(subst)) => finish(alloc, draft, subst),
    }
}
