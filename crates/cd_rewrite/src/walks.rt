//! The search for the first place, depth first and from the left: a place before all below it.
#![tactic(auto)]

ghost use Rattle.std.specs.Prelude.{◌≡◌, ◌≤◌, IfOk, MatchOption};
ghost use Rattle.cd_term.specs.Terms.{size_of};
ghost use Rattle.cd_rewrite.specs.Equations.{clause_of, IsReady, LowersTerm};
ghost use Rattle.cd_rewrite.specs.Walks.{NoneIn, FoundIn};

use crate::equations::Equation;
use crate::lowering::{Lowering, lowering_of};
use cd_kbo::Order;
use cd_term::Term;
use std::alloc::{AllocError, Global};

/// The first subterm of a term that the equation lowers, and how. The way to it is put on `way`, the last argument
/// first; where there is none, `way` stays as it is.
pub fn first_in(
    alloc: Global,
    eq: &Equation,
    t: &Term,
    order: &Order,
    way: &mut Vec<u16>,
) -> Result<Option<Lowering>, AllocError>
    requires small { size_of t.now ≤ 65535 }
    requires ready { IsReady order.now eq.now }
    ensures { IfOk result (λ o. MatchOption o
        (NoneIn (LowersTerm order.now (clause_of eq.now)) t.now × (way.new.items ≡ way.old.items))
        (λ l. FoundIn order.now (clause_of eq.now) eq.now.variables t.now way.old.items way.new.items l.side l.subst)) }
{
    let Term::App(_, args) = t else {
        return Ok(None);
    };
    if let Some(lowering) = lowering_of(alloc, eq, t, order)? {
        return Ok(Some(lowering));
    }
    for (i, arg) in args.as_slice().iter().enumerate() {
        if let Some(lowering) = first_in(alloc, eq, arg, order, way)? {
            way.push(i as u16)?;
            return Ok(Some(lowering));
        }
    }
    Ok(None)
}
