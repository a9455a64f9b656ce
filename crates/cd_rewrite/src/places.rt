//! The first place of a clause that an equation reduces.
#![tactic(auto)]

ghost use Rattle.std.specs.Prelude.{◌≡◌, ◌≤◌, length, sum_by, IfOk, MatchOption};
ghost use Rattle.cd_term.specs.Terms.{size_of};
ghost use Rattle.cd_clause.specs.Clauses.{terms_of, clause_size};
ghost use Rattle.cd_rewrite.specs.Equations.{clause_of, IsReady, LowersTerm};
ghost use Rattle.cd_rewrite.specs.Walks.{NoneAmong, FoundAmong, NoLiteralBefore, FoundAt};

use crate::equations::Equation;
use crate::lowering::Lowering;
use crate::walks::first_in;
use cd_clause::{Atom, Clause};
use cd_kbo::Order;
use cd_term::Term;
use std::alloc::{AllocError, Global};

/// The first subterm of several terms that the equation lowers.
fn first_among(
    alloc: Global,
    eq: &Equation,
    terms: &[Term],
    order: &Order,
    way: &mut Vec<u16>,
) -> Result<Option<Lowering>, AllocError>
    requires small { sum_by size_of terms.now ≤ 65535 }
    requires ready { IsReady order.now eq.now }
    ensures { IfOk result (λ o. MatchOption o
        (NoneAmong (LowersTerm order.now (clause_of eq.now)) terms.now × (way.new.items ≡ way.old.items))
        (λ l. FoundAmong order.now (clause_of eq.now) eq.now.variables terms.now way.old.items way.new.items l.side l.subst)) }
{
    for (i, term) in terms.iter().enumerate() {
        if let Some(lowering) = first_in(alloc, eq, term, order, way)? {
            way.push(i as u16)?;
            return Ok(Some(lowering));
        }
    }
    Ok(None)
}

/// The first subterm of an atom that the equation lowers.
fn first_in_atom(
    alloc: Global,
    eq: &Equation,
    atom: &Atom,
    order: &Order,
    way: &mut Vec<u16>,
) -> Result<Option<Lowering>, AllocError>
    requires small { sum_by size_of (terms_of atom.now) ≤ 65535 }
    requires ready { IsReady order.now eq.now }
    ensures { IfOk result (λ o. MatchOption o
        (NoneAmong (LowersTerm order.now (clause_of eq.now)) (terms_of atom.now) × (way.new.items ≡ way.old.items))
        (λ l. FoundAmong order.now (clause_of eq.now) eq.now.variables (terms_of atom.now) way.old.items way.new.items l.side l.subst)) }
{
    match atom {
        Atom::Truth => Ok(None),
        Atom::Pred(_, args) => {
            let found = first_among(alloc, eq, args.as_slice(), order, way)?;
            Ok(found)
        }
        Atom::Equal(s, t) => {
            if let Some(lowering) = first_in(alloc, eq, s, order, way)? {
                way.push(0)?;
                return Ok(Some(lowering));
            }
            if let Some(lowering) = first_in(alloc, eq, t, order, way)? {
                way.push(1)?;
                return Ok(Some(lowering));
            }
            Ok(None)
        }
    }
}

/// A literal of a clause, the way to a subterm of it, the last step first, and how the subterm is lowered.
#[derive(Debug, Drop)]
pub struct Place {
    pub literal: u16,
    pub way: Vec<u16>,
    pub lowering: Lowering,
}

/// The first place of a clause that the equation reduces: of the first literal, and in it of the first path.
pub fn first_place(
    alloc: Global,
    eq: &Equation,
    c: &Clause,
    order: &Order,
) -> Result<Option<Place>, AllocError>
    requires small { clause_size c.now ≤ 65535 }
    requires ready { IsReady order.now eq.now }
    ensures { IfOk result (λ o. MatchOption o
        (NoLiteralBefore (LowersTerm order.now (clause_of eq.now)) c.now.literals (length c.now.literals))
        (λ p. FoundAt order.now (clause_of eq.now) eq.now.variables c.now.literals p.literal p.way.items p.lowering.side p.lowering.subst)) }
{
    let mut way: Vec<u16> = Vec::new(alloc);
    for (j, literal) in c.literals.as_slice().iter().enumerate() {
        if let Some(lowering) = first_in_atom(alloc, eq, &literal.atom, order, &mut way)? {
            return Ok(Some(Place {
                literal: j as u16,
                way,
                lowering,
            }));
        }
    }
    Ok(None)
}
