//! A subterm of a clause replaced by an instance of a term.
#![tactic(auto)]

ghost use Rattle.std.specs.Prelude.{◌≡◌, true, reverse, IfOk, IfSome, MatchOption};
ghost use Rattle.cd_term.specs.declared.Term.{Term};
ghost use Rattle.cd_term.specs.Terms.{applied};
ghost use Rattle.cd_clause.specs.declared.Clause.{Clause};
ghost use Rattle.cd_clause.specs.declared.Atom.TheVariants.{Equal};
ghost use Rattle.cd_clause.specs.Clauses.{IsWithinBounds};
ghost use Rattle.cd_clause.specs.Places.{HasSides};
ghost use Rattle.cd_rewrite.specs.Rewriting.{AreRewritten, HasNoPlace};

use cd_clause::{
    Clause, Literal, at_atom, measure_atom_replaced, substitute_atom_replaced, within,
};
use cd_list::Copied;
use cd_term::{MAX_LEVELS, MAX_SYMBOLS, Path, Subst, Term, TermFault};
use std::alloc::{AllocError, Global};

/// The path whose steps stand on a list, the last one first.
pub fn path_of(alloc: Global, way: &[u16]) -> Result<Path, AllocError>
    ensures { IfOk result (λ p. p ≡ reverse way.now) }
{
    let mut path = Path::new(alloc);
    let len = way.len();
    for i in 0..len {
        path.push(way[len - 1 - i])?;
    }
    Ok(path)
}

/// The other one of two sides, where the first is number 0 and the second number 1.
pub fn other_side<'e>(left: &'e Term, right: &'e Term, side: u8) -> &'e Term
    ensures { (from : Term) (to : Term) → HasSides side (Equal left.entry.now right.entry.now) from to → result.now ≡ to }
{
    match side {
        0 => right,
        _ => left,
    }
}

/// The clause with an instance of a term in the place of a subterm, which a literal and a path in it name. `None`
/// exactly where the place isn't there, and `OutOfBounds` only where the clause isn't within bounds.
pub fn rewritten(
    alloc: Global,
    c: &Clause,
    j: u16,
    at: &Path,
    to: &Term,
    s: &Subst,
) -> Result<Option<Clause>, TermFault>
    ensures value { IfOk result (λ o. MatchOption o (HasNoPlace c.now.literals j at.now)
        (λ d. AreRewritten c.now.literals j at.now (applied s.now to.now) d.literals)) }
    ensures within { IfOk result (λ o. IfSome o IsWithinBounds) }
    ensures refused { result ≡ Err TermFault.OutOfBounds →
        (d : Clause) × AreRewritten c.now.literals j at.now (applied s.now to.now) d.literals × (¬ IsWithinBounds d) }
{
    let place = usize::from(j);
    let literals = c.literals.as_slice();
    if place >= literals.len() {
        return Ok(None);
    }
    let literal = &literals[place];
    let path = at.as_slice();
    let Some(_) = at_atom(&literal.atom, path) else {
        return Ok(None);
    };
    let none: [Term; 0] = [];
    let none = none.as_slice();
    let terms = s.as_slice();
    let Some(_) = measure_atom_replaced(
        &literal.atom,
        none,
        path,
        to,
        terms,
        MAX_SYMBOLS,
        MAX_LEVELS,
    ) else {
        return Err(TermFault::OutOfBounds);
    };
    let Some(atom) = substitute_atom_replaced(alloc, &literal.atom, none, path, to, terms)? else {
        return Ok(None);
    };
    let mut copies = c.literals.copy(alloc)?;
    copies.set(
        place,
        Literal {
            positive: literal.positive,
            atom,
        },
    );
    let d = Clause { literals: copies };
    if !within(&d) {
        return Err(TermFault::OutOfBounds);
    }
    Ok(Some(d))
}
