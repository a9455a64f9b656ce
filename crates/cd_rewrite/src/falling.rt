//! Whether a side of an equation lowers a subterm of a clause, wherever it is.
//!
//! A search for hits asks no more. It looks at the wanted sides alone, and most subterms are refused by their symbols,
//! without memory and without the order.
#![tactic(auto)]

ghost use Rattle.std.specs.Prelude.{◌≡◌, ◌≤◌, ◌⊎◌, ℕ, false, length, sum_by, IfOk, IsTrue};
ghost use Rattle.cd_term.specs.declared.Term.{Term};
ghost use Rattle.cd_term.specs.Terms.{size_of, bound_of, substituted};
ghost use Rattle.cd_clause.specs.Clauses.{terms_of, clause_size};
ghost use Rattle.cd_kbo.specs.Kbo.{Greater};
ghost use Rattle.cd_rewrite.specs.Equations.{Falls};
ghost use Rattle.cd_rewrite.specs.Walks.{NoneIn, NoneAmong, NoLiteralBefore, SomeIn, SomeAmong, SomeLiteral, Tells, FallsFrom};

use crate::equations::may_lower;
use crate::lowering::try_side;
use cd_clause::{Atom, Clause};
use cd_kbo::{Order, Side, weight};
use cd_term::{Term, size};
use cd_unify::may_match;
use std::alloc::{AllocError, Global};

/// Whether a term weighs less than another one has symbols. Then it is greater than no instance of it.
fn is_lighter(t: &Term, to: &Term, order: &Order) -> bool
    requires { size_of t.now ≤ 65535 }
    ensures { IsTrue result → (g : ℕ → Term) → ¬ Greater order.now t.now (substituted g to.now) }
{
    let symbols = size(to);
    let most = weight(Side::of(t), order);
    if most < symbols {
        return true;
    }
    false
}

/// The same of a term that may be an instance by its symbols. Most don't come here, so it stands apart from the walk.
#[inline(never)]
fn is_greater(
    alloc: Global,
    from: &Term,
    to: &Term,
    variables: u64,
    t: &Term,
    order: &Order,
) -> Result<bool, AllocError>
    requires small { size_of t.now ≤ 65535 }
    requires below { bound_of from.now ≤ variables }
    ensures { IfOk result (λ b. Tells b ((g : ℕ → Term) × Falls order.now from.now to.now g t.now)
        ((g : ℕ → Term) → ¬ Falls order.now from.now to.now g t.now)) }
{
    if is_lighter(t, to, order) {
        return Ok(false);
    }
    let Some(_subst) = try_side(alloc, true, from, to, variables, t, order)? else {
        return Ok(false);
    };
    Ok(true)
}

/// Whether a term is an instance of a side that is greater than the same instance of the other side. Most terms are
/// refused by their symbols.
pub fn falls_at(
    alloc: Global,
    from: &Term,
    to: &Term,
    variables: u64,
    t: &Term,
    order: &Order,
) -> Result<bool, AllocError>
    requires small { size_of t.now ≤ 65535 }
    requires below { bound_of from.now ≤ variables }
    ensures { IfOk result (λ b. Tells b ((g : ℕ → Term) × Falls order.now from.now to.now g t.now)
        ((g : ℕ → Term) → ¬ Falls order.now from.now to.now g t.now)) }
{
    if !may_match(from, t) {
        return Ok(false);
    }
    let found = is_greater(alloc, from, to, variables, t, order)?;
    Ok(found)
}

/// Whether a side lowers a subterm of a term.
fn falls_in(
    alloc: Global,
    from: &Term,
    to: &Term,
    variables: u64,
    t: &Term,
    order: &Order,
) -> Result<bool, AllocError>
    requires small { size_of t.now ≤ 65535 }
    requires below { bound_of from.now ≤ variables }
    ensures { IfOk result (λ b. Tells b (SomeIn (FallsFrom order.now from.now to.now) t.now) (NoneIn (FallsFrom order.now from.now to.now) t.now)) }
{
    let Term::App(_, args) = t else {
        return Ok(false);
    };
    let here = falls_at(alloc, from, to, variables, t, order)?;
    if here {
        return Ok(true);
    }
    for arg in args.as_slice() {
        let below = falls_in(alloc, from, to, variables, arg, order)?;
        if below {
            return Ok(true);
        }
    }
    Ok(false)
}

/// The same of several terms.
fn falls_among(
    alloc: Global,
    from: &Term,
    to: &Term,
    variables: u64,
    terms: &[Term],
    order: &Order,
) -> Result<bool, AllocError>
    requires small { sum_by size_of terms.now ≤ 65535 }
    requires below { bound_of from.now ≤ variables }
    ensures { IfOk result (λ b. Tells b (SomeAmong (FallsFrom order.now from.now to.now) terms.now)
        (NoneAmong (FallsFrom order.now from.now to.now) terms.now)) }
{
    for term in terms {
        let found = falls_in(alloc, from, to, variables, term, order)?;
        if found {
            return Ok(true);
        }
    }
    Ok(false)
}

/// The same of the terms of an atom.
fn falls_in_atom(
    alloc: Global,
    from: &Term,
    to: &Term,
    variables: u64,
    atom: &Atom,
    order: &Order,
) -> Result<bool, AllocError>
    requires small { sum_by size_of (terms_of atom.now) ≤ 65535 }
    requires below { bound_of from.now ≤ variables }
    ensures { IfOk result (λ b. Tells b (SomeAmong (FallsFrom order.now from.now to.now) (terms_of atom.now))
        (NoneAmong (FallsFrom order.now from.now to.now) (terms_of atom.now))) }
{
    match atom {
        Atom::Truth => Ok(false),
        Atom::Pred(_, args) => {
            let found = falls_among(alloc, from, to, variables, args.as_slice(), order)?;
            Ok(found)
        }
        Atom::Equal(s, t) => {
            let first = falls_in(alloc, from, to, variables, s, order)?;
            if first {
                return Ok(true);
            }
            let second = falls_in(alloc, from, to, variables, t, order)?;
            Ok(second)
        }
    }
}

/// The same of the terms of a clause.
fn falls_in_clause(
    alloc: Global,
    from: &Term,
    to: &Term,
    variables: u64,
    c: &Clause,
    order: &Order,
) -> Result<bool, AllocError>
    requires small { clause_size c.now ≤ 65535 }
    requires below { bound_of from.now ≤ variables }
    ensures { IfOk result (λ b. Tells b (SomeLiteral (FallsFrom order.now from.now to.now) c.now.literals)
        (NoLiteralBefore (FallsFrom order.now from.now to.now) c.now.literals (length c.now.literals))) }
{
    for literal in c.literals.as_slice() {
        let found = falls_in_atom(alloc, from, to, variables, &literal.atom, order)?;
        if found {
            return Ok(true);
        }
    }
    Ok(false)
}

/// Whether a side that is wanted lowers a subterm of a clause.
pub fn is_met(
    alloc: Global,
    wanted: bool,
    from: &Term,
    to: &Term,
    variables: u64,
    c: &Clause,
    order: &Order,
) -> Result<bool, AllocError>
    requires small { clause_size c.now ≤ 65535 }
    requires below { bound_of from.now ≤ variables }
    ensures { IfOk result (λ b. Tells b (SomeLiteral (FallsFrom order.now from.now to.now) c.now.literals)
        ((wanted ≡ false) ⊎ NoLiteralBefore (FallsFrom order.now from.now to.now) c.now.literals (length c.now.literals))) }
{
    if !wanted {
        return Ok(false);
    }
    if !may_lower(from, to) {
        return Ok(false);
    }
    let found = falls_in_clause(alloc, from, to, variables, c, order)?;
    Ok(found)
}
