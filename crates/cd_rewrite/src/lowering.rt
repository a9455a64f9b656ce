//! A side of an equation that lowers a term.
#![tactic(auto)]

ghost use Rattle.std.specs.Prelude.{◌≡◌, ◌≤◌, ℕ, length, IfOk, MatchOption, IsTrue, false, ◌↔◌};
ghost use Rattle.cd_term.specs.declared.Term.{Term};
ghost use Rattle.cd_term.specs.Terms.{size_of, bound_of, substituted, applied, value_of};
ghost use Rattle.cd_kbo.specs.Kbo.{Greater};
ghost use Rattle.cd_rewrite.specs.Reduction.{HasVariablesOf};
ghost use Rattle.cd_rewrite.specs.Equations.{clause_of, Falls, IsReady, LowersTerm};
ghost use Rattle.cd_rewrite.specs.Walks.{IsLowering};

use crate::equations::{Equation, has_variables_of, is_falling};
use cd_kbo::{Order, Side, greater, weight};
use cd_term::{Subst, Term, measure_applied, substitute};
use cd_unify::{Bindings, may_match};
use std::alloc::{AllocError, Global};

/// A side of the equation that lowers a term: 0 for the left one and 1 for the right one; and the substitution, with a
/// term for each variable of the equation.
#[derive(Debug, Drop)]
pub struct Lowering {
    pub side: u8,
    pub subst: Subst,
}

/// The substitution by which a term is an instance of another one. Most aren't by their symbols, which takes no memory.
fn match_term(
    alloc: Global,
    general: &Term,
    special: &Term,
    variables: u64,
) -> Result<Option<Subst>, AllocError>
    requires { bound_of general.now ≤ variables }
    ensures { IfOk result (λ o. MatchOption o ((g : ℕ → Term) → ¬ substituted g general.now ≡ special.now)
        (λ s. (length s ≡ variables) × (applied s general.now ≡ special.now))) }
{
    if !may_match(general, special) {
        return Ok(None);
    }
    let mut bindings = Bindings::new(alloc, variables)?;
    if !bindings.bind(general, special)? {
        return Ok(None);
    }
    Ok(Some(bindings.subst(alloc)?))
}

/// Whether a term is greater than the instance of another one. The instance is built only where its size is no more
/// than what the term weighs, since a greater term weighs no less, and each symbol weighs at least 1.
fn is_above_instance(
    alloc: Global,
    old: &Term,
    to: &Term,
    s: &Subst,
    order: &Order,
) -> Result<bool, AllocError>
    requires { size_of old.now ≤ 65535 }
    ensures { IfOk result (λ b. IsTrue b ↔ Greater order.now old.now (applied s.now to.now)) }
{
    let most = weight(Side::of(old), order);
    let Some(_) = measure_applied(to, s.as_slice(), most, most) else {
        return Ok(false);
    };
    let new = substitute(alloc, to, s.as_slice())?;
    Ok(greater(old, &new, order))
}

/// Whether the instance of a term has more symbols than another term weighs, and so isn't smaller.
fn is_larger(to: &Term, s: &Subst, t: &Term, order: &Order) -> bool
    requires { size_of t.now ≤ 65535 }
    ensures { IsTrue result → ¬ Greater order.now t.now (applied s.now to.now) }
{
    let most = weight(Side::of(t), order);
    let Some(_) = measure_applied(to, s.as_slice(), most, most) else {
        return true;
    };
    false
}

/// Whether the other side has no variable of its own, and its instance is smaller than the term that is the instance of
/// a side. Most instances are refused by their size. Where the order knows one of the sides to be greater, so are its
/// instances, and none is built.
fn is_lowered(
    alloc: Global,
    from: &Term,
    to: &Term,
    t: &Term,
    s: &Subst,
    order: &Order,
) -> Result<bool, AllocError>
    requires small { size_of t.now ≤ 65535 }
    requires matched { applied s.now from.now ≡ t.now }
    ensures { IfOk result (λ b. IsTrue b ↔ (HasVariablesOf from.now to.now × Greater order.now t.now (applied s.now to.now))) }
{
    if is_larger(to, s, t, order) {
        return Ok(false);
    }
    if is_falling(from, to, order) {
        return Ok(true);
    }
    if is_falling(to, from, order) {
        return Ok(false);
    }
    if !has_variables_of(from, to) {
        return Ok(false);
    }
    let above = is_above_instance(alloc, t, to, s, order)?;
    Ok(above)
}

/// The substitution by which a term is an instance of a side that is greater than the same instance of the other side.
/// The order is asked only where the term is an instance.
pub fn try_side(
    alloc: Global,
    may_lower: bool,
    from: &Term,
    to: &Term,
    variables: u64,
    t: &Term,
    order: &Order,
) -> Result<Option<Subst>, AllocError>
    requires small { size_of t.now ≤ 65535 }
    requires below { bound_of from.now ≤ variables }
    requires known { may_lower ≡ false → (u : Term) (g : ℕ → Term) → ¬ Falls order.now from.now to.now g u }
    ensures { IfOk result (λ o. MatchOption o ((g : ℕ → Term) → ¬ Falls order.now from.now to.now g t.now)
        (λ s. (length s ≡ variables) × Falls order.now from.now to.now (value_of s) t.now)) }
{
    if !may_lower {
        return Ok(None);
    }
    let Some(subst) = match_term(alloc, from, t, variables)? else {
        return Ok(None);
    };
    if !is_lowered(alloc, from, to, t, &subst, order)? {
        return Ok(None);
    }
    Ok(Some(subst))
}

/// The first side of the equation that lowers a term.
pub fn lowering_of(
    alloc: Global,
    eq: &Equation,
    t: &Term,
    order: &Order,
) -> Result<Option<Lowering>, AllocError>
    requires small { size_of t.now ≤ 65535 }
    requires ready { IsReady order.now eq.now }
    ensures { IfOk result (λ o. MatchOption o (¬ LowersTerm order.now (clause_of eq.now) t.now)
        (λ l. IsLowering order.now (clause_of eq.now) eq.now.variables t.now l.side l.subst)) }
{
    if let Term::Var(_) = t {
        return Ok(None);
    }
    if let Some(subst) = try_side(
        alloc,
        eq.from_left,
        eq.left,
        eq.right,
        eq.variables,
        t,
        order,
    )? {
        return Ok(Some(Lowering { side: 0, subst }));
    }
    if let Some(subst) = try_side(
        alloc,
        eq.from_right,
        eq.right,
        eq.left,
        eq.variables,
        t,
        order,
    )? {
        return Ok(Some(Lowering { side: 1, subst }));
    }
    Ok(None)
}
