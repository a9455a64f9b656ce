//! Clauses that are one positive equation, and which of its sides can reduce a term.
#![tactic(auto)]

ghost use Rattle.std.specs.Prelude.{◌≡◌, ◌↔◌, ◌∷◌, ℕ, [], IsTrue, false, true, MatchOption};
ghost use Rattle.cd_term.specs.declared.Term.{Term};
ghost use Rattle.cd_term.specs.Terms.{occurs};
ghost use Rattle.cd_clause.specs.declared.Atom.TheVariants.{Equal};
ghost use Rattle.cd_clause.specs.Clauses.{variable_bound_of};
ghost use Rattle.cd_clause.specs.Places.{signed};
ghost use Rattle.cd_kbo.specs.Kbo.{Greater};
ghost use Rattle.cd_kbo.specs.declared.order.Order.{Order};
ghost use Rattle.cd_rewrite.specs.Reduction.{HasVariablesOf};
ghost use Rattle.cd_rewrite.specs.Equations.{clause_of, Falls, IsReady};

use cd_clause::{Atom, Clause};
use cd_kbo::{Order, greater};
use cd_term::{Term, size};

/// An equation, how many variables it has, and from which of its sides it may lower a term.
#[derive(Clone, Copy)]
pub struct Equation<'e> {
    pub left: &'e Term,
    pub right: &'e Term,
    pub variables: u64,
    pub from_left: bool,
    pub from_right: bool,
}

/// Whether a variable occurs in a term.
fn occurs_in(k: u32, t: &Term) -> bool
    ensures { result ≡ occurs k t.now }
{
    match t {
        Term::Var(n) => *n == k,
        Term::App(_, args) => {
            for arg in args.as_slice() {
                if occurs_in(k, arg) {
                    return true;
                }
            }
            false
        }
    }
}

/// Whether every variable of a term occurs in another one.
pub fn has_variables_of(from: &Term, to: &Term) -> bool
    ensures { IsTrue result ↔ HasVariablesOf from.now to.now }
{
    match to {
        Term::Var(n) => occurs_in(*n, from),
        Term::App(_, args) => {
            for arg in args.as_slice() {
                if !has_variables_of(from, arg) {
                    return false;
                }
            }
            true
        }
    }
}

/// Whether a term is known to be greater than another one. Terms of more than 65,535 symbols aren't compared.
pub fn is_falling(from: &Term, to: &Term, order: &Order) -> bool
    ensures { IsTrue result → Greater order.now from.now to.now }
{
    if size(from) > 65535 {
        return false;
    }
    if size(to) > 65535 {
        return false;
    }
    greater(from, to, order)
}

/// False only where a side lowers no term: a variable isn't greater than a term that it occurs in, whatever stands for
/// it. Most sides that are variables are, and each of them matches every term.
pub fn may_lower(from: &Term, to: &Term) -> bool
    ensures { result ≡ false → (o : Order) (t : Term) (g : ℕ → Term) → ¬ Falls o from.now to.now g t }
{
    match from {
        Term::Var(n) => !occurs_in(*n, to),
        Term::App(_, _) => true,
    }
}

/// The sides of the equation that a clause is, or `None` exactly where it isn't one positive equation.
pub fn sides_of_one(e: &Clause) -> Option<(&Term, &Term)>
    ensures { MatchOption result ((s t : Term) → e.now.literals ≡ signed true (Equal s t) ∷ [] → ⊥)
        (λ p. e.now.literals ≡ signed true (Equal p.0.now p.1.now) ∷ []) }
{
    let literals = e.literals.as_slice();
    if literals.len() != 1 {
        return None;
    }
    let literal = &literals[0];
    if !literal.positive {
        return None;
    }
    match &literal.atom {
        Atom::Equal(left, right) => Some((left, right)),
        _ => None,
    }
}

/// The equation that a clause of so many variables is, with the sides from which it may lower a term. The order isn't
/// asked yet.
pub fn equation_of<'e>(
    e: &'e Clause,
    left: &'e Term,
    right: &'e Term,
    variables: u64,
) -> Equation<'e>
    requires sides { e.now.literals ≡ signed true (Equal left.now right.now) ∷ [] }
    requires count { variables ≡ variable_bound_of e.now }
    ensures clause { clause_of result ≡ e.entry.now }
    ensures left { result.left.now ≡ left.entry.now }
    ensures right { result.right.now ≡ right.entry.now }
    ensures variables { result.variables ≡ variable_bound_of e.entry.now }
    ensures ready { (o : Order) → IsReady o result }
{
    let _clause = e;
    let from_left = may_lower(left, right);
    let from_right = may_lower(right, left);
    Equation {
        left,
        right,
        variables,
        from_left,
        from_right,
    }
}
