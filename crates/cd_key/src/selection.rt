//! The literals that inferences are made on.
#![tactic(auto)]

ghost use Rattle.std.specs.Prelude.{◌≡◌, ◌<◌, ◌↔◌, not, position, IsTrue, length};
ghost use Rattle.cd_key.specs.Literals.{AreComparable, IsMaximal, IsEligible, selected_by};

use crate::literals::literal_greater;
use cd_clause::{Clause, Literal};
use cd_kbo::{Order, Select};

/// The place of the first negative literal.
fn first_negative(literals: &[Literal]) -> Option<usize>
    ensures { result ≡ position (λ l. not l.positive) literals.now }
{
    literals.iter().position(|l| !l.positive)
}

/// The literal that the order selects, where it selects one.
fn selected(c: &Clause, order: &Order) -> Option<usize>
    ensures { result ≡ selected_by order.now.select c.now }
{
    match order.select {
        Select::Nothing => None,
        Select::First => first_negative(c.literals.as_slice()),
    }
}

/// Whether no other literal is greater than the one in a place.
fn is_maximal(literals: &[Literal], place: usize, order: &Order) -> bool
    requires place { place < length literals.now }
    requires literals { AreComparable literals.now }
    ensures { IsTrue result ↔ IsMaximal order.now literals.now place }
{
    let literal = &literals[place];
    for (j, other) in literals.iter().enumerate() {
        if j == place {
            continue;
        }
        if literal_greater(other, literal, order) {
            return false;
        }
    }
    true
}

/// Whether inferences are made on literal `i` of a clause: where the order selects a literal, it is that one, and
/// otherwise no other literal is greater than it (Bachmair and Ganzinger, Rewrite-based equational theorem
/// proving with selection and simplification, 1994).
/// Recurs to the depth of its terms: see 'How deep terms may be' in docs/ARCHITECTURE.md.
pub fn eligible(c: &Clause, i: u16, order: &Order) -> bool
    requires place { i < length c.now.literals }
    requires literals { AreComparable c.now.literals }
    ensures { IsTrue result ↔ IsEligible order.now c.now i }
{
    let place = usize::from(i);
    match selected(c, order) {
        Some(first) => place == first,
        None => is_maximal(c.literals.as_slice(), place, order),
    }
}
