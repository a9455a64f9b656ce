//! Literals with a substitution applied, compared without being built. No memory is taken.
#![tactic(auto)]

ghost use Rattle.std.specs.Prelude.{◌≡◌, ◌↔◌, IsTrue};
ghost use Rattle.cd_term.specs.Terms.{applied};
ghost use Rattle.cd_clause.specs.Clauses.{atom_changed, literal_changed, literals_changed};

use crate::{Atom, Literal};
use cd_term::{Term, are_applied, is_applied};

/// Whether an atom with a substitution applied is another atom. A variable past the substitution stays as it is.
pub fn is_atom_applied(a: &Atom, s: &[Term], b: &Atom) -> bool
    ensures { IsTrue result ↔ (atom_changed (applied s.now) a.now ≡ b.now) }
{
    match (a, b) {
        (Atom::Truth, Atom::Truth) => true,
        (Atom::Pred(p, args), Atom::Pred(q, others)) => {
            if *p != *q {
                return false;
            }
            are_applied(args.as_slice(), s, others.as_slice())
        }
        (Atom::Equal(left, right), Atom::Equal(other_left, other_right)) => {
            if !is_applied(left, s, other_left) {
                return false;
            }
            is_applied(right, s, other_right)
        }
        _ => false,
    }
}

fn is_literal_applied(l: &Literal, s: &[Term], m: &Literal) -> bool
    ensures { IsTrue result ↔ (literal_changed (applied s.now) l.now ≡ m.now) }
{
    if l.positive != m.positive {
        return false;
    }
    is_atom_applied(&l.atom, s, &m.atom)
}

/// Whether literals with a substitution applied are other literals, in the same order.
pub fn are_literals_applied(ls: &[Literal], s: &[Term], ms: &[Literal]) -> bool
    ensures { IsTrue result ↔ (literals_changed (applied s.now) ls.now ≡ ms.now) }
{
    if ls.len() != ms.len() {
        return false;
    }
    for i in 0..ls.len() {
        if !is_literal_applied(&ls[i], s, &ms[i]) {
            return false;
        }
    }
    true
}
