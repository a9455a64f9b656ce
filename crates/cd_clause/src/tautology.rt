//! Atoms that are the same, and tautologies.
#![tactic(auto)]

ghost use Rattle.std.specs.Prelude.{◌↔◌, IsTrue};
ghost use Rattle.cd_clause.specs.Clauses.{IsSameAtom, IsTrivialAtom, IsTrivial, AreOpposite, IsTautology};
ghost use Rattle.cd_list.specs.Lists.{Among};

use crate::{Atom, Clause, Literal};
use cd_list::Equals;

/// Whether two atoms are equal, equations also with sides exchanged.
/// Recurs to the depth of its terms: see 'How deep terms may be' in docs/ARCHITECTURE.md.
pub fn is_same_atom(a: &Atom, b: &Atom) -> bool
    ensures { IsTrue result ↔ (IsSameAtom a.now b.now) }
{
    match (a, b) {
        (Atom::Equal(s, t), Atom::Equal(u, v)) => (s.equals(u) && t.equals(v))
            || (t.equals(u) && s.equals(v)),
        _ => a.equals(b),
    }
}

/// Whether an atom is `$true` or an equation with equal sides.
/// Recurs to the depth of its terms: see 'How deep terms may be' in docs/ARCHITECTURE.md.
pub fn is_trivial_atom(a: &Atom) -> bool
    ensures { IsTrue result ↔ (IsTrivialAtom a.now) }
{
    match a {
        Atom::Truth => true,
        Atom::Pred(_, _) => false,
        Atom::Equal(s, t) => s.equals(t),
    }
}

fn is_trivial(l: &Literal) -> bool
    ensures { IsTrue result ↔ (IsTrivial l.now) }
{
    l.positive && is_trivial_atom(&l.atom)
}

fn has_trivial(literals: &[Literal]) -> bool
    ensures { IsTrue result ↔ Among IsTrivial literals.now }
{
    for literal in literals {
        if is_trivial(literal) {
            return true;
        }
    }
    false
}

fn are_opposite(l: &Literal, m: &Literal) -> bool
    ensures { IsTrue result ↔ (AreOpposite l.now m.now) }
{
    l.positive && !m.positive && is_same_atom(&l.atom, &m.atom)
}

fn has_opposite(l: &Literal, others: &[Literal]) -> bool
    ensures { IsTrue result ↔ Among (AreOpposite l.now) others.now }
{
    if !l.positive {
        return false;
    }
    for other in others {
        if are_opposite(l, other) {
            return true;
        }
    }
    false
}

fn has_opposites(literals: &[Literal]) -> bool
    ensures { IsTrue result ↔ Among (λ l. Among (AreOpposite l) literals.now) literals.now }
{
    for literal in literals {
        if has_opposite(literal, literals) {
            return true;
        }
    }
    false
}

/// Whether a clause has `$true`, a positive equation with equal sides, or two literals of different sign
/// with the same atom, equations also with sides exchanged.
/// Recurs to the depth of its terms: see 'How deep terms may be' in docs/ARCHITECTURE.md.
pub fn is_tautology(c: &Clause) -> bool
    ensures { IsTrue result ↔ (IsTautology c.now) }
{
    has_trivial(c.literals.as_slice()) || has_opposites(c.literals.as_slice())
}
