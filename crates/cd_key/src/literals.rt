//! Literals compared for all values of their variables.
#![tactic(auto)]

ghost use Rattle.std.specs.Prelude.{◌≡◌, ◌≢◌, ◌^◌, ◌<◌, ◌↔◌, [], IsTrue};
ghost use Rattle.std.specs.List.{AllByRecursion};
ghost use Rattle.cd_term.specs.Terms.{size_of};
ghost use Rattle.cd_list.specs.Lists.{Among};
ghost use Rattle.cd_kbo.specs.Kbo.{Greater};
ghost use Rattle.cd_kbo.specs.Sides.{term_of};
ghost use Rattle.cd_key.specs.Literals.{sides, HasSmallSides, IsLiteralGreater};

use cd_clause::{Atom, Literal, is_same_atom};
use cd_kbo::{Order, Side, side_greater};

fn has_side(a: &Atom) -> bool
    ensures { IsTrue result ↔ (sides a.now ≢ []) }
{
    match a {
        Atom::Truth => false,
        _ => true,
    }
}

/// Whether a term or an atom is greater than every side.
fn is_above_all(s: Side, m: &Atom, order: &Order) -> bool
    requires left { size_of (term_of s) < 2 ^ 32 }
    requires right { HasSmallSides m.now }
    ensures { IsTrue result ↔ AllByRecursion (Greater order.now (term_of s.entry)) (sides m.now) }
{
    match m {
        Atom::Truth => true,
        Atom::Pred(q, others) => side_greater(s, Side::Symbol(*q, others.as_slice()), order),
        Atom::Equal(t, u) => {
            side_greater(s, Side::of(t), order) && side_greater(s, Side::of(u), order)
        }
    }
}

/// Whether some side of one atom is greater than every side of another.
fn has_side_above(l: &Atom, m: &Atom, order: &Order) -> bool
    requires left { HasSmallSides l.now }
    requires right { HasSmallSides m.now }
    ensures { IsTrue result ↔ Among (λ s. AllByRecursion (Greater order.now s) (sides m.now)) (sides l.now) }
{
    match l {
        Atom::Truth => false,
        Atom::Pred(p, args) => is_above_all(Side::Symbol(*p, args.as_slice()), m, order),
        Atom::Equal(s, t) => {
            is_above_all(Side::of(s), m, order) || is_above_all(Side::of(t), m, order)
        }
    }
}

/// Whether a literal is greater than another: some side of the first is greater than every side of the second,
/// and the second has a side; or their atoms are equal up to the exchange of an equation's sides, the first is
/// negative and the second positive. The sides of a predicate literal are its atom, those of an equation its
/// two terms, and `$true` has none.
/// Recurs to the depth of its terms: see 'How deep terms may be' in docs/ARCHITECTURE.md.
pub fn literal_greater(l: &Literal, m: &Literal, order: &Order) -> bool
    requires left { HasSmallSides l.now.atom }
    requires right { HasSmallSides m.now.atom }
    ensures { IsTrue result ↔ IsLiteralGreater order.now l.now m.now }
{
    (has_side(&m.atom) && has_side_above(&l.atom, &m.atom, order))
        || (!l.positive && m.positive && is_same_atom(&l.atom, &m.atom))
}
