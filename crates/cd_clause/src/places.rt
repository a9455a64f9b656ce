//! Sides of equations, and subterms of atoms looked at and replaced.
#![tactic(auto)]

ghost use Rattle.std.specs.Prelude.{◌≡◌, ◌↔◌, ◌<◌, Some, IfOk, IsTrue, MatchOption};
ghost use Rattle.std.specs.Option.{option_copied};
ghost use Rattle.cd_clause.specs.Places.{HasSides, HasNoSides, subterm_at, replaced_at_under, IsAtomMeasureOf, MeasuresSides};
ghost use Rattle.cd_term.specs.Terms.{applied};
ghost use Rattle.cd_term.specs.Instances.{replaced_under};

use crate::Atom;
use cd_term::{
    Term, apply_around, at_steps, is_applied, is_beside, is_replaced, measure_applied,
    measure_around, measure_replaced, substitute, substitute_replaced,
};
use std::alloc::{AllocError, Global};

/// A side of an equation and the other one; `None` exactly where the atom is no equation, or the number isn't
/// 0, the left side, or 1, the right one.
pub fn sides_of(atom: &Atom, side: u8) -> Option<(&Term, &Term)>
    ensures { MatchOption result (HasNoSides side atom.now) (λ p. HasSides side atom.now p.0.now p.1.now) }
{
    match atom {
        Atom::Truth => None,
        Atom::Pred(_, _) => None,
        Atom::Equal(left, right) => match side {
            0 => Some((left, right)),
            1 => Some((right, left)),
            _ => None,
        },
    }
}

/// The subterm of an atom at a path, or `None` exactly where the path leads out of the atom. The path begins
/// with the place of an argument, or in an equation with 0 for the left side or 1 for the right one.
pub fn at_atom<'a>(atom: &'a Atom, path: &[u16]) -> Option<&'a Term>
    ensures { option_copied result ≡ subterm_at path.now atom.now }
{
    let Some((first, rest)) = path.split_first() else {
        return None;
    };
    match atom {
        Atom::Truth => None,
        Atom::Pred(_, args) => match args.get(usize::from(*first)) {
            None => None,
            Some(arg) => at_steps(arg, rest),
        },
        Atom::Equal(left, right) => match *first {
            0 => at_steps(left, rest),
            1 => at_steps(right, rest),
            _ => None,
        },
    }
}

/// Whether `b` is `a` with `r` applied, but for the subterm of `a` at a path, which gave way to `new` with `s`
/// applied. No memory is taken.
pub fn is_atom_replaced(
    a: &Atom,
    r: &[Term],
    path: &[u16],
    new: &Term,
    s: &[Term],
    b: &Atom,
) -> bool
    ensures { IsTrue result ↔ (replaced_at_under r.now s.now path.now new.now a.now ≡ Some b.now) }
{
    let Some((first, rest)) = path.split_first() else {
        return false;
    };
    match (a, b) {
        (Atom::Pred(p, args), Atom::Pred(q, others)) => {
            let place = usize::from(*first);
            let args = args.as_slice();
            let others = others.as_slice();
            if *p != *q {
                return false;
            }
            if !is_beside(args, r, place, others) {
                return false;
            }
            is_replaced(&args[place], r, rest, new, s, &others[place])
        }
        (Atom::Equal(left, right), Atom::Equal(other_left, other_right)) => match *first {
            0 => {
                if !is_applied(right, r, other_right) {
                    return false;
                }
                is_replaced(left, r, rest, new, s, other_left)
            }
            1 => {
                if !is_applied(left, r, other_left) {
                    return false;
                }
                is_replaced(right, r, rest, new, s, other_right)
            }
            _ => false,
        },
        _ => false,
    }
}

/// The size of an equation's replaced side and its other side.
fn measure_sides(
    side: &Term,
    other: &Term,
    r: &[Term],
    path: &[u16],
    new: &Term,
    s: &[Term],
    symbols: u64,
    levels: u64,
) -> Option<u64>
    requires { 0 < symbols }
    ensures { MeasuresSides symbols levels (replaced_under r.now s.now path.now new.now side.now) (applied r.now other.now) result }
{
    let room = symbols - 1;
    let Some(inner) = measure_replaced(side, r, path, new, s, room, levels) else {
        return None;
    };
    let Some(more) = measure_applied(other, r, room - inner, levels) else {
        return None;
    };
    Some(1 + inner + more)
}

/// The size as a literal of `atom` with `r` applied, but with its subterm at a path replaced by `new` with `s`
/// applied, where it has at most `symbols` symbols and variables and at most `levels` levels; `None` otherwise,
/// and also where the path leads out of the atom. Nothing is built, and no memory is taken.
pub fn measure_atom_replaced(
    atom: &Atom,
    r: &[Term],
    path: &[u16],
    new: &Term,
    s: &[Term],
    symbols: u64,
    levels: u64,
) -> Option<u64>
    ensures { IsAtomMeasureOf symbols levels (replaced_at_under r.now s.now path.now new.now atom.now) result }
{
    let Some((first, rest)) = path.split_first() else {
        return None;
    };
    if symbols == 0 {
        return None;
    }
    match atom {
        Atom::Truth => None,
        Atom::Pred(_, args) => {
            if levels == 0 {
                return None;
            }
            let place = usize::from(*first);
            let Some(arg) = args.get(place) else {
                return None;
            };
            let room = symbols - 1;
            let Some(inner) = measure_replaced(arg, r, rest, new, s, room, levels - 1) else {
                return None;
            };
            let items = args.as_slice();
            let Some(all) = measure_around(items, r, place, inner, room, levels - 1) else {
                return None;
            };
            Some(1 + all)
        }
        Atom::Equal(left, right) => match *first {
            0 => measure_sides(left, right, r, rest, new, s, symbols, levels),
            1 => measure_sides(right, left, r, rest, new, s, symbols, levels),
            _ => None,
        },
    }
}

/// The atom with `r` applied, but with its subterm at a path replaced by `new` with `s` applied, of whatever
/// size; `None` exactly where the path leads out of the atom.
pub fn substitute_atom_replaced(
    alloc: Global,
    atom: &Atom,
    r: &[Term],
    path: &[u16],
    new: &Term,
    s: &[Term],
) -> Result<Option<Atom>, AllocError>
    ensures { IfOk result (λ b. b ≡ replaced_at_under r.now s.now path.now new.now atom.now) }
{
    let Some((first, rest)) = path.split_first() else {
        return Ok(None);
    };
    match atom {
        Atom::Truth => Ok(None),
        Atom::Pred(p, args) => {
            let place = usize::from(*first);
            let Some(arg) = args.get(place) else {
                return Ok(None);
            };
            let Some(inner) = substitute_replaced(alloc, arg, r, rest, new, s)? else {
                return Ok(None);
            };
            let values = apply_around(alloc, args.as_slice(), r, place, inner)?;
            Ok(Some(Atom::Pred(*p, values)))
        }
        Atom::Equal(left, right) => match *first {
            0 => {
                let Some(inner) = substitute_replaced(alloc, left, r, rest, new, s)? else {
                    return Ok(None);
                };
                Ok(Some(Atom::Equal(inner, substitute(alloc, right, r)?)))
            }
            1 => {
                let Some(inner) = substitute_replaced(alloc, right, r, rest, new, s)? else {
                    return Ok(None);
                };
                Ok(Some(Atom::Equal(substitute(alloc, left, r)?, inner)))
            }
            _ => Ok(None),
        },
    }
}
