//! The inference that each rule makes of its premises and places.
#![tactic(auto)]

ghost use Rattle.std.specs.Prelude.{◌≡◌};
ghost use Rattle.std.specs.Option.{option_copied};
ghost use Rattle.cd_steps.specs.Rules.{IsResolution, IsFactoring, IsReflexivity, IsEqualityFactoring, IsParamodulation};
ghost use Rattle.cd_steps.specs.Drafts.{IsDraft, IsReplacementDraft, IsRewritingDraft, ArePredicates, ArePositiveSides};

use crate::drafts::{Draft, Part};
use cd_clause::{Atom, Clause, Literal, at_atom, sides_of, variables};
use cd_term::{Args, Term};
use std::slice::from_ref;

/// The arguments of two literals of these signs and one predicate, if they are such.
fn predicates<'a>(
    first: Option<&'a Literal>,
    second: Option<&'a Literal>,
    sign: bool,
) -> Option<(&'a Args, &'a Args)>
    ensures { ArePredicates (option_copied first.entry) (option_copied second.entry) sign result }
{
    let (Some(first), Some(second)) = (first, second) else {
        return None;
    };
    if !first.positive || second.positive != sign {
        return None;
    }
    match (&first.atom, &second.atom) {
        (Atom::Pred(p, left), Atom::Pred(q, right)) => {
            if *p == *q { Some((left, right)) } else { None }
        }
        _ => None,
    }
}

/// A side of a positive equation, and the other side.
fn positive_sides(literal: Option<&Literal>, side: u8) -> Option<(&Term, &Term)>
    ensures { ArePositiveSides side (option_copied literal.entry) result }
{
    match literal {
        None => None,
        Some(literal) => {
            if literal.positive {
                sides_of(&literal.atom, side)
            } else {
                None
            }
        }
    }
}

/// Resolution on literal `i` of `a` and literal `j` of `b`, or `None` where these are no positive and negative
/// literal of one predicate.
pub fn resolution<'a>(a: &'a Clause, i: usize, b: &'a Clause, j: usize) -> Option<Draft<'a>>
    ensures { IsDraft (IsResolution a.now i b.now j) result }
{
    let front = a.literals.as_slice();
    let back = b.literals.as_slice();
    match predicates(a.literals.get(i), b.literals.get(j), false) {
        None => None,
        Some((left, right)) => Some(Draft {
            up: variables(a),
            more: variables(b),
            left: left.as_slice(),
            right: right.as_slice(),
            one: Part::First(&front[..i]),
            two: Part::First(&front[i + 1..]),
            three: Part::Second(&back[..j]),
            four: Part::Second(&back[j + 1..]),
            five: Part::First(&[]),
        }),
    }
}

/// Factoring of the literals `i` and `j`, or `None` where these are no positive literals of one predicate, `i`
/// the earlier.
pub fn factoring(c: &Clause, i: usize, j: usize) -> Option<Draft<'_>>
    ensures { IsDraft (IsFactoring c.now i j) result }
{
    if i >= j {
        return None;
    }
    let literals = c.literals.as_slice();
    match predicates(c.literals.get(i), c.literals.get(j), true) {
        None => None,
        Some((left, right)) => Some(Draft {
            up: 0,
            more: variables(c),
            left: left.as_slice(),
            right: right.as_slice(),
            one: Part::First(&literals[..j]),
            two: Part::First(&literals[j + 1..]),
            three: Part::First(&[]),
            four: Part::First(&[]),
            five: Part::First(&[]),
        }),
    }
}

/// Reflexivity resolution of literal `i`, or `None` where this is no negative equation.
pub fn reflexivity(c: &Clause, i: usize) -> Option<Draft<'_>>
    ensures { IsDraft (IsReflexivity c.now i) result }
{
    let literals = c.literals.as_slice();
    let Some(literal) = c.literals.get(i) else {
        return None;
    };
    if literal.positive {
        return None;
    }
    match &literal.atom {
        Atom::Equal(left, right) => Some(Draft {
            up: 0,
            more: variables(c),
            left: from_ref(left),
            right: from_ref(right),
            one: Part::First(&literals[..i]),
            two: Part::First(&literals[i + 1..]),
            three: Part::First(&[]),
            four: Part::First(&[]),
            five: Part::First(&[]),
        }),
        _ => None,
    }
}

/// Equality factoring on side `s` of literal `i` and side `z` of literal `j`, or `None` where these are not two
/// positive equations.
pub fn equality_factoring(c: &Clause, i: usize, s: u8, j: usize, z: u8) -> Option<Draft<'_>>
    ensures { IsDraft (IsEqualityFactoring c.now i s j z) result }
{
    if i == j {
        return None;
    }
    let literals = c.literals.as_slice();
    let Some((left, left_other)) = positive_sides(c.literals.get(i), s) else {
        return None;
    };
    let Some((right, right_other)) = positive_sides(c.literals.get(j), z) else {
        return None;
    };
    Some(Draft {
        up: 0,
        more: variables(c),
        left: from_ref(left),
        right: from_ref(right),
        one: Part::First(&literals[..i]),
        two: Part::Unequal(left_other, right_other),
        three: Part::First(&literals[i + 1..]),
        four: Part::First(&[]),
        five: Part::First(&[]),
    })
}

/// What paramodulation and rewriting share: as [`paramodulation`], with each premise's own variables.
fn replacement<'a>(
    a: &'a Clause,
    i: usize,
    s: u8,
    b: &'a Clause,
    j: usize,
    path: &'a [u16],
) -> Option<Draft<'a>>
    ensures { IsReplacementDraft a.now i s b.now j path.now result }
{
    let front = a.literals.as_slice();
    let back = b.literals.as_slice();
    let Some((side, other)) = positive_sides(a.literals.get(i), s) else {
        return None;
    };
    let Some(taker) = b.literals.get(j) else {
        return None;
    };
    let Some(inner) = at_atom(&taker.atom, path) else {
        return None;
    };
    Some(Draft {
        up: variables(a),
        more: variables(b),
        left: from_ref(side),
        right: from_ref(inner),
        one: Part::First(&front[..i]),
        two: Part::First(&front[i + 1..]),
        three: Part::Second(&back[..j]),
        four: Part::Replaced(taker, path, other),
        five: Part::Second(&back[j + 1..]),
    })
}

/// Paramodulation from side `s` of literal `i` of `a` into the subterm at a path of literal `j` of `b`, or `None`
/// where the first is no positive equation or the path leads out of the second.
pub fn paramodulation<'a>(
    a: &'a Clause,
    i: usize,
    s: u8,
    b: &'a Clause,
    j: usize,
    path: &'a [u16],
) -> Option<Draft<'a>>
    ensures { IsDraft (IsParamodulation a.now i s b.now j path.now) result }
{
    replacement(a, i, s, b, j, path)
}

/// What rewriting needs: paramodulation from a clause that is one equation, with values for its variables alone.
pub fn rewriting<'a>(
    e: &'a Clause,
    s: u8,
    c: &'a Clause,
    j: usize,
    path: &'a [u16],
) -> Option<Draft<'a>>
    ensures { IsRewritingDraft e.now s c.now j path.now result }
{
    if e.literals.len() != 1 {
        return None;
    }
    let Some(draft) = replacement(e, 0, s, c, j, path) else {
        return None;
    };
    Some(Draft { more: 0, ..draft })
}
