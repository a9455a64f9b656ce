//! The values of terms, and the truth of literals, at one point.
#![tactic(auto)]

ghost use Rattle.std.specs.Prelude.{◌≡◌, ◌<◌, ◌↔◌, ◌+◌, ◌-◌, ◌*◌, ◌^◌, map, min, IsTrue};
ghost use Rattle.cd_clause.specs.Truth.{value, place, atom_true, literal_true};
ghost use Rattle.cd_meaning.specs.Interps.{interp_of, point_of, IsTrueAt};

use crate::Table;
use crate::tables::{value_in, values_of_function, values_of_predicate};
use cd_clause::{Atom, Literal};
use cd_term::Term;

/// The place of a list of elements, from the place of all but the last: it stops at the greatest u64, where
/// no table has a value.
fn next_place(place: u64, size: u32, value: u32) -> u64
    ensures { result ≡ min (min (place * size) (2 ^ 64 - 1) + value) (2 ^ 64 - 1) }
{
    place
        .saturating_mul(u64::from(size))
        .saturating_add(u64::from(value))
}

/// The value of a term at a point. A variable past the point, and a place past a table, has the value 0.
pub fn term_value(size: u32, tables: &[Table], t: &Term, point: &[u32]) -> u32
    requires { 0 < size }
    ensures { result ≡ value (interp_of size tables.now) (point_of point.now) t.now }
{
    match t {
        Term::Var(k) => value_in(point, u64::from(*k)),
        Term::App(f, args) => {
            let args = args.as_slice();
            let mut at: u64 = 0;
            for k in 0..args.len() {
                at = next_place(at, size, term_value(size, tables, &args[k], point));
            }
            value_in(values_of_function(tables, *f), at)
        }
    }
}

/// The place of the values of some terms in a table, up to the greatest u64.
fn place_of(size: u32, tables: &[Table], terms: &[Term], point: &[u32]) -> u64
    requires { 0 < size }
    ensures { result ≡ min (place size (map (value (interp_of size tables.now) (point_of point.now)) terms.now)) (2 ^ 64 - 1) }
{
    let mut at: u64 = 0;
    for k in 0..terms.len() {
        at = next_place(at, size, term_value(size, tables, &terms[k], point));
    }
    at
}

fn is_atom_true(size: u32, tables: &[Table], atom: &Atom, point: &[u32]) -> bool
    requires { 0 < size }
    ensures { result ≡ atom_true (interp_of size tables.now) (point_of point.now) atom.now }
{
    match atom {
        Atom::Truth => true,
        Atom::Pred(p, args) => {
            let at = place_of(size, tables, args.as_slice(), point);
            value_in(values_of_predicate(tables, *p), at) == 1
        }
        Atom::Equal(left, right) => {
            term_value(size, tables, left, point) == term_value(size, tables, right, point)
        }
    }
}

fn is_literal_true(size: u32, tables: &[Table], literal: &Literal, point: &[u32]) -> bool
    requires { 0 < size }
    ensures { result ≡ literal_true (interp_of size tables.now) (point_of point.now) literal.now }
{
    if literal.positive {
        is_atom_true(size, tables, &literal.atom, point)
    } else {
        !is_atom_true(size, tables, &literal.atom, point)
    }
}

/// Whether some literal is true at a point.
pub fn is_true(size: u32, tables: &[Table], literals: &[Literal], point: &[u32]) -> bool
    requires { 0 < size }
    ensures { IsTrue result ↔ IsTrueAt (interp_of size tables.now) literals.now (point_of point.now) }
{
    for literal in literals {
        if is_literal_true(size, tables, literal, point) {
            return true;
        }
    }
    false
}
