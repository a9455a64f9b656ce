//! Truth of clauses in finite interpretations, computed.
//!
//! `specs/Truth.antt` of `cd_clause` says what an interpretation is, what a term's value is and when a clause
//! holds. An [`Interp`] is such an interpretation; its answers are exactly those of the definitions. No call
//! takes memory.
#![tactic(auto)]

ghost use Rattle.std.specs.Prelude.{◌≡◌, ◌<◌, ◌↔◌, ℕ, MatchOption, length, slice_index, IsTrue};
ghost use Rattle.cd_clause.specs.Clauses.{variable_bound_of};
ghost use Rattle.cd_clause.specs.Truth.{IsInterp, Holds, value};
ghost use Rattle.cd_meaning.specs.Interps.{interp_of, point_of};

mod points;
mod tables;
mod truth;

use cd_clause::Clause;
use cd_list::Sequence;
use cd_symbols::Kind;
use cd_term::Term;
use points::{clear, next_point};
use std::marker::Model;
use tables::are_tables;
use truth::{is_true, term_value};

/// The values of a symbol: one for each list of as many elements as its arity, in the order of these lists,
/// in which the first element counts most. In size 2 a symbol of two arguments has its values at (0, 0),
/// (0, 1), (1, 0) and (1, 1).
pub type Values = Sequence<u32>;

/// What an interpretation says of a symbol. A function's values are elements; a predicate's are 1 where it is
/// true and 0 where it is false.
#[derive(Drop)]
pub struct Table {
    pub kind: Kind,
    pub arity: u16,
    pub values: Values,
}

/// The tables of all symbols, in the order of their numbers.
pub type Tables = Sequence<Table>;

/// A finite interpretation: its elements are the numbers below its size.
///
/// A contract sees it as a size and a list of tables, each of them full and with values in range.
#[derive(Drop)]
pub struct Interp {
    size: u32,
    tables: Tables,
}

impl Model for Interp {
    ghost use Rattle.cd_clause.specs.Truth as truth;
    ghost use Rattle.cd_meaning.specs.Interps.{interp_of};

    ghost Value = { truth.Interp };

    ghost view = { λ i. interp_of i.size i.tables };

    ghost invariant = { λ i. truth.IsInterp (interp_of i.size i.tables) };
}

impl Interp {
    /// The interpretation of this size with these tables, or `None` exactly where there is none: the size is
    /// 0, a table hasn't as many values as the size to the power of its arity, a function's value isn't below
    /// the size, or a predicate's is neither 0 nor 1.
    pub fn new(size: u32, tables: Tables) -> Option<Interp>
        ensures { MatchOption result (IsInterp (interp_of size tables) → ⊥)
            (λ i. (i ≡ interp_of size tables) × IsInterp i) }
    {
        if size == 0 {
            return None;
        }
        if !are_tables(size, tables.as_slice()) {
            return None;
        }
        Some(Interp { size, tables })
    }

    /// The value of a term at a point, which has an element for each variable. A variable past the point has
    /// the value 0, as has a symbol without a table of its kind, or with too small a one.
    pub fn value(&self, t: &Term, point: &[u32]) -> u32
        ensures { result ≡ value self.now (point_of point.now) t.now }
    {
        term_value(self.size, self.tables.as_slice(), t, point)
    }

    /// Whether a clause holds: at each point some literal of it is true. `scratch` has an element for each
    /// variable of the clause; what was in it is lost.
    pub fn holds(&self, c: &Clause, scratch: &mut [u32]) -> bool
        requires { length scratch.old ≡ variable_bound_of c.now }
        ensures { IsTrue result ↔ Holds self.now c.now }
    {
        clear(scratch);
        holds_from(self.size, self.tables.as_slice(), c, scratch)
    }
}

/// Whether some literal of a clause is true at each point. They are tried one after another, from `point` on,
/// which is the first.
fn holds_from(size: u32, tables: &[Table], c: &Clause, point: &mut [u32]) -> bool
    requires some { 0 < size }
    requires first { (k : ℕ) → slice_index point.old k ≡ 0 }
    requires room { length point.old ≡ variable_bound_of c.now }
    ensures { IsTrue result ↔ Holds (interp_of size tables.now) c.now }
{
    let literals = c.literals.as_slice();
    'points: loop {
        if !is_true(size, tables, literals, point) {
            return false;
        }
        if !next_point(size, point) {
            return true;
        }
    }
}
