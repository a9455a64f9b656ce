//! Clauses of first-order logic with equality.
//!
//! A clause is a list of literals and stands for their disjunction, for all values of its variables.
//! `specs/Truth.antt` says what a finite interpretation is and when a clause holds in one.
#![tactic(auto)]

ghost use Rattle.std.specs.Prelude.{◌≡◌, ◌↔◌, [], IsTrue};

mod codes;
mod instances;
mod joining;
pub mod laws;
mod limits;
mod places;
mod renumbering;
mod sizes;
mod tautology;
mod tidiness;
mod tidying;

use cd_list::{Copied, Equals, Sequence};
use cd_term::{Args, Term};
pub use instances::{are_literals_applied, is_atom_applied};
pub use joining::{join, push_substituted};
pub use limits::{measure_literals, within};
pub use places::{
    at_atom, is_atom_replaced, measure_atom_replaced, sides_of, substitute_atom_replaced,
};
pub use renumbering::renumber;
pub use sizes::{size, variables};
use std::alloc::{AllocError, Global};
pub use tautology::{is_same_atom, is_tautology, is_trivial_atom};
pub use tidiness::is_tidied;
pub use tidying::{measure_tidied, tidy};

/// `$true`, a predicate symbol with its arguments, or an equation. A symbol is its number in the problem's
/// table of symbols.
#[derive(Debug, Drop)]
pub enum Atom {
    Truth,
    Pred(u16, Args),
    Equal(Term, Term),
}

/// An atom, or with `positive` false its negation. `$false` is the negation of `Truth`.
#[derive(Debug, Drop)]
pub struct Literal {
    pub positive: bool,
    pub atom: Atom,
}

pub type Literals = Sequence<Literal>;

/// A disjunction of literals; without any it is the empty clause, which holds nowhere.
#[derive(Debug, Drop)]
pub struct Clause {
    pub literals: Literals,
}

impl Copied for Atom {
    fn copy(&self, alloc: Global) -> Result<Atom, AllocError> {
        match self {
            Atom::Truth => Ok(Atom::Truth),
            Atom::Pred(p, args) => Ok(Atom::Pred(*p, args.copy(alloc)?)),
            Atom::Equal(left, right) => Ok(Atom::Equal(left.copy(alloc)?, right.copy(alloc)?)),
        }
    }
}

impl Equals for Atom {
    fn equals(&self, other: &Atom) -> bool {
        match (self, other) {
            (Atom::Truth, Atom::Truth) => true,
            (Atom::Pred(p, args), Atom::Pred(q, others)) => *p == *q && args.equals(others),
            (Atom::Equal(s, t), Atom::Equal(u, v)) => s.equals(u) && t.equals(v),
            _ => false,
        }
    }
}

impl Copied for Literal {
    fn copy(&self, alloc: Global) -> Result<Literal, AllocError> {
        Ok(Literal {
            positive: self.positive,
            atom: self.atom.copy(alloc)?,
        })
    }
}

impl Equals for Literal {
    fn equals(&self, other: &Literal) -> bool {
        self.positive == other.positive && self.atom.equals(&other.atom)
    }
}

impl Copied for Clause {
    fn copy(&self, alloc: Global) -> Result<Clause, AllocError> {
        Ok(Clause {
            literals: self.literals.copy(alloc)?,
        })
    }
}

impl Equals for Clause {
    fn equals(&self, other: &Clause) -> bool {
        self.literals.equals(&other.literals)
    }
}

impl Clause {
    pub fn is_empty(&self) -> bool
        ensures { IsTrue result ↔ (self.now.literals ≡ []) }
    {
        self.literals.is_empty()
    }
}
