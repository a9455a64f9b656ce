//! First-order terms: their sizes, the places in them, substitution, and renaming in the order of first
//! occurrence (Baader and Nipkow, Term Rewriting and All That, 3.1).
//!
//! A term is within limits where it has at most 65,535 symbols and variables and at most 1,000 levels. What
//! makes a term out of others answers [`TermFault::OutOfBounds`] before it builds anything outside of these
//! limits. What measures within limits recurs no deeper than the levels that it was given as a limit, so no
//! more than 1,001 calls deep in [`apply`] and [`replace`]; other calls go as deep as their terms.
#![tactic(auto)]

ghost use Rattle.std.specs.Prelude.{◌≡◌};

mod instances;
pub mod laws;
mod limits;
mod marks;
mod path;
mod places;
mod renaming;
mod sizes;
mod substitution;

use cd_list::{Copied, Equals, Sequence};
pub use instances::{
    all_same_applied, apply_around, are_applied, is_applied, is_beside, measure_all_applied,
    measure_around, push_applied, same_applied,
};
pub use limits::{MAX_LEVELS, MAX_SYMBOLS, measure, measure_all};
pub use marks::{beside, beside_all, same_places, same_places_all};
pub use path::Path;
pub use places::{at, at_steps, is_replaced, measure_replaced, replace, substitute_replaced};
pub use renaming::{note_variables, rank_of, renamed};
pub use sizes::{depth, size, variable_bound};
use std::alloc::{AllocError, Global};
pub use substitution::{apply, measure_applied, substitute};
use thiserror::Error;

/// A variable with its number, or a symbol with its arguments. A constant is a symbol without arguments.
#[derive(Debug, Drop)]
pub enum Term {
    Var(u32),
    App(u16, Args),
}

/// The arguments of a symbol, the leftmost first.
pub type Args = Sequence<Term>;

/// A substitution: place `k` has the value of variable `k`.
pub type Subst = Sequence<Term>;

/// Why a term was not made.
#[derive(Debug, Drop, Error)]
pub enum TermFault {
    /// It would have more than 65,535 symbols or more than 1,000 levels.
    #[error("a term is out of bounds")]
    OutOfBounds,
    /// Memory ran out.
    #[error("out of memory")]
    Memory,
}

impl From<AllocError> for TermFault {
    ghost from_gives = { λ _ e. e ≡ Memory };

    ghost use Rattle.cd_term.specs.declared.TermFault.TheVariants.{Memory};

    fn from(_error: AllocError) -> TermFault {
        TermFault::Memory
    }
}

impl Copied for Term {
    /// Recurs to the depth of its terms: see 'How deep terms may be' in docs/ARCHITECTURE.md.
    fn copy(&self, alloc: Global) -> Result<Term, AllocError> {
        match self {
            Term::Var(k) => Ok(Term::Var(*k)),
            Term::App(f, args) => {
                let mut copies = Args::new(alloc);
                for arg in args.as_slice() {
                    copies.push(arg.copy(alloc)?)?;
                }
                Ok(Term::App(*f, copies))
            }
        }
    }
}

impl Equals for Term {
    /// Recurs to the depth of its terms: see 'How deep terms may be' in docs/ARCHITECTURE.md.
    fn equals(&self, other: &Term) -> bool {
        match (self, other) {
            (Term::Var(a), Term::Var(b)) => *a == *b,
            (Term::App(f, args), Term::App(g, others)) => *f == *g && args.equals(others),
            _ => false,
        }
    }
}
