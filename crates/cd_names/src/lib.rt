//! Names of recorded clauses, the order of events, who owns a clause, and when a wave of counts is closed.
#![tactic(auto)]

pub mod laws;
mod names;
mod ownership;
mod waves;

use cd_list::{Copied, Equals};
pub use names::{Name, Names, Stamp};
pub use ownership::{Policy, owner_of};
use std::alloc::{AllocError, Global};
pub use waves::{Count, Counts, Token, wave_closed};

/// How one clause makes another superfluous.
#[derive(Clone, Copy, Debug, PartialEq, Eq)]
pub enum How {
    /// It subsumes it (Robinson, A machine-oriented logic based on the resolution principle, 1965).
    Subsumes,
    /// It is an equation that rewrites a term of it to a smaller one, which is demodulation.
    Reduces,
}

impl Copied for How {
    fn copy(&self, _alloc: Global) -> Result<How, AllocError> {
        Ok(*self)
    }
}

impl Equals for How {
    fn equals(&self, other: &How) -> bool {
        matches!(
            (self, other),
            (How::Subsumes, How::Subsumes) | (How::Reduces, How::Reduces)
        )
    }
}
