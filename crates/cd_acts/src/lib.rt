//! What a peer does: its state, with what stands beside it for quick access, and the acts, one method for each.
//!
//! An act says of itself that it is the act of the machine ([`State::keep`] and its kin: `Does` of `specs/Acts.antt`): what
//! it found fits, and the state and the letters that it leaves are those of what it found. A name is found by its number,
//! and a held clause in a table of its own, so no act looks through all that was ever known.
#![tactic(auto)]

pub mod admitting;
pub mod arrival;
pub mod contraction;
pub mod keeping;
pub mod rewriting;
pub mod rules;
pub mod settling;
pub mod state;
pub mod tokens;
pub mod waiting;
pub mod working;

pub use state::State;
