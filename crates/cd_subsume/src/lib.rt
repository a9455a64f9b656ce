//! Subsumption of clauses (Robinson, A machine-oriented logic based on the resolution principle, 1965), here with a
//! choice of different literals, so that a clause is never subsumed by a longer one.
#![tactic(auto)]

pub mod laws;
mod literals;
mod partners;
mod picks;
mod search;

pub use picks::Pick;
pub use search::subsumes;
