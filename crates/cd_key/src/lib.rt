//! Literals compared, the literals of a clause that inferences are made on, and the key by which one clause may
//! delete another.
//!
//! All comparisons ask that the sides of the literals have a size below 2^32, as those of every clause within
//! bounds have ([`laws::bounded_clauses`]). None takes memory.
#![tactic(auto)]

mod forms;
mod keys;
pub mod laws;
mod literals;
mod multisets;
mod repeats;
mod selection;

pub use keys::key_cmp;
pub use literals::literal_greater;
pub use selection::eligible;
