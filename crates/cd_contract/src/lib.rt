//! Contraction: which held clause makes a clause superfluous, and which held clauses a clause does.
#![tactic(auto)]

mod contracting;
mod held;
pub mod laws;
mod marks;
mod needs;
mod parts;
mod rows;
mod seeking;
mod shapes;
mod sides;
mod tally;

pub use contracting::{backward, forward, reducer};
pub use held::{Entry, Held, Hit, Hits, Struck};
