//! Letters that wait until names are known.
#![tactic(auto)]

mod waiting;

pub use waiting::{Waiter, Waiting};
