//! Derivation lines, read exactly.
//!
//! A line is its name, its body and the names of its parents. Names are read strictly. A body is read leniently, printed
//! again, and has to stand there: so what is read was printed, and what was printed is read ([`laws`]).
#![tactic(auto)]

mod exact;
pub mod laws;
mod names;
mod reading;

pub use exact::read_exact;
pub use names::read_line;
pub use reading::{Applied, Body, Origin, ReadFault};
