//! The Knuth-Bendix order on terms, and the ground order that agrees with it (Knuth and Bendix, Simple word
//! problems in universal algebras, 1970; Baader and Nipkow, Term Rewriting and All That, 5.4.4).
//!
//! An [`Order`] gives each symbol a weight and a rank. Symbols precede each other by rank, then by the number
//! of their arguments, then by their number. A variable weighs 1. [`greater`] compares terms for all values of
//! their variables; [`ground_cmp`] reads each variable as one constant `bot`, which weighs 1 and precedes every
//! symbol, and so compares any two terms. A [`Side`] is a term or an atom that is compared as one. No
//! comparison takes memory, and each is exact for terms of a size below 2^32.
#![tactic(auto)]

mod ground;
mod knuth_bendix;
pub mod laws;
mod order;
mod sides;
mod variables;
mod weights;

pub use ground::{ground_cmp, side_cmp};
pub use knuth_bendix::{greater, side_greater};
pub use order::{Numbers, Order, Select};
pub use sides::Side;
pub use variables::{least_variable, next_variable};
pub use weights::weight;
