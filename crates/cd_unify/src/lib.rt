//! Most general unifiers and matches of two lists of terms (Baader and Nipkow, Term Rewriting and All That,
//! 4.5 to 4.7).
//!
//! The substitution of a unifier has a term for each variable below a number that the caller names, and is in
//! normal form: the variables of its terms are 0, 1, 2 and so on in the order of first occurrence.
#![tactic(auto)]

mod bindings;
mod classes;
mod direct;
mod graph;
pub mod laws;
mod matching;
mod normal;
mod robinson;
mod shapes;
mod solved;
mod trees;
mod unifier;

pub use bindings::Bindings;
pub use matching::{all_occur, matches};
pub use robinson::plain_mgu;
pub use shapes::{may_match, may_match_all};
pub use unifier::{are_below, mgu, mgu_apart};
