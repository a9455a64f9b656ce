//! The top call of the prover: from the words of the command line to the text that is written.
//!
//! [`prove`] is all that the program does. Its contract is the headline: the problem is what the told bytes spell, or the
//! generated one that was asked for; the recorded run is a run of legal events of all peers, by the stated schedule where there
//! is one; the answer has its cause where that run ends; a printed refutation is an accepted text; and the sink took exactly the
//! text of the answer. [`prove_alone`] and [`prove_scheduled`] do the same for options that are given.
#![tactic(auto)]

mod answer;
mod call;
mod finding;
mod running;
mod solving;
mod texts;

pub use answer::{Account, Answer, ProveOutcome};
pub use call::{prove, prove_alone, prove_scheduled};
