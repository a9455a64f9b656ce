//! The call that the checker program makes.
#![tactic(auto)]

mod answer;
mod call;
pub mod laws;
mod texts;

pub use answer::{CheckAnswer, CheckOutcome};
pub use call::check;
