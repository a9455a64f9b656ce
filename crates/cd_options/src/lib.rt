//! What a user may ask of the prover: its words, and the generated problems that they can name.
//!
//! `specs/Grammar.antt` says which words give which options, and `specs/Options.antt` what their values mean. The words are
//! split by `clap`; what is a number, a policy or a file is decided here.
#![tactic(auto)]

mod command;
mod grid;
mod numbers;
mod options;
mod words;

pub use grid::grid_problem;
pub use options::{Options, Origins, WordsFault};
pub use words::read_words;
