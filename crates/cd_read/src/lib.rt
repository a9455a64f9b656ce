//! A problem read through a library: its file, and the files that this one includes.
//!
//! `specs/Meaning.antt` says which clause the literals of a statement give, and `specs/Files.antt` what files
//! that were fetched one after another come to. `specs/Fetched.antt` says what a library tells of them.
#![tactic(auto)]

mod labels;
pub mod laws;
mod measuring;
mod numbering;
mod problem;
mod reader;
mod state;

pub use cd_parse::{Label, Labels, Role, What};
pub use problem::{Input, Inputs, Problem, Wrong};
pub use reader::{ReadFault, read_problem};
