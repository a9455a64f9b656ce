//! The search of one peer alone, from its start to its verdict.
//!
//! [`search`] makes one turn after another. Its contract says that the journal tells a run of the world of one peer, in
//! which each event is the one that the order of choices names, and that it ends with a verdict (`IsFinished` of
//! `specs/Search.antt`). The crate `cd_recorded` says what is recorded of a run of any number of peers, and what the verdict
//! says of it.
#![tactic(auto)]

mod searching;

pub use searching::search;
