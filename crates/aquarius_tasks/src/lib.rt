//! Tests of owed tasks and of waiting letters, apart from the crates that they test.
#![tactic(auto)]

#[cfg(test)]
mod tasks;
#[cfg(test)]
mod waiting;
