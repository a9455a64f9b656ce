//! Tests of the limits of a run, apart from the crates that they test.
#![tactic(auto)]

#[cfg(test)]
mod files;
#[cfg(test)]
mod limits;
