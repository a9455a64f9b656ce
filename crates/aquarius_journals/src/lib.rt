//! Tests of the journal of a run, apart from the crates that they test.
#![tactic(auto)]

#[cfg(test)]
mod journals;
