//! Tests of the steps of derivations, row by row, apart from the crate that they test.
#![tactic(auto)]

#[cfg(test)]
mod steps;
