//! Tests of unifiers and matches, row by row, apart from the crate that they test.
#![tactic(auto)]

#[cfg(test)]
mod unifiers;
