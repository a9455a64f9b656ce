//! Tests of the printed lines of all rules, row by row, apart from the crate that they test.
#![tactic(auto)]

#[cfg(test)]
mod rules;
