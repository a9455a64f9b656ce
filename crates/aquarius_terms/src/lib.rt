//! Tests of terms, row by row, apart from the crate that they test.
#![tactic(auto)]

#[cfg(test)]
mod terms;
