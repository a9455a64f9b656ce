//! Tests of tokens, row by row, apart from the crate that they test.
#![tactic(auto)]

#[cfg(test)]
mod tokens;
