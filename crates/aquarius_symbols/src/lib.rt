//! Tests of the numbers of symbols, apart from the crate that they test.
#![tactic(auto)]

#[cfg(test)]
mod symbols;
