//! Tests of unifiers of large and of shared terms, apart from the crate that they test.
#![tactic(auto)]

#[cfg(test)]
mod shared;
