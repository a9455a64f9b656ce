//! Tests of one peer's search, apart from the crates that they test.
#![tactic(auto)]

#[cfg(test)]
mod searches;
