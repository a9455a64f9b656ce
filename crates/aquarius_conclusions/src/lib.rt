//! Tests of what one and two clauses conclude, apart from the crate that they test.
#![tactic(auto)]

#[cfg(test)]
mod conclusions;
