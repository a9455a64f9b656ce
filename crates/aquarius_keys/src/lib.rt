//! Tests of the orders of literals and clauses, row by row, apart from the crate that they test.
#![tactic(auto)]

#[cfg(test)]
mod clauses;
