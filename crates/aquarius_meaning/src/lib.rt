//! Tests of truth over two elements, row by row, apart from the crate that they test.
#![tactic(auto)]

#[cfg(test)]
mod meaning;
