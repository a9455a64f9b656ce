//! Tests of lists and names, row by row, apart from the crates that they test.
#![tactic(auto)]

#[cfg(test)]
mod lists;
#[cfg(test)]
mod names;
