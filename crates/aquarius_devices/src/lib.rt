//! Tests of devices, row by row, apart from the crate that they test.
#![tactic(auto)]

#[cfg(test)]
mod devices;
