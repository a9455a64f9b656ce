//! Tests of what peers hold and send, apart from the crate that they test.
#![tactic(auto)]

#[cfg(test)]
mod copies;
