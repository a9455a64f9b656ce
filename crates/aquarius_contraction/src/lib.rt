//! Tests of subsumption, rewriting and contraction, row by row, apart from the crates that they test.
#![tactic(auto)]

#[cfg(test)]
mod hits;
#[cfg(test)]
mod reducts;
#[cfg(test)]
mod spelled;
#[cfg(test)]
mod subsumers;
