//! Tests of what files are read as, and of the first fault of others at its place. They stand apart from the crate
//! that they test, since a crate with tests is proved twice.
#![tactic(auto)]

#[cfg(test)]
mod answers;
#[cfg(test)]
mod faults;
#[cfg(test)]
mod includes;
#[cfg(test)]
mod limits;
#[cfg(test)]
mod problems;
