//! What a peer still has to infer: tasks on one or two recorded clauses, in a fixed order.
//!
//! A [`Tasks`] keeps one entry for each name that arrived, and cursors into the order of all tasks. A contract
//! sees the arrivals, the list of owed tasks that follows from them, and how many arrivals have their room.
#![tactic(auto)]

mod cursor;
mod links;
mod tasks;

use cd_list::{Copied, Equals, Sequence};
use cd_names::Name;
use std::alloc::{AllocError, Global};
pub use tasks::Tasks;

/// A part of the inferences between recorded clauses.
#[derive(Clone, Copy, Debug, PartialEq, Eq)]
pub enum Task {
    /// The inferences from the clause alone. They belong to its owner.
    Solo(Name),
    /// The resolutions of a positive literal of the first with a negative one of the second, and the
    /// paramodulations from the first into the second. They belong to the owner of the second.
    Pair(Name, Name),
}

pub type TaskList = Sequence<Task>;

/// A name that arrived.
#[derive(Clone, Copy, Debug)]
pub struct Arrival {
    pub name: Name,
    /// Whether its clause is owned here.
    pub resident: bool,
    /// Whether nothing more is to be inferred from its clause.
    pub covered: bool,
}

impl Copied for Task {
    fn copy(&self, _alloc: Global) -> Result<Task, AllocError> {
        Ok(*self)
    }
}

impl Equals for Task {
    fn equals(&self, other: &Task) -> bool {
        match (self, other) {
            (Task::Solo(a), Task::Solo(b)) => a.equals(b),
            (Task::Pair(a, b), Task::Pair(c, d)) => a.equals(c) && b.equals(d),
            _ => false,
        }
    }
}
