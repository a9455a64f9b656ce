//! Clauses without a name, and what became of them.
use cd_clause::Clause;
use cd_list::{Copied, Sequence};
use cd_names::Name;
use cd_steps::Steps;
use cd_tasks::Task;
use std::alloc::{AllocError, Global};

/// Where an item comes from.
#[derive(Clone, Copy)]
pub enum Origin {
    /// The input with this index.
    Input(u32),
    /// The conclusion with this number of the task.
    Task(Task, u64),
    /// The record with this name, which an equation reduces.
    Rework(Name),
}

/// A clause that has no name yet, and the steps that lead to it. Where `forced` is set, the equation with that
/// name has to rewrite it first.
#[derive(Drop)]
pub struct Item {
    pub origin: Origin,
    pub forced: Option<Name>,
    pub steps: Steps,
    pub clause: Clause,
}

pub type Items = Sequence<Item>;

/// What became of an item.
#[derive(Clone, Copy)]
pub enum Outcome {
    /// Its clause was recorded under this name.
    Named(Name),
    /// Its clause is a tautology.
    Trivial,
    /// The clause with this name, the first held one in the order in which they became known, subsumes it.
    Subsumed(Name),
}

/// What became of an item that wasn't recorded.
#[derive(Clone, Copy)]
pub enum End {
    Trivial,
    Subsumed(Name),
}

/// An item that is no longer pending.
#[derive(Drop)]
pub struct Settled {
    pub origin: Origin,
    pub steps: Steps,
    pub outcome: Outcome,
}

pub type Settledness = Sequence<Settled>;

/// A task that was done, and how many conclusions it had.
#[derive(Clone, Copy)]
pub struct Done {
    pub task: Task,
    pub conclusions: u64,
}

pub type DoneList = Sequence<Done>;

impl Copied for Origin {
    fn copy(&self, _alloc: Global) -> Result<Origin, AllocError> {
        Ok(*self)
    }
}

impl Copied for Outcome {
    fn copy(&self, _alloc: Global) -> Result<Outcome, AllocError> {
        Ok(*self)
    }
}

impl Copied for End {
    fn copy(&self, _alloc: Global) -> Result<End, AllocError> {
        Ok(*self)
    }
}

impl Copied for Done {
    fn copy(&self, _alloc: Global) -> Result<Done, AllocError> {
        Ok(*self)
    }
}

impl Copied for Item {
    fn copy(&self, alloc: Global) -> Result<Item, AllocError> {
        Ok(Item {
            origin: self.origin,
            forced: self.forced,
            steps: self.steps.copy(alloc)?,
            clause: self.clause.copy(alloc)?,
        })
    }
}

impl Copied for Settled {
    fn copy(&self, alloc: Global) -> Result<Settled, AllocError> {
        Ok(Settled {
            origin: self.origin,
            steps: self.steps.copy(alloc)?,
            outcome: self.outcome,
        })
    }
}
