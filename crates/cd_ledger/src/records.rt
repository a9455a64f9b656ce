//! Recorded clauses, and what a peer does with each.
use crate::items::End;
use cd_clause::Clause;
use cd_list::{Copied, Sequence};
use cd_names::{Name, Names};
use cd_steps::Steps;
use std::alloc::{AllocError, Global};

/// A clause with a name, and the steps that lead to it. `cites` are the names in the steps, each once, in the order
/// of first mention.
#[derive(Drop)]
pub struct Record {
    pub name: Name,
    pub owner: u16,
    pub clause: Clause,
    pub steps: Steps,
    pub cites: Names,
}

/// Why a name was dropped at its owner.
#[derive(Drop)]
pub enum Reason {
    /// The clause with this name subsumes it.
    Subsumed(Name),
    /// It was rewritten by the equations `using`, and what came out was recorded under the name `by`.
    Replaced { by: Name, using: Names },
    /// It was rewritten by the equations `using`, and what came out wasn't recorded.
    Simplified { using: Names, end: End },
}

/// What a peer does with a name that it knows.
#[derive(Drop)]
pub enum Status {
    /// Its clause is used.
    Held,
    /// The equation with this name reduces it, and an item takes its place. Only at the owner.
    Rework(Name),
    /// Its clause is no longer needed. Only at the owner.
    Dropped(Reason),
    /// The clause with this name makes it superfluous, and its owner was told so. Never at the owner.
    Told(Name),
}

/// A record that a peer knows.
#[derive(Drop)]
pub struct Known {
    pub entry: Record,
    pub status: Status,
}

pub type Knowns = Sequence<Known>;

impl Copied for Record {
    fn copy(&self, alloc: Global) -> Result<Record, AllocError> {
        Ok(Record {
            name: self.name,
            owner: self.owner,
            clause: self.clause.copy(alloc)?,
            steps: self.steps.copy(alloc)?,
            cites: self.cites.copy(alloc)?,
        })
    }
}

impl Copied for Reason {
    fn copy(&self, alloc: Global) -> Result<Reason, AllocError> {
        match self {
            Reason::Subsumed(by) => Ok(Reason::Subsumed(*by)),
            Reason::Replaced { by, using } => Ok(Reason::Replaced {
                by: *by,
                using: using.copy(alloc)?,
            }),
            Reason::Simplified { using, end } => Ok(Reason::Simplified {
                using: using.copy(alloc)?,
                end: *end,
            }),
        }
    }
}

impl Copied for Status {
    fn copy(&self, alloc: Global) -> Result<Status, AllocError> {
        match self {
            Status::Held => Ok(Status::Held),
            Status::Rework(by) => Ok(Status::Rework(*by)),
            Status::Dropped(why) => Ok(Status::Dropped(why.copy(alloc)?)),
            Status::Told(by) => Ok(Status::Told(*by)),
        }
    }
}

impl Copied for Known {
    fn copy(&self, alloc: Global) -> Result<Known, AllocError> {
        Ok(Known {
            entry: self.entry.copy(alloc)?,
            status: self.status.copy(alloc)?,
        })
    }
}
