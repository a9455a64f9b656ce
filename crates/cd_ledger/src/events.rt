//! What happens at a peer.
use crate::letters::Letter;
use cd_list::{Copied, Sequence};
use cd_tasks::Task;
use std::alloc::{AllocError, Global};

/// A limit that no option moves.
#[derive(Clone, Copy)]
pub enum Bound {
    /// The bounds of clauses and substitutions: 65,535 symbols and variables, 1,000 levels.
    Bounds,
    /// 65,536 names of one peer.
    Names,
}

/// How a peer ended.
#[derive(Clone, Copy)]
pub enum Verdict {
    /// It came to know the empty clause.
    Refuted,
    /// Nothing was left to be done anywhere.
    Saturated,
    /// It did as many rewritings and tasks as it may, and one more was there.
    Spent,
    /// A clause or a substitution would have been out of bounds, or a name too many.
    Limit(Bound),
}

/// What an event does. Places count from 0.
#[derive(Drop)]
pub enum Act {
    /// Rewrites the pending item in this place once.
    Rewrite { place: u64 },
    /// Settles the pending item in this place: records it, or finds it superfluous.
    Keep { place: u64 },
    /// Takes a letter in, which then waits.
    Receive { letter: Letter },
    /// Does what the waiting letter in this place says.
    Admit { place: u64 },
    /// Throws the waiting letter in this place away.
    Reject { place: u64 },
    /// Does an owed task: its conclusions become pending.
    Work { task: Task },
    /// Adds this peer's counts to the token and passes it on.
    Pass,
    /// Ends a run in which nothing is left to be done.
    Declare,
    /// Ends at a limit.
    End { verdict: Verdict },
}

/// One change of one peer, at this time on its logical clock.
#[derive(Drop)]
pub struct Event {
    pub time: u64,
    pub peer: u16,
    pub act: Act,
}

pub type Events = Sequence<Event>;

/// The events of each peer, in the order of peers.
pub type Journals = Sequence<Events>;

impl Copied for Verdict {
    fn copy(&self, _alloc: Global) -> Result<Verdict, AllocError> {
        Ok(*self)
    }
}

impl Copied for Act {
    fn copy(&self, alloc: Global) -> Result<Act, AllocError> {
        match self {
            Act::Rewrite { place } => Ok(Act::Rewrite { place: *place }),
            Act::Keep { place } => Ok(Act::Keep { place: *place }),
            Act::Receive { letter } => Ok(Act::Receive {
                letter: letter.copy(alloc)?,
            }),
            Act::Admit { place } => Ok(Act::Admit { place: *place }),
            Act::Reject { place } => Ok(Act::Reject { place: *place }),
            Act::Work { task } => Ok(Act::Work { task: *task }),
            Act::Pass => Ok(Act::Pass),
            Act::Declare => Ok(Act::Declare),
            Act::End { verdict } => Ok(Act::End { verdict: *verdict }),
        }
    }
}

impl Copied for Event {
    fn copy(&self, alloc: Global) -> Result<Event, AllocError> {
        Ok(Event {
            time: self.time,
            peer: self.peer,
            act: self.act.copy(alloc)?,
        })
    }
}
