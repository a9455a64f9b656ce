//! What the top call answers.
ghost use Rattle.std.specs.Prelude.{◌≡◌};

use cd_ledger::{Bound, Journals, Limits};
use cd_list::{Copied, Text};
use cd_names::Policy;
use cd_options::Options;
use cd_outside::Bytes;
use cd_read::{Problem, Wrong};
use cd_world::Turns;
use std::alloc::{AllocError, Global};

/// How a call ended.
#[derive(Drop)]
pub enum Answer {
    /// A peer came to know the empty clause: the problem has no model. `peer` is the least such peer.
    Refuted { peer: u16 },
    /// Nothing is left to be done.
    Saturated,
    /// A peer made as many rewritings and tasks as it may; `peer` is the least such peer.
    Spent { peer: u16 },
    /// A peer met a bound that no option moves; `peer` is the least such peer.
    Limit { peer: u16, bound: Bound },
    /// The words ask for nothing that can be had: they aren't in the grammar, or ask for more than one peer without a schedule.
    Usage,
    /// A file isn't as it should be.
    Refused(Wrong),
    /// The library failed at the file with this path.
    LibraryFault { path: Text },
    /// The sink failed: it took a front of the text.
    SinkFault,
    /// Memory ran out, and nothing was written.
    Memory,
}

impl Answer {
    ghost use Rattle.cd_top.specs.Headline.{status_of};

    /// The exit status of the program.
    pub fn status(&self) -> u8
        ensures { result ≡ status_of self.now }
    {
        match self {
            Answer::Refuted { .. } => 0,
            Answer::Saturated => 1,
            Answer::Spent { .. } => 2,
            Answer::Limit { .. } => 3,
            Answer::Usage => 64,
            Answer::Refused(_) => 65,
            Answer::LibraryFault { .. } => 66,
            Answer::Memory => 71,
            Answer::SinkFault => 74,
        }
    }
}

impl Copied for Answer {
    fn copy(&self, alloc: Global) -> Result<Answer, AllocError> {
        match self {
            Answer::Refuted { peer } => Ok(Answer::Refuted { peer: *peer }),
            Answer::Saturated => Ok(Answer::Saturated),
            Answer::Spent { peer } => Ok(Answer::Spent { peer: *peer }),
            Answer::Limit { peer, bound } => Ok(Answer::Limit {
                peer: *peer,
                bound: *bound,
            }),
            Answer::Usage => Ok(Answer::Usage),
            Answer::Refused(wrong) => Ok(Answer::Refused(wrong.copy(alloc)?)),
            Answer::LibraryFault { path } => {
                let path = path.copy(alloc)?;
                Ok(Answer::LibraryFault { path })
            }
            Answer::SinkFault => Ok(Answer::SinkFault),
            Answer::Memory => Ok(Answer::Memory),
        }
    }
}

/// What a call leaves to be looked at: what it was asked for, the problem that was read or made, so many peers with this policy
/// and these limits, the journal of each peer, the peer of each event in the order of the run, and the text that was to be
/// written.
#[derive(Drop)]
pub struct Account {
    pub asked: Option<Options>,
    pub problem: Option<Problem>,
    pub peers: u16,
    pub policy: Policy,
    pub limits: Limits,
    pub journals: Journals,
    pub order: Turns,
    pub text: Bytes,
}

/// The exit status, the answer, and the answer as it was before the first write: `made` equals `answer`
/// unless that is `SinkFault`.
#[derive(Drop)]
pub struct ProveOutcome {
    pub status: u8,
    pub answer: Answer,
    pub made: Answer,
    pub account: Account,
}
