//! Replay: the events of a journal, one after another.
#![tactic(auto)]

ghost use Rattle.std.specs.Prelude.{◌≡◌, ◌<◌, ◌^◌, length};
ghost use Rattle.std.specs.List.{AllByRecursion as Each};
ghost use Rattle.cd_machine.specs.Rules.{IsFit, clauses_of};
ghost use Rattle.cd_replay.specs.Replays.{IsReplay};

use crate::owing::whole_local;
use crate::replayer::Replayer;
use cd_kbo::Order;
use cd_ledger::{Event, Limits, Local};
use cd_names::Policy;
use cd_peer::starting::start;
use cd_read::Problem;
use cd_tasks::TaskList;
use std::alloc::{AllocError, Global};
use thiserror::Error;

/// Why a journal can't be replayed.
#[derive(Clone, Copy, Debug, Error)]
pub enum ReplayFault {
    /// The event in this place, from 0 on, isn't legal where the earlier ones led.
    #[error("event {index} is not legal")]
    Illegal { index: u64 },
    /// Memory ran out.
    #[error("out of memory")]
    Memory,
}

impl From<AllocError> for ReplayFault {
    ghost use Rattle.std.specs.Prelude.{◌≡◌};
    ghost use Rattle.cd_replay.specs.declared.replaying.ReplayFault.TheVariants.{Memory};

    ghost from_gives = { λ _ fault. fault ≡ Memory };

    fn from(_error: AllocError) -> ReplayFault {
        ReplayFault::Memory
    }
}

/// Where a journal leads from the start of peer `me` of `peers`, which may do so many rewritings and tasks together. The
/// error names the first event that isn't legal, or is want of memory.
pub fn replay(
    alloc: Global,
    problem: &Problem,
    me: u16,
    peers: u16,
    policy: Policy,
    limits: Limits,
    journal: &[Event],
) -> Result<Local, ReplayFault>
    requires some { me < peers }
    requires few { length problem.now.inputs < 2 ^ 32 }
    requires fit { Each (IsFit problem.now) (clauses_of problem.now) }
    ensures { IsReplay problem.now me peers policy limits journal.now result }
{
    cd_premises::premises_meet();
    cd_alone::starts_go();
    let order = Order::plain(alloc);
    let state = start(alloc, problem, me, peers, policy, limits)?;
    let mut replayer = Replayer {
        state,
        owed: TaskList::new(alloc),
    };
    let mut index = 0u64;
    for event in journal {
        let legal = replayer.judge(alloc, &order, problem, event)?;
        if !legal {
            return Err(ReplayFault::Illegal { index });
        }
        index += 1;
    }
    let local = whole_local(alloc, replayer)?;
    Ok(local)
}
