//! The state of one peer.
ghost use Rattle.std.specs.Prelude.{◌≡◌};
ghost use Rattle.std.specs.Option.{option_copied};
ghost use Rattle.cd_ledger.specs.Records.{look};

use crate::events::{Events, Verdict};
use crate::items::{DoneList, Items, Settledness};
use crate::letters::Letters;
use crate::records::{Known, Knowns};
use cd_list::Equals;
use cd_names::{Count, Name, Policy, Token};
use cd_tasks::TaskList;

/// How many rewritings and tasks a peer may do together.
#[derive(Clone, Copy)]
pub struct Limits {
    pub steps: u64,
}

/// The state of peer `me` of `peers`.
///
/// `known` is in the order in which names became known here, `owed` in the order in which tasks are to be done, and
/// `waiting` in the order in which letters came. `count` counts letters other than the token, `units` the
/// rewritings and tasks that were done, and `next_seq` the names that this peer gave.
#[derive(Drop)]
pub struct Local {
    pub me: u16,
    pub peers: u16,
    pub policy: Policy,
    pub limits: Limits,
    pub known: Knowns,
    pub pending: Items,
    pub settled: Settledness,
    pub owed: TaskList,
    pub done: DoneList,
    pub waiting: Letters,
    pub token: Option<Token>,
    pub count: Count,
    pub next_seq: u32,
    pub units: u64,
    pub clock: u64,
    pub verdict: Option<Verdict>,
    pub journal: Events,
}

/// What the peer knows under a name, or `None` where the name is unknown here. No memory is taken.
pub fn look(local: &Local, n: Name) -> Option<&Known>
    ensures { option_copied result ≡ look local.now.known n }
{
    let known = local.known.as_slice();
    known.iter().find(|e| e.entry.name.equals(&n))
}
