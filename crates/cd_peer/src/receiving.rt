//! Receive: a letter waits from now on.
#![tactic(auto)]

ghost use Rattle.std.specs.Prelude.{◌≡◌, None, OnErr, OnOk};
ghost use Rattle.cd_acts.specs.Indexed.{IsIndexed};
ghost use Rattle.cd_acts.specs.View.{local_of};
ghost use Rattle.cd_kbo.specs.declared.order.Order.{Order};
ghost use Rattle.cd_ledger.specs.declared.events.Act.TheVariants.{Receive};
ghost use Rattle.cd_machine.specs.Events.{clock_after};
ghost use Rattle.cd_read.specs.declared.problem.Problem.{Problem};
ghost use Rattle.cd_peer.specs.Turns.{HasReceived};

use crate::turning::stamp;
use cd_acts::State;
use cd_ledger::{Act, Letter};
use cd_list::Copied;
use std::alloc::{AllocError, Global};

/// The time from which on no letter lifts the clock.
const END_OF_TIME: u64 = 0x8000_0000_0000_0000;

/// The time at which a letter is received: past that of the clock and that of the letter.
fn receiving_time(clock: u64, l: &Letter) -> u64
    ensures { result ≡ clock_after clock (Receive l.now) }
{
    if l.time < END_OF_TIME {
        clock.max(l.time).saturating_add(1)
    } else {
        clock.saturating_add(1)
    }
}

/// Puts a letter that is addressed to this peer behind the waiting ones. After want of memory the journal is as before, and
/// nothing else is known of the state.
pub fn receive(alloc: Global, state: &mut State, l: Letter) -> Result<(), AllocError>
    requires indexed { IsIndexed state.old }
    requires running { state.old.verdict ≡ None }
    requires mine { l.to ≡ state.old.me }
    ensures indexed { OnOk result (IsIndexed state.new) }
    ensures ok { OnOk result ((order : Order) (p : Problem) → HasReceived order p (local_of state.old) (local_of state.new) l) }
    ensures journal { OnErr result (state.new.journal ≡ state.old.journal) }
{
    let time = receiving_time(state.clock, &l);
    let letter = l.copy(alloc)?;
    state.put_letter(alloc, l)?;
    stamp(state, time, Act::Receive { letter }, 0)?;
    Ok(())
}
