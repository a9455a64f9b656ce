//! One event of a journal: is it legal where the earlier ones led, and what does it leave.
#![tactic(auto)]

ghost use Rattle.std.specs.Prelude.{◌≡◌, ◌↔◌, IsTrue, IfOk, OnOk};
ghost use Rattle.cd_acts.specs.View.{local_of};
ghost use Rattle.cd_ledger.specs.declared.events.Act.TheVariants.{Receive};
ghost use Rattle.cd_list.specs.Lists.{tally};
ghost use Rattle.cd_machine.specs.Events.{clock_after, no_token};
ghost use Rattle.cd_peer.specs.Turns.{stamped};
ghost use Rattle.cd_replay.specs.Replayed.{CanAct, Decides, IsDrained, IsDue, IsWhole, Judges, replayed};

use cd_acts::State;
use cd_kbo::Order;
use cd_ledger::{Act, Event, Letter, Letters};
use cd_list::Copied;
use cd_peer::turning::{is_token, stamp};
use cd_read::Problem;
use cd_tasks::TaskList;
use std::alloc::{AllocError, Global};

/// A state, and what is owed in the place of its own tasks.
#[derive(Drop)]
pub struct Replayer {
    pub state: State,
    pub owed: TaskList,
}

/// The time from which on no letter lifts the clock.
const END_OF_TIME: u64 = 0x8000_0000_0000_0000;

/// The time at which a letter is received.
fn receiving_time(clock: u64, l: &Letter) -> u64
    ensures { result ≡ clock_after clock (Receive l.now) }
{
    if l.time < END_OF_TIME {
        clock.max(l.time).saturating_add(1)
    } else {
        clock.saturating_add(1)
    }
}

/// The time that an act has to have.
fn time_of(clock: u64, act: &Act) -> u64
    ensures { result ≡ clock_after clock act.now }
{
    match act {
        Act::Receive { letter } => receiving_time(clock, letter),
        Act::Rewrite { place: _ } => clock.saturating_add(1),
        Act::Keep { place: _ } => clock.saturating_add(1),
        Act::Admit { place: _ } => clock.saturating_add(1),
        Act::Reject { place: _ } => clock.saturating_add(1),
        Act::Work { task: _ } => clock.saturating_add(1),
        Act::Pass => clock.saturating_add(1),
        Act::Declare => clock.saturating_add(1),
        Act::End { verdict: _ } => clock.saturating_add(1),
    }
}

/// How many of the letters are no tokens.
fn count_letters(letters: &[Letter]) -> u64
    ensures { result ≡ tally no_token letters.now }
{
    let mut count = 0u64;
    for l in letters {
        if !is_token(l) {
            count += 1;
        }
    }
    count
}

/// Whether an event may come: there is no verdict, and its peer and its time are right.
fn is_due(state: &State, event: &Event) -> bool
    ensures { IsTrue result ↔ IsDue (local_of state.now) event.now }
{
    match state.verdict {
        Some(_) => false,
        None => event.peer == state.me && event.time == time_of(state.clock, &event.act),
    }
}

impl Replayer {
    /// Enters an act that was done into the journal.
    fn enter(
        &mut self,
        alloc: Global,
        time: u64,
        act: &Act,
        letters: &Letters,
    ) -> Result<(), AllocError>
        requires { IsDrained self.old }
        ensures ok { OnOk result (replayed self.new ≡ stamped (replayed self.old) (record { time = time; peer = self.old.state.me; act = act.now }) (tally no_token letters.now)) }
        ensures drained { OnOk result (IsDrained self.new) }
    {
        let sent = count_letters(letters.as_slice());
        let copy = act.copy(alloc)?;
        stamp(&mut self.state, time, copy, sent)?;
        Ok(())
    }

    /// Does an act, or answers `None` where it doesn't fit. The error is want of memory.
    fn act(
        &mut self,
        alloc: Global,
        order: &Order,
        problem: &Problem,
        time: u64,
        act: &Act,
    ) -> Result<Option<Letters>, AllocError>
        requires { CanAct order.now self.old }
        ensures { IfOk result (Judges order.now problem.now (replayed self.old) time act.now self.new) }
    {
        match act {
            Act::Rewrite { place } => {
                let letters = self.rewrite(alloc, order, *place)?;
                Ok(letters)
            }
            Act::Keep { place } => {
                let letters = self.keep(alloc, order, time, *place)?;
                Ok(letters)
            }
            Act::Receive { letter } => {
                let letters = self.receive(alloc, letter)?;
                Ok(letters)
            }
            Act::Admit { place } => {
                let letters = self.admit(alloc, order, problem, time, *place)?;
                Ok(letters)
            }
            Act::Reject { place } => {
                let letters = self.reject(alloc, order, problem, *place)?;
                Ok(letters)
            }
            Act::Work { task } => {
                let letters = self.work(alloc, order, *task)?;
                Ok(letters)
            }
            Act::Pass => {
                let letters = self.pass(alloc, time)?;
                Ok(letters)
            }
            Act::Declare => Ok(self.declare(alloc)),
            Act::End { verdict } => {
                let letters = self.end(alloc, order, *verdict)?;
                Ok(letters)
            }
        }
    }

    /// Makes an event, or answers false where it isn't legal; nothing is known of the state then. The error is want of
    /// memory.
    pub fn judge(
        &mut self,
        alloc: Global,
        order: &Order,
        problem: &Problem,
        event: &Event,
    ) -> Result<bool, AllocError>
        requires { IsWhole order.now problem.now self.old }
        ensures { IfOk result (Decides order.now problem.now (replayed self.old) event.now self.new) }
    {
        cd_infer::laws::usable();
        cd_premises::premises_meet();
        cd_alone::events_keep_going();
        if !is_due(&self.state, event) {
            return Ok(false);
        }
        match self.act(alloc, order, problem, event.time, &event.act)? {
            None => Ok(false),
            Some(letters) => {
                self.enter(alloc, event.time, &event.act, &letters)?;
                Ok(true)
            }
        }
    }
}
