//! What was chosen is done.
#![tactic(auto)]

ghost use Rattle.std.specs.Prelude.{◌≡◌, Some, IfOk, OnOk};
ghost use Rattle.cd_acts.specs.Indexed.{IsIndexed, IsSensible};
ghost use Rattle.cd_acts.specs.View.{local_of};
ghost use Rattle.cd_read.specs.declared.problem.Problem.{Problem};
ghost use Rattle.cd_peer.specs.Choices.{IsChoice};
ghost use Rattle.cd_peer.specs.Turns.{Makes};

use crate::choosing::Choice;
use cd_acts::State;
use cd_kbo::Order;
use cd_ledger::{Act, Letters, Verdict};
use std::alloc::{AllocError, Global};

/// An act that was done, and its letters.
#[derive(Drop)]
pub struct Made {
    pub act: Act,
    pub letters: Letters,
}

fn done_by(act: Act, letters: Letters) -> Option<Made>
    ensures { result ≡ Some (record { act = act; letters = letters }) }
{
    Some(Made { act, letters })
}

fn close(state: &mut State, verdict: Verdict)
    ensures { state.new ≡ record state.old { verdict = Some verdict } }
{
    state.verdict = Some(verdict);
}

/// Does what was chosen; `None` where nothing is to be done. Clock, journal and counts stay. The error is want of memory.
pub fn make(
    alloc: Global,
    state: &mut State,
    order: &Order,
    time: u64,
    choice: Choice,
) -> Result<Option<Made>, AllocError>
    requires choice { (p : Problem) × IsChoice order.now p (local_of state.old) choice }
    requires indexed { IsIndexed state.old }
    requires sensible { IsSensible (local_of state.old) }
    ensures ok { IfOk result (λ m. (p : Problem) → IsChoice order.now p (local_of state.old) choice → Makes order.now p (local_of state.old) time (local_of state.new) m) }
    ensures indexed { OnOk result (IsIndexed state.new) }
    ensures journal { state.new.journal ≡ state.old.journal }
{
    match choice {
        Choice::Admit(place) => {
            let letters = state.admit(alloc, order, time, place)?;
            Ok(done_by(Act::Admit { place }, letters))
        }
        Choice::Reject(place) => {
            let letters = state.reject(alloc, place);
            Ok(done_by(Act::Reject { place }, letters))
        }
        Choice::Rewrite(by, r) => {
            let letters = state.rewrite(alloc, order, by, r)?;
            Ok(done_by(Act::Rewrite { place: 0 }, letters))
        }
        Choice::Keep(outcome) => {
            let letters = state.keep(alloc, order, time, outcome)?;
            Ok(done_by(Act::Keep { place: 0 }, letters))
        }
        Choice::Work(task, found) => {
            let letters = state.work(alloc, order, task, found)?;
            Ok(done_by(Act::Work { task }, letters))
        }
        Choice::Pass => {
            let letters = state.pass(alloc, time)?;
            Ok(done_by(Act::Pass, letters))
        }
        Choice::Declare => {
            close(state, Verdict::Saturated);
            Ok(done_by(Act::Declare, Letters::new(alloc)))
        }
        Choice::End(verdict) => {
            close(state, verdict);
            Ok(done_by(Act::End { verdict }, Letters::new(alloc)))
        }
        Choice::Idle => Ok(None),
    }
}
