//! Receive, and Admit and Reject of the letter in any place.
#![tactic(auto)]

ghost use Rattle.std.specs.Prelude.{◌≡◌, ℕ, IfOk, MatchOption, Some, slice_get, true};
ghost use Rattle.std.specs.List.{list_all};
ghost use Rattle.cd_acts.specs.Acts.{MayAdmit};
ghost use Rattle.cd_acts.specs.Indexed.{IsIndexed};
ghost use Rattle.cd_acts.specs.View.{local_of};
ghost use Rattle.cd_kbo.specs.declared.order.Order.{Order};
ghost use Rattle.cd_ledger.specs.Records.{is_known};
ghost use Rattle.cd_ledger.specs.declared.events.Act.TheVariants.{Admit, Receive, Reject};
ghost use Rattle.cd_ledger.specs.declared.letters.Letter.{Letter};
ghost use Rattle.cd_machine.specs.Fits.{is_ready};
ghost use Rattle.cd_read.specs.declared.problem.Problem.{Problem};
ghost use Rattle.cd_replay.specs.Replayed.{CanAct, HasDone, IsDrained, Judges, replayed};

use crate::replayer::Replayer;
use cd_acts::State;
use cd_fineness::fineness::is_acceptable;
use cd_kbo::Order;
use cd_ledger::{Body, Letter, Letters};
use cd_list::Copied;
use cd_names::Name;
use cd_read::Problem;
use std::alloc::{AllocError, Global};

/// Whether all names are known.
fn are_known(state: &State, names: &[Name]) -> bool
    requires { IsIndexed state.now }
    ensures { result ≡ list_all (is_known state.now.known) names.now }
{
    let mut rest = names;
    while let [name, after @ ..] = rest {
        if !state.is_known(*name) {
            return false;
        }
        rest = after;
    }
    true
}

/// Whether the names that a letter mentions are known.
fn is_ready(state: &State, l: &Letter) -> bool
    requires { IsIndexed state.now }
    ensures { result ≡ is_ready state.now.known l.now }
{
    match &l.body {
        Body::Kept(r) => are_known(state, r.cites.as_slice()),
        Body::Notice { of, by, how: _ } => state.is_known(*of) && state.is_known(*by),
        Body::Token(_) => true,
    }
}

/// The waiting letter in a place, where it is there and ready.
fn ready_at(state: &State, place: u64) -> Option<&Letter>
    requires { IsIndexed state.now }
    ensures { MatchOption result ((l : Letter) → slice_get (local_of state.now).waiting place ≡ Some l → is_ready state.now.known l ≡ true → ⊥)
        (λ l. (slice_get (local_of state.now).waiting place ≡ Some l.now) × (is_ready state.now.known l.now ≡ true)) }
{
    if place >= state.waiting.len() as u64 {
        return None;
    }
    let letter = state.letter_at(place);
    if is_ready(state, letter) {
        return Some(letter);
    }
    None
}

impl Replayer {
    /// Receives a letter, or answers `None` where it is addressed to another peer.
    pub fn receive(&mut self, alloc: Global, l: &Letter) -> Result<Option<Letters>, AllocError>
        requires { IsDrained self.old }
        ensures { IfOk result (λ letters. (order : Order) (p : Problem) (time : ℕ) → Judges order p (replayed self.old) time (Receive l.now) self.new letters) }
    {
        if l.to != self.state.me {
            return Ok(None);
        }
        let copy = l.copy(alloc)?;
        self.state.put_letter(alloc, copy)?;
        Ok(Some(Letters::new(alloc)))
    }

    fn admit_at(
        &mut self,
        alloc: Global,
        order: &Order,
        time: u64,
        place: u64,
    ) -> Result<Letters, AllocError>
        requires acts { CanAct order.now self.old }
        requires may { (p : Problem) × MayAdmit order.now p (local_of self.old.state) place }
        ensures { IfOk result (λ letters. (p : Problem) → MayAdmit order.now p (local_of self.old.state) place → HasDone order.now p (replayed self.old) time (Admit place) self.new letters) }
    {
        cd_alone::events_keep_ready();
        let letters = self.state.admit(alloc, order, time, place)?;
        self.rejoin(alloc)?;
        Ok(letters)
    }

    /// Admits the letter in a place, or answers `None` where it can't.
    pub fn admit(
        &mut self,
        alloc: Global,
        order: &Order,
        problem: &Problem,
        time: u64,
        place: u64,
    ) -> Result<Option<Letters>, AllocError>
        requires { CanAct order.now self.old }
        ensures { IfOk result (Judges order.now problem.now (replayed self.old) time (Admit place) self.new) }
    {
        let Some(letter) = ready_at(&self.state, place) else {
            return Ok(None);
        };
        let fine = is_acceptable(alloc, &self.state, order, problem, letter)?;
        if !fine {
            return Ok(None);
        }
        let letters = self.admit_at(alloc, order, time, place)?;
        Ok(Some(letters))
    }

    /// Throws the letter in a place away, or answers `None` where it may not.
    pub fn reject(
        &mut self,
        alloc: Global,
        order: &Order,
        problem: &Problem,
        place: u64,
    ) -> Result<Option<Letters>, AllocError>
        requires { CanAct order.now self.old }
        ensures { IfOk result (λ letters. (time : ℕ) → Judges order.now problem.now (replayed self.old) time (Reject place) self.new letters) }
    {
        let Some(letter) = ready_at(&self.state, place) else {
            return Ok(None);
        };
        let fine = is_acceptable(alloc, &self.state, order, problem, letter)?;
        if fine {
            return Ok(None);
        }
        let letters = self.state.reject(alloc, place);
        Ok(Some(letters))
    }
}
