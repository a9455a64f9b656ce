//! Rewrite and Keep of the item in any place: it is brought to the front, where acts take it.
#![tactic(auto)]

ghost use Rattle.std.specs.Prelude.{◌≡◌, ◌<◌, ◌≤◌, ◌∷◌, ℕ, List, Some, IfOk, OnOk, insert, length, slice_get};
ghost use Rattle.cd_acts.specs.View.{local_of};
ghost use Rattle.cd_ledger.specs.declared.events.Act.TheVariants.{Keep, Rewrite};
ghost use Rattle.cd_ledger.specs.declared.items.Item.{Item};
ghost use Rattle.cd_machine.specs.Fits.{OutcomeFits};
ghost use Rattle.cd_read.specs.declared.problem.Problem.{Problem};
ghost use Rattle.cd_replay.specs.Prospects.{IsRewritten, IsStable};
ghost use Rattle.cd_replay.specs.Replayed.{CanAct, HasDone, IsBrought, Judges, replayed};

use crate::prospects::{Prospect, item_at, prospect_of};
use crate::replayer::Replayer;
use cd_acts::state::take_first;
use cd_kbo::Order;
use cd_ledger::{Item, Letters, Outcome};
use cd_names::Name;
use cd_rewrite::ReductAt;
use std::alloc::{AllocError, Global};
use std::collections::VecDeque;

/// Brings the item in a place to the front; the others keep their order behind it.
fn bring(pending: &mut VecDeque<Item>, place: u64) -> Result<(), AllocError>
    requires { (i : Item) × (slice_get pending.old.items place ≡ Some i) }
    ensures { OnOk result (IsBrought pending.old.items place pending.new.items) }
{
    match pending.remove(place as usize) {
        None => unreachable!(),
        Some(item) => {
            pending.push_front(item)?;
            Ok(())
        }
    }
}

/// Puts the first item into a place among the others.
fn put_back(pending: &mut VecDeque<Item>, place: u64) -> Result<(), AllocError>
    requires { (i : Item) × (others : List Item) × (pending.old.items ≡ i ∷ others) × (place ≤ length others) }
    ensures { OnOk result ((i : Item) (others : List Item) → pending.old.items ≡ i ∷ others → pending.new.items ≡ insert others place i) }
{
    let item = take_first(pending);
    pending.insert(place as usize, item)?;
    Ok(())
}

impl Replayer {
    fn rewrite_by(
        &mut self,
        alloc: Global,
        order: &Order,
        place: u64,
        by: Name,
        r: ReductAt,
    ) -> Result<Letters, AllocError>
        requires acts { CanAct order.now self.old }
        requires may { (i : Item) × (slice_get self.old.state.pending.items place ≡ Some i) × IsRewritten order.now self.old.state.known i by r }
        requires left { self.old.state.units < self.old.state.limits.steps }
        ensures { IfOk result (λ letters. (p : Problem) (time : ℕ) → HasDone order.now p (replayed self.old) time (Rewrite place) self.new letters) }
    {
        bring(&mut self.state.pending, place)?;
        let letters = self.state.rewrite(alloc, order, by, r)?;
        put_back(&mut self.state.pending, place)?;
        Ok(letters)
    }

    /// Rewrites the item in a place, or answers `None` where it can't.
    pub fn rewrite(
        &mut self,
        alloc: Global,
        order: &Order,
        place: u64,
    ) -> Result<Option<Letters>, AllocError>
        requires { CanAct order.now self.old }
        ensures { IfOk result (λ letters. (p : Problem) (time : ℕ) → Judges order.now p (replayed self.old) time (Rewrite place) self.new letters) }
    {
        cd_premises::decisions_meet();
        let Some(item) = item_at(&self.state, place) else {
            return Ok(None);
        };
        if self.state.units == self.state.limits.steps {
            return Ok(None);
        }
        let prospect = prospect_of(alloc, &self.state, order, item)?;
        match prospect {
            Prospect::Rewritten(by, r) => {
                let letters = self.rewrite_by(alloc, order, place, by, r)?;
                Ok(Some(letters))
            }
            Prospect::TooLarge => Ok(None),
            Prospect::Kept(_) => Ok(None),
            Prospect::Nameless => Ok(None),
        }
    }

    fn keep_by(
        &mut self,
        alloc: Global,
        order: &Order,
        time: u64,
        place: u64,
        outcome: Outcome,
    ) -> Result<Letters, AllocError>
        requires acts { CanAct order.now self.old }
        requires may { (i : Item) × (slice_get self.old.state.pending.items place ≡ Some i) × IsStable order.now self.old.state.known i × OutcomeFits (local_of self.old.state) i outcome }
        ensures { IfOk result (λ letters. (p : Problem) → HasDone order.now p (replayed self.old) time (Keep place) self.new letters) }
    {
        cd_alone::events_keep_ready();
        bring(&mut self.state.pending, place)?;
        let letters = self.state.keep(alloc, order, time, outcome)?;
        self.rejoin(alloc)?;
        Ok(letters)
    }

    /// Keeps the item in a place, or answers `None` where it can't.
    pub fn keep(
        &mut self,
        alloc: Global,
        order: &Order,
        time: u64,
        place: u64,
    ) -> Result<Option<Letters>, AllocError>
        requires { CanAct order.now self.old }
        ensures { IfOk result (λ letters. (p : Problem) → Judges order.now p (replayed self.old) time (Keep place) self.new letters) }
    {
        let Some(item) = item_at(&self.state, place) else {
            return Ok(None);
        };
        let prospect = prospect_of(alloc, &self.state, order, item)?;
        match prospect {
            Prospect::Rewritten(_by, _reduct) => Ok(None),
            Prospect::TooLarge => Ok(None),
            Prospect::Kept(outcome) => {
                let letters = self.keep_by(alloc, order, time, place, outcome)?;
                Ok(Some(letters))
            }
            Prospect::Nameless => Ok(None),
        }
    }
}
