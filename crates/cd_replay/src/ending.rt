//! Pass and Declare, and the ends at a limit.
#![tactic(auto)]

ghost use Rattle.std.specs.Prelude.{◌≡◌, ◌↔◌, ℕ, [], IsTrue, IfOk, Some, slice_get};
ghost use Rattle.cd_acts.specs.View.{local_of};
ghost use Rattle.cd_kbo.specs.declared.order.Order.{Order};
ghost use Rattle.cd_ledger.specs.declared.events.Act.TheVariants.{Declare, End, Pass};
ghost use Rattle.cd_machine.specs.Fits.{IsQuiet};
ghost use Rattle.cd_read.specs.declared.problem.Problem.{Problem};
ghost use Rattle.cd_replay.specs.Ends.{Ends, IsAtLimit, IsClosing, ItemEnds, Somewhere, TaskEnds, ends_by, is_bounds, is_names, is_outside, is_spent};
ghost use Rattle.cd_machine.specs.Turns.{TaskTooLarge};
ghost use Rattle.cd_replay.specs.Replayed.{CanAct, IsDrained, Judges, replayed};

use crate::prospects::{Prospect, item_at, prospect_of};
use crate::replayer::Replayer;
use cd_acts::State;
use cd_acts::rules::Concluded;
use cd_kbo::Order;
use cd_ledger::{Bound, Item, Letters, Verdict};
use cd_tasks::Task;
use std::alloc::{AllocError, Global};

/// How many names a peer may give.
const MOST_NAMES: u32 = 65_536;

fn is_spent(verdict: Verdict) -> bool
    ensures { result ≡ is_spent verdict }
{
    match verdict {
        Verdict::Refuted => false,
        Verdict::Saturated => false,
        Verdict::Spent => true,
        Verdict::Limit(_) => false,
    }
}

fn is_bounds(verdict: Verdict) -> bool
    ensures { result ≡ is_bounds verdict }
{
    match verdict {
        Verdict::Refuted => false,
        Verdict::Saturated => false,
        Verdict::Spent => false,
        Verdict::Limit(Bound::Bounds) => true,
        Verdict::Limit(Bound::Names) => false,
    }
}

fn is_names(verdict: Verdict) -> bool
    ensures { result ≡ is_names verdict }
{
    match verdict {
        Verdict::Refuted => false,
        Verdict::Saturated => false,
        Verdict::Spent => false,
        Verdict::Limit(Bound::Bounds) => false,
        Verdict::Limit(Bound::Names) => true,
    }
}

/// Whether what is to become of an item goes past the limit of a verdict.
fn ends_by(prospect: &Prospect, verdict: Verdict) -> bool
    ensures { result ≡ ends_by prospect.now verdict }
{
    match prospect {
        Prospect::Rewritten(_, _) => is_spent(verdict),
        Prospect::TooLarge => is_spent(verdict) || is_bounds(verdict),
        Prospect::Kept(_) => false,
        Prospect::Nameless => is_names(verdict),
    }
}

/// Whether a conclusion is out of bounds.
fn is_outside(concluded: &Concluded) -> bool
    ensures { result ≡ is_outside concluded.now }
{
    match concluded {
        Concluded::Found(_) => false,
        Concluded::TooLarge => true,
    }
}

/// Whether the token that is held closes both waves; `None` where none is held.
fn is_closing(state: &State) -> Option<bool>
    ensures { IsClosing (local_of state.now) result }
{
    match &state.token {
        None => None,
        Some(token) => Some(state.may_declare(token)),
    }
}

impl Replayer {
    /// Whether nothing is pending or owed, and no waiting letter is ready.
    fn is_quiet(&self) -> bool
        requires { IsDrained self.now }
        ensures { IsTrue result ↔ IsQuiet (replayed self.now) }
    {
        if !self.state.pending.is_empty() || !self.owed.is_empty() {
            return false;
        }
        match self.state.first_ready() {
            None => true,
            Some(_place) => false,
        }
    }

    /// Passes the token on, or answers `None` where it may not be passed.
    pub fn pass(&mut self, alloc: Global, time: u64) -> Result<Option<Letters>, AllocError>
        requires { (order : Order) × CanAct order self.old }
        ensures { IfOk result (λ letters. (order : Order) (p : Problem) → Judges order p (replayed self.old) time Pass self.new letters) }
    {
        if !self.is_quiet() {
            return Ok(None);
        }
        match is_closing(&self.state) {
            None => Ok(None),
            Some(closing) => {
                if closing {
                    return Ok(None);
                }
                let letters = self.state.pass(alloc, time)?;
                Ok(Some(letters))
            }
        }
    }

    /// Sets the verdict.
    fn close(&mut self, alloc: Global, verdict: Verdict) -> Letters
        ensures state { self.new ≡ record self.old { state = record self.old.state { verdict = Some verdict } } }
        ensures letters { result ≡ [] }
    {
        self.state.verdict = Some(verdict);
        Letters::new(alloc)
    }

    /// Ends the run where nothing is left to be done anywhere, or answers `None` where it isn't so.
    pub fn declare(&mut self, alloc: Global) -> Option<Letters>
        requires { IsDrained self.old }
        ensures { (order : Order) (p : Problem) (time : ℕ) → Judges order p (replayed self.old) time Declare self.new result }
    {
        if !self.is_quiet() {
            return None;
        }
        match is_closing(&self.state) {
            None => None,
            Some(closing) => {
                if !closing {
                    return None;
                }
                Some(self.close(alloc, Verdict::Saturated))
            }
        }
    }

    /// Whether the counts are at the limit of a verdict.
    fn is_at_limit(&self, verdict: Verdict) -> bool
        ensures { IsTrue result ↔ IsAtLimit (replayed self.now) verdict }
    {
        match verdict {
            Verdict::Refuted => false,
            Verdict::Saturated => false,
            Verdict::Spent => self.state.units == self.state.limits.steps,
            Verdict::Limit(Bound::Bounds) => self.state.units < self.state.limits.steps,
            Verdict::Limit(Bound::Names) => self.state.next_seq >= MOST_NAMES,
        }
    }

    /// Whether an item would go past the limit of a verdict.
    fn item_ends(
        &self,
        alloc: Global,
        order: &Order,
        verdict: Verdict,
        item: &Item,
    ) -> Result<bool, AllocError>
        requires acts { CanAct order.now self.now }
        requires there { (place : ℕ) × (slice_get self.now.state.pending.items place ≡ Some item.now) }
        ensures { IfOk result (λ b. IsTrue b ↔ ItemEnds order.now (replayed self.now) verdict item.now) }
    {
        cd_premises::decisions_meet();
        let prospect = prospect_of(alloc, &self.state, order, item)?;
        Ok(ends_by(&prospect, verdict))
    }

    /// Whether some item would.
    fn some_item_ends(
        &self,
        alloc: Global,
        order: &Order,
        verdict: Verdict,
    ) -> Result<bool, AllocError>
        requires { CanAct order.now self.now }
        ensures { IfOk result (λ b. IsTrue b ↔ Somewhere (ItemEnds order.now (replayed self.now) verdict) self.now.state.pending.items) }
    {
        let mut place = 0u64;
        while let Some(item) = item_at(&self.state, place) {
            let ends = self.item_ends(alloc, order, verdict, item)?;
            if ends {
                return Ok(true);
            }
            place += 1;
        }
        Ok(false)
    }

    /// Whether a conclusion of a task is out of bounds.
    fn is_too_large(&self, alloc: Global, order: &Order, task: Task) -> Result<bool, AllocError>
        requires acts { CanAct order.now self.now }
        requires there { (place : ℕ) × (slice_get self.now.owed place ≡ Some task) }
        ensures { IfOk result (λ b. IsTrue b ↔ TaskTooLarge order.now (replayed self.now) task) }
    {
        cd_premises::decisions_meet();
        cd_premises::premises_meet();
        let concluded = self.state.conclude(alloc, order, task)?;
        Ok(is_outside(&concluded))
    }

    /// Whether a task would go past the limit of a verdict.
    fn task_ends(
        &self,
        alloc: Global,
        order: &Order,
        verdict: Verdict,
        task: Task,
    ) -> Result<bool, AllocError>
        requires acts { CanAct order.now self.now }
        requires there { (place : ℕ) × (slice_get self.now.owed place ≡ Some task) }
        ensures { IfOk result (λ b. IsTrue b ↔ TaskEnds order.now (replayed self.now) verdict task) }
    {
        match verdict {
            Verdict::Refuted => Ok(false),
            Verdict::Saturated => Ok(false),
            Verdict::Spent => Ok(true),
            Verdict::Limit(Bound::Bounds) => {
                let large = self.is_too_large(alloc, order, task)?;
                Ok(large)
            }
            Verdict::Limit(Bound::Names) => Ok(false),
        }
    }

    /// Whether some task would.
    fn some_task_ends(
        &self,
        alloc: Global,
        order: &Order,
        verdict: Verdict,
    ) -> Result<bool, AllocError>
        requires { CanAct order.now self.now }
        ensures { IfOk result (λ b. IsTrue b ↔ Somewhere (TaskEnds order.now (replayed self.now) verdict) self.now.owed) }
    {
        for place in 0..self.owed.len() {
            let ends = self.task_ends(alloc, order, verdict, self.owed.as_slice()[place])?;
            if ends {
                return Ok(true);
            }
        }
        Ok(false)
    }

    /// Whether the peer may end so.
    fn may_end(&self, alloc: Global, order: &Order, verdict: Verdict) -> Result<bool, AllocError>
        requires { CanAct order.now self.now }
        ensures { IfOk result (λ b. IsTrue b ↔ Ends order.now (replayed self.now) verdict) }
    {
        if !self.is_at_limit(verdict) {
            return Ok(false);
        }
        let some = self.some_item_ends(alloc, order, verdict)?;
        if some {
            return Ok(true);
        }
        let some = self.some_task_ends(alloc, order, verdict)?;
        Ok(some)
    }

    /// Ends at a limit, or answers `None` where it isn't reached.
    pub fn end(
        &mut self,
        alloc: Global,
        order: &Order,
        verdict: Verdict,
    ) -> Result<Option<Letters>, AllocError>
        requires { CanAct order.now self.old }
        ensures { IfOk result (λ letters. (p : Problem) (time : ℕ) → Judges order.now p (replayed self.old) time (End verdict) self.new letters) }
    {
        let ends = self.may_end(alloc, order, verdict)?;
        if !ends {
            return Ok(None);
        }
        Ok(Some(self.close(alloc, verdict)))
    }
}
