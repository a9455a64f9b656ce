//! Work on any owed task.
#![tactic(auto)]

ghost use Rattle.std.specs.Prelude.{◌≡◌, ◌<◌, ℕ, Some, IfOk, OnOk, slice_get};
ghost use Rattle.std.specs.List.{AllByRecursion as Each};
ghost use Rattle.cd_acts.specs.Acts.{AddsItems};
ghost use Rattle.cd_acts.specs.View.{local_of};
ghost use Rattle.cd_ledger.specs.declared.events.Act.TheVariants.{Work};
ghost use Rattle.cd_machine.specs.Acts.{Concludes};
ghost use Rattle.cd_machine.specs.Right.{registry_of};
ghost use Rattle.cd_machine.specs.Rules.{IsConclusionWithin};
ghost use Rattle.cd_read.specs.declared.problem.Problem.{Problem};
ghost use Rattle.cd_replay.specs.Replayed.{CanAct, HasDone, Judges, replayed};

use crate::owing::place_of;
use crate::replayer::Replayer;
use cd_acts::rewriting::{item_of, next_unit};
use cd_acts::rules::Concluded;
use cd_infer::{Conclusion, Conclusions};
use cd_kbo::Order;
use cd_ledger::{Done, Item, Letters, Origin};
use cd_tasks::Task;
use std::alloc::{AllocError, Global};
use std::collections::VecDeque;

/// The conclusions of a task as items, behind those that are pending.
fn add_items(
    alloc: Global,
    pending: &mut VecDeque<Item>,
    task: Task,
    found: Conclusions,
) -> Result<(), AllocError>
    ensures { OnOk result (AddsItems task found pending.old.items pending.new.items) }
{
    let found = found.into_vec();
    let mut index = 0u64;
    for conclusion in found {
        let Conclusion { step, clause } = conclusion;
        let item = item_of(alloc, Origin::Task(task, index), step, clause)?;
        pending.push_back(item)?;
        index += 1;
    }
    Ok(())
}

impl Replayer {
    /// Does the owed task in a place, which has these conclusions.
    fn work_at(
        &mut self,
        alloc: Global,
        order: &Order,
        place: usize,
        task: Task,
        found: Conclusions,
    ) -> Result<Letters, AllocError>
        requires acts { CanAct order.now self.old }
        requires there { slice_get self.old.owed place ≡ Some task }
        requires concludes { Concludes order.now (registry_of (local_of self.old.state)) task found }
        requires within { Each IsConclusionWithin found }
        requires left { self.old.state.units < self.old.state.limits.steps }
        ensures { IfOk result (λ letters. (p : Problem) (time : ℕ) → HasDone order.now p (replayed self.old) time (Work task) self.new letters) }
    {
        self.owed.remove(place);
        let conclusions = found.len() as u64;
        add_items(alloc, &mut self.state.pending, task, found)?;
        self.state.done.push(Done { task, conclusions })?;
        self.state.units = next_unit(self.state.units, self.state.limits.steps);
        Ok(Letters::new(alloc))
    }

    /// Does a task, or answers `None` where it can't be done.
    pub fn work(
        &mut self,
        alloc: Global,
        order: &Order,
        task: Task,
    ) -> Result<Option<Letters>, AllocError>
        requires { CanAct order.now self.old }
        ensures { IfOk result (λ letters. (p : Problem) (time : ℕ) → Judges order.now p (replayed self.old) time (Work task) self.new letters) }
    {
        let Some(place) = place_of(self.owed.as_slice(), task) else {
            return Ok(None);
        };
        if self.state.units == self.state.limits.steps {
            return Ok(None);
        }
        let concluded = self.state.conclude(alloc, order, task)?;
        match concluded {
            Concluded::Found(found) => {
                let letters = self.work_at(alloc, order, place, task, found)?;
                Ok(Some(letters))
            }
            Concluded::TooLarge => Ok(None),
        }
    }
}
