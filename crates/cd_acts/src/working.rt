//! Work: the conclusions of the first owed task become items.
#![tactic(auto)]

ghost use Rattle.std.specs.Prelude.{◌≡◌, ℕ, ◌+◌, ◌<◌, ◌∷◌, [], Option, Some, None, IfOk, OnOk, length};
ghost use Rattle.cd_ledger.specs.declared.events.Act.TheVariants.{Work};
ghost use Rattle.cd_machine.specs.Right.{registry_of};
ghost use Rattle.cd_read.specs.declared.problem.Problem.{Problem};
ghost use Rattle.cd_acts.specs.Acts.{AddsItems, Does, IsTaskKnown, MayWork};
ghost use Rattle.cd_acts.specs.Answers.{IsConcluded};
ghost use Rattle.cd_acts.specs.Indexed.{IsIndexed, IsSensible};
ghost use Rattle.cd_acts.specs.View.{local_of};

use crate::rewriting::{item_of, next_unit};
use crate::rules::{Concluded, pair, solo};
use crate::state::State;
use cd_infer::{Conclusion, Conclusions};
use cd_kbo::Order;
use cd_ledger::{Done, Item, Letters, Origin};
use cd_tasks::Task;
use std::alloc::{AllocError, Global};
use std::collections::VecDeque;

/// The conclusions of a task as items, behind those that are pending.
fn add_items(
    alloc: Global,
    pending: &mut VecDeque<Item>,
    task: Task,
    found: Conclusions,
) -> Result<(), AllocError>
    ensures { OnOk result (AddsItems task found pending.old.items pending.new.items) }
{
    let found = found.into_vec();
    let mut index = 0u64;
    for conclusion in found {
        let Conclusion { step, clause } = conclusion;
        let item = item_of(alloc, Origin::Task(task, index), step, clause)?;
        pending.push_back(item)?;
        index += 1;
    }
    Ok(())
}

impl State {
    /// The conclusions of a task whose names are known.
    pub fn conclude(
        &self,
        alloc: Global,
        order: &Order,
        task: Task,
    ) -> Result<Concluded, AllocError>
        requires indexed { IsIndexed self.now }
        requires sensible { IsSensible (local_of self.now) }
        requires known { IsTaskKnown self.now.known task }
        ensures { IfOk result (IsConcluded order.now (registry_of (local_of self.now)) task) }
    {
        match task {
            Task::Solo(a) => {
                let Some(x) = self.record_at(a) else {
                    unreachable!();
                };
                let found = solo(alloc, a, &x.clause, order)?;
                Ok(found)
            }
            Task::Pair(a, b) => {
                let Some(x) = self.record_at(a) else {
                    unreachable!();
                };
                let Some(y) = self.record_at(b) else {
                    unreachable!();
                };
                let found = pair(alloc, a, &x.clause, b, &y.clause, order)?;
                Ok(found)
            }
        }
    }

    /// Does the first owed task, which has these conclusions.
    pub fn work(
        &mut self,
        alloc: Global,
        order: &Order,
        task: Task,
        found: Conclusions,
    ) -> Result<Letters, AllocError>
        requires indexed { IsIndexed self.old }
        requires may { MayWork order.now (local_of self.old) task found }
        ensures does { IfOk result (λ letters. (p : Problem) (time : ℕ) → Does order.now p (local_of self.old) time (Work task) (local_of self.new) letters) }
        ensures indexed { OnOk result (IsIndexed self.new) }
        ensures journal { self.new.journal ≡ self.old.journal }
    {
        self.tasks.finish();
        let conclusions = found.len() as u64;
        add_items(alloc, &mut self.pending, task, found)?;
        self.done.push(Done { task, conclusions })?;
        self.units = next_unit(self.units, self.limits.steps);
        Ok(Letters::new(alloc))
    }
}
