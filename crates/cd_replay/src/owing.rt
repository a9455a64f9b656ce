//! The owed tasks, in a list beside the state.
#![tactic(auto)]

ghost use Rattle.std.specs.Prelude.{◌≡◌, ◌++◌, [], filter, IfOk, OnOk};
ghost use Rattle.std.specs.List.{AllByRecursion as Each};
ghost use Rattle.cd_acts.specs.Indexed.{AreNamesOf, AreOnce, IsIndexed};
ghost use Rattle.cd_acts.specs.View.{letter_of, local_of};
ghost use Rattle.std.specs.Prelude.{map};
ghost use Rattle.cd_replay.specs.Replayed.{IsDrained, IsLiving, IsTaskPlace, is_living, lives, rejoined, replayed};

use crate::replayer::Replayer;
use cd_acts::State;
use cd_acts::state::{entry_in, holds};
use cd_ledger::{Item, Items, Knowns, Letter, Letters, Local};
use cd_list::Equals;
use cd_names::Name;
use cd_tasks::{Task, TaskList, Tasks};
use cd_waiting::Waiting;
use std::alloc::{AllocError, Global};
use std::collections::VecDeque;

/// How many items a list has at most.
const LIMIT: usize = 0x4000_0000_0000_0000;

/// Whether a name is known and held.
fn lives(tasks: &Tasks, known: &Knowns, n: Name) -> bool
    requires names { AreNamesOf tasks.now.arrivals known.now }
    requires once { AreOnce known.now }
    ensures { result ≡ lives known.now n }
{
    match entry_in(tasks, known, n) {
        None => false,
        Some(found) => holds(&found.1.status),
    }
}

/// Whether the names of a task are known and held.
fn is_living(tasks: &Tasks, known: &Knowns, task: Task) -> bool
    requires names { AreNamesOf tasks.now.arrivals known.now }
    requires once { AreOnce known.now }
    ensures { result ≡ is_living known.now task }
{
    match task {
        Task::Solo(a) => lives(tasks, known, a),
        Task::Pair(a, b) => lives(tasks, known, a) && lives(tasks, known, b),
    }
}

/// The tasks whose names are known and held, in their order.
fn living(
    alloc: Global,
    tasks: &Tasks,
    known: &Knowns,
    owed: &[Task],
) -> Result<TaskList, AllocError>
    requires names { AreNamesOf tasks.now.arrivals known.now }
    requires once { AreOnce known.now }
    ensures { IfOk result (λ living. living ≡ filter (is_living known.now) owed.now) }
{
    let mut living = TaskList::new(alloc);
    for task in owed {
        if is_living(tasks, known, *task) {
            living.push(*task)?;
        }
    }
    Ok(living)
}

/// Moves the tasks behind those of the list.
fn drain(tasks: &mut Tasks, owed: &mut TaskList) -> Result<(), AllocError>
    ensures owed { OnOk result (owed.new ≡ owed.old ++ tasks.old.owed) }
    ensures none { OnOk result (tasks.new.owed ≡ []) }
    ensures arrivals { OnOk result (tasks.new.arrivals ≡ tasks.old.arrivals) }
{
    while let Some(task) = tasks.next() {
        tasks.finish();
        owed.push(task)?;
    }
    Ok(())
}

/// The place of a task, the first where it stands.
pub fn place_of(owed: &[Task], task: Task) -> Option<usize>
    ensures { IsTaskPlace task owed.now result }
{
    for place in 0..owed.len() {
        if owed[place].equals(&task) {
            return Some(place);
        }
    }
    None
}

impl Replayer {
    /// Behind a record that came: tasks of names that aren't held any more leave the list, and those of the record stand
    /// behind the others.
    pub fn rejoin(&mut self, alloc: Global) -> Result<(), AllocError>
        requires indexed { IsIndexed self.old.state }
        requires once { AreOnce self.old.state.known }
        requires fresh { Each (IsLiving self.old.state.known) self.old.state.tasks.owed }
        ensures joined { OnOk result (replayed self.new ≡ rejoined (local_of self.old.state) self.old.owed) }
        ensures drained { OnOk result (IsDrained self.new) }
    {
        let living = living(
            alloc,
            &self.state.tasks,
            &self.state.known,
            self.owed.as_slice(),
        )?;
        self.owed = living;
        drain(&mut self.state.tasks, &mut self.owed)?;
        Ok(())
    }
}

/// The letters, in their order.
fn letters_of(alloc: Global, mut waiting: Waiting<Letter>) -> Result<Letters, AllocError>
    ensures { IfOk result (λ letters. letters ≡ map letter_of waiting) }
{
    let mut letters = Letters::new(alloc);
    while !waiting.is_empty() {
        letters.push(waiting.take(0))?;
    }
    Ok(letters)
}

/// The items as a list.
fn items_of(pending: VecDeque<Item>) -> Result<Items, AllocError>
    ensures { IfOk result (λ items. items ≡ pending.items) }
{
    let items = Vec::from(pending);
    if items.len() >= LIMIT {
        return Err(AllocError);
    }
    Ok(Items::from_vec(items))
}

/// The whole state in lists.
pub fn whole_local(alloc: Global, replayer: Replayer) -> Result<Local, AllocError>
    ensures { IfOk result (λ local. local ≡ replayed replayer) }
{
    let Replayer { state, owed } = replayer;
    let State {
        me,
        peers,
        policy,
        limits,
        known,
        held: _,
        pending,
        settled,
        tasks: _,
        done,
        waiting,
        token,
        count,
        next_seq,
        units,
        clock,
        verdict,
        journal,
    } = state;
    let pending = items_of(pending)?;
    let waiting = letters_of(alloc, waiting)?;
    Ok(Local {
        me,
        peers,
        policy,
        limits,
        known,
        pending,
        settled,
        owed,
        done,
        waiting,
        token,
        count,
        next_seq,
        units,
        clock,
        verdict,
        journal,
    })
}
