//! Contraction: what a clause does to the held ones that it makes superfluous, one after another.
#![tactic(auto)]

ghost use Rattle.std.specs.Prelude.{◌≡◌, ◌<◌, ◌++◌, ◌∷◌, [], Some, IfOk, OnOk, length, slice_get};
ghost use Rattle.std.specs.List.{cons_option};
ghost use Rattle.cd_ledger.specs.declared.records.Known.{Known};
ghost use Rattle.cd_machine.specs.Contraction.{loss, lost, named_hit, notice_of, notices, rework_item, rework_of};
ghost use Rattle.cd_acts.specs.Hits.{AreAmong, by_name};
ghost use Rattle.cd_acts.specs.Indexed.{AreOnce, IsIndexed, IsOnlyAt};
ghost use Rattle.cd_acts.specs.Struck.{struck_at};
ghost use Rattle.cd_acts.specs.View.{local_of};

use crate::state::{State, entry_in, holds, set_status};
use cd_contract::Struck;
use cd_ledger::{Body, Item, Letter, Letters, Origin, Reason, Record, Status};
use cd_list::{Copied, Sequence};
use cd_names::{How, Name};
use cd_steps::Step;
use std::alloc::{AllocError, Global};
use std::collections::VecDeque;

/// The status of a record that the clause with the name `by` makes superfluous.
pub fn lost(me: u16, by: Name, how: How, r: &Record) -> Status
    ensures { result ≡ loss me by how r.now }
{
    if r.owner == me {
        match how {
            How::Subsumes => Status::Dropped(Reason::Subsumed(by)),
            How::Reduces => Status::Rework(by),
        }
    } else {
        Status::Told(by)
    }
}

/// The item that takes the place of a record that an equation reduces.
fn rework(alloc: Global, by: Name, r: &Record) -> Result<Item, AllocError>
    ensures { IfOk result (λ item. item ≡ rework_item by r.now) }
{
    let mut steps = Sequence::new(alloc);
    steps.push(Step::Copy { of: r.name })?;
    let clause = r.clause.copy(alloc)?;
    Ok(Item {
        origin: Origin::Rework(r.name),
        forced: Some(by),
        steps,
        clause,
    })
}

/// Where an equation reduces a record of this peer, an item takes its place, behind those that are pending.
pub fn add_rework(
    alloc: Global,
    pending: &mut VecDeque<Item>,
    me: u16,
    by: Name,
    how: How,
    r: &Record,
) -> Result<(), AllocError>
    ensures { OnOk result (pending.new.items ≡ pending.old.items ++ cons_option (rework_of me by r.now (Some how)) []) }
{
    match how {
        How::Subsumes => Ok(()),
        How::Reduces => {
            if r.owner == me {
                let item = rework(alloc, by, r)?;
                pending.push_back(item)?;
                return Ok(());
            }
            Ok(())
        }
    }
}

/// Where the owner of a record is another peer, it is told.
pub fn add_notice(
    letters: &mut Letters,
    me: u16,
    time: u64,
    by: Name,
    how: How,
    r: &Record,
) -> Result<(), AllocError>
    ensures { OnOk result (letters.new ≡ letters.old ++ cons_option (notice_of me time by r.now (Some how)) []) }
{
    if r.owner == me {
        return Ok(());
    }
    letters.push(Letter {
        sender: me,
        to: r.owner,
        time,
        body: Body::Notice {
            of: r.name,
            by,
            how,
        },
    })
}

impl State {
    /// The entry in a place gets its status, and its name leaves the owed tasks and the held clauses.
    fn strike(&mut self, place: usize, how: How, by: Name)
        requires { place < length self.old.known }
        ensures state { (e : Known) → slice_get self.old.known place ≡ Some e → self.new ≡ struck_at self.old place e how by }
        ensures journal { self.new.journal ≡ self.old.journal }
    {
        let e = &self.known.as_slice()[place];
        let name = e.entry.name;
        let status = lost(self.me, by, how, &e.entry);
        set_status(&mut self.known, place, status);
        self.tasks.cover(name);
        self.held.remove(name);
    }

    /// The held clause of a name is made superfluous by that of another; where the name isn't held, nothing changes. An
    /// item takes its place, or its owner is told, as the case may be.
    pub fn lose(
        &mut self,
        alloc: Global,
        time: u64,
        hit: Struck,
        by: Name,
        letters: &mut Letters,
    ) -> Result<(), AllocError>
        requires indexed { IsIndexed self.old }
        requires once { AreOnce self.old.known }
        ensures state { OnOk result (local_of self.new ≡ lost (local_of self.old) (named_hit hit.of hit.how) by) }
        ensures letters { OnOk result (letters.new ≡ letters.old ++ notices self.old.me time (named_hit hit.of hit.how) by self.old.known) }
        ensures indexed { OnOk result (IsIndexed self.new) }
        ensures journal { self.new.journal ≡ self.old.journal }
    {
        match entry_in(&self.tasks, &self.known, hit.of) {
            None => Ok(()),
            Some(found) => {
                let place = found.0;
                let e = found.1;
                if !holds(&e.status) {
                    return Ok(());
                }
                add_notice(letters, self.me, time, by, hit.how, &e.entry)?;
                add_rework(alloc, &mut self.pending, self.me, by, hit.how, &e.entry)?;
                self.strike(place, hit.how, by);
                Ok(())
            }
        }
    }

    /// The same of several names, which are held and stand in the order of the known ones.
    pub fn lose_all(
        &mut self,
        alloc: Global,
        time: u64,
        hits: &[Struck],
        by: Name,
        letters: &mut Letters,
    ) -> Result<(), AllocError>
        requires indexed { IsIndexed self.old }
        requires once { AreOnce self.old.known }
        requires among { AreAmong self.old.known hits.now }
        ensures state { OnOk result (local_of self.new ≡ lost (local_of self.old) (by_name hits.now) by) }
        ensures letters { OnOk result (letters.new ≡ letters.old ++ notices self.old.me time (by_name hits.now) by self.old.known) }
        ensures indexed { OnOk result (IsIndexed self.new) }
        ensures journal { self.new.journal ≡ self.old.journal }
    {
        for hit in hits {
            self.lose(alloc, time, *hit, by, letters)?;
        }
        Ok(())
    }
}
