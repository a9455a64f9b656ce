//! The owed tasks.
#![tactic(auto)]

ghost use Rattle.std.specs.Prelude.{◌≡◌, ◌≢◌, ◌<◌, ◌≤◌, [], length, slice_get, Some, false, IsTrue, IsOk, OnOk, OnErr, MatchOption};
ghost use Rattle.indexmap.specs.IndexSet.{keys};
ghost use Rattle.cd_tasks.specs.Order.{task_order, IsBackOf};
ghost use Rattle.cd_tasks.specs.Owing.{Owing, IsNew, IsPlaceOf, arrived, arrived_covered, put_in, without, finished, roomy};
ghost use Rattle.cd_tasks.specs.Tracking.{key_of, Lacks, AreDistinct};

use crate::cursor::{Cursor, Stage, advanced, settle_lists};
use crate::{Arrival, Task};
use cd_names::Name;
use indexmap::IndexSet;
use std::alloc::{AllocError, Global};
use std::marker::Model;

/// A name as a key of the table of places.
#[derive(Clone, Copy, Debug, PartialEq, Eq, Hash)]
struct Key {
    peer: u16,
    seq: u32,
}

/// The tasks that a peer owes, in their order.
///
/// Names count from 0 in the order of arrival. For each in turn, where it is resident: the name alone, and then
/// the pairs of each earlier name and of itself with it as the second; and after that the pairs of it as the
/// first with each earlier resident name. Covered names are passed over. What was finished is a front of this
/// order, and what is owed is the rest of it.
///
/// There is one entry for each arrival, and nothing for a task: what the tasks take grows with the number of
/// names. A task is found in constant time, on the average over the tasks, whatever names were covered.
#[derive(Drop)]
pub struct Tasks {
    names: IndexSet<Key>,
    arrivals: Vec<Arrival>,
    /// For each arrival a later place, with none that isn't covered between.
    later: Vec<usize>,
    /// The same, with none that isn't covered and is resident between.
    home: Vec<usize>,
    /// The place of the first owed task in the order, or the end.
    cursor: Cursor,
    /// For how many further arrivals the room is taken.
    room: u32,
}

impl Model for Tasks {
    ghost use Rattle.std.specs.Prelude.{◌≤◌, ◌+◌, vec_len, vec_capacity};
    ghost use Rattle.indexmap.specs.IndexSet.{spare};
    ghost use Rattle.cd_tasks.specs.Owing.{Owing};
    ghost use Rattle.cd_tasks.specs.Order.{owed_of};
    ghost use Rattle.cd_tasks.specs.Tracking.{IsTracked};

    ghost Value = { Owing };

    ghost view = { λ t. record {
      arrivals = t.arrivals.items;
      owed = owed_of t.arrivals.items t.cursor.turn t.cursor.stage;
      spare = t.room;
    } };

    ghost invariant = { λ t. IsTracked t.names.keys t.arrivals.items t.later.items t.home.items t.cursor.turn t.cursor.stage
        × (t.room ≤ spare t.names)
        × (vec_len t.arrivals + t.room ≤ vec_capacity t.arrivals)
        × (vec_len t.later + t.room ≤ vec_capacity t.later)
        × (vec_len t.home + t.room ≤ vec_capacity t.home) };
}

/// The place of a name among the keys.
fn place_of(names: &IndexSet<Key>, name: Name) -> Option<usize>
    ensures place { MatchOption result (Lacks names.now.keys (key_of name))
        (λ place. slice_get names.now.keys place ≡ Some (key_of name)) }
    ensures distinct { AreDistinct names.now.keys }
{
    let _count = names.len();
    let key = Key {
        peer: name.peer,
        seq: name.seq,
    };
    names.get_index_of(&key)
}

impl Tasks {
    /// No arrivals, and so no tasks. No memory is taken.
    pub fn new(alloc: Global) -> Tasks
        ensures { result ≡ record { arrivals = []; owed = []; spare = 0 } }
    {
        Tasks {
            names: IndexSet::new(alloc),
            arrivals: Vec::new(alloc),
            later: Vec::new(alloc),
            home: Vec::new(alloc),
            cursor: Cursor {
                turn: 0,
                stage: Stage::Alone,
            },
            room: 0,
        }
    }

    /// The place of a name in the order of arrival, or `None` where it didn't arrive. No memory is taken.
    pub fn place(&self, n: Name) -> Option<usize>
        ensures { MatchOption result (IsNew n self.now.arrivals) (IsPlaceOf n self.now.arrivals) }
    {
        place_of(&self.names, n)
    }

    /// Takes the room of `n` arrivals, so that as many need no memory. Where that room is there, nothing changes.
    pub fn reserve(&mut self, n: u32) -> Result<(), AllocError>
        ensures ok { OnOk result (self.new ≡ roomy self.old n) }
        ensures err { OnErr result (self.new ≡ self.old) }
        ensures succeeds { n ≤ self.old.spare → IsOk result }
    {
        if n <= self.room {
            return Ok(());
        }
        let more = n as usize;
        self.names.reserve(more)?;
        self.arrivals.reserve(more)?;
        self.later.reserve(more)?;
        self.home.reserve(more)?;
        self.room = n;
        Ok(())
    }

    /// A new name arrives; `resident` says whether its clause is owned here. Its tasks are owed behind the
    /// others. Where `spare` is positive, no memory is taken.
    pub fn add_arrival(&mut self, n: Name, resident: bool) -> Result<(), AllocError>
        requires new { IsNew n self.old.arrivals }
        ensures ok { OnOk result (self.new ≡ arrived self.old n resident) }
        ensures err { OnErr result (self.new ≡ self.old) }
        ensures succeeds { 0 < self.old.spare → IsOk result }
    {
        if self.room == 0 {
            self.reserve(1)?;
        }
        self.put(Arrival {
            name: n,
            resident,
            covered: false,
        });
        Ok(())
    }

    /// A new name arrives that is covered at once: it has its place in the order, and no tasks.
    pub fn add_covered(&mut self, n: Name, resident: bool) -> Result<(), AllocError>
        requires new { IsNew n self.old.arrivals }
        ensures ok { OnOk result (self.new ≡ arrived_covered self.old n resident) }
        ensures err { OnErr result (self.new ≡ self.old) }
        ensures succeeds { 0 < self.old.spare → IsOk result }
    {
        if self.room == 0 {
            self.reserve(1)?;
        }
        self.put(Arrival {
            name: n,
            resident,
            covered: true,
        });
        Ok(())
    }

    /// An arrival where there is room.
    fn put(&mut self, arrival: Arrival)
        requires new { IsNew arrival.name self.old.arrivals }
        requires room { 0 < self.old.spare }
        ensures { self.new ≡ put_in self.old arrival }
    {
        let key = Key {
            peer: arrival.name.peer,
            seq: arrival.name.seq,
        };
        match self.names.insert(key) {
            Ok(_) => {}
            Err(_) => unreachable!(),
        }
        self.room -= 1;
        let next = self.arrivals.len() + 1;
        self.arrivals.push_reserved(arrival);
        self.later.push_reserved(next);
        self.home.push_reserved(next);
        self.cursor = settle_lists(&self.arrivals, &mut self.later, &mut self.home, self.cursor);
    }

    /// Nothing more is to be inferred from the clause of this name: it is taken out of all owed tasks, now and
    /// later. No memory is taken.
    pub fn cover(&mut self, n: Name)
        ensures { self.new ≡ without self.old n }
    {
        let Some(place) = place_of(&self.names, n) else {
            return;
        };
        self.arrivals[place].covered = true;
        self.cursor = settle_lists(&self.arrivals, &mut self.later, &mut self.home, self.cursor);
    }

    /// The first owed task, or `None` where none is owed. No memory is taken.
    pub fn next(&self) -> Option<Task>
        ensures first { result ≡ slice_get self.now.owed 0 }
        ensures ordered { IsBackOf self.now.owed (task_order self.now.arrivals) }
    {
        let Cursor { turn, stage } = self.cursor;
        if turn == self.arrivals.len() {
            return None;
        }
        let name = self.arrivals[turn].name;
        Some(match stage {
            Stage::Alone => Task::Solo(name),
            Stage::Second(k) => Task::Pair(self.arrivals[k].name, name),
            Stage::First(k) => Task::Pair(name, self.arrivals[k].name),
        })
    }

    /// Takes out the first owed task. No memory is taken.
    pub fn finish(&mut self)
        requires { self.old.owed ≢ [] }
        ensures { self.new ≡ finished self.old }
    {
        let next = advanced(self.cursor);
        self.cursor = settle_lists(&self.arrivals, &mut self.later, &mut self.home, next);
    }
}
