//! A peer's fields, and its known records by their names.
#![tactic(auto)]

ghost use Rattle.std.specs.Prelude.{◌≡◌, ◌<◌, ◌∷◌, List, IfSome, MatchOption, Some, length, slice_get, slice_set};
ghost use Rattle.std.specs.Option.{option_copied};
ghost use Rattle.cd_ledger.specs.declared.records.Known.{Known};
ghost use Rattle.cd_ledger.specs.Records.{is_known, look, recorded};
ghost use Rattle.cd_ledger.specs.Statuses.{status_holds, status_reworks};
ghost use Rattle.cd_acts.specs.Indexed.{AreNamesOf, AreOnce, AreOthers, IsIndexed, IsOnlyAt, IsSensible, has_arrived};
ghost use Rattle.cd_acts.specs.View.{local_of};
ghost use Rattle.cd_infer.specs.Conclusions.{IsUsable};
ghost use Rattle.cd_ledger.specs.declared.items.Item.{Item};

use cd_contract::Held;
use cd_ledger::{
    DoneList, Events, Item, Known, Knowns, Letter, Limits, Record, Settledness, Status, Verdict,
};
use cd_names::{Count, Name, Policy, Token};
use cd_tasks::Tasks;
use cd_waiting::Waiting;
use std::alloc::Global;
use std::collections::VecDeque;

/// The state of peer `me` of `peers`. Beside what the machine knows of a peer, `tasks` has the place of each known name,
/// `held` a copy of each held clause, and `waiting` the names that each letter waits for.
#[derive(Drop)]
pub struct State {
    pub me: u16,
    pub peers: u16,
    pub policy: Policy,
    pub limits: Limits,
    pub known: Knowns,
    pub held: Held,
    pub pending: VecDeque<Item>,
    pub settled: Settledness,
    pub tasks: Tasks,
    pub done: DoneList,
    pub waiting: Waiting<Letter>,
    pub token: Option<Token>,
    pub count: Count,
    pub next_seq: u32,
    pub units: u64,
    pub clock: u64,
    pub verdict: Option<Verdict>,
    pub journal: Events,
}

/// Whether the clause of a name is used.
pub fn holds(status: &Status) -> bool
    ensures { result ≡ status_holds status.now }
{
    match status {
        Status::Held => true,
        Status::Rework(_) => false,
        Status::Dropped(_) => false,
        Status::Told(_) => false,
    }
}

/// Whether an item takes the place of a name.
pub fn reworks(status: &Status) -> bool
    ensures { result ≡ status_reworks status.now }
{
    match status {
        Status::Held => false,
        Status::Rework(_) => true,
        Status::Dropped(_) => false,
        Status::Told(_) => false,
    }
}

/// Whether a name has arrived. No memory is taken.
pub fn has_arrived(tasks: &Tasks, n: Name) -> bool
    ensures { result ≡ has_arrived n tasks.now.arrivals }
{
    match tasks.place(n) {
        None => false,
        Some(_place) => true,
    }
}

/// The one entry with a name, and its place; `None` exactly where no entry has it. No memory is taken.
pub fn entry_in<'a>(tasks: &Tasks, known: &'a Knowns, n: Name) -> Option<(usize, &'a Known)>
    requires names { AreNamesOf tasks.now.arrivals known.now }
    requires once { AreOnce known.now }
    ensures { MatchOption result (AreOthers n known.entry.now) (λ found. IsOnlyAt n known.entry.now found.0 found.1.now) }
{
    match tasks.place(n) {
        None => None,
        Some(place) => match known.get(place) {
            None => None,
            Some(e) => Some((place, e)),
        },
    }
}

/// Gives the entry in a place a status.
pub fn set_status(known: &mut Knowns, place: usize, status: Status)
    requires { place < length known.old }
    ensures { (e : Known) → slice_get known.old place ≡ Some e → known.new ≡ slice_set known.old place (record e { status = status }) }
{
    known.at_mut(place).status = status;
}

impl State {
    /// Whether a name is known here. No memory is taken.
    pub fn is_known(&self, n: Name) -> bool
        requires { IsIndexed self.now }
        ensures { result ≡ is_known self.now.known n }
    {
        has_arrived(&self.tasks, n)
    }

    /// The entry under a name, `None` where the name is unknown here. No memory is taken.
    pub fn look(&self, n: Name) -> Option<&Known>
        requires indexed { IsIndexed self.now }
        requires sensible { IsSensible (local_of self.now) }
        ensures entry { option_copied result ≡ look self.now.known n }
        ensures usable { IfSome result (λ e. IsUsable e.now.entry.clause) }
    {
        match entry_in(&self.tasks, &self.known, n) {
            None => None,
            Some(found) => Some(found.1),
        }
    }

    /// The record under a name, `None` where the name is unknown here. No memory is taken.
    pub fn record_at(&self, n: Name) -> Option<&Record>
        requires indexed { IsIndexed self.now }
        requires sensible { IsSensible (local_of self.now) }
        ensures recorded { option_copied result ≡ recorded n self.now.known }
        ensures usable { IfSome result (λ r. IsUsable r.now.clause) }
    {
        match entry_in(&self.tasks, &self.known, n) {
            None => None,
            Some(found) => Some(&found.1.entry),
        }
    }
}

/// Takes out the first item.
pub fn take_first(pending: &mut VecDeque<Item>) -> Item
    requires { (first : Item) × (others : List Item) × (pending.old.items ≡ first ∷ others) }
    ensures { pending.old.items ≡ result ∷ pending.new.items }
{
    match pending.pop_front() {
        Some(item) => item,
        None => unreachable!(),
    }
}
