//! Keep: an item that nothing rewrites becomes a record, or is settled without one.
#![tactic(auto)]

ghost use Rattle.std.specs.Prelude.{◌≡◌, ◌+◌, ◌<◌, ◌++◌, ◌∷◌, [], Option, Some, None, IfOk, OnOk};
ghost use Rattle.cd_infer.specs.Conclusions.{IsUsable};
ghost use Rattle.cd_ledger.specs.declared.events.Act.TheVariants.{Keep};
ghost use Rattle.cd_ledger.specs.declared.items.Outcome.TheVariants.{Named};
ghost use Rattle.cd_machine.specs.Acts.{broadcast};
ghost use Rattle.cd_names.specs.declared.names.Name.{Name};
ghost use Rattle.cd_read.specs.declared.problem.Problem.{Problem};
ghost use Rattle.cd_acts.specs.Acts.{Does, IsOutcome, MayKeep, named_record};
ghost use Rattle.cd_acts.specs.Indexed.{IsIndexed, IsSensible};
ghost use Rattle.cd_acts.specs.Answers.{IsSubsumerOf};
ghost use Rattle.cd_acts.specs.View.{local_of};

use crate::arrival::refuted_by;
use crate::rules::{backward_hits, is_empty, is_tautology};
use crate::settling::cites_of;
use crate::state::{State, take_first};
use cd_clause::{Clause, size};
use cd_kbo::Order;
use cd_ledger::{Body, Item, Letter, Letters, Outcome, Record};
use cd_list::Copied;
use cd_names::{Name, owner_of};
use cd_steps::Steps;
use std::alloc::{AllocError, Global};

/// How many names a peer may give.
const MOST_NAMES: u32 = 65_536;

/// One more, where that is a number.
fn raised(n: u32) -> Result<u32, AllocError>
    ensures { IfOk result (λ m. m ≡ n + 1) }
{
    match n.checked_add(1) {
        Some(m) => Ok(m),
        None => Err(AllocError),
    }
}

/// A copy of the record for each peer below `peers` but this one.
fn broadcast(
    alloc: Global,
    letters: &mut Letters,
    me: u16,
    time: u64,
    r: &Record,
    peers: u16,
) -> Result<(), AllocError>
    ensures { OnOk result (letters.new ≡ letters.old ++ broadcast me time r.now peers) }
{
    for to in 0..peers {
        if to != me {
            let copy = r.copy(alloc)?;
            letters.push(Letter {
                sender: me,
                to,
                time,
                body: Body::Kept(copy),
            })?;
        }
    }
    Ok(())
}

impl State {
    /// The name that this peer gives next.
    pub fn next_name(&self) -> Name
        ensures { result ≡ record { peer = self.now.me; seq = self.now.next_seq } }
    {
        Name {
            peer: self.me,
            seq: self.next_seq,
        }
    }

    /// How an item ends that nothing rewrites, given the first held clause that subsumes it; `None` where it would be named
    /// and no name is left.
    pub fn outcome_of(&self, item: &Item, subsumer: Option<Name>) -> Option<Outcome>
        requires { IsSubsumerOf item.now.clause self.now.known subsumer }
        ensures { IsOutcome (local_of self.now) item.now result }
    {
        if is_tautology(&item.clause) {
            return Some(Outcome::Trivial);
        }
        match subsumer {
            Some(by) => Some(Outcome::Subsumed(by)),
            None => {
                if self.next_seq < MOST_NAMES || is_empty(&item.clause) {
                    return Some(Outcome::Named(self.next_name()));
                }
                None
            }
        }
    }

    /// The record of a clause under the next name.
    fn record_of(&self, alloc: Global, steps: Steps, clause: Clause) -> Result<Record, AllocError>
        requires places { self.now.me < self.now.peers }
        requires usable { IsUsable clause }
        ensures { IfOk result (λ r. r ≡ named_record (local_of self.now) steps clause) }
    {
        let name = self.next_name();
        let cites = cites_of(alloc, steps.as_slice())?;
        let sum = size(&clause);
        let owner = owner_of(self.policy, name.peer, name.seq, sum, self.peers);
        Ok(Record {
            name,
            owner,
            clause,
            steps,
            cites,
        })
    }

    fn keep_settled(
        &mut self,
        alloc: Global,
        order: &Order,
        time: u64,
        outcome: Outcome,
    ) -> Result<Letters, AllocError>
        requires indexed { IsIndexed self.old }
        requires sensible { IsSensible (local_of self.old) }
        requires may { MayKeep order.now (local_of self.old) outcome }
        requires unnamed { (n : Name) → outcome ≡ Named n → ⊥ }
        ensures does { IfOk result (λ letters. (p : Problem) → Does order.now p (local_of self.old) time (Keep 0) (local_of self.new) letters) }
        ensures indexed { OnOk result (IsIndexed self.new) }
        ensures journal { self.new.journal ≡ self.old.journal }
    {
        let Item {
            origin,
            forced: _,
            steps,
            clause: _,
        } = take_first(&mut self.pending);
        self.settle(alloc, origin, steps, outcome)?;
        Ok(Letters::new(alloc))
    }

    fn keep_named(
        &mut self,
        alloc: Global,
        order: &Order,
        time: u64,
        name: Name,
    ) -> Result<Letters, AllocError>
        requires indexed { IsIndexed self.old }
        requires sensible { IsSensible (local_of self.old) }
        requires may { MayKeep order.now (local_of self.old) (Named name) }
        ensures does { IfOk result (λ letters. (p : Problem) → Does order.now p (local_of self.old) time (Keep 0) (local_of self.new) letters) }
        ensures indexed { OnOk result (IsIndexed self.new) }
        ensures journal { self.new.journal ≡ self.old.journal }
    {
        self.tasks.reserve(1)?;
        let Item {
            origin,
            forced: _,
            steps,
            clause,
        } = take_first(&mut self.pending);
        let copy = steps.copy(alloc)?;
        self.settle(alloc, origin, copy, Outcome::Named(name))?;
        let r = self.record_of(alloc, steps, clause)?;
        let hits = backward_hits(alloc, &self.held, &r, order)?;
        let mut letters = Letters::new(alloc);
        broadcast(alloc, &mut letters, self.me, time, &r, self.peers)?;
        self.lose_all(alloc, time, hits.as_slice(), r.name, &mut letters)?;
        let next = raised(self.next_seq)?;
        self.next_seq = next;
        self.verdict = refuted_by(&r.clause, self.verdict);
        self.join(alloc, r)?;
        Ok(letters)
    }

    /// Keeps the first pending item, which nothing rewrites.
    pub fn keep(
        &mut self,
        alloc: Global,
        order: &Order,
        time: u64,
        outcome: Outcome,
    ) -> Result<Letters, AllocError>
        requires indexed { IsIndexed self.old }
        requires sensible { IsSensible (local_of self.old) }
        requires may { MayKeep order.now (local_of self.old) outcome }
        ensures does { IfOk result (λ letters. (p : Problem) → Does order.now p (local_of self.old) time (Keep 0) (local_of self.new) letters) }
        ensures indexed { OnOk result (IsIndexed self.new) }
        ensures journal { self.new.journal ≡ self.old.journal }
    {
        match outcome {
            Outcome::Named(name) => self.keep_named(alloc, order, time, name),
            Outcome::Trivial => self.keep_settled(alloc, order, time, Outcome::Trivial),
            Outcome::Subsumed(by) => self.keep_settled(alloc, order, time, Outcome::Subsumed(by)),
        }
    }
}
