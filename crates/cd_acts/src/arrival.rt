//! A record comes to be known.
#![tactic(auto)]

ghost use Rattle.std.specs.Prelude.{◌≡◌, ◌++◌, ◌∷◌, [], Some, None, OnOk, IfOk, false, ℕ, Option};
ghost use Rattle.cd_clause.specs.Clauses.{IsWithinBounds};
ghost use Rattle.cd_ledger.specs.declared.records.Known.{Known};
ghost use Rattle.cd_ledger.specs.Records.{is_known};
ghost use Rattle.cd_machine.specs.Acts.{record_letters};
ghost use Rattle.cd_machine.specs.Arrivals.{joined, refuted_by, shelved};
ghost use Rattle.cd_names.specs.declared.How.{How};
ghost use Rattle.cd_acts.specs.Indexed.{IsIndexed};
ghost use Rattle.cd_acts.specs.View.{local_of};

use crate::contraction::{add_notice, add_rework, lost};
use crate::rules::is_empty;
use crate::state::State;
use cd_clause::Clause;
use cd_contract::Hit;
use cd_ledger::{Known, Letters, Record, Status, Verdict};
use std::alloc::{AllocError, Global};

/// The verdict where a clause comes to be known: the empty one refutes the problem.
pub fn refuted_by(c: &Clause, verdict: Option<Verdict>) -> Option<Verdict>
    ensures { result ≡ refuted_by c.now verdict }
{
    if is_empty(c) {
        Some(Verdict::Refuted)
    } else {
        verdict
    }
}

impl State {
    /// A record comes to be known and held, and its tasks are owed behind the others.
    pub fn join(&mut self, alloc: Global, r: Record) -> Result<(), AllocError>
        requires indexed { IsIndexed self.old }
        requires unknown { is_known self.old.known r.name ≡ false }
        requires within { IsWithinBounds r.clause }
        ensures state { OnOk result (local_of self.new ≡ joined (local_of self.old) r) }
        ensures indexed { OnOk result (IsIndexed self.new) }
        ensures journal { self.new.journal ≡ self.old.journal }
    {
        self.tasks.add_arrival(r.name, r.owner == self.me)?;
        self.held.add(alloc, r.name, &r.clause)?;
        self.known.push(Known {
            entry: r,
            status: Status::Held,
        })?;
        Ok(())
    }

    /// A record comes to be known that is hit as it comes: it has its status at once, and no tasks.
    pub fn shelve(
        &mut self,
        alloc: Global,
        time: u64,
        r: Record,
        hit: Hit,
    ) -> Result<Letters, AllocError>
        requires indexed { IsIndexed self.old }
        requires unknown { is_known self.old.known r.name ≡ false }
        ensures state { OnOk result (local_of self.new ≡ shelved (local_of self.old) r hit.by hit.how) }
        ensures letters { IfOk result (λ letters. (test : Known → Option How) → letters ≡ record_letters (local_of self.old) time r (Some hit) test) }
        ensures indexed { OnOk result (IsIndexed self.new) }
        ensures journal { self.new.journal ≡ self.old.journal }
    {
        let mut letters = Letters::new(alloc);
        add_notice(&mut letters, self.me, time, hit.by, hit.how, &r)?;
        add_rework(alloc, &mut self.pending, self.me, hit.by, hit.how, &r)?;
        self.tasks.add_covered(r.name, r.owner == self.me)?;
        let status = lost(self.me, hit.by, hit.how, &r);
        self.known.push(Known { entry: r, status })?;
        Ok(letters)
    }
}
