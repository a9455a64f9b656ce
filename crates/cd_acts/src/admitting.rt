//! Admit and Reject: a waiting letter whose names are known has its effect, or is thrown away.
#![tactic(auto)]

ghost use Rattle.std.specs.Prelude.{◌≡◌, ℕ, ◌<◌, ◌∷◌, [], Option, Some, None, IfOk, OnOk, false};
ghost use Rattle.cd_clause.specs.Clauses.{IsWithinBounds};
ghost use Rattle.cd_kbo.specs.declared.order.Order.{Order};
ghost use Rattle.cd_ledger.specs.Records.{is_known};
ghost use Rattle.cd_ledger.specs.declared.events.Act.TheVariants.{Admit, Reject};
ghost use Rattle.cd_ledger.specs.declared.letters.Body.TheVariants.{Kept, Notice};
ghost use Rattle.cd_read.specs.declared.problem.Problem.{Problem};
ghost use Rattle.cd_acts.specs.Acts.{AdmitsBody, Does, MayAdmit, MayReject};
ghost use Rattle.cd_acts.specs.Indexed.{AreOnce, IsIndexed};
ghost use Rattle.cd_acts.specs.View.{local_of};

use crate::arrival::refuted_by;
use crate::rules::{backward_hits, forward_hit};
use crate::state::State;
use cd_contract::Struck;
use cd_kbo::Order;
use cd_ledger::{Body, Letter, Letters, Record};
use cd_names::Name;
use std::alloc::{AllocError, Global};

impl State {
    fn admit_record(
        &mut self,
        alloc: Global,
        order: &Order,
        time: u64,
        r: Record,
    ) -> Result<Letters, AllocError>
        requires indexed { IsIndexed self.old }
        requires once { AreOnce self.old.known }
        requires unknown { is_known self.old.known r.name ≡ false }
        requires within { IsWithinBounds r.clause }
        ensures does { IfOk result (λ letters. AdmitsBody order.now (local_of self.old) time (Kept r) (local_of self.new) letters) }
        ensures indexed { OnOk result (IsIndexed self.new) }
        ensures journal { self.new.journal ≡ self.old.journal }
    {
        self.tasks.reserve(1)?;
        let verdict = refuted_by(&r.clause, self.verdict);
        match forward_hit(alloc, &self.held, &r, order)? {
            Some(hit) => {
                self.verdict = verdict;
                let letters = self.shelve(alloc, time, r, hit)?;
                Ok(letters)
            }
            None => {
                let hits = backward_hits(alloc, &self.held, &r, order)?;
                let mut letters = Letters::new(alloc);
                self.verdict = verdict;
                self.lose_all(alloc, time, hits.as_slice(), r.name, &mut letters)?;
                self.join(alloc, r)?;
                Ok(letters)
            }
        }
    }

    fn admit_notice(
        &mut self,
        alloc: Global,
        time: u64,
        hit: Struck,
        by: Name,
    ) -> Result<Letters, AllocError>
        requires indexed { IsIndexed self.old }
        requires once { AreOnce self.old.known }
        ensures does { IfOk result (λ letters. (o : Order) → AdmitsBody o (local_of self.old) time (Notice hit.of by hit.how) (local_of self.new) letters) }
        ensures indexed { OnOk result (IsIndexed self.new) }
        ensures journal { self.new.journal ≡ self.old.journal }
    {
        let mut letters = Letters::new(alloc);
        self.lose(alloc, time, hit, by, &mut letters)?;
        Ok(letters)
    }

    /// Admits the waiting letter in a place.
    pub fn admit(
        &mut self,
        alloc: Global,
        order: &Order,
        time: u64,
        place: u64,
    ) -> Result<Letters, AllocError>
        requires indexed { IsIndexed self.old }
        requires once { AreOnce self.old.known }
        requires may { (p : Problem) × MayAdmit order.now p (local_of self.old) place }
        ensures does { IfOk result (λ letters. (p : Problem) → MayAdmit order.now p (local_of self.old) place → Does order.now p (local_of self.old) time (Admit place) (local_of self.new) letters) }
        ensures indexed { OnOk result (IsIndexed self.new) }
        ensures journal { self.new.journal ≡ self.old.journal }
    {
        let Letter {
            sender: _,
            to: _,
            time: _,
            body,
        } = self.take_letter(place);
        match body {
            Body::Kept(r) => {
                let letters = self.admit_record(alloc, order, time, r)?;
                Ok(letters)
            }
            Body::Notice { of, by, how } => {
                let letters = self.admit_notice(alloc, time, Struck { of, how }, by)?;
                Ok(letters)
            }
            Body::Token(token) => {
                self.token = Some(token);
                Ok(Letters::new(alloc))
            }
        }
    }

    /// Throws the waiting letter in a place away.
    pub fn reject(&mut self, alloc: Global, place: u64) -> Letters
        requires indexed { IsIndexed self.old }
        requires may { (order : Order) × (p : Problem) × MayReject order p (local_of self.old) place }
        ensures does { (order : Order) (p : Problem) (time : ℕ) → MayReject order p (local_of self.old) place → Does order p (local_of self.old) time (Reject place) (local_of self.new) result }
        ensures indexed { IsIndexed self.new }
        ensures journal { self.new.journal ≡ self.old.journal }
    {
        self.take_letter(place);
        Letters::new(alloc)
    }
}
