//! Which waiting letter is ready.
#![tactic(auto)]

ghost use Rattle.std.specs.Prelude.{◌≡◌, ℕ, MatchOption, Some, IfOk, OnOk, length, ◌++◌, ◌∷◌, [], slice_get, remove};
ghost use Rattle.cd_ledger.specs.declared.letters.Letter.{Letter};
ghost use Rattle.cd_machine.specs.Turns.{IsFirstReady, NoneReady};
ghost use Rattle.cd_acts.specs.Indexed.{IsIndexed, body_needs};
ghost use Rattle.cd_acts.specs.View.{letter_of, local_of};

use crate::state::{State, has_arrived};
use cd_ledger::{Body, Letter};
use cd_list::Copied;
use cd_names::Names;
use std::alloc::{AllocError, Global};

/// The names that a letter waits for.
pub fn needs_of(alloc: Global, body: &Body) -> Result<Names, AllocError>
    ensures { IfOk result (λ names. names ≡ body_needs body.now) }
{
    match body {
        Body::Kept(r) => r.cites.copy(alloc),
        Body::Notice { of, by, how: _ } => {
            let mut names = Names::new(alloc);
            names.push(*of)?;
            names.push(*by)?;
            Ok(names)
        }
        Body::Token(_) => Ok(Names::new(alloc)),
    }
}

impl State {
    /// The place of the first waiting letter all of whose names are known, or `None` where there is none. No memory is
    /// taken.
    pub fn first_ready(&self) -> Option<u64>
        requires { IsIndexed self.now }
        ensures { MatchOption result (NoneReady (local_of self.now)) (IsFirstReady (local_of self.now)) }
    {
        self.waiting.first_ready(|n| has_arrived(&self.tasks, n))
    }

    /// The letter in a place.
    pub fn letter_at(&self, place: u64) -> &Letter
        requires { (l : Letter) × (slice_get (local_of self.now).waiting place ≡ Some l) }
        ensures { slice_get (local_of self.now).waiting place ≡ Some result.now }
    {
        self.waiting.peek(place)
    }

    /// Takes the letter out of a place.
    pub fn take_letter(&mut self, place: u64) -> Letter
        requires there { (l : Letter) × (slice_get (local_of self.old).waiting place ≡ Some l) }
        requires indexed { IsIndexed self.old }
        ensures letter { slice_get (local_of self.old).waiting place ≡ Some result }
        ensures state { local_of self.new ≡ record (local_of self.old) { waiting = remove (local_of self.old).waiting place } }
        ensures indexed { IsIndexed self.new }
        ensures journal { self.new.journal ≡ self.old.journal }
    {
        self.waiting.take(place)
    }

    /// Puts a letter behind the waiting ones.
    pub fn put_letter(&mut self, alloc: Global, l: Letter) -> Result<(), AllocError>
        requires { IsIndexed self.old }
        ensures state { OnOk result (local_of self.new ≡ record (local_of self.old) { waiting = (local_of self.old).waiting ++ l ∷ [] }) }
        ensures indexed { OnOk result (IsIndexed self.new) }
        ensures journal { self.new.journal ≡ self.old.journal }
    {
        let needs = needs_of(alloc, &l.body)?;
        self.waiting.put(l, needs)?;
        Ok(())
    }
}
