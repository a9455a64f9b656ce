//! The labels that were read, and those that are wanted.
ghost use Rattle.std.specs.Prelude.{◌≡◌, ◌⊎◌, ◌↔◌, ◌∷◌, ◌++◌, [], List, length, drop, Contains, unwrap_or, IsTrue, IfOk, OnOk, OnErr};
ghost use Rattle.cd_parse.specs.declared.label.Label.{Label};
ghost use Rattle.cd_read.specs.Files.{with_list};
ghost use Rattle.cd_read.specs.Labels.{IsWanted, Wants};

use cd_list::{Copied, Sequence};
use cd_parse::{Label, Labels};
use indexmap::{IndexMap, IndexSet};
use std::alloc::{AllocError, Global};
use std::marker::Model;

/// The labels of all clauses that were read, in their order. A contract sees the list.
#[derive(Drop)]
pub struct Seen {
    labels: Labels,
    /// Where each label stands last.
    places: IndexMap<Label, usize>,
}

impl Model for Seen {
    ghost use Rattle.std.specs.Prelude.{List};
    ghost use Rattle.cd_read.specs.Labels.{KnowsPlaces};
    ghost use Rattle.cd_parse.specs.declared.label.Label.{Label};

    ghost Value = { List Label };

    ghost view = { λ s. s.labels };

    ghost invariant = { λ s. KnowsPlaces s.labels s.places };
}

impl Seen {
    pub fn new(alloc: Global) -> Seen
        ensures { result ≡ [] }
    {
        Seen {
            labels: Labels::new(alloc),
            places: IndexMap::new(alloc),
        }
    }

    pub fn len(&self) -> usize
        ensures { result ≡ length self.now }
    {
        self.labels.len()
    }

    /// Adds a label at the end.
    pub fn add(&mut self, alloc: Global, label: Label) -> Result<(), AllocError>
        ensures ok { OnOk result (self.new ≡ self.old ++ label ∷ []) }
        ensures err { OnErr result (self.new ≡ self.old) }
    {
        let place = self.labels.len();
        let copy = label.copy(alloc)?;
        self.labels.push(label)?;
        match self.places.insert(copy, place) {
            Ok(_) => Ok(()),
            Err(_) => {
                self.labels.pop();
                Err(AllocError)
            }
        }
    }

    /// Whether a label stands in a place from `from` on.
    pub fn occurs_since(&self, label: &Label, from: usize) -> bool
        ensures { IsTrue result ↔ Contains (drop from self.now) label.now }
    {
        match self.places.get(label) {
            Some(place) => *place >= from,
            None => false,
        }
    }
}

/// The labels of the clauses that become inputs.
#[derive(Drop)]
pub enum Wanted {
    All,
    Listed(IndexSet<Label>),
}

impl Wanted {
    pub fn wants(&self, label: &Label) -> bool
        ensures { IsTrue result ↔ IsWanted self.now label.now }
    {
        match self {
            Wanted::All => true,
            Wanted::Listed(labels) => labels.contains(label),
        }
    }

    /// Adds a label that is wanted, or leaves it out.
    fn keep(
        &self,
        alloc: Global,
        kept: &mut IndexSet<Label>,
        label: &Label,
    ) -> Result<(), AllocError>
        ensures { OnOk result ((l : Label) →
            Contains kept.new.keys l ↔ (Contains kept.old.keys l ⊎ ((l ≡ label.now) × IsWanted self.now l))) }
    {
        if !self.wants(label) {
            return Ok(());
        }
        let copy = label.copy(alloc)?;
        kept.insert(copy)?;
        Ok(())
    }

    /// The labels of a list that are wanted.
    fn among(&self, alloc: Global, labels: &[Label]) -> Result<Wanted, AllocError>
        ensures { IfOk result (λ w. (l : Label) → IsWanted w l ↔ (Contains labels.now l × IsWanted self.now l)) }
    {
        let mut kept = IndexSet::new(alloc);
        for label in labels {
            self.keep(alloc, &mut kept, label)?;
        }
        Ok(Wanted::Listed(kept))
    }

    /// What is wanted of an included file, where that is less.
    pub fn within(&self, alloc: Global, only: &Option<Labels>) -> Result<Option<Wanted>, AllocError>
        ensures { IfOk result (λ w. (lists : List (List Label)) →
            Wants self.now lists → Wants (unwrap_or w self.now) (with_list only.now lists)) }
    {
        match only {
            None => Ok(None),
            Some(labels) => Ok(Some(self.among(alloc, labels.as_slice())?)),
        }
    }
}

/// The inner one, where there is one.
pub fn innermost<'a>(inner: &'a Option<Wanted>, outer: &'a Wanted) -> &'a Wanted
    ensures { result.now ≡ unwrap_or inner.now outer.now }
{
    match inner {
        Some(wanted) => wanted,
        None => outer,
    }
}
