//! The clauses that a peer holds.
#![tactic(auto)]

ghost use Rattle.std.specs.Prelude.{◌≡◌, ◌∷◌, ◌++◌, [], length, slice_get, OnOk, OnErr, IfSome, MatchOption};
ghost use Rattle.std.specs.Option.{option_copied};
ghost use Rattle.std.specs.List.{find};
ghost use Rattle.cd_clause.specs.Clauses.{IsWithinBounds};
ghost use Rattle.cd_contract.specs.declared.held.Entry.{Entry};
ghost use Rattle.cd_contract.specs.Held.{is_named, without, NoneNamed, IsPlaceOf};
ghost use Rattle.cd_contract.specs.Rows.{AreKept, entries_of};
ghost use Rattle.cd_contract.specs.Needs.{AreInStep, HasNeeds, HasMarks};

use crate::marks::Brief;
use crate::needs::Needs;
use crate::rows::Row;
use crate::seeking::marks_of;
use cd_clause::Clause;
use cd_kbo::Order;
use cd_list::{Copied, Equals, Sequence};
use cd_names::{How, Name};
use std::alloc::{AllocError, Global};
use std::marker::Model;

/// A clause and its name.
#[derive(Debug, Drop)]
pub struct Entry {
    pub name: Name,
    pub clause: Clause,
}

/// An entry, and the counts of its clause.
#[derive(Debug, Drop)]
pub struct Kept {
    pub entry: Entry,
    pub row: Row,
}

/// The clauses that are held, each within bounds, in the order of arrival. A contract sees the list of entries.
///
/// Beside each clause stand the shapes that it needs in what it makes superfluous, and marks of its own shapes, each in
/// a column of its own: few bytes of a clause are looked at in a search, and few clauses besides. Of these most are
/// passed over by the counts of their symbols. Which side of an equation may lower a term depends on the order of terms,
/// and the column of needs is for the plain one; a search by another order makes a column of its own first.
#[derive(Debug, Drop)]
pub struct Held {
    kept: Vec<Kept>,
    /// By `order`.
    needs: Vec<Needs>,
    marks: Vec<Brief>,
    order: Order,
}

impl Model for Held {
    ghost use Rattle.std.specs.Prelude.{List};
    ghost use Rattle.cd_contract.specs.declared.held.Entry.{Entry};

    ghost Value = { List Entry };

    ghost use Rattle.std.specs.Coded.{codes};
    ghost use Rattle.cd_term.specs.contracts.Term as term;

    ghost coded = { Prim.hlevel (codes, term.the_row.coded) };

    ghost use Rattle.cd_contract.specs.Rows.{entries_of};
    ghost use Rattle.cd_contract.specs.Needs.{AreColumns};

    ghost view = { λ it. entries_of it.kept.items };

    ghost invariant = { λ it. AreColumns it.order it.kept.items it.needs.items it.marks.items };
}

/// What makes a clause superfluous, and how.
#[derive(Clone, Copy, Debug)]
pub struct Hit {
    pub by: Name,
    pub how: How,
}

/// A held clause that is made superfluous, and how.
#[derive(Clone, Copy, Debug)]
pub struct Struck {
    pub of: Name,
    pub how: How,
}

pub type Hits = Sequence<Struck>;

/// The place of the first entry with a name.
fn place_of(kept: &[Kept], name: Name) -> Option<usize>
    ensures { MatchOption result (NoneNamed name (entries_of kept.now)) (λ i. IsPlaceOf name (entries_of kept.now) i) }
{
    for (i, k) in kept.iter().enumerate() {
        if k.entry.name == name {
            return Some(i);
        }
    }
    None
}

impl Held {
    /// No clause. No memory is taken.
    pub fn new(alloc: Global) -> Held
        ensures { result ≡ [] }
    {
        Held {
            kept: Vec::new(alloc),
            needs: Vec::new(alloc),
            marks: Vec::new(alloc),
            order: Order::plain(alloc),
        }
    }

    pub fn len(&self) -> usize
        ensures { result ≡ length self.now }
    {
        self.kept.len()
    }

    /// The entry in a place, in the order of arrival, or `None` where the place isn't below the length.
    pub fn at(&self, i: usize) -> Option<&Entry>
        ensures { option_copied result ≡ slice_get self.now i }
    {
        match self.kept.get(i) {
            None => None,
            Some(kept) => Some(&kept.entry),
        }
    }

    /// The entry with a name, or `None` exactly where there is none.
    pub fn get(&self, name: Name) -> Option<&Entry>
        ensures { option_copied result ≡ find (is_named name) self.now }
    {
        let Some(place) = place_of(self.kept.as_slice(), name) else {
            return None;
        };
        Some(&self.kept[place].entry)
    }

    /// Adds a copy of a clause under a name, which no held clause should have. A refusal changes nothing.
    pub fn add(&mut self, alloc: Global, name: Name, clause: &Clause) -> Result<(), AllocError>
        requires { IsWithinBounds clause.now }
        ensures ok { OnOk result (self.new ≡ self.old ++ record { name = name; clause = clause.now } ∷ []) }
        ensures err { OnErr result (self.new ≡ self.old) }
    {
        let row = Row::of(clause);
        let needs = Needs::of(clause, &self.order);
        let marks = marks_of(clause).brief();
        let clause = clause.copy(alloc)?;
        self.needs.reserve(1)?;
        self.marks.reserve(1)?;
        self.kept.push(Kept {
            entry: Entry { name, clause },
            row,
        })?;
        self.needs.push(needs)?;
        self.marks.push(marks)?;
        Ok(())
    }

    /// Takes out the entry with a name, where there is one; the later ones move down by one.
    pub fn remove(&mut self, name: Name) -> Option<Entry>
        ensures entry { result ≡ find (is_named name) self.old }
        ensures rest { self.new ≡ without name self.old }
    {
        let Some(place) = place_of(self.kept.as_slice(), name) else {
            return None;
        };
        let kept = self.kept.remove(place);
        self.needs.remove(place);
        self.marks.remove(place);
        Some(kept.entry)
    }

    /// The entries with their counts.
    pub fn kept(&self) -> &[Kept]
        ensures entries { entries_of result.now ≡ self.now }
        ensures kept { AreKept result.now }
    {
        self.kept.as_slice()
    }

    /// The shapes that each of the entries needs by an order, or `None` where the column is for another order.
    pub fn needs(&self, order: &Order) -> Option<&[Needs]>
        ensures { IfSome result (λ needs. AreInStep (HasNeeds order.now) self.now needs.now) }
    {
        if !self.order.equals(order) {
            return None;
        }
        Some(self.needs.as_slice())
    }

    /// The marks of each of the entries.
    pub fn marks(&self) -> &[Brief]
        ensures { AreInStep HasMarks self.now result.now }
    {
        self.marks.as_slice()
    }
}
