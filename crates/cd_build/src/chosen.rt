//! Which records stand in the derivation.
#![tactic(auto)]

ghost use Rattle.std.specs.Prelude.{◌≡◌, ◌<◌, ◌++◌, ◌∷◌, [], length, List, IfOk, slice_set, replicate, true, false, if◌then◌else◌};
ghost use Rattle.cd_names.specs.declared.names.Name.{Name};
ghost use Rattle.cd_acts.specs.Indexed.{AreNamesOf, AreOnce};
ghost use Rattle.cd_alone.specs.Derived.{last_names, marks_of};
ghost use Rattle.cd_build.specs.Marks.{is_marked, wanted_marks};

use cd_acts::state::entry_in;
use cd_ledger::{Knowns, Record};
use cd_list::Sequence;
use cd_names::Name;
use cd_tasks::Tasks;
use std::alloc::{AllocError, Global};

/// A mark for each place of a record: whether the last one stands on the one there, or is it. The time is linear in the
/// number of records and of the names that they cite.
pub fn marks(alloc: Global, tasks: &Tasks, known: &Knowns) -> Result<Sequence<bool>, AllocError>
    requires names { AreNamesOf tasks.now.arrivals known.now }
    requires once { AreOnce known.now }
    ensures { IfOk result (λ marks. marks ≡ marks_of (last_names known.now) known.now) }
{
    let mut wanted = unmarked(alloc, known.len())?;
    let mut marks = unmarked(alloc, known.len())?;
    want_last(&mut wanted, tasks, known);
    let entries = known.as_slice();
    let mut i = entries.len();
    while i > 0 {
        i -= 1;
        mark_wanted(&mut marks, &mut wanted, tasks, known, i, &entries[i].entry);
    }
    Ok(marks)
}

fn unmarked(alloc: Global, count: usize) -> Result<Sequence<bool>, AllocError>
    ensures { IfOk result (λ marks. marks ≡ replicate count false) }
{
    let mut marks = Sequence::new(alloc);
    for _ in 0..count {
        marks.push(false)?;
    }
    Ok(marks)
}

/// Whether the place is marked.
pub fn is_marked(marks: &Sequence<bool>, place: usize) -> bool
    ensures { result ≡ is_marked marks.now place }
{
    match marks.get(place) {
        Some(mark) => *mark,
        None => false,
    }
}

// Wants the last record alone.
fn want_last(wanted: &mut Sequence<bool>, tasks: &Tasks, known: &Knowns)
    requires names { AreNamesOf tasks.now.arrivals known.now }
    requires once { AreOnce known.now }
    requires none { wanted.old ≡ replicate (length known.now) false }
    ensures { wanted.new ≡ wanted_marks (last_names known.now) known.now }
{
    match known.last() {
        None => {}
        Some(last) => want(wanted, tasks, known, last.entry.name),
    }
}

// Wants the record of this name, if there is one.
fn want(wanted: &mut Sequence<bool>, tasks: &Tasks, known: &Knowns, n: Name)
    requires names { AreNamesOf tasks.now.arrivals known.now }
    requires once { AreOnce known.now }
    requires marks { (ns : List Name) × (wanted.old ≡ wanted_marks ns known.now) }
    ensures { (ns : List Name) → wanted.old ≡ wanted_marks ns known.now → wanted.new ≡ wanted_marks (ns ++ n ∷ []) known.now }
{
    match entry_in(tasks, known, n) {
        None => {}
        Some(found) => wanted.set(found.0, true),
    }
}

fn want_all(wanted: &mut Sequence<bool>, tasks: &Tasks, known: &Knowns, names: &[Name])
    requires names { AreNamesOf tasks.now.arrivals known.now }
    requires once { AreOnce known.now }
    requires marks { (ns : List Name) × (wanted.old ≡ wanted_marks ns known.now) }
    ensures { (ns : List Name) → wanted.old ≡ wanted_marks ns known.now → wanted.new ≡ wanted_marks (ns ++ names.now) known.now }
{
    for name in names {
        want(wanted, tasks, known, *name);
    }
}

// Marks the record in this place if it is wanted, and then wants what it cites.
fn mark_wanted(
    marks: &mut Sequence<bool>,
    wanted: &mut Sequence<bool>,
    tasks: &Tasks,
    known: &Knowns,
    place: usize,
    entry: &Record,
)
    requires names { AreNamesOf tasks.now.arrivals known.now }
    requires once { AreOnce known.now }
    requires marks { (ns : List Name) × (wanted.old ≡ wanted_marks ns known.now) }
    requires place { place < length marks.old }
    ensures marks { marks.new ≡ (if is_marked wanted.old place then slice_set marks.old place true else marks.old) }
    ensures wanted { (ns : List Name) → wanted.old ≡ wanted_marks ns known.now
        → wanted.new ≡ wanted_marks (if is_marked wanted.old place then ns ++ entry.now.cites else ns) known.now }
{
    if is_marked(wanted, place) {
        marks.set(place, true);
        want_all(wanted, tasks, known, entry.cites.as_slice());
    }
}
