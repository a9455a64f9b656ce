//! What was read so far, and one step of reading.
ghost use Rattle.std.specs.Prelude.{◌≡◌, ◌<◌, ◌≤◌, ◌+◌, ◌*◌, ◌-◌, ◌^◌, Some, Option, length, slice_get, drop, IfErr, List, ℕ};
ghost use Rattle.cd_outside.specs.Outside.{Rose};
ghost use Rattle.cd_read.specs.Files.{Inside, opens as all_open};
ghost use Rattle.cd_read.specs.Labels.{Wants};
ghost use Rattle.cd_read.specs.Meaning.{AreWithin};
ghost use Rattle.cd_read.specs.States.{Spends, Fetched, CameInput, CameClause, Nexts, Listed, HasPlaces, IsWrongAt, IsPartFault, IsFirstMissing};
ghost use Rattle.cd_read.specs.Fetched.{IsOfLibrary};

use crate::labels::{Seen, Wanted};
use crate::measuring::is_within;
use crate::numbering::{PassFault, clause_of};
use crate::problem::{Input, Inputs, Wrong};
use crate::reader::ReadFault;
use cd_list::{Copied, Sequence, Text};
use cd_outside::{Bytes, FetchFault, Library};
use cd_parse::{
    Found, Label, Labels, PartFault, Progress, Role, Stage, Statement, TreeLiterals, What,
    read_part,
};
use cd_shared::SharedText;
use cd_symbols::Symbols;
use std::alloc::{AllocError, Global};

/// What was read so far: how many bytes were fetched, and what they gave.
#[derive(Drop)]
pub struct State {
    pub used: u64,
    pub symbols: Symbols,
    pub inputs: Inputs,
    pub seen: Seen,
}

/// The next part of a file.
#[derive(Drop)]
pub enum Next {
    Over,
    /// A clause, which was added.
    Clause,
    Include(Text, Option<Labels>),
}

/// The most bytes over all files.
const MAX_BYTES: u64 = 4_194_304;

fn wrong(alloc: Global, what: What, path: &Text, at: u32) -> ReadFault
    ensures { IsWrongAt what path.now at result }
{
    match path.copy(alloc) {
        Ok(file) => ReadFault::Wrong(Wrong { what, file, at }),
        Err(_) => ReadFault::Memory,
    }
}

/// Fetches a file: all of it, or one byte more than there may be.
pub fn fetch<L: Library>(
    alloc: Global,
    library: &mut L,
    state: &mut State,
    path: &Text,
) -> Result<Bytes, ReadFault>
    requires used { state.old.used ≤ 4194304 }
    ensures later { L.faults library.old ≤ L.faults library.new }
    ensures stays { (p : List ℕ) → L.holds library.new p ≡ L.holds library.old p }
    ensures library { IfErr result (λ f. IsOfLibrary f → Rose (L.faults library.old) (L.faults library.new)) }
    ensures spends { Spends state.old.used state.new.used (L.told library.old) (L.told library.new) result }
    ensures fetched { Fetched path.now (L.holds library.old path.now) state.old state.new
        (L.told library.old) (L.told library.new) result }
{
    let left = MAX_BYTES - state.used;
    let mut bytes = Sequence::new(alloc);
    match library.fetch(path, left + 1, &mut bytes) {
        Ok(()) => {}
        Err(FetchFault::Memory) => return Err(ReadFault::Memory),
        Err(FetchFault::Failed) => {
            let path = path.copy(alloc)?;
            return Err(ReadFault::Library { path });
        }
    }
    let size = bytes.len() as u64;
    if size > left {
        return Err(wrong(alloc, What::Long, path, 0));
    }
    state.used += size;
    Ok(bytes)
}

/// Adds an input with its clause.
fn add_input(
    alloc: Global,
    state: &mut State,
    file: &SharedText,
    label: &Label,
    role: Role,
    literals: TreeLiterals,
) -> Result<(), PassFault>
    requires within { AreWithin literals }
    ensures { CameInput file.now label.now role literals state.old state.new result }
{
    let clause = clause_of(alloc, &mut state.symbols, literals)?;
    // Asked for what its contract says: no symbol stands twice, and there are at most 65,535.
    let _count = state.symbols.len();
    let label = label.copy(alloc)?;
    let file = file.share()?;
    state.inputs.push(Input {
        label,
        role,
        file,
        clause,
    })?;
    Ok(())
}

/// A clause of the file with this path, whose statement begins at `place`.
fn add_clause(
    alloc: Global,
    state: &mut State,
    file: &SharedText,
    wanted: &Wanted,
    label: Label,
    role: Role,
    literals: TreeLiterals,
    place: u32,
) -> Result<Next, ReadFault>
    ensures { (i : Inside) → file.now ≡ i.path → Wants wanted.now i.lists
        → CameClause i label role literals place state.old state.new result }
{
    if !is_within(literals.as_slice()) {
        return Err(wrong(alloc, What::TooLarge, file.text(), place));
    }
    let chosen = wanted.wants(&label);
    if chosen {
        match add_input(alloc, state, file, &label, role, literals) {
            Ok(()) => {}
            Err(PassFault::Full) => {
                return Err(wrong(alloc, What::TooLarge, file.text(), place));
            }
            Err(PassFault::Memory) => return Err(ReadFault::Memory),
        }
    }
    state.seen.add(alloc, label)?;
    Ok(Next::Clause)
}

/// The path of the file that is read.
pub fn last(opens: &[Text]) -> &Text
    requires some { 0 < length opens.now }
    ensures { slice_get opens.now (length opens.now - 1) ≡ Some result.now }
{
    &opens[opens.len() - 1]
}

fn first_place(starts: &[u32]) -> u32
    requires some { 0 < length starts.now }
    ensures { slice_get starts.now 0 ≡ Some result }
{
    starts[0]
}

fn part_fault(alloc: Global, fault: PartFault, path: &Text) -> ReadFault
    ensures { IsPartFault fault path.now result }
{
    match fault {
        PartFault::Wrong(what, place) => wrong(alloc, what, path, place),
        PartFault::Memory => ReadFault::Memory,
    }
}

/// Reads the next statement, and adds its clause where it is one. `file` is the path of the file that is read.
pub fn read_next(
    alloc: Global,
    state: &mut State,
    bytes: &[u8],
    progress: &mut Progress,
    opens: &[Text],
    file: &SharedText,
    wanted: &Wanted,
) -> Result<Next, ReadFault>
    requires few { length bytes.now < 2 ^ 32 }
    requires within { progress.old.at ≤ length bytes.now }
    requires begin { progress.old.stage ≡ Stage.Begin }
    requires some { 0 < length opens.now }
    requires file { slice_get opens.now (length opens.now - 1) ≡ Some file.now }
    ensures { (i : Inside) → opens.now ≡ all_open i → Wants wanted.now i.lists
        → Nexts i bytes.now progress.old.at progress.new state.old state.new result }
{
    let found = match read_part(alloc, bytes, progress, opens) {
        Ok(found) => found,
        Err(fault) => return Err(part_fault(alloc, fault, last(opens))),
    };
    let statement = match found {
        Found::Statement(statement) => statement,
        Found::Oversized => {
            let place = first_place(progress.starts.as_slice());
            return Err(wrong(alloc, What::TooLarge, last(opens), place));
        }
        Found::Over => return Ok(Next::Over),
        Found::More => unreachable!(),
    };
    match statement {
        Statement::Clause(label, role, literals) => {
            let place = first_place(progress.starts.as_slice());
            add_clause(alloc, state, file, wanted, label, role, literals, place)
        }
        Statement::Include(path, only) => Ok(Next::Include(path, only)),
    }
}

/// The place in the statement of the first listed label that no clause has that was read since.
fn first_missing(seen: &Seen, from: usize, labels: &[Label]) -> Option<usize>
    ensures { IsFirstMissing labels.now (drop from seen.now) result }
{
    for (k, label) in labels.iter().enumerate() {
        if !seen.occurs_since(label, from) {
            return Some(k);
        }
    }
    None
}

/// After an include was read: whether each listed label occurred.
pub fn all_occurred(
    alloc: Global,
    seen: &Seen,
    from: usize,
    only: &Option<Labels>,
    starts: &[u32],
    path: &Text,
) -> Result<(), ReadFault>
    requires places { HasPlaces only.now starts.now }
    ensures { Listed only.now (drop from seen.now) starts.now path.now result }
{
    let Some(labels) = only else {
        return Ok(());
    };
    match first_missing(seen, from, labels.as_slice()) {
        None => Ok(()),
        Some(k) => Err(wrong(alloc, What::Selected, path, starts[5 + 2 * k])),
    }
}
