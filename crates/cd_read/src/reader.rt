//! A file and the files that it includes.
ghost use Rattle.std.specs.Prelude.{◌≡◌, ◌<◌, ◌≤◌, ◌*◌, ◌-◌, ℕ, List, Some, length, slice_get, IfOk, IfErr, OnOk};
ghost use Rattle.cd_outside.specs.Outside.{Rose};
ghost use Rattle.cd_read.specs.Files.{Inside, opens as all_open};
ghost use Rattle.cd_read.specs.Labels.{Wants};
ghost use Rattle.cd_read.specs.States.{Spends, CameFile, CameFrom, CameInclude, HasPlaces};
ghost use Rattle.cd_read.specs.Fetched.{IsOfLibrary, IsReadFrom, IsReadFault, FetchesAtMost};
ghost use Rattle.cd_read.specs.Formed.{IsFormed, IsBounded};

use crate::labels::{Seen, Wanted, innermost};
use crate::problem::{Inputs, Problem, Wrong};
use crate::state::{Next, State, all_occurred, fetch, last, read_next};
use cd_list::{Copied, Sequence, Text};
use cd_outside::Library;
use cd_parse::{Labels, Progress, Stage};
use cd_shared::SharedText;
use cd_symbols::Symbols;
use std::alloc::{AllocError, Global};

/// Why there is no problem.
#[derive(Drop)]
pub enum ReadFault {
    /// The library failed at the file with this path.
    Library { path: Text },
    /// A file isn't as it should be.
    Wrong(Wrong),
    /// Memory ran out.
    Memory,
}

impl From<AllocError> for ReadFault {
    ghost use Rattle.std.specs.Prelude.{◌≡◌};
    ghost use Rattle.cd_read.specs.declared.reader.ReadFault.TheVariants.{Memory};

    ghost from_gives = { λ _ fault. fault ≡ Memory };

    fn from(_error: AllocError) -> ReadFault {
        ReadFault::Memory
    }
}

fn started(alloc: Global) -> Progress
    ensures { (result.at ≡ 0) × (result.stage ≡ Stage.Begin) }
{
    Progress {
        from: 0,
        stage: Stage::Begin,
        starts: Sequence::new(alloc),
        at: 0,
        words: 0,
    }
}

/// A path that the inputs of its file share.
fn shared(alloc: Global, path: &Text) -> Result<SharedText, AllocError>
    ensures { IfOk result (λ file. file ≡ path.now) }
{
    SharedText::new(alloc, path.copy(alloc)?)
}

/// Reads the file whose path is the last of `opens`, which are the paths of the open files. It recurs no more
/// than 16 files deep.
#[cycle(files)]
fn read_file<L: Library>(
    alloc: Global,
    library: &mut L,
    state: &mut State,
    opens: &mut Sequence<Text>,
    wanted: &Wanted,
) -> Result<(), ReadFault>
    requires some { 0 < length opens.old }
    requires few { length opens.old ≤ 16 }
    requires used { state.old.used ≤ 4194304 }
    ensures used { OnOk result (state.new.used ≤ 4194304) }
    ensures same { OnOk result (opens.new ≡ opens.old) }
    ensures later { L.faults library.old ≤ L.faults library.new }
    ensures stays { (p : List ℕ) → L.holds library.new p ≡ L.holds library.old p }
    ensures library { IfErr result (λ f. IsOfLibrary f → Rose (L.faults library.old) (L.faults library.new)) }
    ensures spends { Spends state.old.used state.new.used (L.told library.old) (L.told library.new) result }
    ensures reads { (i : Inside) → opens.old ≡ all_open i → Wants wanted.now i.lists
        → CameFile i (L.holds library.old) state.old state.new (L.told library.old) (L.told library.new) result }
{
    let bytes = fetch(alloc, library, state, last(opens.as_slice()))?;
    let file = shared(alloc, last(opens.as_slice()))?;
    let mut progress = started(alloc);
    read_statements(
        alloc,
        library,
        state,
        bytes.as_slice(),
        &mut progress,
        opens,
        &file,
        wanted,
    )
}

/// Reads the statements of a file from a place on. `file` is its path.
#[cycle(files)]
fn read_statements<L: Library>(
    alloc: Global,
    library: &mut L,
    state: &mut State,
    bytes: &[u8],
    progress: &mut Progress,
    opens: &mut Sequence<Text>,
    file: &SharedText,
    wanted: &Wanted,
) -> Result<(), ReadFault>
    requires some { 0 < length opens.old }
    requires few { length opens.old ≤ 16 }
    requires used { state.old.used ≤ 4194304 }
    requires bytes { length bytes.now ≤ 4194304 }
    requires within { progress.old.at ≤ length bytes.now }
    requires begin { progress.old.stage ≡ Stage.Begin }
    requires file { slice_get opens.old (length opens.old - 1) ≡ Some file.now }
    ensures used { OnOk result (state.new.used ≤ 4194304) }
    ensures same { OnOk result (opens.new ≡ opens.old) }
    ensures later { L.faults library.old ≤ L.faults library.new }
    ensures stays { (p : List ℕ) → L.holds library.new p ≡ L.holds library.old p }
    ensures library { IfErr result (λ f. IsOfLibrary f → Rose (L.faults library.old) (L.faults library.new)) }
    ensures spends { Spends state.old.used state.new.used (L.told library.old) (L.told library.new) result }
    ensures reads { (i : Inside) → opens.old ≡ all_open i → Wants wanted.now i.lists
        → CameFrom i (L.holds library.old) bytes.now progress.old.at state.old state.new
        (L.told library.old) (L.told library.new) result }
{
    loop {
        match read_next(
            alloc,
            state,
            bytes,
            progress,
            opens.as_slice(),
            file,
            wanted,
        )? {
            Next::Over => return Ok(()),
            Next::Clause => {}
            Next::Include(path, only) => {
                include(
                    alloc,
                    library,
                    state,
                    progress.starts.as_slice(),
                    opens,
                    wanted,
                    path,
                    only,
                )?;
            }
        }
    }
}

/// Reads an included file. `starts` are the places of the tokens of the include.
#[cycle(files)]
fn include<L: Library>(
    alloc: Global,
    library: &mut L,
    state: &mut State,
    starts: &[u32],
    opens: &mut Sequence<Text>,
    wanted: &Wanted,
    path: Text,
    only: Option<Labels>,
) -> Result<(), ReadFault>
    requires some { 0 < length opens.old }
    requires few { length opens.old < 16 }
    requires used { state.old.used ≤ 4194304 }
    requires places { HasPlaces only starts.now }
    ensures used { OnOk result (state.new.used ≤ 4194304) }
    ensures same { OnOk result (opens.new ≡ opens.old) }
    ensures later { L.faults library.old ≤ L.faults library.new }
    ensures stays { (p : List ℕ) → L.holds library.new p ≡ L.holds library.old p }
    ensures library { IfErr result (λ f. IsOfLibrary f → Rose (L.faults library.old) (L.faults library.new)) }
    ensures spends { Spends state.old.used state.new.used (L.told library.old) (L.told library.new) result }
    ensures reads { (i : Inside) → opens.old ≡ all_open i → Wants wanted.now i.lists
        → CameInclude i (L.holds library.old) path only starts.now state.old state.new
        (L.told library.old) (L.told library.new) result }
{
    let inner = wanted.within(alloc, &only)?;
    let before = state.seen.len();
    opens.push(path)?;
    read_file(alloc, library, state, opens, innermost(&inner, wanted))?;
    opens.pop();
    all_occurred(
        alloc,
        &state.seen,
        before,
        &only,
        starts,
        last(opens.as_slice()),
    )
}

/// Reads the problem of the file with this path, and of the files that it includes: all that they spell, or
/// their first fault in the order of reading, at its place.
///
/// No more than 4,194,305 bytes are fetched, and no more than 16 files are open at once.
pub fn read_problem<L: Library>(
    alloc: Global,
    library: &mut L,
    path: &Text,
) -> Result<Problem, ReadFault>
    ensures problem { IfOk result (IsReadFrom path.now (L.holds library.old) (L.told library.old) (L.told library.new)) }
    ensures formed { IfOk result IsFormed }
    ensures bounded { IfOk result IsBounded }
    ensures fault { IfErr result (IsReadFault path.now (L.holds library.old) (L.told library.old) (L.told library.new)) }
    ensures library { IfErr result (λ f. IsOfLibrary f → Rose (L.faults library.old) (L.faults library.new)) }
    ensures later { L.faults library.old ≤ L.faults library.new }
    ensures capped { FetchesAtMost 4194305 (L.told library.old) (L.told library.new) }
    ensures stays { (p : List ℕ) → L.holds library.new p ≡ L.holds library.old p }
{
    let mut state = State {
        used: 0,
        symbols: Symbols::new(alloc),
        inputs: Inputs::new(alloc),
        seen: Seen::new(alloc),
    };
    let mut opens = Sequence::new(alloc);
    let name = path.copy(alloc)?;
    opens.push(path.copy(alloc)?)?;
    read_file(alloc, library, &mut state, &mut opens, &Wanted::All)?;
    let problem = Problem {
        name,
        symbols: state.symbols,
        inputs: state.inputs,
    };
    Ok(problem)
}
