//! Files of the machine.
ghost use Rattle.std.specs.Prelude.{◌≡◌, ℕ, ◌+◌, ◌≤◌, ◌++◌, [], None, List, length, OnOk, OnErr, IsErrOf};
ghost use Rattle.cd_outside.specs.Outside.{Rose, Fetches, Gives, AppendsFirst};
ghost use Rattle.cd_outside.specs.Folder.{faults_after};

use crate::{Bytes, FetchFault, Library, MachineFiles, Opener};
use cd_list::Text;
use std::marker::Model;
use std::rt::Files;

/// The files of the machine, by paths that the machine understands. It tells nothing.
pub type Folder<'a, R> = FolderOver<MachineFiles<'a, R>>;

/// The files that an opener opens. It tells what the opener tells of them, and not what it gave.
///
/// Its faults are the opener's failed calls. A contract sees it as its opener.
#[derive(Drop)]
pub struct FolderOver<O: Opener> {
    opener: O,
}

impl<O: Opener> Model for FolderOver<O> {
    ghost Value = { O };

    ghost view = { λ it. it.opener };
}

impl<O: Opener> FolderOver<O> {
    pub fn over(opener: O) -> FolderOver<O>
        ensures { result ≡ opener }
    {
        FolderOver { opener }
    }
}

impl<'a, R: Files> FolderOver<MachineFiles<'a, R>> {
    pub fn new(rt: &'a R) -> Folder<'a, R>
        ensures { result ≡ 0 }
    {
        FolderOver::over(MachineFiles::new(rt))
    }
}

impl<O: Opener> Library for FolderOver<O> {
    ghost faults = { O.failed };

    ghost told = { λ _. None };

    ghost holds = { O.holds };

    /// No more than `cap` bytes are read. A fetch fails exactly where a call of the opener failed.
    fn fetch(&mut self, path: &Text, cap: u64, into: &mut Bytes) -> Result<(), FetchFault>
        ensures later { O.failed self.old ≤ O.failed self.new }
        ensures failed { IsErrOf result FetchFault.Failed → Rose (O.failed self.old) (O.failed self.new) }
        ensures gives { OnOk result (Fetches None None path.now cap into.old into.new) }
        ensures front { OnOk result (AppendsFirst (O.holds self.old path.now) cap into.old into.new) }
        ensures nothing { OnErr result (Gives {X = List ℕ × List ℕ} None None []) }
        ensures unchanged { OnErr result (into.new ≡ into.old) }
        ensures stays { (p : List ℕ) → O.holds self.new p ≡ O.holds self.old p }

        ensures exact { O.failed self.new ≡ faults_after (O.failed self.old) result }
    {
        let before = into.len();
        match read_file(&mut self.opener, path, cap, into) {
            Ok(()) => Ok(()),
            Err(fault) => {
                into.truncate(before);
                Err(fault)
            }
        }
    }
}

/// Appends the first `cap` bytes of the file. On an error some of them may have been appended.
fn read_file<O: Opener>(
    opener: &mut O,
    path: &Text,
    cap: u64,
    into: &mut Bytes,
) -> Result<(), FetchFault>
    ensures capped { (more : List ℕ) × (into.new ≡ into.old ++ more) × (length more ≤ cap) }
    ensures front { OnOk result (AppendsFirst (O.holds opener.old path.now) cap into.old into.new) }
    ensures stays { (p : List ℕ) → O.holds opener.new p ≡ O.holds opener.old p }
    ensures later { O.failed opener.old ≤ O.failed opener.new }
    ensures exact { O.failed opener.new ≡ faults_after (O.failed opener.old) result }
{
    match opener.open(path.as_str()) {
        Ok(mut file) => read_front(opener, &mut file, cap, into),
        Err(_) => Err(FetchFault::Failed),
    }
}

/// How many bytes one read asks for at most.
const CHUNK: usize = 8192;

/// Appends the first `cap` bytes that the file has left. On an error some of them may have been appended.
fn read_front<O: Opener>(
    opener: &mut O,
    file: &mut O::File,
    cap: u64,
    into: &mut Bytes,
) -> Result<(), FetchFault>
    ensures capped { (more : List ℕ) × (into.new ≡ into.old ++ more) × (length more ≤ cap) }
    ensures front { OnOk result (AppendsFirst (O.left file.old) cap into.old into.new) }
    ensures stays { (p : List ℕ) → O.holds opener.new p ≡ O.holds opener.old p }
    ensures later { O.failed opener.old ≤ O.failed opener.new }
    ensures exact { O.failed opener.new ≡ faults_after (O.failed opener.old) result }
{
    let mut left = cap;
    let mut chunk = [0u8; CHUNK];
    while left > 0 {
        let wanted = left.min(CHUNK as u64) as usize;
        let piece = &mut chunk[..wanted];
        match opener.read(file, piece) {
            Ok(0) => return Ok(()),
            Ok(n) => {
                into.extend(&piece[..n])?;
                left -= n as u64;
            }
            Err(_) => return Err(FetchFault::Failed),
        }
    }
    Ok(())
}
