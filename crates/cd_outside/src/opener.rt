//! What opens and reads files, one call of the machine at a time.
ghost use Rattle.std.specs.Prelude.{◌≡◌, ℕ, ◌≤◌, Option, None, List, IfOk};
ghost use Rattle.std.specs.Io.{ReadsAtMost};
ghost use Rattle.std.specs.Io.KnownBytes.{Keeps, ReadConsumes};
ghost use Rattle.cd_outside.specs.Outside.{count_after};

use std::fs;
use std::io::Read;
use std::marker::Model;
use std::rt::Files;
use thiserror::Error;

/// A call of the machine failed.
#[derive(Debug, Drop, Error)]
#[error("a call of the machine failed")]
pub struct CallFailed;

/// Opens files by their paths, and reads them from their first byte on.
pub trait Opener {
    /// An opened file.
    type File: Drop;

    /// How many calls have failed. The count stays at its last value, the greatest u64.
    ghost failed: { Self → ℕ };

    /// All bytes of the file with a path, where they are told.
    ghost holds: { Self → List ℕ → Option (List ℕ) };

    /// The bytes that an opened file has left, where they are told.
    ghost left: { Self.File → Option (List ℕ) };

    fn open(&mut self, path: &str) -> Result<Self::File, CallFailed>
        ensures file { IfOk result (λ file. Keeps (holds self.old path.now) (left file)) }
        ensures stays { (p : List ℕ) → holds self.new p ≡ holds self.old p }
        ensures later { failed self.old ≤ failed self.new }
        ensures count { failed self.new ≡ count_after (failed self.old) result };

    /// Reads the next bytes of the file, as many as it answers: none only at the end, or where there is no room.
    fn read(&mut self, file: &mut Self::File, into: &mut [u8]) -> Result<usize, CallFailed>
        ensures bound { ReadsAtMost result into.new }
        ensures bytes { ReadConsumes (left file.old) (left file.new) result into.new }
        ensures stays { (p : List ℕ) → holds self.new p ≡ holds self.old p }
        ensures later { failed self.old ≤ failed self.new }
        ensures count { failed self.new ≡ count_after (failed self.old) result };
}

/// The calls of the machine. What a path holds it doesn't tell.
///
/// A contract sees it as its count of failed calls.
#[derive(Drop)]
pub struct MachineFiles<'a, R> {
    rt: &'a R,
    failed: u64,
}

impl<'a, R> Model for MachineFiles<'a, R> {
    ghost use Rattle.std.specs.Prelude.{ℕ};

    ghost Value = { ℕ };

    ghost view = { λ it. it.failed };
}

impl<'a, R: Files> MachineFiles<'a, R> {
    pub fn new(rt: &'a R) -> MachineFiles<'a, R>
        ensures { result ≡ 0 }
    {
        MachineFiles { rt, failed: 0 }
    }
}

impl<'a, R: Files> Opener for MachineFiles<'a, R> {
    type File = R::File;

    ghost failed = { λ it. it };

    ghost holds = { λ _ _. None };

    ghost left = { R.File.Read.remaining };

    fn open(&mut self, path: &str) -> Result<R::File, CallFailed> {
        match fs::open(self.rt, path) {
            Ok(file) => Ok(file),
            Err(_) => {
                self.failed = self.failed.saturating_add(1);
                Err(CallFailed)
            }
        }
    }

    fn read(&mut self, file: &mut R::File, into: &mut [u8]) -> Result<usize, CallFailed> {
        match file.read(into) {
            Ok(n) => Ok(n),
            Err(_) => {
                self.failed = self.failed.saturating_add(1);
                Err(CallFailed)
            }
        }
    }
}
