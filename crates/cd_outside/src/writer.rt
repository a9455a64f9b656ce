//! What takes bytes, one call of the machine at a time.
ghost use Rattle.std.specs.Prelude.{◌≡◌, ℕ, ◌<◌, ◌≤◌, Option, List, length, IfOk};
ghost use Rattle.std.specs.Io.{WritesAtMost};
ghost use Rattle.std.specs.Io.KnownBytes.{WriteAppends};
ghost use Rattle.cd_outside.specs.Outside.{count_after};

use crate::CallFailed;
use std::io::Write;
use std::marker::Model;

/// Takes bytes, in each call as many of its piece as it answers.
pub trait Writer {
    /// How many calls have failed. The count stays at its last value, the greatest u64.
    ghost failed: { Self → ℕ };

    /// The bytes that were taken so far, where they are told.
    ghost taken: { Self → Option (List ℕ) };

    /// Takes a front of the piece, which isn't empty unless the piece is.
    fn take(&mut self, piece: &[u8]) -> Result<usize, CallFailed>
        ensures bound { WritesAtMost result piece.now }
        ensures some { IfOk result (λ n. 0 < length piece.now → 0 < n) }
        ensures bytes { WriteAppends (taken self.old) (taken self.new) result piece.now }
        ensures later { failed self.old ≤ failed self.new }
        ensures count { failed self.new ≡ count_after (failed self.old) result };
}

/// The calls of a writer of std. It passes on what the writer tells.
#[derive(Drop)]
pub struct MachineWriter<W: Write> {
    inner: W,
    failed: u64,
}

impl<W: Write> Model for MachineWriter<W> {
    ghost use Rattle.cd_outside.specs.Outside.{Device};

    ghost Value = { Device };

    ghost view = { λ it. record { taken = W.contents it.inner; faults = it.failed } };
}

impl<W: Write> MachineWriter<W> {
    pub fn new(inner: W) -> MachineWriter<W>
        ensures { result ≡ record { taken = W.contents inner; faults = 0 } }
    {
        MachineWriter { inner, failed: 0 }
    }
}

impl<W: Write> Writer for MachineWriter<W> {
    ghost failed = { λ it. it.faults };

    ghost taken = { λ it. it.taken };

    /// A writer that takes nothing of a piece that isn't empty has failed.
    fn take(&mut self, piece: &[u8]) -> Result<usize, CallFailed> {
        match self.inner.write(piece) {
            Ok(n) if n > 0 || piece.is_empty() => Ok(n),
            _ => {
                self.failed = self.failed.saturating_add(1);
                Err(CallFailed)
            }
        }
    }
}
