//! Writers of the machine as sinks.
ghost use Rattle.std.specs.Prelude.{◌≡◌, None, List, ℕ, ◌≤◌, [], ◌∷◌, OnOk, OnErr, is_ok, if◌then◌else◌};
ghost use Rattle.std.specs.Io.KnownBytes.{Appends};
ghost use Rattle.cd_outside.specs.Outside.{counted, count_after, HasCause, AppendsFront, Gives, FallsShort};

use crate::{MachineWriter, Sink, SinkFailed, Writer};
use std::io::Write;
use std::marker::Model;

/// Standard output, or any other writer of std. It passes on what the writer tells.
///
/// The writer isn't flushed: the standard output that std gives holds nothing back.
pub type Standard<W> = StandardOver<MachineWriter<W>>;

/// A writer as a sink: a piece is written until all of it is taken. It tells the bytes that the writer tells,
/// and not the pieces.
///
/// Its faults are the writer's failed calls.
#[derive(Drop)]
pub struct StandardOver<W: Writer> {
    writer: W,
}

impl<W: Writer> Model for StandardOver<W> {
    ghost use Rattle.cd_outside.specs.Outside.{Device};

    ghost Value = { Device };

    ghost view = { λ it. record { taken = W.taken it.writer; faults = W.failed it.writer } };
}

impl<W: Writer> StandardOver<W> {
    pub fn over(writer: W) -> StandardOver<W>
        ensures { result ≡ record { taken = W.taken writer; faults = W.failed writer } }
    {
        StandardOver { writer }
    }
}

impl<W: Write> StandardOver<MachineWriter<W>> {
    pub fn new(inner: W) -> Standard<W>
        ensures { result ≡ record { taken = W.contents inner; faults = 0 } }
    {
        StandardOver::over(MachineWriter::new(inner))
    }
}

impl<W: Writer> Sink for StandardOver<W> {
    ghost faults = { λ it. it.faults };

    ghost taken = { λ it. it.taken };

    ghost pieces = { λ _. None };

    /// A write fails exactly where a call of the writer failed.
    fn write(&mut self, piece: &[u8]) -> Result<(), SinkFailed>
        ensures cause { HasCause self.old.faults self.new.faults result }
        ensures whole { OnOk result (Appends self.old.taken self.new.taken piece.now) }
        ensures front { OnErr result (AppendsFront self.old.taken self.new.taken piece.now) }
        ensures piece { OnOk result (Gives {X = List ℕ} None None (piece.now ∷ [])) }
        ensures short { OnErr result (FallsShort self.old.taken self.new.taken None None piece.now) }

        ensures exact { self.new.faults ≡ (if is_ok result then self.old.faults else counted self.old.faults) }
    {
        write_all(&mut self.writer, piece)
    }
}

/// Writes the whole piece, or a front of it.
fn write_all<W: Writer>(writer: &mut W, piece: &[u8]) -> Result<(), SinkFailed>
    ensures whole { OnOk result (Appends (W.taken writer.old) (W.taken writer.new) piece.now) }
    ensures front { OnErr result (AppendsFront (W.taken writer.old) (W.taken writer.new) piece.now) }
    ensures later { W.failed writer.old ≤ W.failed writer.new }
    ensures count { W.failed writer.new ≡ count_after (W.failed writer.old) result }
{
    let mut rest = piece;
    while !rest.is_empty() {
        match writer.take(rest) {
            Ok(n) => rest = rest.split_at(n).1,
            Err(_) => return Err(SinkFailed),
        }
    }
    Ok(())
}
