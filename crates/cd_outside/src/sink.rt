//! Where text goes.
ghost use Rattle.std.specs.Prelude.{ℕ, Option, List, [], ◌∷◌, OnOk, OnErr};
ghost use Rattle.std.specs.Io.KnownBytes.{Appends};
ghost use Rattle.cd_outside.specs.Outside.{HasCause, AppendsFront, Gives, FallsShort};

use thiserror::Error;

/// The sink didn't take the whole piece.
#[derive(Debug, Drop, Error)]
#[error("the text can't be written")]
pub struct SinkFailed;

/// What takes bytes, in the order of the calls.
pub trait Sink {
    /// How often the sink has failed.
    ghost faults: { Self → ℕ };

    /// The bytes that the sink took so far, where it tells them.
    ghost taken: { Self → Option (List ℕ) };

    /// The pieces that the sink took so far, one for each call, where it tells them. With a call that failed it
    /// may cease to tell them.
    ghost pieces: { Self → Option (List (List ℕ)) };

    /// Takes the whole piece, or fails and takes a front of it.
    fn write(&mut self, piece: &[u8]) -> Result<(), SinkFailed>
        ensures cause { HasCause (faults self.old) (faults self.new) result }
        ensures whole { OnOk result (Appends (taken self.old) (taken self.new) piece.now) }
        ensures front { OnErr result (AppendsFront (taken self.old) (taken self.new) piece.now) }
        ensures piece { OnOk result (Gives (pieces self.old) (pieces self.new) (piece.now ∷ [])) }
        ensures short { OnErr result (FallsShort (taken self.old) (taken self.new) (pieces self.old) (pieces self.new) piece.now) };
}
