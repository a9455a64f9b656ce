//! What mailboxes need of a letter.
//!
//! The trait has a crate of its own, since its impl stands with the type of the letters, and that type's crate
//! needs nothing of queues and threads.
#![tactic(auto)]

ghost use Rattle.std.specs.Prelude.{◌≡◌, ℕ};

/// A value that one peer sends to another. Peers go by their numbers.
pub trait Addressed: Drop {
    ghost sender: { Self → ℕ };

    ghost receiver: { Self → ℕ };

    /// The number of the peer to which it goes.
    fn receiver(&self) -> u16
        ensures { result ≡ receiver self.now };
}
