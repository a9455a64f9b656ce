//! The derivation of a peer that is refuted, whatever letters it was given.
//!
//! `specs/Derivation.antt` says what its lines are: those of the empty clause's record and of the records that it stands on,
//! in the order in which they became known, as they are printed. [`derivations_refute`] is why they are a refutation.
#![tactic(auto)]

mod chosen;
mod derive;
mod laws;
mod printing;

pub use derive::derivation;
pub use laws::derivations_refute;
