//! The machine of the peers: which events are legal at a peer, what each leaves and sends, worlds of peers with letters
//! on their way, and runs of events in whatever order.
//!
//! This crate has definitions, in `specs/`, for the peer's code and the laws over runs to speak of. What an event finds is
//! a value of its own; that it fits the state is a relation, and what the event then leaves and sends are total functions.
//! There is one equation for each act and for each body of a letter. Rules of inference and orders of terms stay closed.
#![tactic(auto)]

ghost use Rattle.cd_machine.specs.Laws.{WavesAreTested};

/// The test of the token's two waves, which the machine makes, tells whether they are closed.
pub fn waves_are_tested()
    ensures { WavesAreTested }
{}
