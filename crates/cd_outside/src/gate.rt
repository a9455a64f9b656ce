//! Where a thread may be held before a step.

/// What a thread passes before each of its steps.
///
/// A gate has no fault and answers nothing, so nothing that is proved of a run rests on it.
pub trait Gate {
    /// Called by the thread of `peer` before its step number `turn`, counted from 0.
    fn enter(&self, peer: u16, turn: u64);
}

/// A gate that holds nobody.
#[derive(Clone, Copy, Debug)]
pub struct OpenGate;

impl Gate for OpenGate {
    fn enter(&self, _peer: u16, _turn: u64) {}
}
