//! One peer: what it does next, its events, and its calls.
//!
//! A [`Peer`] makes one event a call. A turn's event is the first that the rules name, a letter that comes is any letter at
//! all, and what every such event keeps is the peer's invariant (`Going` of `cd_alone`): so no caller has to know anything of
//! letters. Acts are those of `cd_acts`; what is found for an act is found before anything changes.
#![tactic(auto)]

pub mod choosing;
pub mod making;
pub mod peer;
pub mod readiness;
pub mod receiving;
pub mod starting;
pub mod turning;

pub use peer::{Peer, Turned};
pub use readiness::Ready;
