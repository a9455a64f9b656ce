//! A peer's journal played again: each event is a local step from where the earlier ones led, or the first that isn't one is
//! found.
//!
//! A turn makes the first event by the rules, and a journal may have any that are legal: any item may be rewritten or kept,
//! and any owed task done. So each event is decided. Acts are those of `cd_acts`: an item in some place is brought to the
//! front before its act, and the owed tasks stand in a list beside the state, which itself owes none between the events.
#![tactic(auto)]

pub mod admitting;
pub mod ending;
pub mod items;
pub mod owing;
pub mod prospects;
pub mod replayer;
pub mod replaying;
pub mod working;

pub use replaying::{ReplayFault, replay};
