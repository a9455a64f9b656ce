//! All peers of a run with the letters that travel between them, and the stated schedule.
//!
//! A [`World`] makes one event a call of [`World::step`], or runs the stated schedule to the first verdict
//! ([`World::scheduled`]). Its contract says more than its state: it is the end of a run from the start, and the journals
//! in the sequence of [`World::order`] are that run's events (`IsWorld` of `specs/Worlds.antt`). `specs/Schedule.antt` states
//! the schedule, and [`laws`] says that it ends, that it is a function of the problem, the policy, the limits, the number of
//! peers and the seed, and that its runs are runs by choice.
#![tactic(auto)]

pub mod choosing;
pub mod laws;
pub mod moving;
pub mod world;

pub use moving::Choice;
pub use world::{Turns, World};
