//! The bell by which one of many peers ends the run of all: one word that names a peer which rang it.
//!
//! The word is 0 until a peer declares; then it is one more than that peer's number, and no later call changes it. What a
//! peer does is done with its [`BellSeat`], which a contract sees as what the peer knows of the word: its number and whether
//! it has declared, the words other than 0 that it noted, and the words that its declarations found. The rule of the word
//! is [`Rings`](rule::Rings). No call takes memory but [`Bell::new`], and none waits.
#![tactic(auto)]

pub mod rule;
mod settling;
mod word;

pub use settling::settle;
pub use word::{Bell, BellSeat, BellSeats, declare, join_seats, load};
