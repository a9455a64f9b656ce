//! The mailboxes of peers that run at once: each peer has one, every peer posts to it, and its owner collects from it.
//!
//! Each mailbox is a queue under a rule, [`Mail`](rule::Mail): for each sender and receiver, what was collected, followed by
//! what is left, is what was posted, in order. What a peer does is done with its [`BoxPass`], which a contract sees as the
//! letters that the peer posted and collected so far. Nothing is said of time: that a letter is ever collected is up to its
//! receiver.
#![tactic(auto)]

mod boxes;
mod closing;
pub mod laws;
mod opening;
mod queue;
pub mod rule;

pub use boxes::{BoxPass, Boxes, LeftLetters, Passes, collect, post};
pub use cd_letter::Addressed;
pub use closing::close;
pub use opening::open_boxes;
