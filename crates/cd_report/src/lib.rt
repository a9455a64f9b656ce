//! What both programs tell, and how: a text is written line by line.
//!
//! `specs/Texts.antt` has the texts of wrong words, of a problem that isn't as it should be, and of a file that can't be
//! read.
#![tactic(auto)]

mod sending;
mod texts;

pub use sending::send;
pub use texts::{refused_text, unread_text, usage_text};
