//! Lists, copies and equality of values, and text: what every crate of Aquarius stands on.
//!
//! A contract sees a [`Sequence`] and a [`Queue`] as the list of their items, and a [`Text`] as its bytes. What allocates
//! takes the allocator and answers `AllocError` where memory ran out; nothing is changed then.
#![tactic(auto)]

mod compared;
mod copied;
mod queue;
mod sequence;
mod text;

pub use copied::{Copied, Equals, same_items, strip_items};
pub use queue::Queue;
pub use sequence::Sequence;
pub use text::Text;
