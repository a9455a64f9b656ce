//! The outside of the prover: libraries that files come from, sinks that text goes to, and gates that may
//! hold a thread.
//!
//! Each is a trait, with a device of the machine and one in memory for tests. A library and a sink count
//! their faults, so that a caller can show of an answer that it came of one. A count is a u64 that stays at
//! its last value.
#![tactic(auto)]

mod folder;
mod gate;
mod library;
mod opener;
mod page;
mod shelf;
mod sink;
mod standard;
mod writer;

pub use cd_list::Text;
pub use folder::{Folder, FolderOver};
pub use gate::{Gate, OpenGate};
pub use library::{Bytes, FetchFault, Library};
pub use opener::{CallFailed, MachineFiles, Opener};
pub use page::{Fails, Page};
pub use shelf::{Calls, Shelf, Shelved};
pub use sink::{Sink, SinkFailed};
pub use standard::{Standard, StandardOver};
pub use writer::{MachineWriter, Writer};
