//! What peers hold and what they send: records, items, letters, events, and the state of a peer.
//!
//! Peers divide the work after the outline of Clause-Diffusion (Bonacina and Hsiang, The Clause-Diffusion
//! methodology for distributed deduction, 1995). Each recorded clause has a name, which says who recorded it, and
//! an owner; every peer comes to know every record, and what is inferred from clauses is inferred by an owner.
//! This crate says what there is; which events are legal and what each changes is said by the machine above it.
//! A contract sees a [`Local`] as the record of its fields, and each list as the list of its items.
#![tactic(auto)]

pub mod events;
pub mod items;
pub mod letters;
pub mod local;
pub mod records;

pub use events::{Act, Bound, Event, Events, Journals, Verdict};
pub use items::{Done, DoneList, End, Item, Items, Origin, Outcome, Settled, Settledness};
pub use letters::{Body, Letter, Letters};
pub use local::{Limits, Local, look};
pub use records::{Known, Knowns, Reason, Record, Status};
