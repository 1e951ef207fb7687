//! What a centre keeps in memory of the messages that it accepted, and of their parts.
//!
//! `MessageIndex` is between events. It has each message's row, each part without its TPDU, and the moments at which
//! pending messages expire. Numbers and accounts are stored once for all. `MessageIndexDraft` is within an event, and has
//! the new rows besides, as they are committed. It settles into changes and the memory that they need, which
//! `MessageIndex::adopt` puts in without taking more. Contracts say which rows are represented: whatever rows they are
//! before a change, they are the changed rows after it.

mod changes;
mod copying;
mod draft;
mod expiring;
mod forgettable;
mod index;
pub mod laws;
mod message_entry;
mod names;
mod part_changes;
mod parts_draft;
mod peeking;
mod recover;
mod summary;

pub use copying::{copy_of_changes, copy_of_originator};
pub use draft::{MessageIndexDraft, MessageIndexPlan};
pub use forgettable::has_ended;
pub use index::{MessageIndex, MessageIndexReserve};
pub use message_entry::{MessageEntry, OriginatorEntry};
pub use summary::MessageSummary;
