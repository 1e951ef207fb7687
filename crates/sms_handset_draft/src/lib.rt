//! A handset within an event (3GPP TS 23.040 9.2 and 10, 3GPP TS 24.011 6).
//!
//! `Draft` has the rows from before the event, and what the event has changed of them and sent so far. An event is a
//! composition of small stages. Each is a call whose contract is one equation: the new draft is the definition's stage
//! of the old one. Messages and parts are stored before they are acknowledged. One transfer of the handset's own is
//! under way at a time. `finish` gives the changes and frames of the event, with the memory that new rows need.
//!
//! - `answering`: answers in the centre's transactions, and what its status reports say
//! - `counters`: the numbers that a handset gives next
//! - `draft`: the draft, and the moves of which its stages are made
//! - `finished`: the outcome of an event
//! - `group_moves`: the parts of a group, moved together
//! - `no_memory`: want of memory
//! - `notices`: memory available: RP-SMMA once a slot is free (3GPP TS 23.040 10.3)
//! - `rows`: what a handset stores, and what an event changes of it
//! - `sending`: one message under way at a time; how it ends, and what a restart leaves
//! - `settling`: the changes of an event, with memory for new rows
//! - `setup`: what a handset is given when it starts
//! - `stored`: the rows that a handset keeps
//! - `storing`: messages and parts put into the inbox, and groups that are full
//! - `ticks`: time that passes
#![tactic(auto)]

mod answering;
mod counters;
mod draft;
mod finished;
mod group_moves;
mod no_memory;
mod notices;
mod rows;
mod sending;
mod settling;
mod setup;
mod stored;
mod storing;
mod ticks;

pub use counters::Counters;
pub use draft::Draft;
pub use finished::Finished;
pub use no_memory::NoMemory;
pub use rows::{Changes, Rows};
pub use setup::Setup;
pub use stored::Stored;
