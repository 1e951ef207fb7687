//! The centre between events.
//!
//! `CentreState` is all that a centre keeps in memory. It has messages and parts without TPDUs, claims, the queues of
//! handsets, open reports, the log of all reports, and sessions. `specs/state/Standing.antt` says which centre of the
//! definition it represents; that centre is sound. `recover` and `start` make it from the rows of a store, and refuse
//! rows that are not sound. `start_again` makes of a centre the one that `recover` would make of its rows, and leaves
//! what follows from rows alone. `enrol` takes one account more. `begin` is the centre as an event begins. `table` and
//! `receipts` list all messages, and all reports that were made.

mod centre_state;
mod enrolling;
pub mod laws;
mod memory;
mod new_store;
mod queues;
mod recover;
mod recover_error;
mod reporting;
mod restarting;
mod watching;

pub use centre_state::CentreState;
pub use new_store::first_rows;
pub use recover_error::RecoverError;
