//! Units of the relay layer (3GPP TS 24.011 7.3 and 8.2), between a handset and the centre.
//!
//! `read_up` and `read_down` answer a unit exactly where the grammar has one for the whole list of octets. Otherwise
//! they answer the first fault from the left, octets left over last. Octets end too early only where some that follow
//! make them a unit, and are left over only behind one (`laws`). What `write_up` and `write_down` write is in the
//! grammar and is read again as that unit. Reading takes no memory, since a unit borrows its octets; writing takes one
//! growth.
//!
//! - `cause`: the cause of an RP-ERROR (8.2.5.4 and annex E)
//! - `fault`: why octets are no unit
//! - `fields`: the fields that the units share
//! - `frame`: the units
//! - `laws`: laws of the units
//! - `message_type`: the type of a unit, its first octet (8.2.2), by its direction
//! - `reading`: units of either direction, read
//! - `writing`: units of either direction, written, each in one growth
#![tactic(auto)]

mod cause;
mod fault;
mod fields;
mod frame;
pub mod laws;
mod message_type;
mod reading;
mod rejecting;
mod writing;

pub use cause::RpCause;
pub use fault::RelayFault;
pub use frame::Rp;
pub use reading::{read_down, read_up};
pub use rejecting::{fault_cause, reference_octet};
pub use writing::{write_down, write_up};
