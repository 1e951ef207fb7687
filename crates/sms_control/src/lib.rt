//! The control layer of the short message service (3GPP TS 24.011 5 and 8).
//!
//! `Cp` is read from a frame and written as one. `Links` carries units of the relay layer over a link that loses,
//! delays and repeats frames. It acknowledges what arrives, sends again what is not acknowledged, and gives up in time.
//! It recognises a frame that arrived before, so that the layer above sees each unit once.
//!
//! - `cause`: the cause of a CP-ERROR (8.1.4.2)
//! - `fault`: why octets are no frame
//! - `laws`: laws of one call and of lists of calls
//! - `link_error`: why `begin` or `reply` is refused
//! - `link_state`: the transactions that a side keeps
//! - `links`: the calls of one side
//! - `message`: the frames
//! - `message_type`: the type of a frame (8.1.3)
//! - `out`: what a call sends and passes up
//! - `sending`: frames, written
//! - `timers`: TC1* and TR1
//! - `transaction`: the flag and identifier of a transaction (3GPP TS 24.007 11.2.3.1)
#![tactic(auto)]

mod cause;
mod fault;
pub mod laws;
mod link_error;
mod link_state;
mod links;
mod message;
mod message_type;
mod out;
mod sending;
mod timers;
mod transaction;

pub use cause::CpCause;
pub use fault::CpFault;
pub use link_error::LinkError;
pub use link_state::{Answer, Begun, LinkState, Opened, Repetition};
pub use links::Links;
pub use message::Cp;
pub use message_type::MessageType;
pub use out::{Frames, Out, Up};
pub use timers::{MOST_REPEATS, TC1_STAR, TR1M, TR1N};
pub use transaction::{Transaction, TransactionFlag, TransactionIdentifier};
