//! PDUs of SMPP v3.4, read and written by one grammar (`specs/PduGrammar.antt`).
//!
//! `Pdu::read` answers a value exactly where the grammar has one, else the first fault from the left. It takes no
//! memory: texts and parameters borrow the octets. `Pdu::write` gives the one written list of a value in one growth;
//! the list is read as that value. A proper front of a PDU is truncated and nothing else. `laws` says where each fault
//! is reported. `Header::read` gives the numbers of a header whose body is missing or unreadable. What fields mean, and
//! which status answers which fault, is decided by the session and the centre.
//!
//! - `address`: addresses in PDUs
//! - `bind`: bind requests
//! - `body`: the bodies of PDUs by their commands
//! - `cancel`: cancel_sm
//! - `command`: the commands, with their numbers
//! - `fault`: what is wrong with the octets of a PDU
//! - `fields`: the fields that PDUs share
//! - `header`: the header
//! - `laws`: laws of PDUs
//! - `message`: submit_sm and deliver_sm
//! - `pdu`: whole PDUs
//! - `query`: query_sm and its response
//! - `sequence_numbers`: the sequence numbers of a session's requests
//! - `status`: values of command_status
//! - `tlv`: optional parameters
//! - `writing`: fields, written into a vector that has room
#![tactic(auto)]

mod address;
mod bind;
mod body;
mod cancel;
mod command;
mod fault;
mod fields;
mod header;
pub mod laws;
mod message;
mod pdu;
mod query;
mod sequence_numbers;
mod status;
mod tlv;
mod writing;

pub use address::SmeAddress;
pub use bind::{Bind, BindResp};
pub use body::Body;
pub use cancel::CancelSm;
pub use command::CommandId;
pub use fault::PduFault;
pub use header::Header;
pub use message::{Message, MessageResp};
pub use pdu::Pdu;
pub use query::{QuerySm, QuerySmResp};
pub use sequence_numbers::number_after;
pub use status::CommandStatus;
pub use tlv::{TlvTag, Tlvs};
