//! The five TPDUs of the transfer layer (3GPP TS 23.040 9.2.2), in RP-DATA, RP-ACK and RP-ERROR.
//!
//! `read_down` and `read_up` answer a value exactly where the grammar (`specs/TpduGrammar.antt`) has one. Otherwise
//! they answer the first fault from left to right, octet by octet, with octets left over last. What is written is in
//! the grammar, is read as that value, and is the value's one written list (`laws`). A readable TPDU that is cut is
//! refused as truncated, except for what a report may lose. User data is kept octet for octet. `same_message`
//! recognises a TPDU that is sent again, whatever it says of waiting messages. Each writer takes memory once; the other
//! calls take none.
//!
//! - `address_field`: address fields (9.1.2.5)
//! - `bits`: bits of an octet, each named by its value
//! - `carrier`: the RP unit that carries a TPDU
//! - `codes`: causes of failure and statuses, with their numbers
//! - `deliver`, `deliver_report`, `status_report`, `submit`, `submit_report`: a TPDU each
//! - `down`: TPDUs from the service centre to a handset
//! - `fault`: what is wrong with the octets of a TPDU
//! - `laws`: laws of TPDUs
//! - `more_messages`: whether more messages wait for the handset (TP-MMS, 9.2.3.2)
//! - `name_field`: names in address fields, as packed septets (9.1.2.5)
//! - `parameters`: what the parameter indicator of a report announces (9.2.3.27)
//! - `slices`: parts of octets that may be shorter than wanted
//! - `time_field`: time stamp fields (9.2.3.11)
//! - `up`: TPDUs from a handset to the service centre
//! - `user_data`: user data and its length (9.2.3.16, 9.2.3.24)
//! - `validity_period`: validity periods (9.2.3.12)
#![tactic(auto)]

mod address_field;
mod bits;
mod carrier;
mod codes;
mod deliver;
mod deliver_report;
mod down;
mod fault;
pub mod laws;
mod more_messages;
mod name_field;
mod parameters;
mod slices;
mod status_report;
mod submit;
mod submit_report;
mod time_field;
mod up;
mod user_data;
mod validity_period;

pub use address_field::write_relay_address;
pub use carrier::Carrier;
pub use codes::{FailureCause, Status};
pub use deliver::{Deliver, write_deliver};
pub use deliver_report::{DeliverReport, write_deliver_report};
pub use down::{Down, read_down, write_down};
pub use fault::TpduFault;
pub use more_messages::{same_message, set_more_messages};
pub use parameters::Parameters;
pub use status_report::{StatusReport, write_status_report};
pub use submit::{Submit, write_submit};
pub use submit_report::{SubmitReport, write_submit_report};
pub use up::{Up, read_up, write_up};
pub use user_data::UserData;
pub use validity_period::{ValidityPeriod, validity};
