//! The values that every layer above shares.
//!
//! A moment and an address equal their spelling. A time stamp is read as the moment that its clock shows (3GPP TS
//! 23.040 9.2.3.11). A moment is written as one time stamp. `Address::new` gives the address of a text, or the text's
//! first fault from the left. Contracts see `Octets` and `OctetView` as a list of octets. `Cursor` reads octets from
//! left to right, in the words of `specs/Reading.antt`, which all formats share. Only `Octets` and `Listed` take
//! memory.
//!
//! - `address`: addresses: type of number, numbering plan and text
//! - `address_error`: why a text is no address
//! - `address_text`: the text of an address, judged character by character
//! - `alphabet`: the two tables of the default alphabet (3GPP TS 23.038 6.2.1)
//! - `carried`: what a frame carries: its kind, its reference and its holder
//! - `clock`: the civil calendar as seconds
//! - `cursor`: octets that are read from left to right
//! - `digit_keys`: the number by which digits are kept
//! - `digits`: up to 20 characters of an address
//! - `final_state`: how a message ends
//! - `holder`: for whom a reference was given
//! - `laws`: laws of time stamps and identities
//! - `lending`: a large value that its one owner lends
//! - `listed`: lists that contracts see by their items
//! - `markup`: text in markup
//! - `message_id`: the number of a message, and its text of ten digits
//! - `moment`: seconds, and time stamps both ways
//! - `msisdn`: the number of a handset
//! - `octets`: owned and borrowed octets
//! - `originator`: who submitted a message
//! - `priority`: how urgent a message is, 0 to 3
//! - `semi_octet`: digits as semi-octets (3GPP TS 23.040 9.1.2.3)
//! - `smpp_time`: the times of SMPP (SMPP v3.4 7.1.1)
//! - `text_writing`: text put at the end of octets
//! - `type_of_number`: the type of number of an address (3GPP TS 23.040 9.1.2.5)
//! - `wish`: at which ends an originator wants a report
#![tactic(auto)]

mod address;
mod address_error;
mod address_text;
mod alphabet;
mod carried;
mod clock;
mod cursor;
mod digit_keys;
mod digit_octets;
mod digits;
mod final_state;
mod holder;
pub mod laws;
pub mod lending;
mod listed;
pub mod markup;
mod message_id;
mod moment;
mod moment_order;
mod msisdn;
mod octets;
mod originator;
mod priority;
mod semi_octet;
mod smpp_time;
mod text_writing;
mod type_of_number;
mod wish;

pub use address::Address;
pub use address_error::AddressError;
pub use address_text::{are_digits, has_code, is_digit, width_of};
pub use alphabet::{
    Code, ESCAPE, EXTENSION_TABLE, MAIN_TABLE, character_after_escape, character_of, code_of,
};
pub use carried::{Carried, Kind};
pub use cursor::Cursor;
pub use digit_keys::digits_key;
pub use digit_octets::digits_of;
pub use digits::Digits;
pub use final_state::FinalState;
pub use holder::Holder;
pub use listed::Listed;
pub use message_id::MessageId;
pub use moment::{Moment, MomentError};
pub use moment_order::{earlier, later};
pub use msisdn::{Msisdn, are_numbers};
pub use octets::{OctetView, Octets};
pub use originator::Originator;
pub use priority::Priority;
pub use semi_octet::{digit_of, semi_octet_of};
pub use smpp_time::SmppTimeError;
pub use text_writing::{put_characters, put_decimal};
pub use type_of_number::TypeOfNumber;
pub use wish::Wish;
