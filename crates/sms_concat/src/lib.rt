//! Long messages in parts, and the user data of each (3GPP TS 23.040 9.2.3.24).
//!
//! The user data header and its concatenation key are read and written in `sms_alphabet`, and passed on here.
//! A content that fits one short message is one part without a header. A longer one is cut between whole units into
//! parts that are as full as that allows. Those parts joined are the content again. How many parts a content takes is
//! counted without memory. The user data written of a part is read as that part.
//!
//! - `content`: the content of a message, and a part of it
//! - `counting`: how many parts a content takes
//! - `joiner`: a message joined part by part
//! - `joining`: the parts of a message joined at once
//! - `laws`: laws of user data, splitting and joining
//! - `lengths`: how much a short message has room for
//! - `parts`: the parts of a content
//! - `reading`: the part that user data carries
//! - `split_error`: why a content is not split
//! - `splitting`: a content split into parts
//! - `tally`: parts counted from the sizes of whole units
//! - `text_content`: the content of a text
//! - `whole_unit`: the whole units of a content
//! - `writing`: the user data of a part
#![tactic(auto)]

mod content;
mod counting;
pub mod joiner;
mod joining;
pub mod laws;
mod lengths;
mod parts;
mod reading;
mod split_error;
mod splitting;
mod tally;
mod text_content;
mod whole_unit;
mod writing;

pub use content::{Content, Part, UserData};
pub use counting::{count_latin_parts, count_parts, count_text_parts, latin_fits_behind};
pub use joining::{add_units, bear_all, bears, count_units, is_same_reference, join, key_or_alone};
pub use lengths::{fits, fits_behind, header_length, units_fit_behind};
pub use parts::Parts;
pub use reading::{check_user_data, header_key, part_of};
pub use sms_alphabet::{
    ConcatKey, ConcatReference, Element, Header, HeaderError, concat_info, fill_bits,
    header_septets,
};
pub use split_error::SplitError;
pub use splitting::split;
pub use text_content::content_of_text;
pub use writing::{user_data, user_data_behind};
