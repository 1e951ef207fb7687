//! The default alphabet packed into octets, UCS2, which of them a data coding scheme names (3GPP TS 23.038), and the user
//! data header in front of them (3GPP TS 23.040 9.2.3.24).
//!
//! A text is written as the septets of its characters, or refused at the place of its first character that has none.
//! Septets, packed octets and UCS2 are read as what was written, or refused for their first fault from the left
//! (`laws`). `lengths` has how long user data may be, and how much of it a header takes, for all layers.
//!
//! A user data header is read as the list of its elements, or refused for the fault that the grammar says, and is written
//! as it was read. Its concatenation key is that of its last valid concatenation element, numbered from 1 to its total.
//!
//! - `concat_key`: what ties the parts of a long message together
//! - `element`: one element of a header
//! - `header`: the user data header
//! - `header_error`: why octets begin with no header
//! - `laws`: laws of the alphabet, of packing, of UCS2 and of headers
//! - `lengths`: how long user data may be, and how much of it a header takes
//! - `packing`: septets into octets
//! - `reading`: septets into texts
//! - `scheme`: data coding schemes
//! - `spelling`: texts into septets
//! - `ucs2`: texts into UCS2 and back
//! - `unpacking`: octets into septets
#![tactic(auto)]

mod concat_key;
mod element;
mod header;
mod header_error;
pub mod laws;
mod lengths;
mod packing;
mod reading;
mod scheme;
mod spelling;
mod ucs2;
mod unpacking;

pub use concat_key::{ConcatKey, ConcatReference};
pub use element::Element;
pub use header::{Header, concat_info};
pub use header_error::HeaderError;
pub use lengths::{fill_bits, greatest_length, header_septets};
pub use packing::pack;
pub use reading::{ReadingError, text_of};
pub use scheme::{Coding, dcs};
pub use spelling::{SpellingError, septets_of};
pub use ucs2::{Ucs2Error, ucs2_length, ucs2_of, ucs2_text};
pub use unpacking::{UnpackError, check, unpack};
