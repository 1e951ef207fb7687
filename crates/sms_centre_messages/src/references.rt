//! Which references and TP-MRs earlier messages claim, so that a submission is compared with all of them at the cost
//! of one.
//!
//! A message that the centre split holds its reference until it is wholly delivered. The reference of a 16-bit
//! header that arrived with a submission is barred for ever. Once such a message is forgotten, a bar stands for its
//! claim. The reference that was given last says where the search for the next one begins (3GPP TS 23.040
//! 9.2.3.24.8). While a message of a handset is pending, its TP-MR bars another one where duplicates are rejected
//! (9.2.3.25). `ReferenceIndex` counts these for each source and handset, and answers as the definitions over all
//! rows do.

mod adopting;
mod bars;
mod counts;
mod ends;
mod message_ends;
mod moves;
mod recover;
mod reference_index;
mod reserve;

pub(crate) use ends::own_reference;
pub use message_ends::{MessageEnds, Sender};
pub use reference_index::ReferenceIndex;
pub use reserve::ReferenceIndexReserve;
