//! The messages that a service centre accepted, and their parts.
//!
//! A message's row says who submitted it and how it ended. The rows of its parts have their DELIVERs as made when their
//! references were given, and how far each is. Whether a part is done is in the part's row alone. `specs/messages` says
//! what a message still has to bring to its handset, and when all its parts are done. It also says under which
//! references the centre may split a message (3GPP TS 23.040 9.2.3.24.8), and which of them stay barred by a row of their own
//! once a message is forgotten.

mod bar;
mod claim;
pub mod laws;
mod message;
mod newest;
mod part;
mod parts;
mod priority;

pub use bar::BarRow;
pub use claim::Claim;
pub use message::{MessageRow, is_delivered};
pub use newest::newest_change;
pub use part::PartRow;
pub use parts::PartEntry;
pub use priority::PriorityRow;
