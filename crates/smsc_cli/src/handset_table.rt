//! The table of a handset's store, for a person.
//!
//! It has two lists, the inbox and the outbox. An entry's line has its number, its originator or destination, its
//! state, and the text as far as it is text. The table is exactly that of `specs/handset_table/HandsetTable.antt`.
//! Nothing is changed.

mod content;
mod table;
mod writing;

pub use table::handset_table;
pub use writing::{ShowError, show};
