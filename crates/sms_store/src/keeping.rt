//! A keep of the rows of one side, a centre or a handset, in a database: a file, or memory.
//!
//! `Kept` says what a side keeps, and how its tables are made, written and read. `Openable` says how a database becomes a
//! store of the side. A `StoreKeep` commits the changes of an event in one transaction, and loads the rows. Its `close` leaves
//! all in the database file.

mod closing;
mod keep;
mod opening;
mod readying;
mod said;
mod sides;

pub use closing::what_was_left_is_found;
pub use keep::StoreKeep;
pub use opening::in_memory;
pub(crate) use readying::{found, judge_said};
pub(crate) use said::Said;
pub use sides::{Kept, Openable};
