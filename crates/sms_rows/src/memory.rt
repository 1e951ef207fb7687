//! Lists of rows in memory, for a keep that is no database.
//!
//! Such a keep copies the rows that it is made of, with `copy_of_rows`. What a commit brings it copies before it changes
//! anything.

mod copying;

pub use copying::{CopiedRow, copy_of_rows};
