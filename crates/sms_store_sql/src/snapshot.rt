//! A copy in memory of a database that somebody else may have open.
//!
//! Whoever has a database in a file open locks it. `copy_at` reads the file and its log without a lock, both as of one
//! moment. `connect` gives a connection to the database of those two, over files in memory. Whatever is done by it, the
//! copied files stay unchanged.

mod connecting;
mod copying;

pub use connecting::connect;
pub use copying::{DatabaseCopy, copy_at};
