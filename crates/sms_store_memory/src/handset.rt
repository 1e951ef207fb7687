//! A handset's rows in memory, for runs without a database.
//!
//! `MemoryKeep` is a keep like the one over a database: a commit makes all changes or none. It is refused only where a
//! growth was refused, and is never closed.

mod changes;
mod copies;
mod keep;

pub use keep::MemoryKeep;
