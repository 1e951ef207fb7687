//! A centre's rows in memory, for runs without a database.
//!
//! `MemoryKeep` is a keep like the one over a database: a commit makes all changes or none. It is refused only where a
//! growth was refused, and is never closed. It reads bodies too, so it is the store of a centre.

mod bodies;
mod copies;
mod gathering;
mod keep;
mod revisions;

pub use keep::MemoryKeep;
