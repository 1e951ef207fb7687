//! A look at a centre's store, which changes nothing.
//!
//! `look_over` gives the rows of a connection's store, and gives the connection back, whose store has those rows still.
//! `rows_at` gives the rows of the store at a path, which a server may have open. Neither makes a store, nor brings one
//! of an earlier version to the present one.

mod file;
mod found;

pub use file::rows_at;
pub use found::{Looked, look_over};
