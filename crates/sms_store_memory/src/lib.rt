//! Both stores in memory, for runs without a database.
//!
//! Each keep is like the one over a database: a commit makes all changes or none. It is refused only where a growth was
//! refused, and is never closed.
//!
//! - `centre`: a centre's rows in memory
//! - `handset`: a handset's rows in memory
//! - `revising`: rows that keep a TPDU, changed in a table
#![tactic(auto)]

pub mod centre;
pub mod handset;
mod preparing;
pub mod revising;
