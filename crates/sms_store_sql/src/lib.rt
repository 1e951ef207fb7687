//! Lists of rows as tables of a database, whatever the rows are.
//!
//! Each call has its meaning over the list, not over SQL. Inside one transaction the table has the list with its
//! changes, and every other table stays. A transaction commits everything or nothing, and a stop inside leaves the
//! database from before or from after it. A store is known by its schema before any row is read.
//!
//! - `listing`: a list of rows as a table; whole transactions
//! - `schema`: whether a database is a store of a kind
//! - `snapshot`: a copy of a database that somebody else may have open
#![tactic(auto)]

pub mod listing;
pub mod schema;
pub mod snapshot;
