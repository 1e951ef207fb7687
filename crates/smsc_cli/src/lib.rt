//! The words of the programs, and the tables that they print.
//!
//! Words give exactly the values that clap's matches have for their options; all else is bad words. A table is exactly
//! its definition's text.
//!
//! - `centre_table`: the table of a centre's store
//! - `columns`: cells of a table, and texts on one line
//! - `handset_table`: the table of a handset's store
//! - `words`: the words of `handset`, `smscd` and `smsim`
#![tactic(auto)]

pub mod centre_table;
pub mod columns;
pub mod handset_table;
pub mod words;
