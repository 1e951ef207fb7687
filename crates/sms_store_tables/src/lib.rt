//! The tables of both stores, and whether a database has them.
//!
//! Each list of rows is a STRICT table with one key, its columns numbers, texts and octets, in a database that
//! `sqlite3` opens. What is written of a row is read back as that row. This crate is below the cores, so that a table
//! is proved without them.
//!
//! - `amending`: one text that changes how far a row is
//! - `centre`: the tables of a centre's store, versions 1 to 3
//! - `handset`: the tables of a handset's store
#![tactic(auto)]

pub mod amending;
pub mod centre;
pub mod handset;
mod key;
mod reading;
mod references;
