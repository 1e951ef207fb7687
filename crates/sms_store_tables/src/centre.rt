//! The rows of a centre as tables of a database that `sqlite3` opens.
//!
//! Each list of rows is a STRICT table with one key, its columns numbers, texts and octets (`StoredRow<CentreStore>`).
//! `Meta` is the table of the store's version and kind. Version 2 has the priorities of messages, and version 3 the bars.
//! All other tables are those of version 1. Of the earlier versions only `Meta` is a list of its own. A part and a report
//! are found by their keys too, a report by its message, for which version 2 has an index. One text changes how far each
//! is. `complete_tables` makes what version 1 lacks, and `make_bar_table` what version 2 lacks.

mod bars;
mod completing;
mod handsets;
mod kind;
mod messages;
mod parts;
mod pieces;
mod priorities;
mod references;
mod reports;
mod schema;

pub use completing::{complete_tables, make_bar_table};
pub use kind::{CentreStore, FirstCentreStore, SecondCentreStore};
pub use schema::{is_centre_schema, is_first_schema, is_second_schema};
