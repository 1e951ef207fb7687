//! The rows of a handset as tables of a database that `sqlite3` opens.
//!
//! Each list of rows is a STRICT table with one key, its columns numbers, texts and octets (`StoredRow<HandsetStore>`).
//! `Meta` is the table of the store's version and kind. `is_handset_schema` answers whether a database has these
//! tables.

mod discarded;
mod entries;
mod group;
mod kind;
mod last;
mod outbox;
mod schema;
mod words;

pub use kind::HandsetStore;
pub use schema::{counters_table, is_handset_schema};
