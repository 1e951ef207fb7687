//! Whether a database is a store of a kind.
//!
//! A table is planned by one list of its columns (`table!`): its name, its columns (`ColumnPlan`), its key and its texts
//! (`StoredTable`). `is_schema` says whether a database has the planned tables and indexes, and no others. So a store is
//! known by its schema before any row is read. Then `listing::judge` judges the row that has its kind and version.

mod blank;
mod columns;
mod indexes;
mod list;
mod plan;
mod tables;

pub use blank::is_blank;
pub use columns::ColumnPlan;
pub use indexes::IndexPlan;
pub use sqlite_schema::schema::Kind;
pub use tables::{StoredTable, is_schema};
