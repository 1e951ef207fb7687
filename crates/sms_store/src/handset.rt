//! A handset's store: its rows in a database that `sqlite3` opens.
//!
//! The tables are those of `sms_store_tables::handset`, and one row of counters. `HandsetKeep` is the keep of a handset:
//! it commits the changes of an event in one transaction and loads the rows. A stop inside a call leaves the rows from
//! before it or from after it.

mod commit;
mod counters;
mod founding;
mod kept;
mod readying;

use crate::keeping::StoreKeep;
pub use crate::keeping::in_memory;
pub use counters::CountersRow;
use sms_handset::Setup;

/// The rows of a handset in a database: a file, or memory.
pub type HandsetKeep<S> = StoreKeep<Setup, S>;
