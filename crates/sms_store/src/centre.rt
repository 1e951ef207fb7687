//! A centre's store: its rows in a database that `sqlite3` opens.
//!
//! The tables are those of `sms_store_tables::centre`, version 3. `CentreKeep` is the keep of a centre: it commits the
//! changes of an event in one transaction, loads the rows and reads one body at a time. A stop inside a call leaves the
//! rows from before it or from after it. `CentreKeep::migrate`, `migrate_from` and `migrate_over` also open a store of
//! version 1 or 2.

mod bodies;
mod closing;
mod founding;
mod gathering;
mod kept;
mod migrating;
mod readying;
mod tables;

use crate::keeping::StoreKeep;
pub use crate::keeping::in_memory;
pub use closing::what_was_left_is_not_raised;
use sms_centre_spec::Setup;
pub use sms_store_migration::{raise, raise_second};

/// The rows of a centre in a database: a file, or memory.
pub type CentreKeep<S> = StoreKeep<Setup, S>;
