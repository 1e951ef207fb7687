//! Both stores, as files that `sqlite3` opens.
//!
//! A commit makes all changes of an event in one transaction, and `load` gives what was committed. A stop inside a call
//! leaves the rows from before it or from after it. Opening judges the schema, and refuses what is no such store. These
//! promises are under the disk model of `sqlite_disk`.
//!
//! - `keeping`: the keep of either side, how it is opened and what it does
//! - `centre`: a centre's store
//! - `handset`: a handset's store
//! - `look`: a look at a centre's store, which changes nothing
#![tactic(auto)]

pub mod centre;
pub mod handset;
pub mod keeping;
pub mod look;

pub use crate::centre::CentreKeep;
pub use crate::handset::HandsetKeep;
pub use sms_rows::keep::{Keep, KeepError};
pub use sms_store_memory::centre::MemoryKeep as CentreMemoryKeep;
pub use sms_store_memory::handset::MemoryKeep as HandsetMemoryKeep;
