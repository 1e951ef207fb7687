//! The steps from earlier versions of a centre's store to version 3.
//!
//! Version 2 has a table of priorities, in which each message of version 1 gets 0, and an index of the reports by their
//! messages. Version 3 has a table of bars, which is empty then. All other rows stay. `raise` takes the whole step from
//! version 1 in one transaction, and `raise_second` that from version 2. A failure changes nothing, and a stop inside it
//! leaves the store of the earlier version or of version 3. `IsFirstStore`, `IsSecondStore` and `IsStore` say what each
//! version is of a centre's rows.
//!
//! - `migrating`: a store of an earlier version becomes one of version 3
#![tactic(auto)]

mod migrating;

pub use migrating::{raise, raise_second};
