//! A keep over a keep: what the events of a group change, which is not committed yet, over a centre's store.
//!
//! An event's changes are held, and the store is not asked: nothing durable changes. `flush` commits what is held as the
//! changes of one event, so in one transaction: the store has the rows after all events of the group, or those from
//! before it, or is closed. A stop leaves the rows from before the group or those after it. Bodies are looked up in what
//! is held first, the newest first, and then in the store. So a centre plans over a group as over a store.
//!
//! - `group_keep`: the keep of a group
//! - `held_changes`: the changes of several events, one after another
//! - `looking`: the octets that held changes put
#![tactic(auto)]

mod group_keep;
mod held_changes;
pub mod laws;
mod looking;

pub use group_keep::GroupKeep;
pub use held_changes::HeldChanges;
