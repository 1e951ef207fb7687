//! The rows that a handset keeps.

use crate::counters::Counters;
use crate::setup::Setup;
use sms_handset_rows::inbox::{DiscardedGroup, Entry, LastAccepted, OpenGroups};
use sms_handset_rows::outbox::OutEntry;
use sms_rows::table::Table;

/// The rows that a handset keeps, each list by its keys, and what is kept of the entries beside them.
#[derive(Drop)]
pub struct Stored {
    pub entries: Table<Entry>,
    /// The index of the open groups among the entries.
    pub groups: OpenGroups,
    /// How many slots the entries take.
    pub taken: u64,
    pub last: Table<LastAccepted>,
    pub outbox: Table<OutEntry>,
    pub marks: Table<DiscardedGroup>,
    pub counters: Counters,
    pub setup: Setup,
}
