//! The outcome of an event.

use crate::rows::Changes;
use sms_base::{Listed, Moment};
use sms_handset_rows::outbox::Notice;
use sms_link::{Link, Outgoing};
use sms_rows::table::Table;

/// What an event changes and sends, and all that a restart forgets as it will be, ready made.
#[derive(Drop)]
pub struct Finished {
    pub changes: Changes,
    pub frames: Listed<Outgoing>,
    pub moment: Moment,
    pub link: Link,
    pub notices_wanted: u32,
    pub notices: Table<Notice>,
    pub is_recovered: bool,
    /// How many slots are taken then.
    pub taken: u64,
}
