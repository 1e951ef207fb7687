//! The end of a message's time.
use sms_base::{MessageId, Moment};

/// From when on a message is not delivered any more.
#[derive(Clone, Copy, PartialEq, Eq, PartialOrd, Ord)]
pub struct Deadline {
    pub limit: Moment,
    pub id: MessageId,
}
