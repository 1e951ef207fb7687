//! What a handset is still to get.
ghost use Rattle.std.specs.Prelude.{◌≡◌};
ghost use Rattle.sms_centre_rows.specs.waiting.Keys.{queued_key};
ghost use Rattle.sms_centre_rows.specs.waiting.Waiting.{is_due as is_due_of, precedes as precedes_of};

use sms_base::{MessageId, Moment};
use sms_rows::table::{Key, Row};

/// A part of a pending message that isn't done, or an open status report.
#[derive(Clone, Copy, PartialEq, Eq)]
pub struct QueuedPart {
    /// The message.
    pub id: MessageId,
    /// The number of the part, from 1, or 0 for the status report.
    pub number: u8,
    /// The reference of its RP-DATA, kept over all attempts.
    pub reference: u8,
    /// 0 to 3; the greatest is offered first.
    pub priority: u8,
    /// When it is offered next.
    pub due: Moment,
}

impl Row for QueuedPart {
    ghost key = { queued_key };

    fn key(&self) -> Key {
        Key::pair(self.id.number(), self.number)
    }
}

impl QueuedPart {
    /// Whether it is due at or before that moment.
    pub fn is_due(&self, now: Moment) -> bool
        ensures { result ≡ is_due_of now self.now }
    {
        self.due.seconds() <= now.seconds()
    }

    /// Whether it is offered before the other, once both are due: by priority, moment, message, number.
    pub fn precedes(&self, other: &QueuedPart) -> bool
        ensures { result ≡ precedes_of self.now other.now }
    {
        if self.priority != other.priority {
            return other.priority < self.priority;
        }
        if self.due.seconds() != other.due.seconds() {
            return self.due.seconds() < other.due.seconds();
        }
        if self.id.number() != other.id.number() {
            return self.id.number() < other.id.number();
        }
        self.number < other.number
    }
}
