//! The priorities of messages.
ghost use Rattle.std.specs.Prelude.{◌≡◌};
ghost use Rattle.sms_centre_rows.specs.messages.Messages.{priority_key};

use sms_base::MessageId;
use sms_rows::table::{Key, Row};

/// The priority of a message, 0 to 3.
#[derive(Clone, Copy, PartialEq, Eq)]
pub struct PriorityRow {
    pub id: MessageId,
    pub priority: u8,
}

impl Row for PriorityRow {
    ghost key = { priority_key };

    fn key(&self) -> Key {
        Key::of(self.id.number())
    }
}
