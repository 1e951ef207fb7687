//! The reports that an event made.
use sms_base::MessageId;
use sms_rows::table::{Key, Row};

/// The place of a message's report among an event's changes.
#[derive(Clone, Copy)]
pub(crate) struct MadeEntry {
    pub(crate) id: MessageId,
    pub(crate) at: usize,
}

impl Row for MadeEntry {
    ghost key = { λ m. m.id };

    fn key(&self) -> Key {
        Key::of(self.id.number())
    }
}
