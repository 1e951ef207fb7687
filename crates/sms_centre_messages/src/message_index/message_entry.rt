//! A message's row with its numbers and its account under their places.
//!
//! It takes at most 96 octets: five words, two each for the originator and the moment of its end, and the small fields.
//! A message of one part that ended takes 144: these, 32 for its part, and 16 for its deadline until that is the first.
ghost use Rattle.std.specs.Prelude.{◌≡◌};
ghost use Rattle.sms_centre_messages.specs.message_index.Entries.{message_entry_key};

use sms_base::{FinalState, MessageId, Moment, TypeOfNumber, Wish};
use sms_rows::table::{Key, Row};

/// Who submitted a message.
#[derive(Clone, Copy, PartialEq, Eq)]
pub enum OriginatorEntry {
    /// An application, by the place of its account's name.
    Application { account: usize },
    /// The handset of the source, with its TP-MR.
    Handset { message_reference: u8 },
}

/// A message that was accepted, with places for what it shares with others.
#[derive(Clone, Copy, PartialEq, Eq)]
pub struct MessageEntry {
    pub id: MessageId,
    pub originator: OriginatorEntry,
    /// The type of number, the numbering plan and the place of the digits of its source.
    pub source_type: TypeOfNumber,
    pub source_plan: u8,
    pub source_digits: usize,
    /// The place of the digits of its destination.
    pub handset: usize,
    pub data_coding_scheme: u8,
    pub protocol_identifier: u8,
    pub wish: Wish,
    pub submitted: Moment,
    pub limit: Moment,
    pub split_reference: Option<u16>,
    pub state: Option<FinalState>,
    pub done: Option<Moment>,
}

impl Row for MessageEntry {
    ghost key = { message_entry_key };

    fn key(&self) -> Key {
        Key::of(self.id.number())
    }
}
