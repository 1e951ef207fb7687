//! The messages that were accepted.
ghost use Rattle.std.specs.Prelude.{◌≡◌};
ghost use Rattle.sms_centre_rows.specs.messages.Messages.{message_key};
ghost use Rattle.sms_centre_rows.specs.messages.SplitReferences.{is_delivered as is_delivered_of};

use sms_base::{Address, FinalState, MessageId, Moment, Msisdn, Originator, Wish};
use sms_rows::table::{Key, Row};

/// A message that was accepted.
#[derive(Drop)]
pub struct MessageRow {
    pub id: MessageId,
    pub originator: Originator,
    /// TP-OA of its parts.
    pub source: Address,
    /// The number of its destination.
    pub handset: Msisdn,
    pub data_coding_scheme: u8,
    pub protocol_identifier: u8,
    pub wish: Wish,
    pub submitted: Moment,
    /// From when on it is not delivered any more.
    pub limit: Moment,
    /// The reference of its parts' headers, where the centre split it.
    pub split_reference: Option<u16>,
    /// How it ended; a message without an end is pending.
    pub state: Option<FinalState>,
    /// When it ended.
    pub done: Option<Moment>,
}

impl Row for MessageRow {
    ghost key = { message_key };

    fn key(&self) -> Key {
        Key::of(self.id.number())
    }
}

/// Whether the message is wholly delivered.
pub fn is_delivered(state: Option<FinalState>) -> bool
    ensures { result ≡ is_delivered_of state }
{
    match state {
        Some(FinalState::Delivered) => true,
        Some(FinalState::Expired) => false,
        Some(FinalState::Deleted) => false,
        Some(FinalState::Undeliverable) => false,
        None => false,
    }
}
