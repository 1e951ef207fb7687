//! The parts of messages.
ghost use Rattle.std.specs.Prelude.{◌≡◌};
ghost use Rattle.sms_centre_rows.specs.messages.Messages.{part_key};

use crate::waiting::Progress;
use sms_base::{MessageId, Octets};
use sms_concat::ConcatKey;
use sms_rows::table::{Key, Row};

/// A short message of a message that was accepted.
#[derive(Drop)]
pub struct PartRow {
    pub id: MessageId,
    /// The part's number, from 1.
    pub number: u8,
    /// The reference of its RP-DATA, kept over all attempts.
    pub reference: u8,
    /// The DELIVER as made when its reference was given, with TP-MMS 1.
    pub tpdu: Octets,
    /// The key of its header, if it has one.
    pub key: Option<ConcatKey>,
    /// Whether the handset acknowledged it, how often it was tried, and when it is offered next.
    pub progress: Progress,
}

impl Row for PartRow {
    ghost key = { part_key };

    fn key(&self) -> Key {
        Key::pair(self.id.number(), self.number)
    }
}
