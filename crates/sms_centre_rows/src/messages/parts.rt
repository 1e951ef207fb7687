//! The parts of messages without their TPDUs.
ghost use Rattle.std.specs.Prelude.{◌≡◌};
ghost use Rattle.sms_centre_rows.specs.messages.PartEntries.{entry_key, entry_reaching, part_entry};

use crate::messages::part::PartRow;
use crate::waiting::Progress;
use sms_base::MessageId;
use sms_concat::ConcatKey;
use sms_rows::table::{Key, Row};

/// A part without its TPDU, which stays in the store.
#[derive(Clone, Copy, PartialEq, Eq)]
pub struct PartEntry {
    pub id: MessageId,
    /// The part's number, from 1.
    pub number: u8,
    /// The reference of its RP-DATA.
    pub reference: u8,
    /// The key of its header, if it has one.
    pub key: Option<ConcatKey>,
    /// How far it is.
    pub progress: Progress,
}

impl Row for PartEntry {
    ghost key = { entry_key };

    fn key(&self) -> Key {
        Key::pair(self.id.number(), self.number)
    }
}

impl PartEntry {
    /// The part, so far.
    pub fn reaching(&self, progress: &Progress) -> PartEntry
        ensures { result ≡ entry_reaching progress.now self.now }
    {
        PartEntry {
            id: self.id,
            number: self.number,
            reference: self.reference,
            key: self.key,
            progress: *progress,
        }
    }
}

impl PartRow {
    /// The part without its TPDU.
    pub fn entry(&self) -> PartEntry
        ensures { result ≡ part_entry self.now }
    {
        PartEntry {
            id: self.id,
            number: self.number,
            reference: self.reference,
            key: self.key,
            progress: self.progress,
        }
    }
}
