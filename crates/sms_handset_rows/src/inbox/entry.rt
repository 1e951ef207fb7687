//! The inbox: what a handset has stored.
ghost use Rattle.std.specs.Prelude.{◌≡◌};
ghost use Rattle.sms_handset_rows.specs.inbox.Groups.{is_open_part as is_open_part_of, part_number, part_tpdu};
ghost use Rattle.sms_handset_rows.specs.inbox.Keys.{entry_key};

use sms_base::{Address, Octets};
use sms_concat::{ConcatReference, Content};
use sms_rows::table::{Key, Row};

/// What ties the parts of one long message together at a handset (3GPP TS 23.040 9.2.3.24.1).
#[derive(Clone, Copy, PartialEq, Eq)]
pub struct Group {
    /// The whole address that the parts are from.
    pub source: Address,
    /// The reference of the message, in the width of its element.
    pub reference: ConcatReference,
    /// How many parts the message has, 1 to 255.
    pub total: u8,
}

/// What an entry holds.
#[derive(Drop)]
pub enum Message {
    /// A DELIVER as received, 1 to 255 octets.
    Single {
        tpdu: Octets,
    },
    /// A DELIVER as received, a part of an open group.
    Part {
        group: Group,
        /// Which part it is, 1 to the group's total.
        number: u8,
        tpdu: Octets,
    },
    /// A long message that was joined.
    Joined {
        source: Address,
        content: Content,
    },
}

/// An entry of the inbox.
#[derive(Drop)]
pub struct Entry {
    /// The entry's number, 1 to 4294967294. It is given once and to no entry of the outbox.
    pub number: u32,
    /// How many slots it takes: one for each part.
    pub slots: u8,
    pub message: Message,
}

impl Row for Entry {
    ghost key = { entry_key };

    fn key(&self) -> Key {
        Key::of(u64::from(self.number))
    }
}

impl Message {
    /// Whether it is a part of an open group.
    pub fn is_open_part(&self) -> bool
        ensures { result ≡ is_open_part_of self.now }
    {
        matches!(self, Message::Part { .. })
    }

    /// Which part it is; 0 of what is none.
    pub fn part_number(&self) -> u8
        ensures { result ≡ part_number self.now }
    {
        match self {
            Message::Part { number, .. } => *number,
            _ => 0,
        }
    }

    /// The octets of a single message or of a part; none of one that was joined.
    pub fn tpdu(&self) -> &[u8]
        ensures { result.now ≡ part_tpdu self.now }
    {
        match self {
            Message::Single { tpdu } => tpdu.as_slice(),
            Message::Part { tpdu, .. } => tpdu.as_slice(),
            Message::Joined { .. } => &[],
        }
    }
}
