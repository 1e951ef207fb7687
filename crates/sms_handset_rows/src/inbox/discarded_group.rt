//! Groups that the owner discarded.
ghost use Rattle.sms_handset_rows.specs.inbox.Keys.{mark_key};

use crate::inbox::entry::Group;
use sms_base::Octets;
use sms_rows::table::{Key, Row};

/// A discarded group, until each of its parts has arrived.
#[derive(Drop)]
pub struct DiscardedGroup {
    /// The entry number of the group's first stored part.
    pub number: u32,
    pub group: Group,
    /// The numbers of the parts that arrived, in the order of their arrival.
    pub seen: Octets,
}

impl Row for DiscardedGroup {
    ghost key = { mark_key };

    fn key(&self) -> Key {
        Key::of(u64::from(self.number))
    }
}
