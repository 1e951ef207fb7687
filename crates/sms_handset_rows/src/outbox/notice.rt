//! The word that a handset has memory again.
ghost use Rattle.sms_handset_rows.specs.outbox.Keys.{notice_key};

use sms_base::Moment;
use sms_rows::table::{Key, Row};

/// An RP-SMMA that was sent and has not ended (3GPP TS 24.011 6.3.3.2).
#[derive(Clone, Copy, PartialEq, Eq)]
pub struct Notice {
    pub number: u32,
    pub reference: u8,
    /// Whether its second sending is all that is left, or under way.
    pub is_second: bool,
    /// When TRAM fires; none while it is under way.
    pub due: Option<Moment>,
}

impl Row for Notice {
    ghost key = { notice_key };

    fn key(&self) -> Key {
        Key::of(u64::from(self.number))
    }
}
