//! The references that were given.
ghost use Rattle.std.specs.Prelude.{◌≡◌};
ghost use Rattle.sms_centre_rows.specs.waiting.Keys.{reference_key};

use sms_base::Moment;
use sms_rows::table::{Key, Row};

/// A reference that was given at a handset (3GPP TS 24.011 8.2.3).
#[derive(Clone, Copy, PartialEq, Eq)]
pub struct ReferenceRow {
    /// The place of the handset in the order of first mention.
    pub place: u32,
    /// 0 to 255.
    pub reference: u8,
    /// When it was given last.
    pub last: Moment,
}

impl Row for ReferenceRow {
    ghost key = { reference_key };

    fn key(&self) -> Key {
        Key::pair(u64::from(self.place), self.reference)
    }
}
