//! The references that stay barred once their messages are forgotten.
ghost use Rattle.std.specs.Prelude.{◌≡◌};
ghost use Rattle.sms_centre_rows.specs.messages.Bars.{bar_key};

use sms_base::{Address, Msisdn};
use sms_rows::table::{Key, Row};

/// A reference that no message of a source to a handset is split under any more (3GPP TS 23.040 9.2.3.24.8). The handset
/// may hold a part under it for good, and the message that laid claim to it is forgotten.
#[derive(Drop)]
pub struct BarRow {
    /// Its place in the order in which bars were made.
    pub place: u64,
    pub source: Address,
    /// The number of the destination.
    pub handset: Msisdn,
    pub reference: u16,
    /// Whether a header had it that came with a submission. Else the centre gave it.
    pub is_own: bool,
}

impl Row for BarRow {
    ghost key = { bar_key };

    fn key(&self) -> Key {
        Key::of(self.place)
    }
}
