//! The handsets that were given a reference.
ghost use Rattle.std.specs.Prelude.{◌≡◌};
ghost use Rattle.sms_centre_rows.specs.waiting.Keys.{handset_key};
ghost use Rattle.sms_centre_rows.specs.waiting.References.{given_row, mentioned as mentioned_of};

use crate::waiting::reference::ReferenceRow;
use sms_base::{Moment, Msisdn};
use sms_rows::table::{Key, Row};

/// A handset that was given a reference.
#[derive(Clone, Copy, PartialEq, Eq)]
pub struct HandsetRow {
    /// The handset's place in the order of first mention, from 1.
    pub place: u32,
    pub number: Msisdn,
    /// The reference that was given last, 0 to 255.
    pub last_reference: u8,
}

impl Row for HandsetRow {
    ghost key = { handset_key };

    fn key(&self) -> Key {
        Key::of(u64::from(self.place))
    }
}

impl HandsetRow {
    /// The row once the reference was given.
    pub fn mentioned(self, reference: u8) -> HandsetRow
        ensures { result ≡ mentioned_of self reference }
    {
        HandsetRow {
            last_reference: reference,
            ..self
        }
    }

    /// The row of the reference that is given at that moment.
    pub fn given(&self, reference: u8, now: Moment) -> ReferenceRow
        ensures { result ≡ given_row self.now reference now }
    {
        ReferenceRow {
            place: self.place,
            reference,
            last: now,
        }
    }
}
