//! What was accepted last.
ghost use Rattle.std.specs.Prelude.{◌≡◌, option_copied};
ghost use Rattle.sms_handset_rows.specs.inbox.Doubles.{is_double as is_double_of};
ghost use Rattle.sms_handset_rows.specs.inbox.Keys.{last_key};

use sms_base::Octets;
use sms_rows::table::{Key, Row};
use sms_tpdu::same_message;

/// The TPDU that was accepted last under a reference.
#[derive(Drop)]
pub struct LastAccepted {
    /// The reference of the RP-DATA.
    pub reference: u8,
    /// The TPDU as received.
    pub tpdu: Octets,
}

impl Row for LastAccepted {
    ghost key = { last_key };

    fn key(&self) -> Key {
        Key::of(u64::from(self.reference))
    }
}

/// Whether the TPDU is the one that was accepted last under its reference.
pub fn is_double(tpdu: &[u8], last: Option<&LastAccepted>) -> bool
    ensures { result ≡ is_double_of tpdu.now (option_copied last.entry) }
{
    match last {
        Some(last) => same_message(tpdu, last.tpdu.as_slice()),
        None => false,
    }
}
