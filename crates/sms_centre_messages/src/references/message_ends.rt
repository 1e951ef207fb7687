//! A source and a handset, as the key of a map.
ghost use Rattle.std.specs.Prelude.{◌≡◌};
ghost use Rattle.sms_centre_messages.specs.references.Keys.{key_of, pair_of};

use sms_base::{Address, Digits, Msisdn};
use sms_rows::interning::Number;

/// The source of a message: TP-OA of its parts.
#[derive(Clone, Copy, PartialEq, Eq, Hash)]
pub struct Sender {
    /// The number of its type of number.
    pub type_of_number: u8,
    /// The numbering plan of the source.
    pub plan: u8,
    pub digits: Number,
}

/// The source of a message and its destination, with a number of theirs: a reference, or 0.
#[derive(Clone, Copy, PartialEq, Eq, Hash)]
pub struct MessageEnds {
    pub source: Sender,
    pub handset: Msisdn,
    pub number: u16,
}

impl MessageEnds {
    // That number of a source and a handset.
    pub(crate) fn of(source: &Address, handset: &Msisdn, number: u16) -> MessageEnds
        ensures { result ≡ key_of source.now handset.now number }
    {
        MessageEnds {
            source: Sender {
                type_of_number: source.ton.number(),
                plan: source.npi,
                digits: Number {
                    digits: source.digits,
                },
            },
            handset: *handset,
            number,
        }
    }

    // That number of the digits of a source and a handset.
    pub(crate) fn of_digits(source: &Digits, handset: &Msisdn, number: u16) -> MessageEnds
        ensures { result ≡ pair_of source.now handset.now number }
    {
        MessageEnds {
            source: Sender {
                type_of_number: 0,
                plan: 0,
                digits: Number { digits: *source },
            },
            handset: *handset,
            number,
        }
    }
}
