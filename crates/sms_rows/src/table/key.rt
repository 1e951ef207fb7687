//! The keys of rows.
ghost use Rattle.std.specs.Prelude.{◌≡◌};
ghost use Rattle.sms_base.specs.Msisdn.{IsMsisdn};
ghost use Rattle.sms_rows.specs.table.Keys.{digits_key, pair_key};

use sms_base::{Digits, Msisdn, digits_key};
use std::marker::Model;

/// The key of a row: a number, a number and a small one, or digits.
///
/// Contracts see a key as one number, which orders the rows. Keys of one kind are equal exactly where what they were
/// made of is. Those of a first part are neighbours. A table has keys of one kind.
#[derive(Clone, Copy, PartialEq, Eq)]
pub struct Key {
    place: u128,
}

impl Model for Key {
    ghost use Rattle.std.specs.Prelude.{ℕ};

    ghost Value = { ℕ };

    ghost view = { λ k. k.place };

    ghost inverse = { λ n. record { place = n } };
}

impl Key {
    /// The key that is the number.
    pub fn of(number: u64) -> Key
        ensures { result ≡ number }
    {
        Key {
            place: u128::from(number),
        }
    }

    /// The number that orders the rows.
    pub fn number(self) -> u128
        ensures { result ≡ self }
    {
        self.place
    }

    /// The key of a number and a small one.
    pub fn pair(first: u64, second: u8) -> Key
        ensures { result ≡ pair_key first second }
    {
        Key {
            place: 256 * u128::from(first) + u128::from(second),
        }
    }

    /// The key of digits.
    pub fn digits(digits: &Digits) -> Key
        ensures { result ≡ digits_key digits.now }
    {
        Key {
            place: digits_key(digits.as_few()),
        }
    }

    /// The key of a handset's number.
    pub fn handset(number: &Msisdn) -> Key
        ensures key { result ≡ digits_key number.now }
        ensures number { IsMsisdn number.now }
    {
        Key {
            place: number.key(),
        }
    }
}
