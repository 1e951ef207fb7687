//! Whether a unit can carry an address.
ghost use Rattle.std.specs.Prelude.{◌≡◌};
ghost use Rattle.sms_centre_rows.specs.conditions.AddressTest.{is_address as is_address_of, is_name_within as is_name_within_of};

use sms_base::{Address, are_digits, has_code, width_of};

// Digits in a number, semi-octets of 1 to 20 (3GPP TS 23.040 9.1.2.5).
const MOST_DIGITS: usize = 20;

// Septets in a name: as many as fit 20 semi-octets.
const MOST_SEPTETS: u8 = 11;

fn is_name_within(left: u8, characters: &[char]) -> bool
    ensures { result ≡ is_name_within_of left characters.now }
{
    match characters {
        [] => true,
        [first, rest @ ..] => {
            let width = width_of(*first);
            if width <= left {
                has_code(*first) && is_name_within(left - width, rest)
            } else {
                false
            }
        }
    }
}

/// Whether a unit can carry the address. Its numbering plan is below 16, and it has 1 to 20 digits `0-9*#abc` or a name
/// of 1 to 11 septets.
pub fn is_address(address: &Address) -> bool
    ensures { result ≡ is_address_of address.now }
{
    let characters = address.digits.as_slice();
    if address.npi >= 16 || characters.is_empty() {
        return false;
    }
    if address.ton.is_name() {
        is_name_within(MOST_SEPTETS, characters)
    } else {
        characters.len() <= MOST_DIGITS && are_digits(characters)
    }
}
