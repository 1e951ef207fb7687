//! Digits that octets spell.
ghost use Rattle.std.specs.Prelude.{◌≡◌, ◌==◌, length};
ghost use Rattle.std.specs.Str.{bytes_eq};

use sms_base::Digits;

// Whether the characters are the octets', of which there are as many.
fn are_codes(characters: &[char], octets: &[u8]) -> bool
    requires { length characters.now ≡ length octets.now }
    ensures { result ≡ bytes_eq characters.now octets.now }
{
    for place in 0..characters.len() {
        if characters[place] != char::from(octets[place]) {
            return false;
        }
    }
    true
}

/// Whether the octets spell the digits.
pub fn spell(octets: &[u8], digits: &Digits) -> bool
    ensures { result ≡ bytes_eq digits.now octets.now }
{
    let characters = digits.as_slice();
    characters.len() == octets.len() && are_codes(characters, octets)
}
