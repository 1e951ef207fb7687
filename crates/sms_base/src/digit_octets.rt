//! Digits that octets spell.
ghost use Rattle.std.specs.Prelude.{◌≡◌, ◌≤◌, length};

use crate::digits::Digits;

/// The digits that the octets spell, one an octet, 20 at most.
pub fn digits_of(octets: &[u8]) -> Digits
    requires { length octets.now ≤ 20 }
    ensures { result ≡ octets.now }
{
    let mut digits = Digits::new();
    for octet in octets {
        digits.push(char::from(*octet));
    }
    digits
}
