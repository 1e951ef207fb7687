//! How long user data may be, and how much of it a header takes.
ghost use Rattle.std.specs.Prelude.{◌≡◌, ◌≤◌, ◌<◌};
ghost use Rattle.sms_alphabet.specs.UserDataLength.{fill_bits, greatest_length, header_septets};

use crate::scheme::Coding;

/// The greatest length of user data, header included (3GPP TS 23.040 9.2.3.16): 160 septets or 140 octets.
pub fn greatest_length(coding: Coding) -> u8
    ensures { result ≡ greatest_length coding }
{
    match coding {
        Coding::Septets => 160,
        Coding::Octets | Coding::Ucs2 | Coding::Compressed => 140,
    }
}

/// How many septets a header of so many octets takes (3GPP TS 23.040 9.2.3.24).
pub fn header_septets(octets: usize) -> usize
    requires { octets ≤ 256 }
    ensures { result ≡ header_septets octets }
{
    (8 * octets + 6) / 7
}

/// How many fill bits are between a header of so many octets and the first septet.
pub fn fill_bits(octets: usize) -> u8
    requires { octets ≤ 256 }
    ensures is { result ≡ fill_bits octets }
    ensures few { result < 7 }
{
    (7 * header_septets(octets) - 8 * octets) as u8
}
