//! Data coding schemes.
ghost use Rattle.std.specs.Prelude.{◌≡◌};
ghost use Rattle.sms_alphabet.specs.DataCodingScheme.{alphabet_of, coding_of};

/// How the content of a message is coded.
#[derive(Clone, Copy, Debug, PartialEq, Eq)]
pub enum Coding {
    /// Septets of the default alphabet.
    Septets,
    /// Octets of any meaning.
    Octets,
    /// Octets of UCS2, two for each unit.
    Ucs2,
    /// Octets of a compressed text.
    Compressed,
}

// The alphabet that bits 3 and 2 name.
fn alphabet(bits: u8) -> Coding
    ensures { result ≡ alphabet_of bits }
{
    match bits {
        1 => Coding::Octets,
        2 => Coding::Ucs2,
        _ => Coding::Septets,
    }
}

/// How a data coding scheme says that the content is coded (3GPP TS 23.038 4).
///
/// Every octet names a coding: what is reserved is the default alphabet.
pub fn dcs(octet: u8) -> Coding
    ensures { result ≡ coding_of octet }
{
    match octet / 16 {
        0..=7 if octet / 32 % 2 == 1 => Coding::Compressed,
        0..=7 => alphabet(octet / 4 % 4),
        14 => Coding::Ucs2,
        15 if octet / 4 % 2 == 1 => Coding::Octets,
        _ => Coding::Septets,
    }
}
