//! The semi-octets of digits (3GPP TS 23.040 9.1.2.3).
ghost use Rattle.std.specs.Prelude.{◌≡◌, ◌<◌, Some, None};
ghost use Rattle.sms_base.specs.SemiOctet.{semi_octet_of, digit_of};

/// The semi-octet of a digit, 0 to 14, if the character is one of `0-9*#abc`.
pub fn semi_octet_of(character: char) -> Option<u8>
    ensures { result ≡ semi_octet_of character }
{
    if character.is_ascii_digit() {
        return Some(character as u8 - b'0');
    }
    match character {
        '*' => Some(10),
        '#' => Some(11),
        'a'..='c' => Some(character as u8 - b'a' + 12),
        _ => None,
    }
}

/// The digits of the semi-octets 0 to 14.
static DIGITS: [char; 15] = [
    '0', '1', '2', '3', '4', '5', '6', '7', '8', '9', '*', '#', 'a', 'b', 'c',
];

/// The digit of a semi-octet below 15, one of `0-9*#abc`.
#[tactic(auto, using(crate::proofs::CodeTables::digit_is))]
pub fn digit_of(semi_octet: u8) -> char
    requires { semi_octet < 15 }
    ensures { result ≡ digit_of semi_octet }
{
    DIGITS[usize::from(semi_octet)]
}
