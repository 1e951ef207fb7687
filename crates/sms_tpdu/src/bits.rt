//! Bits of an octet, each named by its value.
ghost use Rattle.std.specs.Prelude.{◌≡◌, ◌<◌};
ghost use Rattle.sms_tpdu.specs.Bits.{bit, bit_value};

/// Whether the bit of that value is set.
pub(crate) fn bit(octet: u8, value: u8) -> bool
    requires { 0 < value }
    ensures { result ≡ bit octet value }
{
    octet / value % 2 == 1
}

/// The value of a bit that is set, or 0.
pub(crate) fn bit_value(set: bool, value: u8) -> u8
    ensures { result ≡ bit_value set value }
{
    if set { value } else { 0 }
}
