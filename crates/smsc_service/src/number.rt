//! The numbers of handsets.
ghost use Rattle.std.specs.Prelude.{◌≡◌, true, bytes_eq};
ghost use Rattle.smsc_service.specs.Numbers.{is_number};

use sms_base::Msisdn;

/// Whether both numbers are equal.
pub(crate) fn is_same(number: &Msisdn, other: &Msisdn) -> bool
    ensures { result ≡ bytes_eq number.now other.now }
{
    number == other
}

/// It is the number of a handset.
pub(crate) fn is_number(number: &Msisdn)
    ensures { is_number number.now ≡ true }
{
    number.spells_a_number();
}
