//! The destination that an application names.
ghost use Rattle.std.specs.Prelude.{◌≡◌};
ghost use Rattle.sms_centre_spec.specs.Requests.{is_destination as is_destination_of, is_to as is_to_of, names_number as names_number_of};

use smpp_pdu::SmeAddress;
use sms_base::{Address, Msisdn};
use sms_centre_rows::messages::MessageRow;
use sms_intake::address_in;

fn names_number(number: &Msisdn, address: &Option<Address>) -> bool
    ensures { result ≡ names_number_of number.now address.now }
{
    match address {
        Some(address) => { address.names_handset() && number.is_spelled(address.digits.as_slice()) }
        None => false,
    }
}

/// Whether the destination that is named is that handset; an empty one names none.
pub(crate) fn is_destination(destination: &SmeAddress<'_>, number: &Msisdn) -> bool
    ensures { result ≡ is_destination_of destination.now number.now }
{
    if destination.addr.as_slice().is_empty() {
        return true;
    }
    names_number(number, &address_in(destination))
}

/// Whether the destination that is named is the message's.
pub(crate) fn is_to(destination: &SmeAddress<'_>, message: &MessageRow) -> bool
    ensures { result ≡ is_to_of destination.now message.now }
{
    is_destination(destination, &message.handset)
}
