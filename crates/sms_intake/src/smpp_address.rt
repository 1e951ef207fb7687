//! The addresses of a submit_sm.
ghost use Rattle.std.specs.Prelude.{◌≡◌, IfSome, Some};
ghost use Rattle.sms_base.specs.Address.{IsAddress};
ghost use Rattle.sms_intake.specs.SmppIntake.{address_in, handset_named, is_ascii, source_in};

use smpp_pdu::{CommandStatus, SmeAddress};
use sms_base::{Address, Msisdn};

pub(crate) fn is_ascii(octets: &[u8]) -> bool
    ensures { result ≡ is_ascii octets.now }
{
    octets.iter().all(|octet| *octet < 128)
}

/// The address that an entity of a PDU names, if it is one in ASCII.
pub fn address_in(entity: &SmeAddress<'_>) -> Option<Address>
    ensures is { result ≡ address_in entity.now }
    ensures valid { IfSome result (λ address. IsAddress address) }
{
    let octets = entity.addr.as_slice();
    if !is_ascii(octets) {
        return None;
    }
    match str::from_utf8(octets) {
        Ok(text) => Address::new(entity.ton, entity.npi, text).ok(),
        Err(_) => None,
    }
}

/// The source that an entity of a PDU names; an empty one is the account's address.
pub fn source_in(own: &Address, entity: &SmeAddress<'_>) -> Option<Address>
    ensures { result ≡ source_in own.now entity.now }
{
    if entity.addr.as_slice().is_empty() {
        return Some(*own);
    }
    address_in(entity)
}

// The number of the handset that the address names.
fn named_by(address: &Address) -> Result<Msisdn, CommandStatus>
    requires { IsAddress address.now }
    ensures { result ≡ handset_named (Some address.now) }
{
    address.handset().ok_or(CommandStatus::ESME_RINVDSTADR)
}

// The number of the handset that a destination names.
pub(crate) fn handset_in(entity: &SmeAddress<'_>) -> Result<Msisdn, CommandStatus>
    ensures { result ≡ handset_named (address_in entity.now) }
{
    match address_in(entity) {
        Some(address) => named_by(&address),
        None => Err(CommandStatus::ESME_RINVDSTADR),
    }
}
