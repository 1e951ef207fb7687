//! The content of a message, and a part of it.
ghost use Rattle.std.specs.Prelude.{◌≡◌, IfOk};

use sms_alphabet::{Coding, ConcatKey};
use sms_base::Octets;
use std::alloc::{AllocError, Global};

/// What a message says.
#[derive(Debug, Drop)]
pub struct Content {
    /// How it is coded.
    pub coding: Coding,
    /// The data coding scheme (3GPP TS 23.038 4).
    pub dcs: u8,
    /// Septets, one in each octet; or octets; or the octets of UCS2, two for each unit, the high one first.
    pub units: Octets,
}

/// What one short message carries of a content.
#[derive(Debug, Drop)]
pub struct Part {
    /// The part's own units, coded as the whole content is.
    pub content: Content,
    /// The part's place in a long message, if it has one.
    pub key: Option<ConcatKey>,
}

/// The user data fields of a short message (3GPP TS 23.040 9.2.3.16, 9.2.3.23, 9.2.3.24).
#[derive(Drop)]
pub struct UserData {
    /// Whether the octets begin with a header (TP-UDHI).
    pub header_indicator: bool,
    /// How many septets of the default alphabet, or else octets, header and fill bits included (TP-UDL).
    pub length: u8,
    /// The header, if any, and the units (TP-UD).
    pub octets: Octets,
}

/// The units, owned.
pub(crate) fn owned(alloc: Global, units: &[u8]) -> Result<Octets, AllocError>
    ensures { IfOk result (λ octets. octets ≡ units.now) }
{
    let mut octets = Octets::with_capacity(alloc, units.len())?;
    octets.append(units)?;
    Ok(octets)
}
