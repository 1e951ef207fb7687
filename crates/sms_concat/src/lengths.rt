//! How much a short message has room for.
ghost use Rattle.std.specs.Prelude.{◌≡◌, ◌↔◌, true, ◌≤◌, ◌<◌, length, nat_le};
ghost use Rattle.sms_alphabet.specs.Packing.{AreSeptets};
ghost use Rattle.sms_concat.specs.UserData.{capacity, data_length, header_of, AreUnits, FitsBehind, HasRoom};

use crate::content::{Content, Part};
use sms_alphabet::{Coding, ConcatKey, ConcatReference, greatest_length, header_septets};

// Whether each is a septet.
fn are_septets(units: &[u8]) -> bool
    ensures { (result ≡ true) ↔ AreSeptets units.now }
{
    for unit in units {
        if *unit >= 128 {
            return false;
        }
    }
    true
}

fn are_units(coding: Coding, units: &[u8]) -> bool
    ensures { (result ≡ true) ↔ AreUnits coding units.now }
{
    match coding {
        Coding::Septets => are_septets(units),
        _ => true,
    }
}

// How much of TP-UDL a header of so many octets takes.
pub(crate) fn taken(coding: Coding, header: usize) -> usize
    requires { header ≤ 256 }
    ensures { result ≡ data_length coding header 0 }
{
    match coding {
        Coding::Septets => header_septets(header),
        _ => header,
    }
}

/// Whether so many units fit one short message behind a header of so many octets: at most 160 septets or 140 octets, the
/// header included.
pub fn units_fit_behind(coding: Coding, header: usize, units: usize) -> bool
    requires { header ≤ 256 }
    ensures { result ≡ nat_le (data_length coding header units) (capacity coding) }
{
    let taken = taken(coding, header);
    let capacity = usize::from(greatest_length(coding));
    taken <= capacity && units <= capacity - taken
}

/// Whether a content fits one short message behind a header of so many octets, 0 for none. It may have 160 septets,
/// each below 128, or 140 octets, the header included.
pub fn fits_behind(header: usize, content: &Content) -> bool
    requires { header ≤ 256 }
    ensures { (result ≡ true) ↔ FitsBehind header content.now }
{
    units_fit_behind(content.coding, header, content.units.len())
        && are_units(content.coding, content.units.as_slice())
}

/// How many octets the header of a key has, at most 7.
pub fn header_length(key: Option<ConcatKey>) -> usize
    ensures is { result ≡ length (header_of key) }
    ensures short { result ≤ 256 }
{
    match key {
        None => 0,
        Some(key) => match key.reference {
            ConcatReference::EightBit(_) => 6,
            ConcatReference::SixteenBit(_) => 7,
        },
    }
}

/// Whether a part fits one short message behind the header of its key.
pub fn fits(part: &Part) -> bool
    ensures { (result ≡ true) ↔ HasRoom part.now }
{
    fits_behind(header_length(part.key), &part.content)
}
