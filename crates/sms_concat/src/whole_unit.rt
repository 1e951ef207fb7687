//! The whole units of a content.
ghost use Rattle.std.specs.Prelude.{◌≡◌, ◌<◌, ◌≤◌, ◌∷◌, length, take, drop};
ghost use Rattle.sms_concat.specs.WholeUnits.{whole_units, septet_units, ucs2_units, is_high_surrogate, is_low_surrogate};

use sms_alphabet::Coding;

// The septet that opens a pair (3GPP TS 23.038 6.2.1).
const ESC: u8 = 0x1b;

fn is_high_surrogate(octet: u8) -> bool
    ensures { result ≡ is_high_surrogate octet }
{
    (0xd8..=0xdb).contains(&octet)
}

fn is_low_surrogate(octet: u8) -> bool
    ensures { result ≡ is_low_surrogate octet }
{
    (0xdc..=0xdf).contains(&octet)
}

// How many of the septets the first whole unit has.
fn septets_of_first(septets: &[u8]) -> usize
    requires { 0 < length septets.now }
    ensures first { septet_units septets.now ≡ take result septets.now ∷ septet_units (drop result septets.now) }
    ensures within { (0 < result) × (result ≤ length septets.now) × (result ≤ 4) }
{
    match septets {
        [ESC, _, ..] => 2,
        _ => 1,
    }
}

// How many of the octets of UCS2 the first whole unit has.
fn octets_of_first(octets: &[u8]) -> usize
    requires { 0 < length octets.now }
    ensures first { ucs2_units octets.now ≡ take result octets.now ∷ ucs2_units (drop result octets.now) }
    ensures within { (0 < result) × (result ≤ length octets.now) × (result ≤ 4) }
{
    match octets {
        [high, _, high_behind, _, ..]
            if is_high_surrogate(*high) && is_low_surrogate(*high_behind) => 4,
        [_, _, ..] => 2,
        _ => 1,
    }
}

/// How many of the units the first whole unit has.
pub(crate) fn first_unit(coding: Coding, units: &[u8]) -> usize
    requires { 0 < length units.now }
    ensures first { whole_units coding units.now ≡ take result units.now ∷ whole_units coding (drop result units.now) }
    ensures within { (0 < result) × (result ≤ length units.now) × (result ≤ 4) }
{
    match coding {
        Coding::Septets => septets_of_first(units),
        Coding::Ucs2 => octets_of_first(units),
        Coding::Octets | Coding::Compressed => 1,
    }
}
