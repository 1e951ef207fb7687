//! Septets into octets.
ghost use Rattle.std.specs.Prelude.{◌≡◌, ◌<◌, ◌≤◌, ◌^◌, IfOk, length, take, drop, ◌+◌, ◌*◌};
ghost use Rattle.sms_base.specs.Reading.{AreOctets};
ghost use Rattle.sms_alphabet.specs.Packing.{IsPacking, AreSeptets, packed, packed_len, value_in};

use sms_base::Octets;
use std::alloc::{AllocError, Global};

// How many octets that many septets take behind `fill` bits.
fn octets_for(fill: u8, septets: usize) -> usize
    ensures { result ≡ packed_len fill septets }
{
    septets / 8 * 7 + (usize::from(fill) + septets % 8 * 7 + 7) / 8
}

// The number whose digits in base 128 the first eight septets are, the least first.
fn first_eight(septets: &[u8]) -> u64
    requires enough { 8 ≤ length septets.now }
    requires septets { AreSeptets septets.now }
    ensures value { result ≡ value_in 128 (take 8 septets.now) }
    ensures range { result < 2 ^ 56 }
{
    match septets {
        [a, b, c, d, e, f, g, h, ..] => u64::from(*a)
            + (u64::from(*b) << 7)
            + (u64::from(*c) << 14)
            + (u64::from(*d) << 21)
            + (u64::from(*e) << 28)
            + (u64::from(*f) << 35)
            + (u64::from(*g) << 42)
            + (u64::from(*h) << 49),
        _ => unreachable!(),
    }
}

// The octets, from left to right.
fn pack_from_left(alloc: Global, septets: &[u8], fill: u8) -> Result<Octets, AllocError>
    requires fill_in_range { fill < 7 }
    requires septets { AreSeptets septets.now }
    ensures { IfOk result (λ octets. IsPacking septets.now fill octets) }
{
    let mut out = Octets::with_capacity(alloc, octets_for(fill, septets.len()))?;
    let mut held: u64 = 0;
    let eights = septets.len() / 8;
    for i in 0..eights {
        held |= first_eight(&septets[8 * i..]) << fill;
        out.append(&held.to_le_bytes()[..7])?;
        held >>= 56;
    }
    let mut bits: u8 = fill;
    for i in 8 * eights..septets.len() {
        held |= u64::from(septets[i]) << bits;
        bits += 7;
        if bits >= 8 {
            out.push((held & 0xff) as u8)?;
            held >>= 8;
            bits -= 8;
        }
    }
    if bits > 0 {
        out.push(held as u8)?;
    }
    Ok(out)
}

// Octets are below 256.
fn are_octets(octets: &[u8])
    ensures { AreOctets octets.now }
{}

/// The septets packed into octets behind `fill` bits of zero (3GPP TS 23.038 6.1.2.1).
///
/// Takes memory once.
pub fn pack(alloc: Global, septets: &[u8], fill: u8) -> Result<Octets, AllocError>
    requires fill_in_range { fill < 7 }
    requires septets { AreSeptets septets.now }
    ensures packing { IfOk result (λ octets. IsPacking septets.now fill octets) }
    ensures exact { IfOk result (λ octets. octets ≡ packed fill septets.now) }
{
    let octets = pack_from_left(alloc, septets, fill)?;
    are_octets(octets.as_slice());
    Ok(octets)
}
