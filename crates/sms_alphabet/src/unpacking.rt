ghost use Rattle.std.specs.Prelude.{◌≡◌, ◌<◌, ◌/◌, ◌%◌, ◌^◌, slice_index, drop, nat_lt, length, ◌≤◌, ◌+◌, ℕ, List, Ok, IfOk};
ghost use Rattle.sms_alphabet.specs.Packing.{IsPacking, AreSeptets, tested, unpacked, septets_in, digits_in, value_in, AnswersUnpacking};
ghost use Rattle.sms_alphabet.specs.declared.unpacking.UnpackError.TheVariants.{NoMemory};

use sms_base::Octets;
use std::alloc::{AllocError, Global};
use thiserror::Error;

/// Why octets could not be unpacked.
#[derive(Clone, Copy, Debug, PartialEq, Eq, Error)]
pub enum UnpackError {
    /// The octets end before the last septet does.
    #[error("the octets end too early")]
    TooShort,
    /// A bit outside the septets is not zero, or an octet is behind them.
    #[error("a bit outside the septets is not zero")]
    SpareBits,
    /// There was no memory for the septets.
    #[error("out of memory")]
    NoMemory,
}

impl UnpackError {
    ghost use Rattle.std.specs.Prelude.{◌≡◌, option_map};
    ghost use Rattle.sms_alphabet.specs.FaultCodes.{unpack_code};

    /// The code of the fault in reports, S3 and S6. Want of memory has none.
    pub fn code(self) -> Option<&'static str>
        ensures { option_map (λ s. s.now) result ≡ unpack_code self }
    {
        match self {
            UnpackError::TooShort => Some("S3"),
            UnpackError::SpareBits => Some("S6"),
            UnpackError::NoMemory => None,
        }
    }
}

impl From<AllocError> for UnpackError {
    ghost from_gives = { λ _ e. e ≡ NoMemory };

    fn from(_error: AllocError) -> UnpackError {
        UnpackError::NoMemory
    }
}

// The octet at the place, or 0 past the end.
fn octet_at(octets: &[u8], place: usize) -> u8
    ensures { result ≡ slice_index octets.now place }
{
    match octets.get(place) {
        Some(octet) => *octet,
        None => 0,
    }
}

// The seven bits from a bit on.
fn septet_at(octets: &[u8], bit: usize) -> u8
    requires { bit < 2048 }
    ensures { result ≡ value_in 256 octets.now / 2 ^ bit % 128 }
{
    let low = u16::from(octet_at(octets, bit / 8));
    let high = u16::from(octet_at(octets, bit / 8 + 1));
    ((((high << 8) | low) >> (bit % 8)) & 0x7f) as u8
}

// Whether every bit from a bit on is zero, where the octets end in its octet or before it.
fn is_clear_from(octets: &[u8], bit: usize) -> bool
    requires { length octets.now ≤ bit / 8 + 1 }
    ensures { result ≡ nat_lt (value_in 256 octets.now) (2 ^ bit) }
{
    octet_at(octets, bit / 8) >> (bit % 8) == 0
}

/// Tests the bits outside `count` septets behind `fill` bits.
pub fn check(octets: &[u8], fill: u8, count: u8) -> Result<(), UnpackError>
    requires { fill < 7 }
    ensures { result ≡ tested octets.now fill count }
{
    if octet_at(octets, 0) % (1 << fill) != 0 {
        return Err(UnpackError::SpareBits);
    }
    let end = usize::from(fill) + 7 * usize::from(count);
    let needed = (end + 7) / 8;
    if octets.len() < needed {
        return Err(UnpackError::TooShort);
    }
    if needed < octets.len() || !is_clear_from(octets, end) {
        return Err(UnpackError::SpareBits);
    }
    Ok(())
}

// The number whose digits in base 256 the octets are, the least first.
fn value_of(octets: &[u8]) -> u64
    requires { length octets.now < 8 }
    ensures value { result ≡ value_in 256 octets.now }
    ensures below { result < 256 ^ length octets.now }
{
    match octets {
        [] => 0,
        [octet, rest @ ..] => u64::from(*octet) + 256 * value_of(rest),
    }
}

// The number of the first eight octets, or of those that are there.
fn window(octets: &[u8]) -> u64
    ensures { result ≡ value_in 256 octets.now % 2 ^ 64 }
{
    match octets {
        [a, b, c, d, e, f, g, h, ..] => u64::from_le_bytes([*a, *b, *c, *d, *e, *f, *g, *h]),
        _ => value_of(octets),
    }
}

// The number of the eight octets from a place on.
fn window_at(octets: &[u8], place: usize) -> u64
    ensures { result ≡ value_in 256 (drop place octets.now) % 2 ^ 64 }
{
    match octets.get(place..) {
        Some(rest) => window(rest),
        None => 0,
    }
}

fn low_septet(number: u64) -> u8
    ensures { result ≡ number % 128 }
{
    (number % 128) as u8
}

// Eight septets from a bit on.
fn eight_septets(octets: &[u8], bit: usize) -> [u8; 8]
    ensures { result ≡ digits_in 128 8 (value_in 256 octets.now / 2 ^ bit) }
{
    let septets = window_at(octets, bit / 8) >> (bit % 8);
    [
        low_septet(septets),
        low_septet(septets >> 7),
        low_septet(septets >> 14),
        low_septet(septets >> 21),
        low_septet(septets >> 28),
        low_septet(septets >> 35),
        low_septet(septets >> 42),
        low_septet(septets >> 49),
    ]
}

fn septets(alloc: Global, octets: &[u8], fill: u8, count: u8) -> Result<Octets, AllocError>
    requires { fill < 7 }
    ensures { IfOk result (λ septets. septets ≡ septets_in octets.now fill count) }
{
    let mut out = Octets::with_capacity(alloc, usize::from(count))?;
    for i in 0..count / 8 {
        out.append(&eight_septets(octets, usize::from(fill) + 56 * usize::from(i)))?;
    }
    for i in count / 8 * 8..count {
        out.push(septet_at(octets, usize::from(fill) + 7 * usize::from(i)))?;
    }
    Ok(out)
}

/// The `count` septets that the octets pack behind `fill` bits.
pub fn unpack(alloc: Global, octets: &[u8], fill: u8, count: u8) -> Result<Octets, UnpackError>
    requires { fill < 7 }
    ensures found { IfOk result (λ septets. IsPacking septets fill octets.now × (length septets ≡ count) × AreSeptets septets) }
    ensures only { (septets : List ℕ) → AreSeptets septets → IsPacking septets fill octets.now → length septets ≡ count → AnswersUnpacking result (Ok septets) }
    ensures exact { AnswersUnpacking result (unpacked octets.now fill count) }
{
    unpack_tested(alloc, octets, fill, count)
}

fn unpack_tested(alloc: Global, octets: &[u8], fill: u8, count: u8) -> Result<Octets, UnpackError>
    requires { fill < 7 }
    ensures { AnswersUnpacking result (unpacked octets.now fill count) }
{
    check(octets, fill, count)?;
    Ok(septets(alloc, octets, fill, count)?)
}
