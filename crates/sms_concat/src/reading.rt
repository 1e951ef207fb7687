//! The part that user data fields carry.
ghost use Rattle.std.specs.Prelude.{◌≡◌, ◌≤◌, length, IfOk};
ghost use Rattle.sms_concat.specs.UserData.{header_size, octets_behind, septets_behind, units_behind, part_in, AnswersPartRead, Tests};
ghost use Rattle.sms_alphabet.specs.Concatenation.{header_key};

use crate::content::{Content, Part, owned};
use sms_alphabet::{
    Coding, ConcatKey, Header, UnpackError, check, concat_info, dcs, fill_bits, header_septets,
    unpack,
};
use sms_base::Octets;
use std::alloc::Global;

// How many octets the header takes, its length octet included.
fn header_size(indicator: bool, octets: &[u8]) -> Result<usize, UnpackError>
    ensures is { result ≡ header_size indicator octets.now }
    ensures short { IfOk result (λ size. (size ≤ 256) × (size ≤ length octets.now)) }
{
    if !indicator {
        return Ok(0);
    }
    match octets {
        [] => Err(UnpackError::TooShort),
        [size, rest @ ..] => {
            if rest.len() < usize::from(*size) {
                Err(UnpackError::TooShort)
            } else {
                Ok(usize::from(*size) + 1)
            }
        }
    }
}

/// The concatenation key of the header that user data begins with, if it has one.
pub fn header_key(indicator: bool, octets: &[u8]) -> Option<ConcatKey>
    ensures { result ≡ header_key indicator octets.now }
{
    if !indicator {
        return None;
    }
    match Header::read(octets) {
        Ok(header) => concat_info(&header),
        Err(_) => None,
    }
}

// Whether as many octets stand behind a header of so many as the length says.
fn test_octets(header: usize, length: u8, octets: &[u8]) -> Result<(), UnpackError>
    requires { header ≤ 256 }
    ensures { Tests result (octets_behind header length octets.now) }
{
    let room = usize::from(length);
    if octets.len() < room.saturating_sub(header) {
        return Err(UnpackError::TooShort);
    }
    if room < header || room - header < octets.len() {
        return Err(UnpackError::SpareBits);
    }
    Ok(())
}

// Whether as many septets stand behind a header of so many octets as the length says, and no other bit.
fn test_septets(header: usize, length: u8, octets: &[u8]) -> Result<(), UnpackError>
    requires { header ≤ 256 }
    ensures { Tests result (septets_behind header length octets.now) }
{
    let taken = header_septets(header);
    if usize::from(length) < taken {
        return match octets {
            [] => Ok(()),
            [_, ..] => Err(UnpackError::SpareBits),
        };
    }
    let count = (usize::from(length) - taken) as u8;
    check(octets, fill_bits(header), count)
}

fn test_units(coding: Coding, header: usize, length: u8, octets: &[u8]) -> Result<(), UnpackError>
    requires { header ≤ 256 }
    ensures { Tests result (units_behind coding header length octets.now) }
{
    match coding {
        Coding::Septets => test_septets(header, length, octets),
        _ => test_octets(header, length, octets),
    }
}

/// Whether the user data fields carry a part, or why they do not: as `part_of`, without memory.
pub fn check_user_data(
    header_indicator: bool,
    data_coding_scheme: u8,
    length: u8,
    octets: &[u8],
) -> Result<(), UnpackError>
    ensures { Tests result (part_in header_indicator data_coding_scheme length octets.now) }
{
    let size = header_size(header_indicator, octets)?;
    let coding = dcs(data_coding_scheme);
    let (_, behind) = octets.split_at(size);
    test_units(coding, size, length, behind)
}

// The octets behind a header of so many.
fn octets_behind(
    alloc: Global,
    header: usize,
    length: u8,
    octets: &[u8],
) -> Result<Octets, UnpackError>
    requires { header ≤ 256 }
    ensures { AnswersPartRead result (octets_behind header length octets.now) }
{
    test_octets(header, length, octets)?;
    Ok(owned(alloc, octets)?)
}

// The septets behind a header of so many octets.
fn septets_behind(
    alloc: Global,
    header: usize,
    length: u8,
    octets: &[u8],
) -> Result<Octets, UnpackError>
    requires { header ≤ 256 }
    ensures { AnswersPartRead result (septets_behind header length octets.now) }
{
    test_septets(header, length, octets)?;
    let taken = header_septets(header);
    if usize::from(length) < taken {
        return Ok(Octets::new(alloc));
    }
    let count = (usize::from(length) - taken) as u8;
    unpack(alloc, octets, fill_bits(header), count)
}

// The units behind a header of so many octets.
fn units_behind(
    alloc: Global,
    coding: Coding,
    header: usize,
    length: u8,
    octets: &[u8],
) -> Result<Octets, UnpackError>
    requires { header ≤ 256 }
    ensures { AnswersPartRead result (units_behind coding header length octets.now) }
{
    match coding {
        Coding::Septets => septets_behind(alloc, header, length, octets),
        _ => octets_behind(alloc, header, length, octets),
    }
}

/// The part that the user data fields carry: TP-UDHI, TP-DCS, TP-UDL and TP-UD.
///
/// Its key is that of the header, and none where elements don't fill the header. Refused as too short: fewer
/// octets than the header or the length say; as spare bits: octets behind them, or a bit outside the septets.
pub fn part_of(
    alloc: Global,
    header_indicator: bool,
    data_coding_scheme: u8,
    length: u8,
    octets: &[u8],
) -> Result<Part, UnpackError>
    ensures { AnswersPartRead result (part_in header_indicator data_coding_scheme length octets.now) }
{
    let size = header_size(header_indicator, octets)?;
    let coding = dcs(data_coding_scheme);
    let (_, behind) = octets.split_at(size);
    let units = units_behind(alloc, coding, size, length, behind)?;
    let key = header_key(header_indicator, octets);
    let content = Content {
        coding,
        dcs: data_coding_scheme,
        units,
    };
    Ok(Part { content, key })
}
