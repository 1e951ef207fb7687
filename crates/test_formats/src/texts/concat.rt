//! Headers of user data, and the parts of a long message.
use crate::rows::{are, holds, is_written};
use sms_alphabet::Coding;
use sms_base::Octets;
use sms_concat::{
    ConcatKey, ConcatReference, Content, Header, Part, SplitError, UserData, check_user_data,
    concat_info, fits, fits_behind, join, part_of, split, user_data, user_data_behind,
};
use std::alloc::{AllocError, Global};
use std::test::Fail;

// Letters a, some units, and letters a again.
fn units(alloc: Global, front: usize, middle: &[u8], behind: usize) -> Result<Octets, AllocError> {
    let mut units = Octets::new(alloc);
    for _ in 0..front {
        units.push(0x61)?;
    }
    units.append(middle)?;
    for _ in 0..behind {
        units.push(0x61)?;
    }
    Ok(units)
}

// The key of the header, if it has one, or the code of its fault.
fn key_of(octets: &[u8]) -> Result<Option<ConcatKey>, &'static str> {
    match Header::read(octets) {
        Ok(header) => Ok(concat_info(&header)),
        Err(fault) => Err(fault.code()),
    }
}

// Whether a header is written as it was read.
fn is_written_alike(alloc: Global, octets: &[u8]) -> bool {
    match Header::read(octets) {
        Ok(header) => is_written(header.write(alloc), &[octets]),
        Err(_) => false,
    }
}

const HEADER: &[u8] = &[5, 0, 3, 0x2a, 2, 1];

const KEY: ConcatKey = ConcatKey {
    reference: ConcatReference::EightBit(0x2a),
    total: 2,
    number: 1,
};

type HeaderRow = (&'static [u8], Result<Option<ConcatKey>, &'static str>);

// The key of the last valid element: a port address passes unread, and so does a number above its total behind it.
const HEADERS: &[HeaderRow] = &[
    (HEADER, Ok(Some(KEY))),
    (&[6, 5, 4, 0, 80, 0, 80], Ok(None)),
    (
        &[17, 5, 4, 0, 80, 0, 80, 8, 4, 1, 2, 3, 3, 0, 3, 9, 2, 4],
        Ok(Some(ConcatKey {
            reference: ConcatReference::SixteenBit(0x0102),
            total: 3,
            number: 3,
        })),
    ),
    (&[], Err("U1")),
    (&[2, 0], Err("U1")),
    (&[1, 0], Err("U2")),
    (&[3, 0, 2, 9], Err("U2")),
];

// One element of 253 octets.
fn longest_is_written(alloc: Global) -> bool {
    match units(alloc, 0, &[255, 0x61, 253], 253) {
        Ok(octets) => is_written_alike(alloc, octets.as_slice()),
        Err(_) => false,
    }
}

#[test]
fn headers_have_keys_and_faults(rt: HostRuntime) -> Result<(), Fail> {
    for (octets, key) in HEADERS {
        holds(key_of(octets) == *key, "a key")?;
    }
    holds(is_written_alike(rt.alloc(), HEADER), "a header")?;
    holds(longest_is_written(rt.alloc()), "the longest header")
}

fn is_same(one: &Part, other: &Part) -> bool {
    one.key == other.key && are(one.content.units.as_slice(), other.content.units.as_slice())
}

// The user data that carries a part, where it has room.
fn carried(alloc: Global, part: &Part) -> Option<UserData> {
    if fits(part) {
        user_data(alloc, part).ok()
    } else {
        None
    }
}

// Whether the user data of a data coding scheme carry the part.
fn carries(alloc: Global, user: &UserData, part: &Part) -> bool {
    let octets = user.octets.as_slice();
    match part_of(
        alloc,
        user.header_indicator,
        part.content.dcs,
        user.length,
        octets,
    ) {
        Ok(again) => is_same(&again, part),
        Err(_) => false,
    }
}

// The length and the octets of user data.
type Written = (u8, &'static [u8]);

// Whether a part is read as it was written, and written so.
fn is_written_as(alloc: Global, part: &Part, written: Option<Written>) -> bool {
    let Some(user) = carried(alloc, part) else {
        return false;
    };
    let is_so = match written {
        Some((length, octets)) => user.length == length && are(user.octets.as_slice(), octets),
        None => true,
    };
    is_so && carries(alloc, &user, part)
}

// Whether all parts are read as they were written.
fn are_written(alloc: Global, parts: &[Part]) -> bool {
    for part in parts {
        if !is_written_as(alloc, part, None) {
            return false;
        }
    }
    true
}

fn joins_to(alloc: Global, parts: &[Part], units: &[u8]) -> bool {
    match join(alloc, parts) {
        Ok(Some(joined)) => are(joined.units.as_slice(), units),
        _ => false,
    }
}

// Whether the first and the last part have so many units.
fn ends(parts: &[Part], first: usize, last: usize) -> bool {
    match parts {
        [only] => only.content.units.len() == first && first == last,
        [front, .., back] => front.content.units.len() == first && back.content.units.len() == last,
        [] => false,
    }
}

// What is so of a content that is split.
#[derive(Clone, Copy)]
enum Wanted {
    // The first part has so many units, and the last. They are read as written, and join to the content.
    Ends(usize, usize),
    // The second of two parts is written so.
    Second(Written),
    // It is not split, for this reason.
    Refused(&'static str),
}

fn are_so(alloc: Global, parts: &[Part], units: &[u8], wanted: &Wanted) -> bool {
    match (wanted, parts) {
        (Wanted::Ends(first, last), _) => {
            ends(parts, *first, *last) && are_written(alloc, parts) && joins_to(alloc, parts, units)
        }
        (Wanted::Second(written), [_, second]) => is_written_as(alloc, second, Some(*written)),
        _ => false,
    }
}

fn splits(alloc: Global, content: &Content, reference: u16, wanted: &Wanted) -> bool {
    match split(alloc, content, reference) {
        Ok(parts) => are_so(alloc, parts.as_slice(), content.units.as_slice(), wanted),
        Err(fault) => match wanted {
            Wanted::Refused(code) => fault.code() == Some(*code),
            _ => false,
        },
    }
}

// A content: its coding and scheme, letters a, units between them, and letters a again; the reference of its parts; and what is
// so of them.
type Splitting = (Coding, u8, usize, &'static [u8], usize, u16, Wanted);

const SPLITTINGS: &[Splitting] = &[
    (
        Coding::Septets,
        0x00,
        160,
        &[],
        0,
        0xffff,
        Wanted::Ends(160, 160),
    ),
    (
        Coding::Septets,
        0x00,
        161,
        &[],
        0,
        0xffff,
        Wanted::Ends(152, 9),
    ),
    (
        Coding::Septets,
        0x00,
        151,
        &[0x1b],
        9,
        0xffff,
        Wanted::Ends(151, 10),
    ),
    (
        Coding::Octets,
        0x04,
        140,
        &[],
        0,
        0xffff,
        Wanted::Ends(140, 140),
    ),
    (
        Coding::Octets,
        0x04,
        141,
        &[],
        0,
        0xffff,
        Wanted::Ends(133, 8),
    ),
    (
        Coding::Ucs2,
        0x08,
        140,
        &[],
        0,
        0xffff,
        Wanted::Ends(140, 140),
    ),
    (
        Coding::Ucs2,
        0x08,
        130,
        &[0xd8, 0x3d, 0xde, 0x00],
        8,
        0xffff,
        Wanted::Ends(130, 12),
    ),
    // the longest of each, in 20 parts
    (
        Coding::Septets,
        0x00,
        3040,
        &[],
        0,
        0xffff,
        Wanted::Ends(152, 152),
    ),
    (
        Coding::Octets,
        0x04,
        2660,
        &[],
        0,
        0xffff,
        Wanted::Ends(133, 133),
    ),
    (
        Coding::Ucs2,
        0x08,
        2640,
        &[],
        0,
        0xffff,
        Wanted::Ends(132, 132),
    ),
    // the second of two parts
    (
        Coding::Septets,
        0x00,
        161,
        &[],
        0,
        0,
        Wanted::Second(SECOND_PART),
    ),
    // too many parts, and compressed text
    (
        Coding::Septets,
        0x00,
        3041,
        &[],
        0,
        0,
        Wanted::Refused("C1"),
    ),
    (
        Coding::Compressed,
        0x20,
        141,
        &[],
        0,
        0,
        Wanted::Refused("C2"),
    ),
];

// A header of a 16-bit reference, and nine letters a.
const SECOND_PART: Written = (
    0x11,
    &[
        6, 8, 4, 0, 0, 2, 2, 0xe1, 0x70, 0x38, 0x1c, 0x0e, 0x87, 0xc3, 0x61,
    ],
);

fn content_of(alloc: Global, row: &Splitting) -> Result<Content, AllocError> {
    let (coding, dcs, front, middle, behind, _, _) = row;
    Ok(Content {
        coding: *coding,
        dcs: *dcs,
        units: units(alloc, *front, middle, *behind)?,
    })
}

fn splits_so(alloc: Global, row: &Splitting) -> bool {
    match content_of(alloc, row) {
        Ok(content) => splits(alloc, &content, row.5, &row.6),
        Err(_) => false,
    }
}

// Parts are as full as whole units allow.
#[test]
fn contents_are_split(rt: HostRuntime) -> Result<(), Fail> {
    for row in SPLITTINGS {
        holds(splits_so(rt.alloc(), row), "a splitting")?;
    }
    holds(SplitError::NoMemory.code().is_none(), "no memory")
}

// A header of an 8-bit reference, a fill bit and a septet.
const SHORT_PART: &[u8] = &[5, 0, 3, 0x2a, 2, 1, 0xc2];

// So many letters a.
pub(crate) fn letters(
    alloc: Global,
    coding: Coding,
    dcs: u8,
    length: usize,
) -> Result<Content, AllocError> {
    Ok(Content {
        coding,
        dcs,
        units: units(alloc, length, &[], 0)?,
    })
}

fn short_part_is_written(alloc: Global) -> bool {
    match letters(alloc, Coding::Septets, 0, 1) {
        Ok(content) => {
            let part = Part {
                content,
                key: Some(KEY),
            };
            is_written_as(alloc, &part, Some((8, SHORT_PART)))
        }
        Err(_) => false,
    }
}

// Whether a fault of the user data, eight septets with a header, has the code.
fn is_refused(alloc: Global, octets: &[u8], code: &str) -> bool {
    match part_of(alloc, true, 0, 8, octets) {
        Ok(_) => false,
        Err(fault) => fault.code() == Some(code),
    }
}

// The length that a content has behind a header of so many octets, where it fits.
fn length_behind(alloc: Global, header: &[u8], content: &Content) -> Option<u8> {
    if header.len() > 256 || !fits_behind(header.len(), content) {
        return None;
    }
    match user_data_behind(alloc, header, content) {
        Ok(user) => Some(user.length),
        Err(_) => None,
    }
}

fn letter_behind(alloc: Global, header: &[u8], coding: Coding, dcs: u8) -> Option<u8> {
    match letters(alloc, coding, dcs, 1) {
        Ok(content) => length_behind(alloc, header, &content),
        Err(_) => None,
    }
}

// A content stands behind any header that leaves room.
fn letters_stand_behind(alloc: Global) -> bool {
    match units(alloc, 0, &[138, 0x61, 136], 136) {
        Ok(header) => {
            letter_behind(alloc, header.as_slice(), Coding::Septets, 0) == Some(160)
                && letter_behind(alloc, header.as_slice(), Coding::Octets, 4) == Some(140)
        }
        Err(_) => false,
    }
}

#[test]
fn contents_stand_behind_headers(rt: HostRuntime) -> Result<(), Fail> {
    let alloc = rt.alloc();
    holds(short_part_is_written(alloc), "a part")?;
    holds(
        check_user_data(true, 0, 8, SHORT_PART).is_ok(),
        "its user data",
    )?;
    holds(
        is_refused(alloc, &[5, 0, 3, 0x2a, 2, 1, 0xc3], "S6"),
        "a fill bit",
    )?;
    holds(letters_stand_behind(alloc), "a septet and an octet")
}
