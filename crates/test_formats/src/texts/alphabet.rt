//! The default alphabet, its packing, UCS2 and data coding schemes.
ghost use Rattle.std.specs.Prelude.{◌<◌};

use crate::rows::{are, holds, is_written};
use crate::texts::other_implementations::{SEPTETS, UCS2};
use sms_alphabet::{
    Coding, check, dcs, fill_bits, greatest_length, header_septets, pack, septets_of, text_of,
    ucs2_of, ucs2_text, unpack,
};
use sms_base::Octets;
use std::alloc::Global;
use std::test::Fail;

// Whether the septets are read as the text, which is not so where they have a fault.
fn reads_as(alloc: Global, septets: &[u8], text: &str) -> bool {
    match text_of(alloc, septets) {
        Ok(read) => read.as_str() == text,
        Err(_) => false,
    }
}

// Whether octets of UCS2 are read as the text.
fn reads_ucs2(alloc: Global, octets: &[u8], text: &str) -> bool {
    match ucs2_text(alloc, octets) {
        Ok(read) => read.as_str() == text,
        Err(_) => false,
    }
}

// Whether octets of UCS2 are read as the text, and the text is written so.
fn is_ucs2(alloc: Global, text: &str, octets: &[u8]) -> bool {
    match ucs2_of(alloc, text) {
        Ok(written) => are(written.as_slice(), octets) && reads_ucs2(alloc, octets, text),
        Err(_) => false,
    }
}

// Whether the packed octets are read as the septets.
fn unpacks(alloc: Global, packed: &[u8], fill: u8, septets: &[u8]) -> bool
    requires { fill < 7 }
{
    let Ok(count) = u8::try_from(septets.len()) else {
        return false;
    };
    if check(packed, fill, count).is_err() {
        return false;
    }
    match unpack(alloc, packed, fill, count) {
        Ok(unpacked) => are(unpacked.as_slice(), septets),
        Err(_) => false,
    }
}

// Whether a text has these septets, which are packed so behind the fill bits.
fn spells(alloc: Global, text: &str, septets: &[u8], fill: u8, octets: &[u8]) -> bool
    requires { fill < 7 }
{
    match septets_of(alloc, text) {
        Ok(spelled) => {
            are(spelled.as_slice(), septets)
                && is_written(pack(alloc, spelled.as_slice(), fill), &[octets])
        }
        Err(_) => false,
    }
}

// Whether it does, and text and septets are read again.
fn is_packed(alloc: Global, text: &str, septets: &[u8], fill: u8, octets: &[u8]) -> bool {
    if fill >= 7 {
        return false;
    }
    spells(alloc, text, septets, fill, octets)
        && reads_as(alloc, septets, text)
        && unpacks(alloc, octets, fill, septets)
}

// The octets that the hexadecimal digits of a field of a line write.
fn octets_in(alloc: Global, line: &str, place: usize) -> Option<Octets> {
    match hex::decode(alloc, line.split(' ').nth(place)?) {
        Ok(octets) => Some(Octets::from_vec(octets)),
        Err(_) => None,
    }
}

fn text_in(alloc: Global, line: &str) -> Option<String> {
    let octets = octets_in(alloc, line, 0)?;
    ucs2_text(alloc, octets.as_slice()).ok()
}

fn fill_in(line: &str) -> Option<u8> {
    line.split(' ').nth(2)?.parse::<u8>().ok()
}

// Whether the last two fields of a line agree with its text and its septets.
fn septets_agree(alloc: Global, text: &str, septets: &[u8], line: &str) -> bool {
    let Some(fill) = fill_in(line) else {
        return false;
    };
    match octets_in(alloc, line, 3) {
        Some(octets) => is_packed(alloc, text, septets, fill, octets.as_slice()),
        None => false,
    }
}

fn line_agrees(alloc: Global, line: &str) -> bool {
    let Some(text) = text_in(alloc, line) else {
        return false;
    };
    match octets_in(alloc, line, 1) {
        Some(septets) => septets_agree(alloc, text.as_str(), septets.as_slice(), line),
        None => false,
    }
}

fn ucs2_agrees(alloc: Global, text: &[u8], octets: &[u8]) -> bool {
    match str::from_utf8(text) {
        Ok(text) => is_ucs2(alloc, text, octets),
        Err(_) => false,
    }
}

fn ucs2_line_agrees(alloc: Global, line: &str) -> bool {
    let Some(text) = octets_in(alloc, line, 0) else {
        return false;
    };
    match octets_in(alloc, line, 1) {
        Some(octets) => ucs2_agrees(alloc, text.as_slice(), octets.as_slice()),
        None => false,
    }
}

const PACKED: &[(&str, &[u8], &[u8])] = &[
    ("", b"", b""),
    ("hello", b"hello", b"\xE8\x32\x9B\xFD\x06"),
    ("€", b"\x1B\x65", b"\x9B\x32"),
    ("aaaaaaa", b"aaaaaaa", b"\xE1\x70\x38\x1C\x0E\x87\x01"),
    ("aaaaaaa@", b"aaaaaaa\x00", b"\xE1\x70\x38\x1C\x0E\x87\x01"),
];

// What no one writes.
const ODD_SEPTETS: &[(&[u8], &str)] = &[
    (b"\x1B\x65", "€"),
    (b"\x1B\x41", "A"),
    (b"\x1B\x1B\x65", " e"),
    (b"\x61\x1B", "a "),
];

// Whether a text goes through every call of the default alphabet.
fn goes_through(alloc: Global, text: &str) -> bool {
    let Ok(septets) = septets_of(alloc, text) else {
        return false;
    };
    match pack(alloc, septets.as_slice(), 6) {
        Ok(packed) => {
            packed.len() / 7 == septets.len() / 8 && reads_as(alloc, septets.as_slice(), text)
        }
        Err(_) => false,
    }
}

fn goes_through_ucs2(alloc: Global, text: &str) -> bool {
    match ucs2_of(alloc, text) {
        Ok(octets) => reads_ucs2(alloc, octets.as_slice(), text),
        Err(_) => false,
    }
}

// A text of so many characters of the extension table, which take the most octets.
fn goes_through_both(alloc: Global, length: usize) -> bool {
    match "€".repeat(alloc, length) {
        Ok(text) => {
            goes_through(alloc, text.as_str()) && goes_through_ucs2(alloc, text.as_str())
        }
        Err(_) => false,
    }
}

// The longest text of 20 parts, and one far longer.
const LENGTHS: &[usize] = &[1_520, 16_384];

// As many septets as one octet can count.
const MOST_SEPTETS: &[u8] = &[0x61; 255];

fn most_are_packed(alloc: Global, text: &str) -> bool {
    let Ok(septets) = septets_of(alloc, text) else {
        return false;
    };
    match pack(alloc, septets.as_slice(), 6) {
        Ok(packed) => unpacks(alloc, packed.as_slice(), 6, MOST_SEPTETS),
        Err(_) => false,
    }
}

fn most_are_unpacked(alloc: Global) -> bool {
    match "a".repeat(alloc, 255) {
        Ok(text) => most_are_packed(alloc, text.as_str()),
        Err(_) => false,
    }
}

// What is refused: a text, septets, octets behind fill bits that are to be so many septets, or octets of UCS2.
#[derive(Clone, Copy)]
enum Refused {
    Text(&'static str),
    Septets(&'static [u8]),
    Packed(&'static [u8], u8, u8),
    Ucs2(&'static [u8]),
}

fn code_of(alloc: Global, refused: &Refused) -> Option<&'static str> {
    match refused {
        Refused::Text(text) => match septets_of(alloc, text) {
            Ok(_) => None,
            Err(fault) => fault.code(),
        },
        Refused::Septets(septets) => match text_of(alloc, septets) {
            Ok(_) => None,
            Err(fault) => fault.code(),
        },
        Refused::Packed(octets, fill, count) if *fill < 7 => {
            match unpack(alloc, octets, *fill, *count) {
                Ok(_) => None,
                Err(fault) => fault.code(),
            }
        }
        Refused::Packed(_, _, _) => None,
        Refused::Ucs2(octets) => match ucs2_text(alloc, octets) {
            Ok(_) => None,
            Err(fault) => fault.code(),
        },
    }
}

const REFUSED: &[(Refused, &str, &str)] = &[
    (Refused::Text("aж"), "S1", "a character without a code"),
    (Refused::Text("\u{1B}"), "S1", "the escape"),
    (Refused::Septets(b"\x41\x80"), "S2", "no septet"),
    (
        Refused::Packed(b"\xE8", 0, 2),
        "S3",
        "a septet that is missing",
    ),
    (Refused::Packed(b"\xE8\x32", 0, 1), "S6", "a spare octet"),
    (Refused::Packed(b"\x01", 1, 0), "S6", "a fill bit"),
    (Refused::Ucs2(b"\xD8\x3D"), "S5", "half a pair"),
    (
        Refused::Ucs2(b"\xD8\x3D\xDE"),
        "S4",
        "half a pair and an octet",
    ),
    (
        Refused::Ucs2(b"\xD8\x3D\x00\x41"),
        "S5",
        "half a pair and a letter",
    ),
    (
        Refused::Ucs2(b"\xDE\x00\x00"),
        "S5",
        "the other half and an octet",
    ),
];

#[test]
fn texts_are_written_and_read(rt: HostRuntime) -> Result<(), Fail> {
    let alloc = rt.alloc();
    for line in SEPTETS.lines() {
        holds(line_agrees(alloc, line), line)?;
    }
    for line in UCS2.lines() {
        holds(ucs2_line_agrees(alloc, line), line)?;
    }
    for (text, septets, octets) in PACKED {
        holds(is_packed(alloc, text, septets, 0, octets), text)?;
    }
    holds(is_ucs2(alloc, "ж😀", b"\x04\x36\xD8\x3D\xDE\x00"), "UCS2")?;
    for (septets, text) in ODD_SEPTETS {
        holds(reads_as(alloc, septets, text), text)?;
    }
    for (refused, code, name) in REFUSED {
        holds(code_of(alloc, refused) == Some(*code), name)?;
    }
    for length in LENGTHS {
        holds(goes_through_both(alloc, *length), "a long text")?;
    }
    holds(most_are_unpacked(alloc), "255 septets")
}

const CODINGS: &[(u8, Coding)] = &[
    (0x00, Coding::Septets),
    (0x04, Coding::Octets),
    (0x08, Coding::Ucs2),
    (0x0C, Coding::Septets),
    (0x11, Coding::Septets),
    (0x15, Coding::Octets),
    (0x20, Coding::Compressed),
    (0x7C, Coding::Compressed),
    (0x84, Coding::Septets),
    (0xC8, Coding::Septets),
    (0xD0, Coding::Septets),
    (0xE0, Coding::Ucs2),
    (0xF1, Coding::Septets),
    (0xF5, Coding::Octets),
    (0xFC, Coding::Octets),
];

// How many septets stand behind a header of so many octets, and how many fill bits.
fn room_behind(header: u8) -> (usize, u8) {
    let taken = header_septets(usize::from(header));
    let room = usize::from(greatest_length(Coding::Septets)).saturating_sub(taken);
    (room, fill_bits(usize::from(header)))
}

// The rooms that the standard gives behind a header of an 8-bit and of a 16-bit reference.
const ROOMS: &[(u8, (usize, u8), &str)] = &[
    (6, (153, 1), "an 8-bit reference"),
    (7, (152, 0), "a 16-bit reference"),
];

#[test]
fn codings_have_names_and_rooms() -> Result<(), Fail> {
    for (octet, coding) in CODINGS {
        holds(dcs(*octet) == *coding, "a coding")?;
    }
    for (header, room, name) in ROOMS {
        holds(room_behind(*header) == *room, name)?;
    }
    holds(greatest_length(Coding::Ucs2) == 140, "UCS2")
}
