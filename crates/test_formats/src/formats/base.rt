//! Moments, addresses, identities and lists: worked values, and each call at its greatest size.
use crate::examples::LEAP_DAY;
use crate::rows::{are, holds};
use sms_base::{Address, Listed, MessageId, Moment, Msisdn, Octets, TypeOfNumber};
use std::alloc::{AllocError, Global};
use std::test::Fail;

const LEAP_DAY_STAMP: [u8; 7] = [0x42, 0x20, 0x92, 0x32, 0x95, 0x85, 0x00];

// The seconds of a time stamp, or the code of its fault.
fn stamp_seconds(stamp: [u8; 7]) -> Result<u64, &'static str> {
    match Moment::from_scts(stamp) {
        Ok(moment) => Ok(moment.seconds()),
        Err(fault) => Err(fault.code()),
    }
}

// Leap day at UTC, one quarter hour ahead of it, and one behind it. February has no 30th.
const STAMPS: &[([u8; 7], Result<u64, &str>)] = &[
    (LEAP_DAY_STAMP, Ok(LEAP_DAY)),
    (
        [0x42, 0x20, 0x92, 0x32, 0x95, 0x85, 0x10],
        Ok(LEAP_DAY - 900),
    ),
    (
        [0x42, 0x20, 0x92, 0x32, 0x95, 0x85, 0x18],
        Ok(LEAP_DAY + 900),
    ),
    ([0x42, 0x20, 0x03, 0x32, 0x95, 0x85, 0x00], Err("M1")),
];

// The seconds of a time of SMPP, or the code of its fault.
fn smpp_seconds(text: &[u8], now: Moment) -> Result<u64, &'static str> {
    match Moment::from_smpp(text, now) {
        Ok(moment) => Ok(moment.seconds()),
        Err(fault) => Err(fault.code()),
    }
}

// On leap day. Times of SMPP are dates or lengths.
const SMPP_TIMES: &[(&[u8], Result<u64, &str>)] = &[
    (b"240229235958000+", Ok(LEAP_DAY)),
    (b"240301005958004+", Ok(LEAP_DAY)),
    (b"000001000000000R", Ok(LEAP_DAY + 86_400)),
    (b"240230235958000+", Err("M2")),
    (b"240229235958049+", Err("M2")),
];

// The type of an address and how many characters it has, or why there is none.
fn address_of(ton: u8, npi: u8, text: &str) -> Result<(TypeOfNumber, usize), &'static str> {
    match Address::new(ton, npi, text) {
        Ok(address) => Ok((address.ton, address.digits.len())),
        Err(fault) => Err(fault.code()),
    }
}

type AddressRow = (
    u8,
    u8,
    &'static str,
    Result<(TypeOfNumber, usize), &'static str>,
);

// The first two are the longest number and the longest name.
const ADDRESSES: &[AddressRow] = &[
    (
        1,
        1,
        "0123456789*#abc01234",
        Ok((TypeOfNumber::International, 20)),
    ),
    (5, 0, "Hello World", Ok((TypeOfNumber::Alphanumeric, 11))),
    (1, 1, "447700900123", Ok((TypeOfNumber::International, 12))),
    (5, 0, "Bank €10", Ok((TypeOfNumber::Alphanumeric, 8))),
    (1, 1, "", Err("A1")),
    (1, 1, "123456789012345678901", Err("A2")),
    (5, 0, "€€€€€€", Err("A2")),
    (1, 1, "12x", Err("A3")),
    (5, 0, "ж", Err("A4")),
    (7, 1, "", Err("A5")),
    (1, 16, "", Err("A5")),
];

// Whether the digits of the number are those of the text.
fn is_spelled(number: &Msisdn, text: &str) -> bool {
    let digits = number.digits();
    digits.as_slice().iter().copied().eq(text.chars())
}

// Whether the text spells the number of a handset, which then spells it again.
fn spells_number(text: &str) -> bool {
    match Msisdn::of(text.as_bytes()) {
        Some(number) => {
            is_spelled(&number, text) && Msisdn::of_digits(&number.digits()) == Some(number)
        }
        None => false,
    }
}

// The longest number has 20 digits. A plus sign is no digit.
const NUMBERS: &[(&str, bool)] = &[
    ("447700900123", true),
    ("0", true),
    ("0123456789*#abc01234", true),
    ("", false),
    ("123456789012345678901", false),
    ("12x", false),
    ("+447700900123", false),
];

// The digits of the handset that an address names, if it names one.
fn names_handset(ton: u8, text: &str) -> bool {
    match Address::new(ton, 1, text) {
        Ok(address) => match address.handset() {
            Some(number) => is_spelled(&number, text),
            None => false,
        },
        Err(_) => false,
    }
}

// Unknown, international and national numbers of the digits 0 to 9 name handsets.
const NAMED: &[(u8, &str, bool)] = &[
    (0, "7700900123", true),
    (1, "447700900123", true),
    (2, "7700900123", true),
    (3, "7700900123", false),
    (5, "7700900123", false),
    (1, "44770*", false),
];

fn identity_digits(number: u64) -> Option<[u8; 10]> {
    match MessageId::new(number) {
        Some(id) => Some(id.digits()),
        None => None,
    }
}

fn identity_number(text: &[u8]) -> Option<u64> {
    match MessageId::read(text) {
        Some(id) => Some(id.number()),
        None => None,
    }
}

const IDENTITIES: &[(&[u8], Option<u64>)] = &[
    (b"0000070214", Some(70_214)),
    (b"9999999999", Some(9_999_999_999)),
    (b"0000000000", None),
    (b"+000070214", None),
];

#[test]
fn moments_addresses_and_identities_are_read() -> Result<(), Fail> {
    let now = Moment::from_seconds(LEAP_DAY)?;
    holds(now.to_scts() == LEAP_DAY_STAMP, "a leap day")?;
    for (stamp, seconds) in STAMPS {
        holds(stamp_seconds(*stamp) == *seconds, "a time stamp")?;
    }
    for (text, seconds) in SMPP_TIMES {
        holds(smpp_seconds(text, now) == *seconds, "a time of SMPP")?;
    }
    for (ton, npi, text, address) in ADDRESSES {
        holds(address_of(*ton, *npi, text) == *address, text)?;
    }
    for (text, is_number) in NUMBERS {
        holds(spells_number(text) == *is_number, text)?;
    }
    for (ton, text, is_named) in NAMED {
        holds(names_handset(*ton, text) == *is_named, text)?;
    }
    for (text, number) in IDENTITIES {
        holds(identity_number(text) == *number, "an identity")?;
    }
    holds(
        identity_digits(70_214) == Some(*b"0000070214"),
        "its digits",
    )
}

// Grows octet by octet, and then by a copy of itself.
fn grow(octets: &mut Octets, alloc: Global) -> Result<(), AllocError> {
    for _ in 0..65_536 {
        octets.push(0x61)?;
    }
    let copy = Octets::copy_of(alloc, octets.as_slice())?;
    octets.append(copy.as_slice())
}

fn are_doubled(octets: &[u8]) -> bool {
    let (front, back) = octets.split_at(octets.len().min(65_536));
    front.len() == 65_536 && are(front, back)
}

fn octets_grow(alloc: Global) -> bool {
    match Octets::with_capacity(alloc, 1) {
        Ok(mut octets) => grow(&mut octets, alloc).is_ok() && are_doubled(octets.as_slice()),
        Err(_) => false,
    }
}

fn list_grows(alloc: Global) -> bool {
    let mut items = Listed::new(alloc);
    for item in 0..1_000_u32 {
        if items.push(item).is_err() {
            return false;
        }
    }
    items.len() == 1_000
}

#[test]
fn lists_grow(rt: HostRuntime) -> Result<(), Fail> {
    holds(octets_grow(rt.alloc()), "octets")?;
    holds(list_grows(rt.alloc()), "a list")
}
