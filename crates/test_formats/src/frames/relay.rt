//! Whole units in the octets of a network trace, and at their greatest size.
use crate::examples::{DELIVER, SMMA, SUBMIT};
use crate::rows::{are, holds, is_written};
use sms_base::{OctetView, Octets};
use sms_relay::{RelayFault, Rp, RpCause, read_down, read_up, write_down, write_up};
use std::alloc::{AllocError, Global};
use std::test::Fail;

const CENTRE: &[u8] = b"\x91\x44\x77\x00\x09\x00\x00";

const REPORT: &[u8] = b"\x01\x00\x42\x20\x92\x32\x95\x85\x00";

const REFUSAL: &[u8] = b"\x01\xC6\x00\x42\x20\x92\x32\x95\x85\x00";

const DATA_UP: &[u8] =
    b"\x00\x03\x00\x07\x91\x44\x77\x00\x09\x00\x00\x12\x01\x07\x0C\x91\x44\x77\x00\x09\x40\x65\x00\x00\x05\xE8\x32\x9B\xFD\x06";

const DATA_DOWN: &[u8] =
    b"\x01\x00\x07\x91\x44\x77\x00\x09\x00\x00\x00\x18\x04\x0C\x91\x44\x77\x00\x09\x10\x32\x00\x00\x42\x20\x92\x32\x95\x85\x00\x05\xE8\x32\x9B\xFD\x06";

const ACK_DOWN: &[u8] = b"\x03\x03\x41\x09\x01\x00\x42\x20\x92\x32\x95\x85\x00";

const ERROR_DOWN: &[u8] = b"\x05\x03\x01\x15\x41\x0A\x01\xC6\x00\x42\x20\x92\x32\x95\x85\x00";

const ERROR_UP: &[u8] = b"\x04\x01\x01\x16\x41\x03\x00\xD3\x00";

// What a unit of a handset is, or the code of its fault.
fn word_up(octets: &[u8]) -> &'static str {
    match read_up(octets) {
        Ok(
            Rp::DataUnit {
                reference: 3,
                centre,
                unit,
            },
        ) if are(centre.as_slice(), CENTRE) && are(unit.as_slice(), SUBMIT) => "RP-DATA",
        Ok(
            Rp::ErrorUnit {
                cause: RpCause::MemoryCapacityExceeded,
                ..
            },
        ) => "RP-ERROR",
        Ok(Rp::AckUnit { unit: Some(_), .. }) => "RP-ACK",
        Ok(Rp::Smma { reference: 5 }) => "RP-SMMA",
        Ok(_) => "none",
        Err(fault) => fault.code(),
    }
}

// What a unit of a centre is.
fn word_down(octets: &[u8]) -> &'static str {
    match read_down(octets) {
        Ok(
            Rp::AckUnit {
                reference: 5,
                unit: None,
            },
        ) => "RP-ACK",
        Ok(
            Rp::ErrorUnit {
                cause: RpCause::Interworking,
                ..
            },
        ) => "RP-ERROR",
        Ok(_) => "none",
        Err(fault) => fault.code(),
    }
}

const UNITS: &[(&[u8], &str)] = &[
    (DATA_UP, "RP-DATA"),
    (ERROR_UP, "RP-ERROR"),
    (b"\x02\x00\x41\x02\x00\x00", "RP-ACK"),
    (SMMA, "RP-SMMA"),
    (b"\x00", "J1"),
    (b"\x02\x03\x41", "J1"),
    (b"\x06\x05\x00", "J2"),
    (b"\x02\x03\x40", "J2"),
    (b"\x07", "J3"),
    (b"\x00\x03\x01", "J4"),
    (b"\x00\x03\x00\x01", "J4"),
    (b"\x04\x01\x03", "J4"),
    (b"\x04\x01\x01\x80", "J4"),
];

// The codes of causes.
const CAUSES: &[(u8, RpCause, &str)] = &[
    (97, RpCause::MessageTypeNonExistent, "cause 97"),
    (11, RpCause::Reserved(11), "cause 11"),
    (42, RpCause::Congestion, "cause 42"),
];

// A cut of RP-DATA is truncated, and nothing else.
#[test]
fn units_are_read() -> Result<(), Fail> {
    for (octets, wanted) in UNITS {
        holds(word_up(octets) == *wanted, wanted)?;
    }
    for length in 0..DATA_UP.len() {
        holds(word_up(&DATA_UP[..length]) == "J1", "a front")?;
    }
    holds(word_down(b"\x03\x05") == "RP-ACK", "RP-ACK of a centre")?;
    holds(RelayFault::Truncated.code() == "J1", "a code")?;
    for (number, cause, name) in CAUSES {
        holds(
            RpCause::of(*number) == *cause && cause.number() == *number,
            name,
        )?;
    }
    Ok(())
}

// The longest address of a centre: a type octet and 20 digits.
const LONGEST_CENTRE: [u8; 11] = [
    0x91, 0x21, 0x43, 0x65, 0x87, 0x09, 0x21, 0x43, 0x65, 0x87, 0x09,
];

// The longest TPDU that a unit has room for.
const LONGEST: [u8; 255] = [0x5A; 255];

// A unit of a centre. The longest have the longest parts that a unit has room for.
#[derive(Clone, Copy)]
enum Down {
    Data,
    Ack,
    Error,
    LongestData,
    LongestError,
}

fn written_down(alloc: Global, unit: Down) -> Result<Octets, AllocError> {
    match unit {
        Down::Data => write_down(
            alloc,
            &Rp::DataUnit {
                reference: 0,
                centre: OctetView::of(CENTRE),
                unit: OctetView::of(DELIVER),
            },
        ),
        Down::Ack => write_down(
            alloc,
            &Rp::AckUnit {
                reference: 3,
                unit: Some(OctetView::of(REPORT)),
            },
        ),
        Down::Error => write_down(
            alloc,
            &Rp::ErrorUnit {
                reference: 3,
                cause: RpCause::ShortMessageTransferRejected,
                unit: Some(OctetView::of(REFUSAL)),
            },
        ),
        Down::LongestData => write_down(
            alloc,
            &Rp::DataUnit {
                reference: 255,
                centre: OctetView::of(&LONGEST_CENTRE),
                unit: OctetView::of(&LONGEST),
            },
        ),
        Down::LongestError => write_down(
            alloc,
            &Rp::ErrorUnit {
                reference: 255,
                cause: RpCause::Interworking,
                unit: Some(OctetView::of(&LONGEST)),
            },
        ),
    }
}

const DOWN: &[(Down, &[&[u8]], &str)] = &[
    (Down::Data, &[DATA_DOWN], "RP-DATA of a centre"),
    (Down::Ack, &[ACK_DOWN], "RP-ACK of a centre"),
    (Down::Error, &[ERROR_DOWN], "RP-ERROR of a centre"),
    (
        Down::LongestData,
        &[
            &[0x01, 0xFF, 0x0B],
            &LONGEST_CENTRE,
            &[0x00, 0xFF],
            &LONGEST,
        ],
        "the longest RP-DATA of a centre",
    ),
    (
        Down::LongestError,
        &[&[0x05, 0xFF, 0x01, 0x7F, 0x41, 0xFF], &LONGEST],
        "the longest RP-ERROR",
    ),
];

// A unit of a handset.
#[derive(Clone, Copy)]
enum Up {
    Smma,
    Data,
    LongestData,
    LongestAck,
}

fn written_up(alloc: Global, unit: Up) -> Result<Octets, AllocError> {
    match unit {
        Up::Smma => write_up(alloc, &Rp::Smma { reference: 5 }),
        Up::Data => write_up(
            alloc,
            &Rp::DataUnit {
                reference: 3,
                centre: OctetView::of(CENTRE),
                unit: OctetView::of(SUBMIT),
            },
        ),
        Up::LongestData => write_up(
            alloc,
            &Rp::DataUnit {
                reference: 255,
                centre: OctetView::of(&LONGEST_CENTRE),
                unit: OctetView::of(&LONGEST),
            },
        ),
        Up::LongestAck => write_up(
            alloc,
            &Rp::AckUnit {
                reference: 255,
                unit: Some(OctetView::of(&LONGEST)),
            },
        ),
    }
}

const UP: &[(Up, &[&[u8]], &str)] = &[
    (Up::Smma, &[SMMA], "RP-SMMA"),
    (Up::Data, &[DATA_UP], "RP-DATA of a handset"),
    (
        Up::LongestData,
        &[
            &[0x00, 0xFF, 0x00, 0x0B],
            &LONGEST_CENTRE,
            &[0xFF],
            &LONGEST,
        ],
        "the longest RP-DATA of a handset",
    ),
    (
        Up::LongestAck,
        &[&[0x02, 0xFF, 0x41, 0xFF], &LONGEST],
        "the longest RP-ACK",
    ),
];

fn longest_error_is_read(alloc: Global) -> bool {
    match written_down(alloc, Down::LongestError) {
        Ok(octets) => word_down(octets.as_slice()) == "RP-ERROR",
        Err(_) => false,
    }
}

#[test]
fn units_are_written(rt: HostRuntime) -> Result<(), Fail> {
    for (unit, parts, name) in DOWN {
        holds(is_written(written_down(rt.alloc(), *unit), parts), name)?;
    }
    for (unit, parts, name) in UP {
        holds(is_written(written_up(rt.alloc(), *unit), parts), name)?;
    }
    holds(
        longest_error_is_read(rt.alloc()),
        "the longest RP-ERROR is read",
    )
}
