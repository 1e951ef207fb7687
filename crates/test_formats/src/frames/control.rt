//! Frames of the control layer: worked, with a fault, and at their greatest size.
use crate::rows::{are_parts, holds, is_written};
use sms_base::{OctetView, Octets};
use sms_control::{
    Cp, CpCause, CpFault, LinkError, MessageType, Transaction, TransactionFlag,
    TransactionIdentifier,
};
use std::alloc::{AllocError, Global};
use std::test::Fail;

// A unit for a handset, as a frame of the first transaction.
const FRAME: [u8; 39] = [
    0x09, 0x01, 0x24, 0x01, 0x00, 0x07, 0x91, 0x44, 0x77, 0x00, 0x09, 0x00, 0x00, 0x00, 0x18, 0x24,
    0x0C, 0x91, 0x44, 0x77, 0x00, 0x09, 0x00, 0x10, 0x00, 0x00, 0x42, 0x20, 0x92, 0x32, 0x95, 0x85,
    0x00, 0x05, 0xE8, 0x32, 0x9B, 0xFD, 0x06,
];

// What a frame is, or the code of its fault.
fn word(octets: &[u8]) -> &'static str {
    match Cp::read(octets) {
        Ok(Cp::DataUnit { .. }) => "CP-DATA",
        Ok(_) => "none",
        Err(fault) => fault.code(),
    }
}

const WORDS: &[(&[u8], &str)] = &[
    (&FRAME, "CP-DATA"),
    (&[0x09, 0x01, 0x00, 0x00], "P4"),
    (&[0x09, 0x01, 0xF9], "P4"),
    (&[0x08], "P3"),
    (&[0x79], "P3"),
    (&[0xF9, 0x04], "P3"),
    (&[0x09, 0x02], "P3"),
    (&[0x09, 0x04, 0x00], "P2"),
    (&[0x09, 0x01, 0x01, 0x05, 0x05], "P2"),
    (&[0x89, 0x10, 0x51, 0x00], "P2"),
    (&[0x89, 0x10], "P1"),
];

fn is_written_alike(alloc: Global, octets: &[u8]) -> bool {
    match Cp::read(octets) {
        Ok(cp) => is_written(cp.write(alloc), &[octets]),
        Err(_) => false,
    }
}

const FRAMES: &[&[u8]] = &[
    &FRAME,
    &[0x89, 0x04],
    &[0x69, 0x10, 0x51],
    &[0xE9, 0x10, 0x7F],
];

// The longest unit that a frame carries.
const LONGEST: &[u8] = &[0x5A; 248];

// Whether the octets are CP-DATA of the longest unit, in the last transaction of the other side's.
fn is_longest(octets: Result<Octets, AllocError>) -> bool {
    match octets {
        Ok(octets) => {
            are_parts(octets.as_slice(), &[&[0xE9, 0x01, 0xF8], LONGEST])
                && word(octets.as_slice()) == "CP-DATA"
        }
        Err(_) => false,
    }
}

fn longest_is_written(alloc: Global) -> bool {
    let Some(identifier) = TransactionIdentifier::new(6) else {
        return false;
    };
    let data = Cp::DataUnit {
        transaction: Transaction {
            flag: TransactionFlag::ToOriginator,
            identifier,
        },
        unit: OctetView::of(LONGEST),
    };
    is_longest(data.write(alloc))
}

// A cut of a frame is truncated, and nothing else.
#[test]
fn frames_are_read_and_written(rt: HostRuntime) -> Result<(), Fail> {
    for (octets, wanted) in WORDS {
        holds(word(octets) == *wanted, wanted)?;
    }
    for len in 0..39 {
        holds(word(&FRAME[..len]) == "P1", "a front")?;
    }
    for octets in FRAMES {
        holds(is_written_alike(rt.alloc(), octets), "a frame")?;
    }
    holds(longest_is_written(rt.alloc()), "the longest frame")
}

// The number of the identifier after that one.
fn number_after(number: u8) -> Option<u8> {
    match TransactionIdentifier::new(number) {
        Some(identifier) => Some(identifier.next().number()),
        None => None,
    }
}

// The octet of what goes the other way in the transaction that the octet names.
fn octet_back(octet: u8) -> Option<u8> {
    match Transaction::of(octet) {
        Some(transaction) => Some(transaction.turned().octet()),
        None => None,
    }
}

const NEXT: &[(u8, Option<u8>)] = &[(0, Some(1)), (6, Some(0)), (7, None)];

const BACK: &[(u8, Option<u8>)] = &[(0x09, Some(0x89)), (0xE9, Some(0x69)), (0xF9, None)];

const CAUSES: &[(u8, CpCause, &str)] = &[
    (81, CpCause::InvalidTransactionIdentifier, "cause 81"),
    (18, CpCause::Other(18), "cause 18"),
    (111, CpCause::ProtocolErrorUnspecified, "cause 111"),
];

const TYPES: &[(u8, Option<MessageType>, &str)] = &[
    (0x10, Some(MessageType::Error), "CP-ERROR"),
    (0x04, Some(MessageType::Ack), "CP-ACK"),
    (0x02, None, "no type"),
];

const REFUSALS: &[(LinkError, Option<&str>, &str)] = &[
    (LinkError::Busy, Some("L1"), "busy"),
    (LinkError::NothingToAnswer, Some("L2"), "nothing to answer"),
    (LinkError::NoMemory, None, "no memory"),
];

#[test]
fn causes_types_and_transactions_have_their_octets() -> Result<(), Fail> {
    for (octet, cause, name) in CAUSES {
        holds(
            CpCause::of(*octet) == *cause && cause.octet() == *octet,
            name,
        )?;
    }
    for (octet, kind, name) in TYPES {
        holds(MessageType::of(*octet) == *kind, name)?;
    }
    holds(MessageType::Ack.octet() == 0x04, "CP-ACK")?;
    for (refusal, code, name) in REFUSALS {
        holds(refusal.code() == *code, name)?;
    }
    holds(CpFault::Truncated.code() == "P1", "a code")?;
    // Identifiers go around, and flags are turned.
    for (number, next) in NEXT {
        holds(number_after(*number) == *next, "an identifier")?;
    }
    holds(TransactionIdentifier::first().number() == 0, "the first")?;
    for (octet, back) in BACK {
        holds(octet_back(*octet) == *back, "a transaction")?;
    }
    holds(
        TransactionFlag::ToOriginator.turned() == TransactionFlag::FromOriginator,
        "a flag",
    )
}
