//! Receipts and status reports.
use crate::rows::{are, holds, is_written};
use sms_base::{Address, FinalState, MessageId, Moment, Msisdn};
use sms_receipt::{Final, Receipt, receipt_of, receipt_text, status_report_octets};
use std::alloc::AllocError;
use std::test::Fail;

// A message from an application to a handset, delivered at once at 2024-02-29 23:59:58.
fn delivered() -> Result<Final, Fail> {
    let now = Moment::from_seconds(1_709_251_198)?;
    Ok(Final {
        id: MessageId::new(1).ok_or("no identity")?,
        source: Address::new(1, 1, "447700900001")?,
        handset: Msisdn::of(b"447700900456").ok_or("no number")?,
        message_reference: 0,
        submitted: now,
        done: now,
        state: FinalState::Delivered,
    })
}

// A handset's message with the reference 7, delivered two seconds later.
fn reported() -> Result<Final, Fail> {
    Ok(Final {
        message_reference: 7,
        done: Moment::from_seconds(1_709_251_200)?,
        ..delivered()?
    })
}

const TEXT: &[u8] =
    b"id:0000000001 sub:001 dlvrd:001 submit date:2402292359 done date:2402292359 stat:DELIVRD err:000 text:";

fn is_receipt(receipt: Result<Receipt, AllocError>) -> bool {
    let Ok(receipt) = receipt else {
        return false;
    };
    let message = receipt.message();
    message.esm_class == 4
        && are(message.source.addr.as_slice(), b"447700900456")
        && are(message.destination.addr.as_slice(), b"447700900001")
}

#[test]
fn a_receipt_is_a_deliver_sm_and_has_its_text(rt: HostRuntime) -> Result<(), Fail> {
    let end = delivered()?;
    holds(is_written(receipt_text(rt.alloc(), &end), TEXT), "a text")?;
    holds(is_receipt(receipt_of(rt.alloc(), &end)), "a deliver_sm")
}

const REPORT: &[u8] =
    b"\x06\x07\x0C\x91\x44\x77\x00\x09\x40\x65\x42\x20\x92\x32\x95\x85\x00\x42\x30\x10\x00\x00\x00\x00\x00";

#[test]
fn a_status_report_has_its_octets(rt: HostRuntime) -> Result<(), Fail> {
    let end = reported()?;
    let octets = status_report_octets(rt.alloc(), &end)?;
    holds(are(octets.as_slice(), REPORT), "a status report")
}
