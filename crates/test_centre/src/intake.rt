//! Submissions and refusals.
use crate::rows::{are, holds, is_written};
use smpp_pdu::CommandStatus;
use sms_base::{Address, Listed, Moment, Msisdn, Octets, Originator, Wish};
use sms_intake::{
    CentreAccount, SmppError, Submission, SubmitError, SubmitRefusal, accepting_report, content_of,
    due_of, from_submit, limit_of, refusing_report, wish_of,
};
use std::alloc::{AllocError, Global};
use std::test::Fail;

// 2024-02-29 23:59:58.
const NOW: u64 = 1_709_251_198;

// `hello` to 447700900456, the validity period format not present.
const HELLO: &[u8] = b"\x01\x00\x0C\x91\x44\x77\x00\x09\x40\x65\x00\x00\x05\xE8\x32\x9B\xFD\x06";

// The front of a SUBMIT of 160 septets.
const LONG_FRONT: &[u8] = b"\x01\x00\x0C\x91\x44\x77\x00\x09\x40\x65\x00\x00\xA0";

// `hello` with a limit that is past, 29 February 2024 at 23:59:57.
const LATE_HELLO: &[u8] =
    b"\x19\x00\x0C\x91\x44\x77\x00\x09\x40\x65\x00\x00\x42\x20\x92\x32\x95\x75\x00\x05\xE8\x32\x9B\xFD\x06";

// What a handset sent to a centre with these accounts.
fn submitted(
    alloc: Global,
    accounts: &[CentreAccount],
    tpdu: &[u8],
) -> Option<Result<Submission, SubmitError>> {
    let from = Msisdn::of(b"447700900123")?;
    let now = Moment::from_seconds(NOW).ok()?;
    Some(from_submit(alloc, accounts, from, now, tpdu))
}

fn is_hello(submission: &Submission, from: &Address, to: &Address) -> bool {
    submission.source == *from
        && to.handset() == Some(submission.handset)
        && matches!(
            submission.originator,
            Originator::Handset {
                message_reference: 0,
            }
        )
        && submission.limit.seconds() == NOW + 172_800
        && submission.wish == Wish::Nothing
}

// Whether it comes from the handset 447700900123, goes to 447700900456, and is valid for two days.
fn has_its_fields(submission: &Submission) -> bool {
    let (Ok(from), Ok(to)) = (
        Address::new(1, 1, "447700900123"),
        Address::new(1, 1, "447700900456"),
    ) else {
        return false;
    };
    is_hello(submission, &from, &to)
}

// What becomes of a SUBMIT.
#[derive(Clone, Copy)]
enum Wanted {
    // It is accepted as `hello`.
    Hello,
    Accepted,
    Refused(SubmitRefusal),
}

fn is_so(submitted: Option<Result<Submission, SubmitError>>, wanted: &Wanted) -> bool {
    match submitted {
        Some(Ok(submission)) => match wanted {
            Wanted::Hello => has_its_fields(&submission),
            Wanted::Accepted => true,
            Wanted::Refused(_) => false,
        },
        Some(Err(SubmitError::Refused(refusal))) => match wanted {
            Wanted::Refused(wanted) => refusal == *wanted,
            _ => false,
        },
        _ => false,
    }
}

// How many accounts the centre has, of the numbers 447700900001 and 447700900456; a SUBMIT; and what becomes of it.
const SUBMITS: &[(usize, &[u8], Wanted, &str)] = &[
    (0, HELLO, Wanted::Hello, "hello"),
    (
        0,
        b"\x09\x00\x0C\x91\x44\x77\x00\x09\x40\x65\x00\x00\x05\xE8\x32\x9B\xFD\x06",
        Wanted::Refused(SubmitRefusal::WrongValidityFormat),
        "a validity period format that does not fit",
    ),
    (
        0,
        b"\x02\x00\x0C\x91\x44\x77\x00\x09\x40\x65\x00\x00\x05\xE8\x32\x9B\xFD\x06",
        Wanted::Refused(SubmitRefusal::WrongType),
        "another type",
    ),
    (
        0,
        b"\x01\x00\x0C\x91\x44\x77\x00\x09\x40",
        Wanted::Refused(SubmitRefusal::Unreadable),
        "a front",
    ),
    (
        0,
        b"\x01\x00\x0C\xB1\x44\x77\x00\x09\x40\x65\x00\x00\x05\xE8\x32\x9B\xFD\x06",
        Wanted::Refused(SubmitRefusal::NoHandset),
        "a destination of the type of a subscriber number",
    ),
    (1, HELLO, Wanted::Accepted, "another number"),
    (
        1,
        LATE_HELLO,
        Wanted::Refused(SubmitRefusal::PastLimit),
        "a limit that is past",
    ),
    (
        2,
        LATE_HELLO,
        Wanted::Refused(SubmitRefusal::OfAccount),
        "the second account's number, before the limit",
    ),
];

// An account of that number.
fn account(alloc: Global, digits: &str) -> Option<CentreAccount> {
    Some(CentreAccount {
        name: Octets::copy_of(alloc, b"bank").ok()?,
        address: Address::new(1, 1, digits).ok()?,
        sources: Listed::new(alloc),
    })
}

fn accounts(alloc: Global) -> Option<Vec<CentreAccount>> {
    let mut accounts = Vec::new(alloc);
    accounts.push(account(alloc, "447700900001")?).ok()?;
    accounts.push(account(alloc, "447700900456")?).ok()?;
    Some(accounts)
}

fn goes(
    alloc: Global,
    accounts: &[CentreAccount],
    count: usize,
    tpdu: &[u8],
    wanted: &Wanted,
) -> bool {
    match accounts.get(..count) {
        Some(accounts) => is_so(submitted(alloc, accounts, tpdu), wanted),
        None => false,
    }
}

fn all_go(alloc: Global, accounts: &[CentreAccount]) -> Result<(), Fail> {
    for (count, tpdu, wanted, name) in SUBMITS {
        holds(goes(alloc, accounts, *count, tpdu, wanted), name)?;
    }
    Ok(())
}

// A SUBMIT of 160 septets.
fn longest_submit(alloc: Global) -> Result<Octets, AllocError> {
    let mut tpdu = Octets::copy_of(alloc, LONG_FRONT)?;
    tpdu.append(&[0; 140])?;
    Ok(tpdu)
}

fn longest_is_accepted(alloc: Global) -> bool {
    match longest_submit(alloc) {
        Ok(tpdu) => is_so(submitted(alloc, &[], tpdu.as_slice()), &Wanted::Accepted),
        Err(_) => false,
    }
}

#[test]
fn submits_are_accepted_and_refused(rt: HostRuntime) -> Result<(), Fail> {
    let alloc = rt.alloc();
    holds(longest_is_accepted(alloc), "160 septets")?;
    match accounts(alloc) {
        Some(accounts) => all_go(alloc, accounts.as_slice()),
        None => Err(Fail::new("no accounts")),
    }
}

// A report that accepts, or refuses for that reason.
fn report_of(
    alloc: Global,
    refusal: Option<SubmitRefusal>,
    now: Moment,
) -> Result<Octets, AllocError> {
    match refusal {
        Some(refusal) => refusing_report(alloc, refusal, now),
        None => accepting_report(alloc, now),
    }
}

const REPORTS: &[(Option<SubmitRefusal>, &[u8], &str)] = &[
    (
        None,
        b"\x01\x00\x42\x20\x92\x32\x95\x85\x00",
        "a report that accepts",
    ),
    (
        Some(SubmitRefusal::WrongValidityFormat),
        b"\x01\xC6\x00\x42\x20\x92\x32\x95\x85\x00",
        "a report that refuses",
    ),
    (
        Some(SubmitRefusal::OfAccount),
        b"\x01\xC4\x00\x42\x20\x92\x32\x95\x85\x00",
        "a report that bars",
    ),
];

// The limit of a validity period, in seconds from now on, or the status for which it is refused.
fn limit_in(validity: &[u8], now: Moment) -> Result<u64, CommandStatus> {
    match limit_of(validity, now) {
        Ok(limit) => Ok(limit.seconds().saturating_sub(NOW)),
        Err(status) => Err(status),
    }
}

// When a message is due that is valid for two days, likewise.
fn due_in(schedule: &[u8], now: Moment) -> Result<u64, CommandStatus> {
    match due_of(schedule, now, now.plus(172_800)) {
        Ok(due) => Ok(due.seconds().saturating_sub(NOW)),
        Err(status) => Err(status),
    }
}

const LIMITS: &[(&[u8], Result<u64, CommandStatus>)] = &[
    (b"000001000000000R", Ok(86_400)),
    (b"240229235958000+", Err(CommandStatus::ESME_RINVEXPIRY)),
    (b"", Ok(172_800)),
];

const SCHEDULES: &[(&[u8], Result<u64, CommandStatus>)] = &[
    (b"", Ok(0)),
    (b"000002000000000R", Err(CommandStatus::ESME_RINVSCHED)),
];

const WISHES: &[(u8, Wish)] = &[(2, Wish::OnFailure), (3, Wish::Always)];

#[test]
fn reports_limits_schedules_and_wishes(rt: HostRuntime) -> Result<(), Fail> {
    let now = Moment::from_seconds(NOW)?;
    for (refusal, octets, name) in REPORTS {
        holds(
            is_written(report_of(rt.alloc(), *refusal, now), octets),
            name,
        )?;
    }
    for (validity, wanted) in LIMITS {
        holds(limit_in(validity, now) == *wanted, "a limit")?;
    }
    for (schedule, wanted) in SCHEDULES {
        holds(due_in(schedule, now) == *wanted, "a schedule")?;
    }
    for (registered_delivery, wish) in WISHES {
        holds(wish_of(*registered_delivery) == *wish, "a wish")?;
    }
    Ok(())
}

// The data coding scheme and the units of a content, or the status for which it is refused.
type ContentOf = Result<(u8, &'static [u8]), CommandStatus>;

// A data_coding and its octets, and the content that they are. One is reserved, and one has no septet.
const CONTENTS: &[(u8, &[u8], ContentOf)] = &[
    (0, b"hello", Ok((0x00, b"hello"))),
    (1, b"[a]", Ok((0x00, &[0x1B, 0x3C, 0x61, 0x1B, 0x3E]))),
    (3, &[0xE9, 0x61], Ok((0x00, &[0x05, 0x61]))),
    (3, &[0xEA], Ok((0x08, &[0x00, 0xEA]))),
    (4, &[0xFF, 0x00], Ok((0x04, &[0xFF, 0x00]))),
    (8, &[0x04, 0x36], Ok((0x08, &[0x04, 0x36]))),
    (0xF4, &[0x80], Ok((0xF4, &[0x80]))),
    (5, b"a", Err(CommandStatus::ESME_RSUBMITFAIL)),
    (0, &[0x80], Err(CommandStatus::ESME_RSUBMITFAIL)),
];

fn is_content(alloc: Global, data_coding: u8, octets: &[u8], wanted: &ContentOf) -> bool {
    match content_of(alloc, data_coding, octets) {
        Ok(content) => match wanted {
            Ok((dcs, units)) => content.dcs == *dcs && are(content.units.as_slice(), units),
            Err(_) => false,
        },
        Err(SmppError::Refused(status)) => match wanted {
            Ok(_) => false,
            Err(wanted) => status == *wanted,
        },
        Err(SmppError::NoMemory) => false,
    }
}

// So many octets, each a character of Latin 1 that the default alphabet has not.
fn units_of_latin(alloc: Global, count: usize) -> Option<usize> {
    let octets = vec![in alloc; 0xEAu8; count].ok()?;
    let content = content_of(alloc, 3, octets.as_slice()).ok()?;
    Some(content.units.len())
}

#[test]
fn contents_follow_data_coding(rt: HostRuntime) -> Result<(), Fail> {
    for (data_coding, octets, wanted) in CONTENTS {
        holds(
            is_content(rt.alloc(), *data_coding, octets, wanted),
            "a content",
        )?;
    }
    holds(
        units_of_latin(rt.alloc(), 65_000) == Some(130_000),
        "65,000 characters",
    )
}
