//! Submissions of applications: the refusals in order, and what is accepted.
use crate::rows::{are, holds};
use smpp_pdu::{CommandStatus, Message, SmeAddress, Tlvs};
use sms_base::{Address, Listed, Moment, OctetView, Octets};
use sms_intake::{AllowedSource, CentreAccount, SmppError, Submission, Text, from_pdu};
use std::alloc::Global;
use std::test::Fail;

// 2024-02-29 23:59:58.
const NOW: u64 = 1_709_251_198;

// The fields of a submit_sm that are judged.
#[derive(Clone, Copy, Drop)]
struct Fields<'a> {
    esm_class: u8,
    source_ton: u8,
    source: &'a [u8],
    destination: &'a [u8],
    data_coding: u8,
    text: &'a [u8],
    payload: Option<&'a [u8]>,
    reference: Option<&'a [u8]>,
    total: Option<&'a [u8]>,
    number: Option<&'a [u8]>,
    validity: &'a [u8],
    schedule: &'a [u8],
}

// `hello` to 447700900456.
const HELLO: Fields<'static> = Fields {
    esm_class: 0,
    source_ton: 1,
    source: b"",
    destination: b"447700900456",
    data_coding: 0,
    text: b"hello",
    payload: None,
    reference: None,
    total: None,
    number: None,
    validity: b"",
    schedule: b"",
};

fn view<'a>(octets: Option<&'a [u8]>) -> Option<OctetView<'a>> {
    match octets {
        Some(octets) => Some(OctetView::of(octets)),
        None => None,
    }
}

fn entity<'a>(ton: u8, digits: &'a [u8]) -> SmeAddress<'a> {
    SmeAddress {
        ton,
        npi: 1,
        addr: OctetView::of(digits),
    }
}

fn message_of<'a>(fields: &Fields<'a>) -> Message<'a> {
    Message {
        service_type: OctetView::of(b""),
        source: entity(fields.source_ton, fields.source),
        destination: entity(1, fields.destination),
        esm_class: fields.esm_class,
        protocol_id: 0,
        priority_flag: 0,
        schedule_delivery_time: OctetView::of(fields.schedule),
        validity_period: OctetView::of(fields.validity),
        registered_delivery: 0,
        replace_if_present_flag: 0,
        data_coding: fields.data_coding,
        sm_default_msg_id: 0,
        short_message: OctetView::of(fields.text),
        tlvs: Tlvs {
            sar_msg_ref_num: view(fields.reference),
            sar_total_segments: view(fields.total),
            sar_segment_seqnum: view(fields.number),
            message_payload: view(fields.payload),
            receipted_message_id: None,
            message_state: None,
        },
    }
}

// The number 447700900002, those that begin with 4477001, and the name Bank; or no other source than the account.
fn sources(alloc: Global, are_some: bool) -> Option<Vec<AllowedSource>> {
    let mut sources = Vec::new(alloc);
    if are_some {
        let number = Address::new(1, 1, "447700900002").ok()?;
        sources.push(AllowedSource::Number(number.digits)).ok()?;
        let prefix = Address::new(1, 1, "4477001").ok()?;
        sources.push(AllowedSource::Prefix(prefix.digits)).ok()?;
        let name = Address::new(5, 0, "Bank").ok()?;
        sources.push(AllowedSource::Name(name.digits)).ok()?;
    }
    Some(sources)
}

// The account 447700900001.
fn account(alloc: Global, has_sources: bool) -> Option<CentreAccount> {
    let address = Address::new(1, 1, "447700900001").ok()?;
    let name = Octets::copy_of(alloc, b"app1").ok()?;
    Some(CentreAccount {
        name,
        address,
        sources: Listed::from_vec(sources(alloc, has_sources)?),
    })
}

// What is so of a submission.
#[derive(Clone, Copy)]
enum Wanted {
    Refused(CommandStatus),
    Accepted,
    // It comes from its account, is due now and valid for two days, and says these units.
    Plain(&'static [u8]),
    // It says these units, in as many parts as they take.
    Says(&'static [u8]),
    // It is one part with these octets and that length.
    Carries(&'static [u8], u8),
    // It is valid for so many seconds.
    ValidFor(u64),
    // Duplicates are not rejected.
    Twice,
}

fn says(submission: &Submission, units: &[u8]) -> bool {
    match &submission.text {
        Text::Whole(content) => are(content.units.as_slice(), units),
        Text::Single(_) => false,
    }
}

fn carries(submission: &Submission, octets: &[u8], length: u8) -> bool {
    match &submission.text {
        Text::Whole(_) => false,
        Text::Single(part) => are(part.octets.as_slice(), octets) && part.length == length,
    }
}

fn is_so(submission: &Submission, account: &CentreAccount, wanted: &Wanted) -> bool {
    match wanted {
        Wanted::Refused(_) => false,
        Wanted::Accepted => true,
        Wanted::Plain(units) => {
            submission.source == account.address
                && submission.limit.seconds() == NOW + 172_800
                && submission.due.seconds() == NOW
                && says(submission, units)
        }
        Wanted::Says(units) => says(submission, units),
        Wanted::Carries(octets, length) => carries(submission, octets, *length),
        Wanted::ValidFor(seconds) => submission.limit.seconds().saturating_sub(NOW) == *seconds,
        Wanted::Twice => !submission.rejects_duplicates,
    }
}

// What becomes of a message at 2024-02-29 23:59:58, from that account.
fn is_judged(
    alloc: Global,
    account: &CentreAccount,
    now: Moment,
    fields: &Fields<'_>,
    wanted: &Wanted,
) -> bool {
    match from_pdu(alloc, account, now, &message_of(fields)) {
        Ok(submission) => is_so(&submission, account, wanted),
        Err(SmppError::Refused(status)) => match wanted {
            Wanted::Refused(wanted) => status == *wanted,
            _ => false,
        },
        Err(SmppError::NoMemory) => false,
    }
}

// All is wrong. Then one field after the other is mended, and each time the next one is told: the addresses, the parameters,
// the text, and the times.
const ALL_WRONG: Fields<'static> = Fields {
    esm_class: 0x44,
    source_ton: 1,
    source: &[0x80],
    destination: b"44A",
    data_coding: 5,
    text: &[5, 0, 3],
    payload: Some(b""),
    reference: Some(&[1]),
    total: None,
    number: None,
    validity: b"now",
    schedule: b"000001000000000R",
};

const WRONG_SOURCE: Fields<'static> = Fields {
    esm_class: 0x40,
    ..ALL_WRONG
};

const WRONG_DESTINATION: Fields<'static> = Fields {
    source: b"447700900002",
    ..WRONG_SOURCE
};

const WRONG_REFERENCE: Fields<'static> = Fields {
    destination: b"447700900456",
    ..WRONG_DESTINATION
};

const LONE_REFERENCE: Fields<'static> = Fields {
    reference: Some(&[0, 1]),
    ..WRONG_REFERENCE
};

const TEXT_AND_PAYLOAD: Fields<'static> = Fields {
    reference: None,
    ..LONE_REFERENCE
};

const RESERVED_CODING: Fields<'static> = Fields {
    payload: None,
    ..TEXT_AND_PAYLOAD
};

const SHORT_HEADER: Fields<'static> = Fields {
    data_coding: 8,
    ..RESERVED_CODING
};

const HALF_A_CHARACTER: Fields<'static> = Fields {
    text: &[5, 0, 3, 1, 1, 1, 4],
    ..SHORT_HEADER
};

const WRONG_VALIDITY: Fields<'static> = Fields {
    text: &[5, 0, 3, 1, 1, 1, 4, 0x36],
    ..HALF_A_CHARACTER
};

const WRONG_SCHEDULE: Fields<'static> = Fields {
    validity: b"000000000030000R",
    ..WRONG_VALIDITY
};

const ALL_MENDED: Fields<'static> = Fields {
    schedule: b"",
    ..WRONG_SCHEDULE
};

// A text behind a header that came, and parts of two by sar values.
const BEHIND_A_HEADER: Fields<'static> = Fields {
    esm_class: 0x40,
    text: &[5, 0, 3, 0x2A, 2, 1, 0x61],
    ..HELLO
};

const SAR: Fields<'static> = Fields {
    text: b"a",
    reference: Some(&[0, 0x2A]),
    total: Some(&[2]),
    number: Some(&[1]),
    ..HELLO
};

const SAR_OF_THREE: Fields<'static> = Fields {
    number: Some(&[3]),
    ..SAR
};

// A header that came stays; sar values are one of a 16-bit reference, and are ignored where the third part of two is told.
const ROWS: &[(&str, Fields<'static>, Wanted)] = &[
    ("hello", HELLO, Wanted::Plain(b"hello")),
    (
        "esm_class",
        ALL_WRONG,
        Wanted::Refused(CommandStatus::ESME_RINVESMCLASS),
    ),
    (
        "a source",
        WRONG_SOURCE,
        Wanted::Refused(CommandStatus::ESME_RINVSRCADR),
    ),
    (
        "a destination",
        WRONG_DESTINATION,
        Wanted::Refused(CommandStatus::ESME_RINVDSTADR),
    ),
    (
        "a parameter's length",
        WRONG_REFERENCE,
        Wanted::Refused(CommandStatus::ESME_RINVPARLEN),
    ),
    (
        "a reference behind a header",
        LONE_REFERENCE,
        Wanted::Refused(CommandStatus::ESME_ROPTPARNOTALLWD),
    ),
    (
        "a payload beside a text",
        TEXT_AND_PAYLOAD,
        Wanted::Refused(CommandStatus::ESME_ROPTPARNOTALLWD),
    ),
    (
        "a reserved data_coding",
        RESERVED_CODING,
        Wanted::Refused(CommandStatus::ESME_RSUBMITFAIL),
    ),
    (
        "a header that is cut",
        SHORT_HEADER,
        Wanted::Refused(CommandStatus::ESME_RSUBMITFAIL),
    ),
    (
        "half a character",
        HALF_A_CHARACTER,
        Wanted::Refused(CommandStatus::ESME_RINVMSGLEN),
    ),
    (
        "a validity period",
        WRONG_VALIDITY,
        Wanted::Refused(CommandStatus::ESME_RINVEXPIRY),
    ),
    (
        "a schedule",
        WRONG_SCHEDULE,
        Wanted::Refused(CommandStatus::ESME_RINVSCHED),
    ),
    ("30 seconds", ALL_MENDED, Wanted::ValidFor(30)),
    (
        "a header that came",
        BEHIND_A_HEADER,
        Wanted::Carries(b"\x05\x00\x03\x2A\x02\x01\xC2", 8),
    ),
    (
        "a header of a 16-bit reference",
        SAR,
        Wanted::Carries(b"\x06\x08\x04\x00\x2A\x02\x01\x61", 9),
    ),
    ("the third part of two", SAR_OF_THREE, Wanted::Says(b"a")),
];

// A payload of a data_coding.
fn payload<'a>(data_coding: u8, octets: &'a [u8]) -> Fields<'a> {
    Fields {
        data_coding,
        text: b"",
        payload: Some(octets),
        ..HELLO
    }
}

// 3GPP TS 23.040 9.2.3.24: 20 parts of 152 septets. One septet more, which Latin 1 writes as well, is too many.
const PAYLOADS: &[(u8, usize, Wanted, &str)] = &[
    (0, 3040, Wanted::Twice, "20 parts"),
    (
        0,
        3041,
        Wanted::Refused(CommandStatus::ESME_RINVMSGLEN),
        "more than 20 parts",
    ),
    (
        3,
        3041,
        Wanted::Refused(CommandStatus::ESME_RINVMSGLEN),
        "more than 20 parts in Latin 1",
    ),
];

fn payload_goes(
    alloc: Global,
    account: &CentreAccount,
    now: Moment,
    row: &(u8, usize, Wanted, &'static str),
) -> bool {
    let (data_coding, length, wanted, _) = row;
    match vec![in alloc; 0x61u8; *length] {
        Ok(octets) => {
            let fields = payload(*data_coding, octets.as_slice());
            is_judged(alloc, account, now, &fields, wanted)
        }
        Err(_) => false,
    }
}

fn all_go(alloc: Global, account: &CentreAccount, now: Moment) -> Result<(), Fail> {
    for (name, fields, wanted) in ROWS {
        holds(is_judged(alloc, account, now, fields, wanted), name)?;
    }
    for row in PAYLOADS {
        holds(payload_goes(alloc, account, now, row), row.3)?;
    }
    Ok(())
}

#[test]
fn messages_are_accepted_and_refused_in_order(rt: HostRuntime) -> Result<(), Fail> {
    let now = Moment::from_seconds(NOW)?;
    match account(rt.alloc(), false) {
        Some(account) => all_go(rt.alloc(), &account, now),
        None => Err(Fail::new("no account")),
    }
}

// A type of number, an address, and whether it is such a source.
const SOURCES: &[(u8, &[u8], bool)] = &[
    (1, b"", true),
    (1, b"447700900001", true),
    (1, b"447700900002", true),
    (0, b"447700900002", true),
    (1, b"4477009000021", false),
    (1, b"44770090000", false),
    (1, b"4477001", true),
    (1, b"447700199999", true),
    (1, b"447700", false),
    (5, b"4477001", false),
    (5, b"Bank", true),
    (5, b"bank", false),
    (5, b"Bank1", false),
];

fn source_goes(
    alloc: Global,
    account: &CentreAccount,
    now: Moment,
    row: &(u8, &'static [u8], bool),
) -> bool {
    let (source_ton, source, is_allowed) = row;
    let fields = Fields {
        source_ton: *source_ton,
        source: *source,
        ..HELLO
    };
    let wanted = if *is_allowed {
        Wanted::Accepted
    } else {
        Wanted::Refused(CommandStatus::ESME_RINVSRCADR)
    };
    is_judged(alloc, account, now, &fields, &wanted)
}

// A wrong source and a wrong destination, without and with a wrong esm_class.
const WRONG_ADDRESSES: Fields<'static> = Fields {
    source: b"447700900003",
    destination: b"none",
    ..HELLO
};

const WRONG_CLASS_AND_ADDRESSES: Fields<'static> = Fields {
    esm_class: 4,
    ..WRONG_ADDRESSES
};

// The source is judged behind esm_class and before the destination.
const IN_TURN: &[(Fields<'static>, Wanted, &str)] = &[
    (
        WRONG_ADDRESSES,
        Wanted::Refused(CommandStatus::ESME_RINVSRCADR),
        "a source before a destination",
    ),
    (
        WRONG_CLASS_AND_ADDRESSES,
        Wanted::Refused(CommandStatus::ESME_RINVESMCLASS),
        "esm_class before a source",
    ),
];

fn sources_go(alloc: Global, account: &CentreAccount, now: Moment) -> Result<(), Fail> {
    for row in SOURCES {
        holds(source_goes(alloc, account, now, row), "a source")?;
    }
    for (fields, wanted, name) in IN_TURN {
        holds(is_judged(alloc, account, now, fields, wanted), name)?;
    }
    Ok(())
}

#[test]
fn a_source_that_is_not_allowed_is_refused_in_its_turn(rt: HostRuntime) -> Result<(), Fail> {
    let now = Moment::from_seconds(NOW)?;
    match account(rt.alloc(), true) {
        Some(account) => sources_go(rt.alloc(), &account, now),
        None => Err(Fail::new("no account")),
    }
}
