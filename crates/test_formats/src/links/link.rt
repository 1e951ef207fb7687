//! Both ends of a link, over frames from outside. There are rows of calls, with the frames that each sends, what each
//! carries, whether it is a copy, and what it passes up.
use crate::rows::{are, are_parts, failed_at, holds, joined};
use sms_base::lending::put;
use sms_base::{Carried, Holder, Kind, Listed, Moment};
use sms_link::{Ending, Link, LinkOut, Outgoing, Side, Upward};
use sms_relay::RpCause;
use std::alloc::{AllocError, Global};
use std::test::Fail;

// 2024-02-29 23:59:58.
const T0: u64 = 1_709_251_198;

const TAG: Holder = Holder::Entry(1);

const SENT: Carried = Carried {
    kind: Kind::Data,
    reference: 3,
    tag: TAG,
};

const ANSWERED: Carried = Carried {
    kind: Kind::Ack,
    reference: 3,
    tag: TAG,
};

// RP-DATA with a SUBMIT, and RP-ACK with a SUBMIT-REPORT.
const DATA_UP: &[u8] =
    b"\x00\x03\x00\x07\x91\x44\x77\x00\x09\x00\x00\x12\x01\x07\x0C\x91\x44\x77\x00\x09\x40\x65\x00\x00\x05\xE8\x32\x9B\xFD\x06";

const ACK_DOWN: &[u8] = b"\x03\x03\x41\x09\x01\x00\x42\x20\x92\x32\x95\x85\x00";

// The longest unit.
const LONGEST: &[u8] = &[0x5A; 248];

// Octets, in parts that stand one behind another.
type Parts = &'static [&'static [u8]];

// The same as CP-DATA of the first transaction, and of the longest unit.
const DATA_FRAME: Parts = &[b"\x09\x01\x1E", DATA_UP];

const ACK_FRAME: Parts = &[b"\x89\x01\x0D", ACK_DOWN];

const LONG_DATA: Parts = &[b"\x09\x01\xF8", LONGEST];

const LONG_ACK: Parts = &[b"\x89\x01\xF8", LONGEST];

// RP-ERROR with a SUBMIT-REPORT, and with a TPDU of 242 octets, as CP-DATA.
const ERROR_FRAME: Parts = &[b"\x89\x01\x10\x05\x03\x01\x15\x41\x0A", REFUSAL];

const REFUSAL: &[u8] = b"\x01\xC6\x00\x42\x20\x92\x32\x95\x85\x00";

const LONG_ERROR: Parts = &[b"\x89\x01\xF8\x05\x03\x01\x15\x41\xF2", LONG_TPDU];

const LONG_TPDU: &[u8] = &[0x5A; 242];

// CP-ACK of the first transaction, of each end.
const HANDSET_ACK: Sent = Sent::Bare(b"\x09\x04");

const CENTRE_ACK: Sent = Sent::Bare(b"\x89\x04");

// A message of the first transfer, its acknowledgement, a frame that comes, or what a timer sends, at so many seconds.
// Or a copy of the end takes its place.
#[derive(Clone, Copy)]
enum Call {
    Begin(u64, &'static [u8]),
    Reply(u64, &'static [u8]),
    Take(Parts),
    Fire(u64),
    Copy,
    // Nothing is done where a message is under way.
    Wait,
}

// A frame that is sent: CP-DATA, new or a copy, or CP-ACK or CP-ERROR.
enum Sent {
    New(Parts),
    Copy(Parts),
    Bare(&'static [u8]),
}

// A call at an end, the frames that it sends, and what goes up, in a word.
type Row = (Side, Call, &'static [Sent], &'static str);

// A handset and the centre.
#[derive(Drop)]
struct Ends {
    handset: Link,
    centre: Link,
}

// The frames that are sent, and nothing that goes up.
fn only_frames(frames: Listed<Outgoing>) -> LinkOut {
    LinkOut { frames, up: None }
}

fn takes(link: &mut Link, alloc: Global, frame: Parts) -> Result<LinkOut, AllocError> {
    let octets = joined(alloc, frame)?;
    link.take(octets.as_slice())
}

// A copy stands where the end stood.
fn copies(link: &mut Link, alloc: Global) -> Result<LinkOut, AllocError> {
    let copy = link.copy()?;
    put(link, copy);
    Ok(only_frames(Listed::new(alloc)))
}

fn waits(link: &Link, alloc: Global) -> Result<LinkOut, AllocError> {
    if link.is_busy() && link.under_way() == Some(SENT) {
        Ok(only_frames(Listed::new(alloc)))
    } else {
        Err(AllocError)
    }
}

// A unit has 1 to 248 octets.
fn called(
    link: &mut Link,
    alloc: Global,
    start: Moment,
    call: &Call,
) -> Result<LinkOut, AllocError> {
    match call {
        Call::Begin(seconds, unit) if !unit.is_empty() && unit.len() <= 248 => {
            Ok(only_frames(link.begin(start.plus(*seconds), 3, TAG, unit)?))
        }
        Call::Reply(seconds, unit) if !unit.is_empty() && unit.len() <= 248 => Ok(only_frames(
            link.reply(start.plus(*seconds), Kind::Ack, 3, TAG, unit)?,
        )),
        Call::Begin(_, _) | Call::Reply(_, _) => Err(AllocError),
        Call::Take(frame) => takes(link, alloc, frame),
        Call::Fire(seconds) => link.fire(start.plus(*seconds)),
        Call::Copy => copies(link, alloc),
        Call::Wait => waits(link, alloc),
    }
}

// What CP-DATA carries here: the answer's frames have the flag of the transaction set.
fn carried_by(frame: &[u8]) -> Option<Carried> {
    match frame {
        [first, ..] if *first >= 0x80 => Some(ANSWERED),
        _ => Some(SENT),
    }
}

fn is_sent(frame: &Outgoing, sent: &Sent) -> bool {
    let octets = frame.octets.as_slice();
    match sent {
        Sent::New(parts) => {
            are_parts(octets, parts) && frame.carried == carried_by(octets) && !frame.is_copy
        }
        Sent::Copy(parts) => {
            are_parts(octets, parts) && frame.carried == carried_by(octets) && frame.is_copy
        }
        Sent::Bare(expected) => {
            are(octets, expected) && frame.carried.is_none() && !frame.is_copy
        }
    }
}

fn are_sent(frames: &[Outgoing], sent: &[Sent]) -> bool {
    if frames.len() != sent.len() {
        return false;
    }
    for (frame, sent) in frames.iter().zip(sent) {
        if !is_sent(frame, sent) {
            return false;
        }
    }
    true
}

// A unit that opens a transaction.
fn unit_word(unit: &[u8]) -> &'static str {
    if are(unit, DATA_UP) {
        "opened"
    } else if are(unit, LONGEST) {
        "opened by the longest unit"
    } else {
        "another unit"
    }
}

// A refusal with its TPDU.
fn refusal_word(cause: RpCause, tpdu: &[u8]) -> &'static str {
    if cause != RpCause::ShortMessageTransferRejected {
        "another cause"
    } else if are(tpdu, REFUSAL) {
        "refused"
    } else if are(tpdu, LONG_TPDU) {
        "refused at length"
    } else {
        "another refusal"
    }
}

fn word(up: &Option<Upward>) -> &'static str {
    match up {
        Some(Upward::Opened(unit)) => unit_word(unit.as_slice()),
        Some(Upward::Ended { transfer, ending }) if *transfer == SENT => match ending {
            Ending::Acknowledged => "acknowledged",
            Ending::Refused {
                cause,
                tpdu: Some(tpdu),
            } => refusal_word(*cause, tpdu.as_slice()),
            Ending::Refused { .. } => "refused without a TPDU",
            Ending::Wrong => "wrong",
            Ending::Lost => "lost",
        },
        Some(Upward::Ended { .. }) => "another transfer",
        None => "",
    }
}

fn goes(ends: &mut Ends, alloc: Global, start: Moment, row: &Row) -> bool {
    let (side, call, sent, told) = row;
    let link = match side {
        Side::Handset => &mut ends.handset,
        Side::Centre => &mut ends.centre,
    };
    match called(link, alloc, start, call) {
        Ok(out) => are_sent(out.frames.as_slice(), sent) && word(&out.up) == *told,
        Err(_) => false,
    }
}

// A handset's message is lost, sent again and acknowledged; the answer comes twice.
const AT_THE_HANDSET: &[Row] = &[
    (
        Side::Handset,
        Call::Begin(0, DATA_UP),
        &[Sent::New(DATA_FRAME)],
        "",
    ),
    (Side::Handset, Call::Begin(0, DATA_UP), &[], ""),
    (Side::Handset, Call::Fire(10), &[Sent::Copy(DATA_FRAME)], ""),
    (Side::Handset, Call::Take(&[b"\x89\x04"]), &[], ""),
    (
        Side::Handset,
        Call::Take(ACK_FRAME),
        &[HANDSET_ACK],
        "acknowledged",
    ),
    (Side::Handset, Call::Take(ACK_FRAME), &[HANDSET_ACK], ""),
];

// The centre takes it and answers; the message comes again, and the answer isn't acknowledged in time. A copy goes on then.
const AT_THE_CENTRE: &[Row] = &[
    (Side::Centre, Call::Reply(0, ACK_DOWN), &[], ""),
    (
        Side::Centre,
        Call::Take(DATA_FRAME),
        &[CENTRE_ACK],
        "opened",
    ),
    (
        Side::Centre,
        Call::Reply(0, ACK_DOWN),
        &[Sent::New(ACK_FRAME)],
        "",
    ),
    (
        Side::Centre,
        Call::Take(DATA_FRAME),
        &[CENTRE_ACK, Sent::Copy(ACK_FRAME)],
        "",
    ),
    (Side::Centre, Call::Fire(10), &[Sent::Copy(ACK_FRAME)], ""),
    (Side::Centre, Call::Copy, &[], ""),
    (Side::Centre, Call::Take(&[b"\x09\x04"]), &[], ""),
    (Side::Centre, Call::Take(DATA_FRAME), &[CENTRE_ACK], ""),
];

// Answers that are none, and none at all.
const UNANSWERED: &[Row] = &[
    (
        Side::Handset,
        Call::Begin(0, DATA_UP),
        &[Sent::New(DATA_FRAME)],
        "",
    ),
    (
        Side::Handset,
        Call::Take(&[b"\x89\x01\x02\x03\x04"]),
        &[HANDSET_ACK],
        "wrong",
    ),
    (
        Side::Handset,
        Call::Take(&[b"\x89\x01\x02\x03\x05"]),
        &[Sent::Bare(b"\x09\x10\x51")],
        "",
    ),
    (
        Side::Handset,
        Call::Begin(0, DATA_UP),
        &[Sent::New(&[b"\x19\x01\x1E", DATA_UP])],
        "",
    ),
    (
        Side::Handset,
        Call::Take(&[b"\x99\x01\x02\x02\x03"]),
        &[Sent::Bare(b"\x19\x04")],
        "wrong",
    ),
    (
        Side::Handset,
        Call::Begin(0, DATA_UP),
        &[Sent::New(&[b"\x29\x01\x1E", DATA_UP])],
        "",
    ),
    (
        Side::Handset,
        Call::Take(&[b"\xA9\x01\x01\x03"]),
        &[Sent::Bare(b"\x29\x04")],
        "wrong",
    ),
    (
        Side::Handset,
        Call::Begin(0, DATA_UP),
        &[Sent::New(&[b"\x39\x01\x1E", DATA_UP])],
        "",
    ),
    (Side::Handset, Call::Take(&[b"\x89\x10\x51"]), &[], ""),
    (Side::Handset, Call::Take(&[b"\xB9\x10\x51"]), &[], "lost"),
];

// A refusal comes up with its TPDU.
const REFUSED: &[Row] = &[
    (
        Side::Handset,
        Call::Begin(0, DATA_UP),
        &[Sent::New(DATA_FRAME)],
        "",
    ),
    (Side::Handset, Call::Wait, &[], ""),
    (
        Side::Handset,
        Call::Take(ERROR_FRAME),
        &[HANDSET_ACK],
        "refused",
    ),
];

// The longest unit is sent, lost, and sent again; the centre takes it, and gives the longest answer, twice, the second
// time by a copy. The handset takes the longest refusal.
const LONG: &[Row] = &[
    (
        Side::Handset,
        Call::Begin(0, LONGEST),
        &[Sent::New(LONG_DATA)],
        "",
    ),
    (Side::Handset, Call::Fire(10), &[Sent::Copy(LONG_DATA)], ""),
    (
        Side::Centre,
        Call::Take(LONG_DATA),
        &[CENTRE_ACK],
        "opened by the longest unit",
    ),
    (
        Side::Centre,
        Call::Reply(10, LONGEST),
        &[Sent::New(LONG_ACK)],
        "",
    ),
    (Side::Centre, Call::Copy, &[], ""),
    (Side::Centre, Call::Fire(20), &[Sent::Copy(LONG_ACK)], ""),
    (
        Side::Handset,
        Call::Take(LONG_ERROR),
        &[HANDSET_ACK],
        "refused at length",
    ),
];

const COURSES: &[(&str, &[Row])] = &[
    ("at the handset", AT_THE_HANDSET),
    ("at the centre", AT_THE_CENTRE),
    ("unanswered", UNANSWERED),
    ("refused", REFUSED),
    ("the longest units", LONG),
];

fn rests(link: &Link) -> bool {
    !link.is_busy() && link.under_way().is_none() && !link.awaits_reply()
}

// Nothing of either end's own is under way then, and neither has a reply to give.
fn go(ends: &mut Ends, alloc: Global, start: Moment, name: &str, rows: &[Row]) -> Result<(), Fail> {
    for (at, row) in rows.iter().enumerate() {
        if !goes(ends, alloc, start, row) {
            return Err(failed_at(name, at));
        }
    }
    holds(rests(&ends.handset) && rests(&ends.centre), name)
}

fn plays(alloc: Global, start: Moment, name: &str, rows: &[Row]) -> Result<(), Fail> {
    let mut ends = Ends {
        handset: Link::new(alloc, Side::Handset),
        centre: Link::new(alloc, Side::Centre),
    };
    go(&mut ends, alloc, start, name, rows)
}

#[test]
fn links_go_their_courses(rt: HostRuntime) -> Result<(), Fail> {
    let start = Moment::from_seconds(T0)?;
    for (name, rows) in COURSES {
        plays(rt.alloc(), start, name, rows)?;
    }
    Ok(())
}
