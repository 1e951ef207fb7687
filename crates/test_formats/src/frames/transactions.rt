//! Transactions of the two ends of a link: rows of calls, with the frames that each sends and what it passes up.
use crate::examples::SMMA;
use crate::rows::{are, are_parts, failed_at, holds, joined};
use sms_base::lending::put;
use sms_base::{Listed, Moment};
use sms_control::{LinkError, Links, Out, Up};
use std::alloc::Global;
use std::test::Fail;

// 2024-02-29 23:59:58.
const T0: u64 = 1_709_251_198;

const ACK: &[u8] = b"\x03\x05";

// The longest unit.
const LONGEST: &[u8] = &[0x5A; 248];

// The end of the link where a call is made.
#[derive(Clone, Copy)]
enum End {
    Near,
    Far,
}

// Octets, in parts that stand one behind another.
type Parts = &'static [&'static [u8]];

// A call, at so many seconds.
#[derive(Clone, Copy)]
enum Call {
    Begin(u64, &'static [u8]),
    Reply(u64, &'static [u8]),
    Take(Parts),
    Fire(u64),
    // A copy of the end takes its place.
    Copy,
}

// What a call tells: nothing, a unit that goes up, or a failure; or the code of its refusal.
#[derive(Clone, Copy)]
enum Told {
    Nothing,
    Unit(&'static [u8]),
    Failed,
    Refused(&'static str),
}

// A call at an end, the frames that it sends, and what it tells.
type Row = (End, Call, &'static [Parts], Told);

// Two ends of a link.
#[derive(Drop)]
struct Ends {
    near: Links,
    far: Links,
}

fn takes(links: &mut Links, alloc: Global, frame: Parts) -> Result<Out, LinkError> {
    let octets = joined(alloc, frame)?;
    Ok(links.take(octets.as_slice())?)
}

// A copy stands where the end stood.
fn copies(links: &mut Links, alloc: Global) -> Result<Out, LinkError> {
    let copy = links.copy()?;
    put(links, copy);
    Ok(Out {
        frames: Listed::new(alloc),
        up: None,
    })
}

// A unit has 1 to 248 octets.
fn called(links: &mut Links, alloc: Global, start: Moment, call: &Call) -> Result<Out, LinkError> {
    match call {
        Call::Begin(seconds, unit) if !unit.is_empty() && unit.len() <= 248 => {
            links.begin(start.plus(*seconds), unit)
        }
        Call::Reply(seconds, unit) if !unit.is_empty() && unit.len() <= 248 => {
            links.reply(start.plus(*seconds), unit)
        }
        Call::Begin(_, _) | Call::Reply(_, _) => Err(LinkError::NoMemory),
        Call::Take(frame) => takes(links, alloc, frame),
        Call::Fire(seconds) => Ok(links.fire(start.plus(*seconds))?),
        Call::Copy => copies(links, alloc),
    }
}

fn tells(up: &Option<Up>, told: &Told) -> bool {
    match (up, told) {
        (None, Told::Nothing) => true,
        (Some(Up::Failed), Told::Failed) => true,
        (Some(Up::Unit { unit, .. }), Told::Unit(wanted)) => are(unit.as_slice(), wanted),
        _ => false,
    }
}

fn is_refused(refusal: LinkError, told: &Told) -> bool {
    match told {
        Told::Refused(code) => refusal.code() == Some(*code),
        _ => false,
    }
}

// Whether these frames, and no others, are sent.
fn sends(out: &Out, frames: &[Parts]) -> bool {
    if out.frames.len() != frames.len() {
        return false;
    }
    for (sent, frame) in out.frames.as_slice().iter().zip(frames) {
        if !are_parts(sent.as_slice(), frame) {
            return false;
        }
    }
    true
}

fn goes(ends: &mut Ends, alloc: Global, start: Moment, row: &Row) -> bool {
    let (end, call, frames, told) = row;
    let links = match end {
        End::Near => &mut ends.near,
        End::Far => &mut ends.far,
    };
    match called(links, alloc, start, call) {
        Ok(out) => sends(&out, frames) && tells(&out.up, told),
        Err(refusal) => frames.is_empty() && is_refused(refusal, told),
    }
}

// SMMA of the first transaction and of the second, and the answer of the first.
const BEGUN: Parts = &[b"\x09\x01\x02\x06\x05"];

const BEGUN_AGAIN: Parts = &[b"\x19\x01\x02\x06\x05"];

const ANSWER: Parts = &[b"\x89\x01\x02\x03\x05"];

// CP-ACK of the first transaction, of each end.
const NEAR_ACK: Parts = &[b"\x09\x04"];

const FAR_ACK: Parts = &[b"\x89\x04"];

const REPEATED: &[Row] = &[
    (End::Near, Call::Begin(0, SMMA), &[BEGUN], Told::Nothing),
    (End::Near, Call::Fire(9), &[], Told::Nothing),
    (End::Near, Call::Fire(10), &[BEGUN], Told::Nothing),
    (End::Near, Call::Fire(20), &[BEGUN], Told::Nothing),
    (End::Near, Call::Fire(30), &[], Told::Failed),
    (
        End::Near,
        Call::Begin(30, SMMA),
        &[BEGUN_AGAIN],
        Told::Nothing,
    ),
    (End::Near, Call::Begin(30, SMMA), &[], Told::Refused("L1")),
];

// After a jump of the clock nothing is repeated.
const JUMPED: &[Row] = &[
    (End::Near, Call::Begin(0, SMMA), &[BEGUN], Told::Nothing),
    (End::Near, Call::Fire(40), &[], Told::Failed),
];

// An answer is taken once, remembered while the next one is awaited, and none of another identifier is taken.
const ANSWERED: &[Row] = &[
    (End::Near, Call::Begin(0, SMMA), &[BEGUN], Told::Nothing),
    (End::Near, Call::Take(FAR_ACK), &[], Told::Nothing),
    (End::Near, Call::Take(ANSWER), &[NEAR_ACK], Told::Unit(ACK)),
    (End::Near, Call::Take(ANSWER), &[NEAR_ACK], Told::Nothing),
    (
        End::Near,
        Call::Take(&[b"\x89\x01\x02\x03\x06"]),
        &[&[b"\x09\x10\x51"]],
        Told::Nothing,
    ),
    (
        End::Near,
        Call::Begin(0, SMMA),
        &[BEGUN_AGAIN],
        Told::Nothing,
    ),
    (End::Near, Call::Take(ANSWER), &[NEAR_ACK], Told::Nothing),
    (End::Near, Call::Take(&[b"\x99\x10\x51"]), &[], Told::Failed),
];

const OPENED: &[Row] = &[
    (End::Far, Call::Take(BEGUN), &[FAR_ACK], Told::Unit(SMMA)),
    (End::Far, Call::Reply(0, ACK), &[ANSWER], Told::Nothing),
    (
        End::Far,
        Call::Take(BEGUN),
        &[FAR_ACK, ANSWER],
        Told::Nothing,
    ),
    (End::Far, Call::Take(NEAR_ACK), &[], Told::Nothing),
    (End::Far, Call::Take(BEGUN), &[FAR_ACK], Told::Nothing),
    (End::Far, Call::Reply(0, ACK), &[], Told::Refused("L2")),
];

// CP-DATA of the longest unit.
const LONG_BEGUN: Parts = &[b"\x09\x01\xF8", LONGEST];

const LONG_ANSWER: Parts = &[b"\x89\x01\xF8", LONGEST];

// The longest unit is sent, lost, and sent again; so is the longest answer, by a copy of the end that gave it.
const LONG: &[Row] = &[
    (
        End::Near,
        Call::Begin(0, LONGEST),
        &[LONG_BEGUN],
        Told::Nothing,
    ),
    (End::Near, Call::Fire(10), &[LONG_BEGUN], Told::Nothing),
    (
        End::Far,
        Call::Take(LONG_BEGUN),
        &[FAR_ACK],
        Told::Unit(LONGEST),
    ),
    (
        End::Far,
        Call::Reply(10, LONGEST),
        &[LONG_ANSWER],
        Told::Nothing,
    ),
    (End::Far, Call::Copy, &[], Told::Nothing),
    (End::Far, Call::Fire(20), &[LONG_ANSWER], Told::Nothing),
    (
        End::Near,
        Call::Take(LONG_ANSWER),
        &[NEAR_ACK],
        Told::Unit(LONGEST),
    ),
];

// Rows of a course, and whether the near end has a transaction under way then.
type Course = (&'static str, &'static [Row], bool);

const COURSES: &[Course] = &[
    ("a begun transaction is repeated and fails", REPEATED, true),
    ("a jump of the clock repeats nothing", JUMPED, false),
    ("an answer is taken once", ANSWERED, false),
    ("an opening is taken once", OPENED, false),
    ("the longest unit goes both ways", LONG, false),
];

// Neither end has a reply to give then.
fn go(ends: &mut Ends, alloc: Global, start: Moment, course: &Course) -> Result<(), Fail> {
    let (name, rows, is_busy) = course;
    for (at, row) in rows.iter().enumerate() {
        if !goes(ends, alloc, start, row) {
            return Err(failed_at(name, at));
        }
    }
    let is_busy_so = ends.near.is_busy() == *is_busy && !ends.far.is_busy();
    holds(
        is_busy_so && !ends.near.awaits_reply() && !ends.far.awaits_reply(),
        name,
    )
}

fn plays(alloc: Global, start: Moment, course: &Course) -> Result<(), Fail> {
    let mut ends = Ends {
        near: Links::new(alloc),
        far: Links::new(alloc),
    };
    go(&mut ends, alloc, start, course)
}

#[test]
fn transactions_go_their_courses(rt: HostRuntime) -> Result<(), Fail> {
    let start = Moment::from_seconds(T0)?;
    for course in COURSES {
        plays(rt.alloc(), start, course)?;
    }
    Ok(())
}
