//! Scripts that are read, and the numbers of bad lines.
use crate::rows::holds;
use sms_base::{OctetView, Octets};
use sms_script::{Act, EventSide, Script, ScriptFault, Setup, StopPoint, WorldEvent, read_script};
use std::alloc::{AllocError, Global};
use std::test::Fail;

const ONE_MESSAGE: &str =
    "start 1709251198\ncentre 447700900000\naccount app1 secret 447700900001\n\
    handset 447700900456 3\nsubmit app1 447700900456 0 00 1 - 68656C6C6F\ndeliver 1\ndeliver 2\ndeliver 3\ndeliver 4\n";

// Each kind of event, with leading zeros, digits of either case, and no LF at the end.
const ALL_KINDS: &str =
    "start 0001\ncentre 1\nhandset 2 1\nurgent a 2 3 255 4f 007 000001000000000R -\nquery a 0000000001\n\
    cancel a x\nwrite 2 3 1 c3A9\ndelete 2 00018446744073709551616\ndiscard 2 7\ntick centre 946684800\ntick 2 4102444799\n\
    restart centre\nrestart 2\nstopped before deliver 9\nstopped after submit a 3 0 00 0 - 00";

const HEAD: &str = "start 1\ncentre 1\nhandset 2 1\n";

fn is(view: &OctetView<'_>, text: &[u8]) -> bool {
    view.as_slice() == text
}

// The setup of the script of one message.
fn is_setup(setup: &Setup<'_>) -> bool {
    match (setup.accounts.as_slice(), setup.handsets.as_slice()) {
        ([account], [handset]) => {
            setup.start == 1_709_251_198
                && is(&setup.centre, b"447700900000")
                && is(&account.name, b"app1")
                && is(&account.password, b"secret")
                && is(&account.number, b"447700900001")
                && is(&handset.number, b"447700900456")
                && handset.slots == 3
        }
        _ => false,
    }
}

// A word for each event of both scripts, with its values.
fn word_of(event: &WorldEvent<'_>) -> &'static str {
    match event {
        WorldEvent::Whole(Act::Submit(s))
            if is(&s.name, b"app1")
                && is(&s.to, b"447700900456")
                && is(&s.validity, b"")
                && s.priority == 0
                && s.registered_delivery == 1 => "submit",
        WorldEvent::Whole(Act::Submit(s))
            if s.priority == 2
                && s.coding == 255
                && s.esm_class == 0x4F
                && s.registered_delivery == 7
                && is(&s.validity, b"000001000000000R") => "urgent",
        WorldEvent::Whole(Act::Query { name, id }) if is(name, b"a") && is(id, b"0000000001") => {
            "query"
        }
        WorldEvent::Whole(Act::Cancel { name, id }) if is(name, b"a") && is(id, b"x") => "cancel",
        WorldEvent::Whole(Act::Write { report: true, .. }) => "write",
        WorldEvent::Whole(
            Act::Delete {
                entry: u64::MAX,
                ..
            },
        ) => "delete",
        WorldEvent::Whole(Act::Discard { entry: 7, .. }) => "discard",
        WorldEvent::Whole(
            Act::Tick {
                side: EventSide::Centre,
                now,
            },
        ) if now.seconds() == 946_684_800 => "tick centre",
        WorldEvent::Whole(
            Act::Tick {
                side: EventSide::Handset(_),
                now,
            },
        ) if now.seconds() == 4_102_444_799 => "tick",
        WorldEvent::Whole(Act::Deliver(1)) => "deliver 1",
        WorldEvent::Whole(Act::Deliver(2)) => "deliver 2",
        WorldEvent::Whole(Act::Deliver(3)) => "deliver 3",
        WorldEvent::Whole(Act::Deliver(4)) => "deliver 4",
        WorldEvent::Restart(EventSide::Centre) => "restart centre",
        WorldEvent::Restart(EventSide::Handset(number)) if is(number, b"2") => "restart",
        WorldEvent::Stopped(StopPoint::Before, Act::Deliver(9)) => "stopped before",
        WorldEvent::Stopped(StopPoint::After, Act::Submit(_)) => "stopped after",
        _ => "another event",
    }
}

// Whether the events are these, in order, and no others.
fn are_events(events: &[WorldEvent<'_>], words: &[&str]) -> bool {
    for (event, word) in events.iter().zip(words) {
        if word_of(event) != *word {
            return false;
        }
    }
    events.len() == words.len()
}

// The octets of the text at that place.
fn text_at(alloc: Global, events: &[WorldEvent<'_>], place: usize) -> Option<Octets> {
    match events.get(place) {
        Some(WorldEvent::Whole(Act::Submit(s))) => s.message.octets(alloc).ok(),
        Some(WorldEvent::Whole(Act::Write { text, .. })) => text.octets(alloc).ok(),
        _ => None,
    }
}

const OF_ONE_MESSAGE: &[&str] = &["submit", "deliver 1", "deliver 2", "deliver 3", "deliver 4"];

const OF_ALL_KINDS: &[&str] = &[
    "urgent",
    "query",
    "cancel",
    "write",
    "delete",
    "discard",
    "tick centre",
    "tick",
    "restart centre",
    "restart",
    "stopped before",
    "stopped after",
];

// Whether the script has these events, and a text of these octets at that place.
fn has_events(
    alloc: Global,
    script: &Script<'_>,
    words: &[&str],
    place: usize,
    text: &[u8],
) -> bool {
    match text_at(alloc, script.events.as_slice(), place) {
        Some(octets) => { octets.as_slice() == text && are_events(script.events.as_slice(), words) }
        None => false,
    }
}

fn reads_one_message(alloc: Global) -> bool {
    match read_script(alloc, ONE_MESSAGE.as_bytes()) {
        Ok(script) => {
            is_setup(&script.setup) && has_events(alloc, &script, OF_ONE_MESSAGE, 0, b"hello")
        }
        Err(_) => false,
    }
}

fn reads_all_kinds(alloc: Global) -> bool {
    match read_script(alloc, ALL_KINDS.as_bytes()) {
        Ok(script) => {
            script.setup.start == 1 && has_events(alloc, &script, OF_ALL_KINDS, 3, b"\xC3\xA9")
        }
        Err(_) => false,
    }
}

// The number of the bad line, or 0 where there is none.
fn bad_line_of(alloc: Global, text: &str) -> u64 {
    match read_script(alloc, text.as_bytes()) {
        Err(ScriptFault::BadLine(number)) => number,
        _ => 0,
    }
}

// A head, and behind it a line so many times.
fn many(alloc: Global, head: &str, line: &str, count: usize) -> Result<String, AllocError> {
    let mut text = String::from_str(alloc, head)?;
    for _ in 0..count {
        text.push_str(line)?;
    }
    Ok(text)
}

// Whether that line is the bad one, or none is where the number is 0.
fn is_bad_line(alloc: Global, head: &str, line: &str, count: usize, wanted: u64) -> bool {
    match many(alloc, head, line, count) {
        Ok(text) => bad_line_of(alloc, text.as_str()) == wanted,
        Err(_) => false,
    }
}

// Heads that do not stand in order. No handset is a fault of the setup, not of a line.
const HEADS: &[(&str, u64)] = &[
    ("", 1),
    ("start 1\n", 2),
    ("centre 1\nstart 1\n", 1),
    ("start 1\ncentre 1\nhandset 2 1\naccount a b 1\n", 4),
    ("start 1\ncentre 1\ndeliver 1\nhandset 2 1\n", 4),
    ("start 1\ncentre 1", 0),
];

// Lines behind the head.
const BAD_LINES: &[&str] = &[
    "\n",
    "deliver  1\n",
    "deliver 1 \n",
    "deliver 1\r\n",
    " deliver 1\n",
    "deliver\n",
    "deliver 1 2\n",
    "deliver 1a\n",
    "Deliver 1\n",
    "tick centre 946684799\n",
    "tick centre 4102444800\n",
    "submit a 2 256 00 0 - -\n",
    "submit a 2 0 0 0 - -\n",
    "submit a 2 0 00 0 - 0\n",
    "submit a 2 0 00 0 - 0G\n",
    "urgent a 4 2 0 00 0 - -\n",
    "write 2 3 2 -\n",
    "write 2 3 0 80\n",
    "write 2 3 0 EDA080\n",
    "stopped before restart 2\n",
    "stopped before stopped after deliver 1\n",
    "stopped during deliver 1\n",
];

// A head, a line, how often it stands behind the head, and the number of the bad line. A line has 16,384 octets at most: a text of
// 8,186 letters behind 12 octets.
const LIMITS: &[(&str, &str, usize, u64)] = &[
    (HEAD, "deliver 1\n", 10_000, 0),
    (HEAD, "deliver 1\n", 10_001, 10_004),
    ("start 1\ncentre 1\n", "handset 2 1\n", 19_998, 0),
    ("start 1\ncentre 1\n", "handset 2 1\n", 19_999, 20_001),
    (
        "start 1\ncentre 1\nhandset 2 1\nwrite 2 3 0 ",
        "61",
        8_186,
        0,
    ),
    (
        "start 1\ncentre 1\nhandset 2 1\nwrite 2 3 00 ",
        "61",
        8_186,
        4,
    ),
];

#[test]
fn scripts_are_read_and_bad_lines_told(rt: HostRuntime) -> Result<(), Fail> {
    let alloc = rt.alloc();
    holds(reads_one_message(alloc), "one message")?;
    holds(reads_all_kinds(alloc), "each kind of event")?;
    for (text, wanted) in HEADS {
        holds(bad_line_of(alloc, text) == *wanted, "a head")?;
    }
    for line in BAD_LINES {
        holds(is_bad_line(alloc, HEAD, line, 1, 4), line)?;
    }
    for (head, line, count, wanted) in LIMITS {
        holds(is_bad_line(alloc, head, line, *count, *wanted), "a limit")?;
    }
    Ok(())
}
