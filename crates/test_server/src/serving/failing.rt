//! Each call of a wire refused in turn.
use crate::clock_and_gate::Still;
use crate::rows::holds;
use crate::service::centre::clock;
use crate::serving::answering::{Counter, FRAME};
use crate::serving::table::{
    ANSWERS, REQUESTS, Room, Sitter, Table, is_even, is_whole, make_room, run,
};
use crate::serving::wire::Script;
use std::alloc::Global;
use std::sync::Wait;
use std::test::Fail;
use std::thread::Threads;

// The number 447700900456 behind its length, then CP-ACK twice.
const FRAMES: [u8; 22] = [
    0x00, 0x0C, 0x34, 0x34, 0x37, 0x37, 0x30, 0x30, 0x39, 0x30, 0x30, 0x34, 0x35, 0x36, 0x00, 0x02,
    0x89, 0x04, 0x00, 0x02, 0x89, 0x04,
];

// A frame when the link comes up and one for each CP-ACK, each behind its length of two octets.
const SENT: usize = 3 * (FRAME.len() + 2);

// Which calls are refused.
#[derive(Clone, Copy)]
enum Refused {
    Reads,
    Writes,
}

// Gives whether a call was refused.
fn is_met(
    ended: bool,
    counter: &Counter,
    refused: Refused,
    failing: &Script<'_>,
    well: &Script<'_>,
) -> Result<bool, Fail> {
    holds(ended, "the keeper ends with the seats")?;
    is_even(&counter.first)?;
    // Nothing is written to an endpoint that has not come.
    let has_come = counter.first.bound == 1 || counter.first.up == 1;
    holds(has_come || matches!(refused, Refused::Reads), "it has come")?;
    is_whole(&counter.second, well.taken)?;
    // Where no call was refused all was taken.
    holds(
        failing.has_failed || failing.taken == failing.wanted,
        "nothing was refused: all was taken",
    )?;
    Ok(failing.has_failed)
}

// A run of that wire beside one that refuses none.
fn meets<R: Threads + Wait + Sync>(
    rt: &R,
    table: &Table,
    room: Room,
    clock: &Still,
    refused: Refused,
    failing: &mut Script<'_>,
) -> Result<bool, Fail> {
    let mut well = Script::well(&REQUESTS, ANSWERS);
    let mut counter = Counter::new(table.alloc);
    let ended = run(rt, table, room, &mut counter, clock, failing, &mut well);
    is_met(ended, &counter, refused, failing, &well)
}

// The wire of the first seat, which refuses its calls from that one on.
fn wire_of(side: Sitter, refused: Refused, call: u32) -> Script<'static> {
    let mut wire = match side {
        Sitter::Application => Script::well(&REQUESTS, ANSWERS),
        Sitter::Handset => Script::well(&FRAMES, SENT),
    };
    match refused {
        Refused::Reads => wire.reads = call,
        Refused::Writes => wire.writes = call,
    }
    wire
}

// A run in which the wire refuses its calls from that one on. Gives whether it refused any.
fn refuses<R: Threads + Wait + Sync>(
    rt: &R,
    table: &Table,
    clock: &Still,
    refused: Refused,
    call: u32,
) -> Result<bool, Fail> {
    let mut failing = wire_of(table.side, refused, call);
    let room = make_room(table.alloc)?;
    meets(rt, table, room, clock, refused, &mut failing)
}

// Each call in turn, until a run meets no refused one.
fn each_call<R: Threads + Wait + Sync>(
    rt: &R,
    table: &Table,
    clock: &Still,
    refused: Refused,
    at_least: u32,
    name: &str,
) -> Result<(), Fail> {
    for call in 0..100_000u32 {
        if !refuses(rt, table, clock, refused, call)? {
            return holds(call >= at_least, name);
        }
    }
    holds(false, "a run without a refused call")
}

// Whose calls are refused, which, and how many there are at least. A session's octets come in seven pieces; what it is sent goes in two
// pieces for the first answer, and one for each of the others. A link is sent 123 octets, 20 at most at once.
const REFUSALS: &[(Sitter, Refused, u32, &'static str)] = &[
    (
        Sitter::Application,
        Refused::Reads,
        7,
        "a session that can not be read",
    ),
    (
        Sitter::Application,
        Refused::Writes,
        3,
        "a session that can not be written",
    ),
    (
        Sitter::Handset,
        Refused::Reads,
        2,
        "a link that can not be read",
    ),
    (
        Sitter::Handset,
        Refused::Writes,
        7,
        "a link that can not be written",
    ),
];

fn plays<R: Threads + Wait + Sync>(
    rt: &R,
    alloc: Global,
    clock: &Still,
    row: &(Sitter, Refused, u32, &'static str),
) -> Result<(), Fail> {
    let (side, refused, at_least, name) = row;
    let table = Table::new(alloc, *side)?;
    each_call(rt, &table, clock, *refused, *at_least, name)
}

#[test]
fn each_call_of_a_wire_may_be_refused(rt: HostRuntime) -> Result<(), Fail> {
    let clock = clock()?;
    for row in REFUSALS {
        plays(&rt, rt.alloc(), &clock, row)?;
    }
    Ok(())
}
