//! Endpoints that are given up, and endpoints that leave.
use crate::clock_and_gate::Still;
use crate::rows::holds;
use crate::service::centre::clock;
use crate::serving::answering::{Counter, Tally};
use crate::serving::table::{
    ANSWERS, ENDED, REQUESTS, Room, SILENT, STALLED, Sitter, Table, is_even, is_whole, make_room,
    run,
};
use crate::serving::wire::Script;
use sms_base::lending::put;
use std::alloc::Global;
use std::sync::Wait;
use std::test::Fail;
use std::thread::Threads;

// Whoever sits at the first seat leaves with that note and is told so much, and the other one is as if it were alone.
fn is_left(
    ended: bool,
    table: &Table,
    counter: &Counter,
    well: &Script<'_>,
    taken: usize,
    leaving: &Leaving,
) -> Result<(), Fail> {
    let (name, _, _, _, _, last, told) = leaving;
    holds(ended, "the keeper ends with the seats")?;
    holds(table.around.last() == *last, name)?;
    holds(taken == *told, name)?;
    is_even(&counter.first)?;
    is_whole(&counter.second, well.taken)
}

// The wire rings the first seat.
fn hangs_bell(wire: &mut Script<'_>, room: &Room) -> bool {
    match room.first.bell() {
        Ok(bell) => {
            put(&mut wire.bell, Some(bell));
            true
        }
        Err(_) => false,
    }
}

// Both sit, and whoever has this wire leaves.
fn leaves_room<R: Threads + Wait + Sync>(
    rt: &R,
    table: &Table,
    room: Room,
    clock: &Still,
    wire: &mut Script<'_>,
    leaving: &Leaving,
) -> Result<(), Fail> {
    let mut well = Script::well(&REQUESTS, ANSWERS);
    let mut counter = Counter::new(table.alloc);
    let ended = run(rt, table, room, &mut counter, clock, wire, &mut well);
    is_left(ended, table, &counter, &well, wire.taken, leaving)
}

fn leaves_table<R: Threads + Wait + Sync>(
    rt: &R,
    table: &Table,
    clock: &Still,
    wire: &mut Script<'_>,
    leaving: &Leaving,
) -> Result<(), Fail> {
    let room = make_room(table.alloc)?;
    if !hangs_bell(wire, &room) {
        return Err(Fail::new("a bell"));
    }
    leaves_room(rt, table, room, clock, wire, leaving)
}

// Who leaves: its name, its side and octets, how many octets it takes before it hangs up, whether it takes any, its last note, and how
// many octets go to it.
type Leaving = (&'static str, Sitter, &'static [u8], usize, bool, u32, usize);

// Half a PDU.
const HALF: [u8; 20] = [
    0x00, 0x00, 0x00, 0x21, 0x00, 0x00, 0x00, 0x09, 0x00, 0x00, 0x00, 0x00, 0x00, 0x00, 0x00, 0x01,
    0x61, 0x70, 0x70, 0x31,
];

// Where nothing comes, or half a PDU, and the other side stays, generic_nack with ESME_RBINDFAIL has 16 octets (SMPP v3.4 4.3), and
// CP-ERROR behind its length five (3GPP TS 24.011 7.2.3). generic_nack with ESME_RINVCMDLEN has 16 octets, too, and goes before the end.
const LEAVINGS: &[Leaving] = &[
    (
        "who says nothing is given up",
        Sitter::Application,
        &[],
        usize::MAX,
        true,
        SILENT,
        16,
    ),
    (
        "who says half a PDU is given up",
        Sitter::Application,
        &HALF,
        usize::MAX,
        true,
        SILENT,
        16,
    ),
    (
        "a handset that says nothing is given up",
        Sitter::Handset,
        &[],
        usize::MAX,
        true,
        SILENT,
        5,
    ),
    (
        "who binds and takes no answer is given up",
        Sitter::Application,
        &REQUESTS,
        usize::MAX,
        false,
        STALLED,
        0,
    ),
    (
        "who leaves in a request leaves",
        Sitter::Application,
        &HALF,
        0,
        true,
        ENDED,
        0,
    ),
    (
        "who sends garbage is told",
        Sitter::Application,
        b"GET / HTTP/1.1\r\n\r\n",
        usize::MAX,
        true,
        ENDED,
        16,
    ),
    // A half close behind two requests: both are answered before the connection ends.
    (
        "who sends no more is answered",
        Sitter::Application,
        &REQUESTS,
        0,
        true,
        ENDED,
        ANSWERS,
    ),
];

fn leaves<R: Threads + Wait + Sync>(
    rt: &R,
    table: &Table,
    clock: &Still,
    leaving: &Leaving,
) -> Result<(), Fail> {
    let (_, _, octets, wanted, has_room, _, _) = leaving;
    let mut wire = Script::well(octets, *wanted);
    wire.has_room = *has_room;
    leaves_table(rt, table, clock, &mut wire, leaving)
}

fn plays<R: Threads + Wait + Sync>(
    rt: &R,
    alloc: Global,
    clock: &Still,
    leaving: &Leaving,
) -> Result<(), Fail> {
    let table = Table::new(alloc, leaving.1)?;
    leaves(rt, &table, clock, leaving)
}

#[test]
fn who_leaves_is_told(rt: HostRuntime) -> Result<(), Fail> {
    let clock = clock()?;
    for leaving in LEAVINGS {
        plays(&rt, rt.alloc(), &clock, leaving)?;
    }
    Ok(())
}

// Each session is unbound, and twice again; and twice no link is there.
fn are_left_again(ended: bool, first: &Tally, second: &Tally) -> Result<(), Fail> {
    holds(ended, "the keeper ends with the seats")?;
    holds(first.bound == 1 && second.bound == 1, "both are bound")?;
    let unbound = first.unbound.saturating_add(second.unbound);
    holds(unbound == 4, "each session is unbound, and twice again")?;
    let down = first.down.saturating_add(second.down);
    holds(down == 2, "no link is there, twice")
}

// A centre that lacked the memory to end a session is told again that nobody is at the seat, until it is so.
fn is_told_again<R: Threads + Wait + Sync>(
    rt: &R,
    table: &Table,
    room: Room,
    clock: &Still,
) -> Result<(), Fail> {
    let mut wire = Script::well(&REQUESTS, ANSWERS);
    let mut well = Script::well(&REQUESTS, ANSWERS);
    let mut counter = Counter::new(table.alloc);
    put(&mut counter.stays, 2);
    let ended = run(rt, table, room, &mut counter, clock, &mut wire, &mut well);
    are_left_again(ended, &counter.first, &counter.second)
}

#[test]
fn a_seat_is_left_once_nobody_is_there(rt: HostRuntime) -> Result<(), Fail> {
    let clock = clock()?;
    let table = Table::new(rt.alloc(), Sitter::Application)?;
    let room = make_room(rt.alloc())?;
    is_told_again(&rt, &table, room, &clock)
}
