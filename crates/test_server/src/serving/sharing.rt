//! Connections that share a seat, and seats that share a queue.
ghost use Rattle.std.specs.Prelude.{None};

use crate::clock_and_gate::Still;
use crate::rows::holds;
use crate::seats::turns::end;
use crate::service::centre::clock;
use crate::serving::answering::{Counter, Tally};
use crate::serving::table::{
    ANSWERS, LastReply, REQUESTS, Room, Sitter, Table, keeps, make_room, make_room_for, run,
};
use crate::serving::wire::Script;
use sms_base::Octets;
use sms_base::lending::{lend, put};
use sms_centre_spec::jobs::Job;
use smsc_endpoint::Esme;
use smsc_loop::{Found, OpenSeat, Wire, serve};
use std::alloc::Global;
use std::sync::{Arc, Wait};
use std::test::Fail;
use std::thread::{Threads, join};

// ---- a wire that keeps what is written to it

#[derive(Drop)]
struct Recorder<'a> {
    script: Script<'a>,
    sent: Vec<u8>,
}

impl Wire for Recorder<'_> {
    // It states nothing: tests look at its octets.
    ghost remaining = { λ _. None };

    ghost written = { λ _. None };

    ghost last = { λ r. r.script.piece.now };

    ghost ended = { λ r. r.script.has_ended };

    ghost closed = { λ r. r.script.is_closed };

    fn read_now<R: Wait>(&mut self, rt: &R) -> Found {
        self.script.read_now(rt)
    }

    fn piece(&self) -> &[u8] {
        self.script.piece()
    }

    fn has_ended(&self) -> bool {
        self.script.has_ended()
    }

    fn is_closed(&self) -> bool {
        self.script.is_closed()
    }

    fn write_soon(&mut self, octets: &[u8]) -> Option<usize> {
        let count = self.script.write_soon(octets)?;
        let _ = self
            .sent
            .extend_from_slice(octets.get(..count).unwrap_or(&[]));
        Some(count)
    }
}

// ---- what was sent

// So many PDUs with this command_id and command_status were sent (SMPP v3.4 3.2).
fn count_of(sent: &[u8], command_id: &[u8; 4], command_status: u8) -> usize {
    let mut count = 0usize;
    let mut left = sent;
    for _ in 0..sent.len() {
        let [_, _, _, length, a, b, c, d, _, _, _, status, ..] = left else {
            return count;
        };
        if [*a, *b, *c, *d] == *command_id && *status == command_status {
            count = count.saturating_add(1);
        }
        left = left.get(*length as usize..).unwrap_or(&[]);
    }
    count
}

const SUBMIT_SM_RESP: [u8; 4] = [0x80, 0x00, 0x00, 0x04];

const DELIVER_SM: [u8; 4] = [0x00, 0x00, 0x00, 0x05];

const ESME_RSYSERR: u8 = 0x08;

// Its own two requests are answered, and it gets its own receipt alone.
fn is_served_alone(sent: &[u8]) -> Result<(), Fail> {
    let answers = count_of(sent, &SUBMIT_SM_RESP, ESME_RSYSERR);
    holds(answers == 2, "its requests have their answers")?;
    holds(
        count_of(sent, &DELIVER_SM, 0) == 1,
        "it has its receipt alone",
    )
}

// ---- two applications at one seat

fn sits_at<R: Wait, W: Wire>(
    rt: &R,
    table: &Table,
    around: &LastReply,
    wire: &mut W,
    seat: &mut OpenSeat,
) {
    let Ok(accounts) = Arc::try_clone(&table.accounts) else {
        return;
    };
    lend(Esme::new(table.alloc, accounts), |endpoint| {
        serve(rt, table.alloc, around, wire, seat, endpoint)
    })
}

// One application after the other sits at the first seat, and nobody at the second.
fn both_sit_at<R: Wait>(
    rt: &R,
    table: &Table,
    first: OpenSeat,
    second: OpenSeat,
    leaving: &mut Script<'_>,
    next: &mut Recorder<'_>,
) {
    let mut seat = first;
    sits_at(rt, table, &table.around, leaving, &mut seat);
    let around = LastReply::new();
    sits_at(rt, table, &around, next, &mut seat);
    drop(seat.close(rt, &around.over));
    drop(second.close(rt, &around.over));
}

fn follow_each_other<R: Threads + Wait + Sync>(
    rt: &R,
    table: &Table,
    room: Room,
    clock: &Still,
    counter: &mut Counter,
    leaving: &mut Script<'_>,
    next: &mut Recorder<'_>,
) -> bool {
    let Room {
        mut keeper,
        first,
        second,
    } = room;
    let (ended, ()) = join(
        rt,
        || keeps(rt, table.alloc, &mut keeper, counter, clock),
        || both_sit_at(rt, table, first, second, leaving, next),
    );
    ended
}

// The first application takes so many writes, and leaves with two requests, their answers and its receipt under way.
fn comes_after<R: Threads + Wait + Sync>(
    rt: &R,
    table: &Table,
    room: Room,
    clock: &Still,
    writes: u32,
) -> Result<(), Fail> {
    let mut counter = Counter::new(table.alloc);
    put(&mut counter.receipt, end());
    let mut leaving = Script::well(&REQUESTS, ANSWERS);
    leaving.writes = writes;
    let mut next = Recorder {
        script: Script::well(&REQUESTS, ANSWERS),
        sent: Vec::new(table.alloc),
    };
    let ended = follow_each_other(
        rt,
        table,
        room,
        clock,
        &mut counter,
        &mut leaving,
        &mut next,
    );
    is_followed(ended, &counter.first, next.sent.as_slice())
}

fn is_followed(ended: bool, tally: &Tally, sent: &[u8]) -> Result<(), Fail> {
    holds(ended, "the keeper ends with the seats")?;
    is_even_twice(tally)?;
    is_served_alone(sent)
}

// Both came and went.
fn is_even_twice(tally: &Tally) -> Result<(), Fail> {
    holds(tally.bound == 2 && tally.unbound == 2, "both came and went")
}

#[test]
fn a_used_seat_has_nothing_of_another(rt: HostRuntime) -> Result<(), Fail> {
    let clock = clock()?;
    for round in 0..40u32 {
        let table = Table::new(rt.alloc(), Sitter::Application)?;
        let room = make_room(rt.alloc())?;
        comes_after(&rt, &table, room, &clock, round % 4)?;
    }
    Ok(())
}

// ---- a full queue

// One job waits at most, and both seats put theirs.
fn shares_one_slot<R: Threads + Wait + Sync>(
    rt: &R,
    table: &Table,
    room: Room,
    clock: &Still,
) -> Result<(), Fail> {
    let mut one = Script::well(&REQUESTS, ANSWERS);
    let mut other = Script::well(&REQUESTS, ANSWERS);
    let mut counter = Counter::new(table.alloc);
    let ended = run(rt, table, room, &mut counter, clock, &mut one, &mut other);
    are_all_put(ended, &counter, one.taken, other.taken)
}

fn are_all_put(ended: bool, counter: &Counter, one: usize, other: usize) -> Result<(), Fail> {
    holds(ended, "the keeper ends with the seats")?;
    is_all_put(&counter.first, one)?;
    is_all_put(&counter.second, other)
}

// Each request was run or refused with ESME_RTHROTTLED, and answered. No job of the session itself is lost.
fn is_all_put(tally: &Tally, taken: usize) -> Result<(), Fail> {
    holds(taken == ANSWERS, "each request is answered")?;
    holds(tally.bound == 1 && tally.unbound == 1, "bound and unbound")
}

#[test]
fn a_full_queue_loses_no_job(rt: HostRuntime) -> Result<(), Fail> {
    let clock = clock()?;
    for _ in 0..40 {
        let table = Table::new(rt.alloc(), Sitter::Application)?;
        let room = make_room_for(rt.alloc(), 1)?;
        shares_one_slot(&rt, &table, room, &clock)?;
    }
    Ok(())
}

// ---- turns

// A request that asks nothing.
fn request(alloc: Global) -> Job {
    Job::Query {
        account: 0,
        pdu: Octets::new(alloc),
    }
}

// Nobody answers them: an eighth request of the seat is handed back, one of another seat is put, and so is a job that has no answer.
fn waits_its_turn<R: Wait>(rt: &R, alloc: Global, room: &mut Room) -> Result<(), Fail> {
    for _ in 0..7 {
        let put = room.first.put(rt, request(alloc));
        holds(put.is_ok(), "a request is put")?;
    }
    let eighth = room.first.put(rt, request(alloc));
    holds(eighth.is_err(), "the eighth one waits for its turn")?;
    let other = room.second.put(rt, request(alloc));
    holds(other.is_ok(), "another seat has its own turn")?;
    let end = room.first.put(rt, Job::Unbound);
    holds(end.is_ok(), "a job without an answer is put")
}

#[test]
fn a_seat_puts_seven_requests_at_a_time(rt: HostRuntime) -> Result<(), Fail> {
    let mut room = make_room(rt.alloc())?;
    waits_its_turn(&rt, rt.alloc(), &mut room)
}
