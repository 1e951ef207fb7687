//! An endpoint between its wire and its seat.
ghost use Rattle.std.specs.Prelude.{◌≡◌, ◌⊎◌, ℕ, true, List, Option, is_ok, IfOk};
ghost use Rattle.sms_seats.specs.declared.seat.Seat.{Seat};
ghost use Rattle.sms_centre_spec.specs.declared.jobs.job.Job.{Job};
ghost use Rattle.sms_centre_spec.specs.declared.jobs.reply.Reply.{Reply};
ghost use Rattle.smsc_loop.specs.Courses.{Did, standing};
ghost use Rattle.smsc_loop.specs.Phases.{Phase, Serves, behind};
ghost use Rattle.smsc_loop.specs.Served.{Meant, MeantAt, MeantLast, Served, side_end};
ghost use Rattle.smsc_loop.specs.declared.turn_end.TurnEnd.TheVariants.{Stays, Rests};

use crate::endpoint::Endpoint;
use crate::flowing::{flow, read, say_farewell};
use crate::judging::{judge, obey};
use crate::leaving::leave;
use crate::note::{LeaveReason, Note};
use crate::observing::{observe_notes, watch};
use crate::open_seat::OpenSeat;
use crate::putting::{hear, put_jobs};
use crate::surroundings::Surroundings;
use crate::turn_end::TurnEnd;
use crate::wire::Wire;
use smpp_session::patience::Patience;
use std::alloc::{AllocError, Global};
use std::sync::Wait;
use std::time::Duration;

// So many thousandths of a second it is waited for octets of an endpoint that has not said who it is.
const UNKNOWN_WAIT: u64 = 20;

// So many a known endpoint rests at most, unless the bell of its seat rings. The end of a run, an order and the limits of its
// patience are seen that late.
const LONGEST_WAIT: u64 = 1000;

// Waits until the bell of the seat rings.
fn rest<R: Wait, G: Endpoint>(rt: &R, seat: &OpenSeat, endpoint: &G) {
    let wait = if endpoint.is_known() {
        LONGEST_WAIT
    } else {
        UNKNOWN_WAIT
    };
    seat.wait(rt, Duration::from_millis(wait));
}

// Reads, and tells at once what happened by it. Meanwhile no other endpoint is bound.
fn look<R: Wait, W: Wire, G: Endpoint, A: Surroundings>(
    rt: &R,
    around: &A,
    wire: &mut W,
    seat: usize,
    endpoint: &mut G,
    patience: &mut Patience,
    now: u64,
) -> Result<TurnEnd, AllocError>
    ensures did { (s : Seat Job Reply) → Did G.does (standing endpoint.old Serves (W.remaining wire.old) (W.written wire.old) s)
        (standing endpoint.new (behind (is_ok result) Serves) (W.remaining wire.new) (W.written wire.new) s) }
    ensures stays { IfOk result (λ end. (end ≡ Stays) ⊎ (end ≡ Rests)) }
{
    endpoint.take_full(around.before_octets(seat));
    let end = read(rt, wire, endpoint, patience, now);
    observe_notes(around, seat, endpoint);
    around.octets_taken(seat);
    end
}

// Reads where there was room for what was sent and put, and rests where there is nothing to do.
fn attend<R: Wait, W: Wire, G: Endpoint, A: Surroundings>(
    rt: &R,
    around: &A,
    wire: &mut W,
    seat: &OpenSeat,
    endpoint: &mut G,
    patience: &mut Patience,
    now: u64,
) -> Result<TurnEnd, AllocError>
    ensures did { Did G.does (standing endpoint.old Serves (W.remaining wire.old) (W.written wire.old) seat.now.seat)
        (standing endpoint.new (behind (is_ok result) Serves) (W.remaining wire.new) (W.written wire.new) seat.now.seat) }
    ensures stays { IfOk result (λ end. (end ≡ Stays) ⊎ (end ≡ Rests)) }
{
    // A write has waited for room.
    if patience.stalled.is_some() {
        return Ok(TurnEnd::Stays);
    }
    // There was no room for a job, and the keeper rings no bell where it makes room. Jobs that wait for their turn go on with the answer that
    // the seat has to get, which rings the bell.
    if endpoint.has_jobs() && seat.has_turn() {
        seat.wait(rt, Duration::from_millis(1));
        return Ok(TurnEnd::Stays);
    }
    let end = look(rt, around, wire, seat.number(), endpoint, patience, now)?;
    if end == TurnEnd::Rests && endpoint.octets().is_empty() {
        rest(rt, seat, endpoint);
    }
    Ok(end)
}

// Takes the time, and passes replies and jobs on. Says whether there were replies.
fn exchange<R: Wait, G: Endpoint, A: Surroundings>(
    rt: &R,
    around: &A,
    seat: &mut OpenSeat,
    endpoint: &mut G,
    now: u64,
) -> Result<bool, AllocError>
    ensures { (a w : Option (List ℕ)) → Did G.does (standing endpoint.old Serves a w seat.old.seat)
        (standing endpoint.new (behind (is_ok result) Serves) a w seat.new.seat) }
{
    endpoint.at(now)?;
    let heard = hear(rt, seat, endpoint)?;
    put_jobs(rt, around, seat, endpoint, false)?;
    observe_notes(around, seat.number(), endpoint);
    Ok(heard)
}

// Does what the waiting has led to, and reads where no reply was heard.
fn wait_on<R: Wait, W: Wire, G: Endpoint, A: Surroundings>(
    rt: &R,
    around: &A,
    wire: &mut W,
    seat: &OpenSeat,
    endpoint: &mut G,
    patience: &mut Patience,
    now: u64,
    heard: bool,
) -> Result<TurnEnd, AllocError>
    ensures did { Did G.does (standing endpoint.old Serves (W.remaining wire.old) (W.written wire.old) seat.now.seat)
        (standing endpoint.new (behind (is_ok result) Serves) (W.remaining wire.new) (W.written wire.new) seat.now.seat) }
    ensures meant { IfOk result (λ end. MeantAt G.waits G.over G.owing (side_end (W.ended wire.new) (W.remaining wire.new)) (W.closed wire.new)
        endpoint.new end) }
    // Replies come first: a turn that heard some reads nothing.
    ensures unread { heard ≡ true → wire.new ≡ wire.old }
{
    let end = judge(around, endpoint, patience, now)?;
    if end == TurnEnd::Stays && !heard {
        return attend(rt, around, wire, seat, endpoint, patience, now);
    }
    Ok(end)
}

// Sends what waits, and goes on where the endpoint stays.
fn go_on<R: Wait, W: Wire, G: Endpoint, A: Surroundings>(
    rt: &R,
    around: &A,
    wire: &mut W,
    seat: &OpenSeat,
    endpoint: &mut G,
    patience: &mut Patience,
    now: u64,
    heard: bool,
) -> Result<TurnEnd, AllocError>
    ensures did { Did G.does (standing endpoint.old Serves (W.remaining wire.old) (W.written wire.old) seat.now.seat)
        (standing endpoint.new (behind (is_ok result) Serves) (W.remaining wire.new) (W.written wire.new) seat.now.seat) }
    ensures meant { IfOk result (λ end. MeantAt G.waits G.over G.owing (side_end (W.ended wire.new) (W.remaining wire.new)) (W.closed wire.new)
        endpoint.new end) }
{
    match flow(wire, endpoint, patience, now) {
        TurnEnd::Stays => wait_on(rt, around, wire, seat, endpoint, patience, now, heard),
        end => Ok(end),
    }
}

// One turn of an endpoint.
fn turn<R: Wait, W: Wire, G: Endpoint, A: Surroundings>(
    rt: &R,
    around: &A,
    wire: &mut W,
    seat: &mut OpenSeat,
    endpoint: &mut G,
    patience: &mut Patience,
) -> Result<TurnEnd, AllocError>
    ensures did { Did G.does (standing endpoint.old Serves (W.remaining wire.old) (W.written wire.old) seat.old.seat)
        (standing endpoint.new (behind (is_ok result) Serves) (W.remaining wire.new) (W.written wire.new) seat.new.seat) }
    ensures meant { IfOk result (λ end. MeantAt G.waits G.over G.owing (side_end (W.ended wire.new) (W.remaining wire.new)) (W.closed wire.new)
        endpoint.new end) }
{
    let now = around.now();
    let heard = exchange(rt, around, seat, endpoint, now)?;
    match obey(around.order(seat.number()), endpoint, patience, now)? {
        TurnEnd::Stays => go_on(rt, around, wire, seat, endpoint, patience, now, heard),
        end => Ok(end),
    }
}

// Turns until the endpoint leaves, and why it does.
fn stay<R: Wait, W: Wire, G: Endpoint, A: Surroundings>(
    rt: &R,
    around: &A,
    wire: &mut W,
    seat: &mut OpenSeat,
    endpoint: &mut G,
) -> LeaveReason
    ensures { (p : Phase) × Did G.does (standing endpoint.old Serves (W.remaining wire.old) (W.written wire.old) seat.old.seat)
        (standing endpoint.new p (W.remaining wire.new) (W.written wire.new) seat.new.seat)
        × Meant G.waits G.over G.owing (A.was_over around.now) (side_end (W.ended wire.new) (W.remaining wire.new)) (W.closed wire.new) endpoint.new p result }
{
    let mut patience = Patience::new(around.now());
    for _ in rt.forever() {
        if around.is_over() {
            return LeaveReason::Closed;
        }
        let end = turn(rt, around, wire, seat, endpoint, &mut patience);
        watch(around, seat.number(), endpoint);
        match end {
            Ok(end) => {
                if let TurnEnd::Leaves(why) = end {
                    return why;
                }
            }
            Err(_) => return LeaveReason::NoMemory,
        }
    }
    unreachable!()
}

// Turns until the endpoint leaves, and tells one that did not say who it is that it is given up.
fn see_out<R: Wait, W: Wire, G: Endpoint, A: Surroundings>(
    rt: &R,
    around: &A,
    wire: &mut W,
    seat: &mut OpenSeat,
    endpoint: &mut G,
) -> LeaveReason
    ensures { (p : Phase) × Did G.does (standing endpoint.old Serves (W.remaining wire.old) (W.written wire.old) seat.old.seat)
        (standing endpoint.new p (W.remaining wire.new) (W.written wire.new) seat.new.seat)
        × MeantLast G.waits G.over G.owing (A.was_over around.now) (side_end (W.ended wire.new) (W.remaining wire.new)) (W.closed wire.new)
        endpoint.new p result }
{
    match stay(rt, around, wire, seat, endpoint) {
        LeaveReason::Silent => {
            let _ = say_farewell(wire, endpoint);
            LeaveReason::Silent
        }
        why => why,
    }
}

/// Serves an endpoint on a wire at a seat until it leaves, or the run is over. The seat is as if nobody had sat there then.
pub fn serve<R: Wait, W: Wire, G: Endpoint, A: Surroundings>(
    rt: &R,
    alloc: Global,
    around: &A,
    wire: &mut W,
    seat: &mut OpenSeat,
    endpoint: &mut G,
)
    // What the endpoint took is what arrived and what its seat took. What was written and put is what it gave. Behind its jobs is one of the
    // loop, and all answers are taken.
    ensures { Served G.waits G.over G.owing G.does G.any_job (A.was_over around.now) (W.ended wire.new) (W.closed wire.new)
        (standing endpoint.old Serves (W.remaining wire.old) (W.written wire.old) seat.old.seat)
        endpoint.new (W.remaining wire.new) (W.written wire.new) seat.new.seat }
{
    let why = see_out(rt, around, wire, seat, endpoint);
    leave(rt, alloc, around, seat, endpoint);
    around.observe(seat.number(), Note::Ended(why, endpoint.counts()));
}
