//! An endpoint leaves its seat.
ghost use Rattle.std.specs.Prelude.{◌≡◌, ◌⊎◌, ◌++◌, ◌∷◌, [], true, false, ℕ, Bool, List, Option, Some, MatchBool};
ghost use Rattle.sms_seats.specs.Seats.{IsSameSeat, put_by, taken_by};
ghost use Rattle.smsc_loop.specs.Courses.{Did, standing};
ghost use Rattle.smsc_loop.specs.Emptying.{Drops, Emptied, OwnPut, Owns, due_of};
ghost use Rattle.smsc_loop.specs.Owing.{IsCleared};
ghost use Rattle.smsc_loop.specs.Phases.{Phase, Leaves, Asks, IsHere, IsOwn, own_request};
ghost use Rattle.smsc_loop.specs.Served.{IsLeft};

use crate::endpoint::Endpoint;
use crate::observing::observe_notes;
use crate::open_seat::OpenSeat;
use crate::putting::{hear, put_jobs};
use crate::surroundings::Surroundings;
use sms_base::Octets;
use sms_centre_spec::jobs::Job;
use std::alloc::Global;
use std::sync::Wait;
use std::time::Duration;

// Puts the last jobs of the endpoint, taking the replies of the seat meanwhile. What is refused memory is lost, and the others go on.
fn put_last<R: Wait, G: Endpoint, A: Surroundings>(
    rt: &R,
    around: &A,
    seat: &mut OpenSeat,
    endpoint: &mut G,
)
    ensures did { (due : Option Job) (a w : Option (List ℕ)) → Did G.does (standing endpoint.old (Leaves due) a w seat.old.seat)
        (standing endpoint.new (Leaves due) a w seat.new.seat) }
    ensures put { A.was_over around.now ⊎ (G.any_job endpoint.new ≡ false) }
{
    for _ in rt.forever() {
        if around.is_over() {
            return;
        }
        let _ = hear(rt, seat, endpoint);
        let _ = put_jobs(rt, around, seat, endpoint, true);
        if !endpoint.has_jobs() {
            return;
        }
        seat.wait(rt, Duration::from_millis(1));
    }
}

// Takes replies of the seat, which nobody gets any more.
fn drop_replies<R: Wait>(rt: &R, seat: &mut OpenSeat)
    ensures dropped { Drops (taken_by seat.old.seat) (taken_by seat.new.seat) }
    ensures put { put_by seat.new.seat ≡ put_by seat.old.seat }
    ensures seat { IsSameSeat seat.old.seat seat.new.seat }
{
    for _ in 0..4096 {
        if seat.take(rt).is_none() {
            return;
        }
    }
}

// Puts the job, taking the replies of the seat while there is no room for it. False where the run is over.
fn put_job<R: Wait, A: Surroundings>(rt: &R, around: &A, seat: &mut OpenSeat, job: Job) -> bool
    ensures dropped { Drops (taken_by seat.old.seat) (taken_by seat.new.seat) }
    ensures put { MatchBool result
        (put_by seat.new.seat ≡ put_by seat.old.seat ++ Some job ∷ [])
        (A.was_over around.now × (put_by seat.new.seat ≡ put_by seat.old.seat)) }
    ensures seat { IsSameSeat seat.old.seat seat.new.seat }
{
    let mut job = job;
    for _ in rt.forever() {
        if around.is_over() {
            return false;
        }
        match seat.put(rt, job) {
            Ok(()) => return true,
            Err(back) => job = back,
        }
        drop_replies(rt, seat);
        seat.wait(rt, Duration::from_millis(1));
    }
    unreachable!()
}

// Puts the last job of the endpoint, if there is one. False where the run is over.
fn put_due<R: Wait, A: Surroundings>(
    rt: &R,
    around: &A,
    seat: &mut OpenSeat,
    due: Option<Job>,
) -> bool
    ensures dropped { Drops (taken_by seat.old.seat) (taken_by seat.new.seat) }
    ensures put { MatchBool result
        (put_by seat.new.seat ≡ put_by seat.old.seat ++ due_of due)
        (A.was_over around.now × (put_by seat.new.seat ≡ put_by seat.old.seat)) }
    ensures seat { IsSameSeat seat.old.seat seat.new.seat }
{
    match due {
        Some(job) => put_job(rt, around, seat, job),
        None => true,
    }
}

// A job that asks nothing and has an answer.
fn own_job(alloc: Global) -> Job
    ensures { result ≡ own_request }
{
    Job::Query {
        account: 0,
        pdu: Octets::new(alloc),
    }
}

// Takes replies of the seat, which nobody gets any more, and stops where it has all answers.
fn drop_awaited<R: Wait>(rt: &R, seat: &mut OpenSeat)
    ensures dropped { Drops (taken_by seat.old.seat) (taken_by seat.new.seat) }
    ensures put { put_by seat.new.seat ≡ put_by seat.old.seat }
    ensures seat { IsSameSeat seat.old.seat seat.new.seat }
{
    for _ in 0..4096 {
        if seat.has_answers() {
            return;
        }
        if seat.take(rt).is_none() {
            return;
        }
    }
}

// Takes replies of the seat until it has all answers, and none behind the last.
fn take_answers<R: Wait, A: Surroundings>(rt: &R, around: &A, seat: &mut OpenSeat)
    ensures dropped { Drops (taken_by seat.old.seat) (taken_by seat.new.seat) }
    ensures put { put_by seat.new.seat ≡ put_by seat.old.seat }
    ensures seat { IsSameSeat seat.old.seat seat.new.seat }
{
    for _ in rt.forever() {
        if around.is_over() {
            return;
        }
        drop_awaited(rt, seat);
        if seat.has_answers() {
            return;
        }
        seat.wait(rt, Duration::from_millis(20));
    }
}

// Puts a job of the loop, unless the run is over.
fn put_one<R: Wait, A: Surroundings>(rt: &R, around: &A, seat: &mut OpenSeat, job: Job)
    requires { IsOwn job }
    ensures { Owns seat.old.seat seat.new.seat }
{
    let _ = put_job(rt, around, seat, job);
}

// Somebody is at the seat still: the centre is told again that nobody is, and asked.
fn put_again<R: Wait, A: Surroundings>(rt: &R, alloc: Global, around: &A, seat: &mut OpenSeat)
    ensures { Owns seat.old.seat seat.new.seat }
{
    put_one(rt, around, seat, Job::Unbound);
    put_one(rt, around, seat, Job::LinkDown);
    put_one(rt, around, seat, own_job(alloc));
    take_answers(rt, around, seat);
}

// Asks until nobody is at the seat: the centre may have lacked the memory to end a session or a link.
fn clear<R: Wait, A: Surroundings>(rt: &R, alloc: Global, around: &A, seat: &mut OpenSeat)
    ensures owns { Owns seat.old.seat seat.new.seat }
    ensures cleared { A.was_over around.now ⊎ IsCleared (put_by seat.new.seat) (taken_by seat.new.seat) }
{
    for _ in rt.forever() {
        if around.is_over() {
            return;
        }
        if seat.is_cleared() {
            return;
        }
        seat.wait(rt, Duration::from_millis(20));
        put_again(rt, alloc, around, seat);
    }
}

// Puts a job of the loop, and takes replies until it has all answers and nobody is at the seat.
fn put_own<R: Wait, A: Surroundings>(rt: &R, alloc: Global, around: &A, seat: &mut OpenSeat)
    ensures dropped { Drops (taken_by seat.old.seat) (taken_by seat.new.seat) }
    ensures put { OwnPut (A.was_over around.now) seat.old.seat seat.new.seat }
    ensures seat { IsSameSeat seat.old.seat seat.new.seat }
{
    if put_job(rt, around, seat, own_job(alloc)) {
        take_answers(rt, around, seat);
        clear(rt, alloc, around, seat);
    }
}

// The last job of the endpoint is put, and then one that asks nothing and has an answer. Once that is taken, all replies to the endpoint
// have been taken, and nobody is at the seat.
fn empty<R: Wait, A: Surroundings>(
    rt: &R,
    alloc: Global,
    around: &A,
    seat: &mut OpenSeat,
    due: Option<Job>,
)
    ensures { Emptied (A.was_over around.now) due seat.old.seat seat.new.seat }
{
    if put_due(rt, around, seat, due) {
        put_own(rt, alloc, around, seat);
    }
}

/// The endpoint leaves: its last jobs are put, and behind them one of the loop. All replies of the seat are taken.
pub(crate) fn leave<R: Wait, G: Endpoint, A: Surroundings>(
    rt: &R,
    alloc: Global,
    around: &A,
    seat: &mut OpenSeat,
    endpoint: &mut G,
)
    ensures { (p : Phase) (a w : Option (List ℕ)) → IsHere p → (q : Phase) × Did G.does (standing endpoint.old p a w seat.old.seat)
        (standing endpoint.new q a w seat.new.seat) × IsLeft G.any_job (A.was_over around.now) endpoint.new q seat.new.seat }
{
    let due = endpoint.close();
    observe_notes(around, seat.number(), endpoint);
    put_last(rt, around, seat, endpoint);
    empty(rt, alloc, around, seat, due);
}
