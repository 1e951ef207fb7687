//! Between an endpoint and its seat: replies and jobs.
ghost use Rattle.std.specs.Prelude.{◌≡◌, ◌++◌, ◌∷◌, [], Some, ℕ, List, Option, true, false, not, is_ok, IfOk, MatchResult};
ghost use Rattle.sms_seats.specs.Seats.{IsSameSeat, put_by, taken_by};
ghost use Rattle.smsc_loop.specs.Courses.{Did, standing};
ghost use Rattle.smsc_loop.specs.Phases.{Phase, KnowsEnd, Listens, behind, is_change as is_change_of};

use crate::endpoint::Endpoint;
use crate::open_seat::OpenSeat;
use crate::surroundings::Surroundings;
use sms_centre_spec::jobs::{Job, Reply};
use std::alloc::AllocError;
use std::sync::Wait;

// Takes the next reply of the seat, and says whether there was one. An answer that no request waits for is not given to the endpoint, which
// would send it as that to its next request. The endpoint can but leave then, as one that was refused memory.
fn hear_next<R: Wait, G: Endpoint>(
    rt: &R,
    seat: &mut OpenSeat,
    endpoint: &mut G,
) -> Result<bool, AllocError>
    ensures { (p : Phase) (a w : Option (List ℕ)) → Listens p → Did G.does (standing endpoint.old p a w seat.old.seat)
        (standing endpoint.new (behind (is_ok result) p) a w seat.new.seat) }
{
    match seat.take(rt) {
        Some(reply) => {
            if seat.is_ahead() {
                drop(reply);
                return Err(AllocError);
            }
            endpoint.take_reply(reply)?;
            Ok(true)
        }
        None => Ok(false),
    }
}

/// Takes replies of the seat, and says whether there were any.
pub(crate) fn hear<R: Wait, G: Endpoint>(
    rt: &R,
    seat: &mut OpenSeat,
    endpoint: &mut G,
) -> Result<bool, AllocError>
    ensures { (p : Phase) (a w : Option (List ℕ)) → Listens p → Did G.does (standing endpoint.old p a w seat.old.seat)
        (standing endpoint.new (behind (is_ok result) p) a w seat.new.seat) }
{
    let mut heard = false;
    for _ in 0..64 {
        if !hear_next(rt, seat, endpoint)? {
            return Ok(heard);
        }
        heard = true;
    }
    Ok(heard)
}

// Whether the job changes messages.
fn is_change(job: &Job) -> bool
    ensures { result ≡ is_change_of job.now }
{
    matches!(job, Job::Submit { .. } | Job::Cancel { .. })
}

// Whether the job may be put. Once the connection has ended no message is taken in, since nobody would be answered. Before that a request is
// one of those that its account may put in a second.
fn may_put<A: Surroundings>(around: &A, has_ended: bool, job: &Job) -> bool
    ensures ended { has_ended ≡ true → result ≡ not (is_change_of job.now) }
{
    if has_ended {
        return !is_change(job);
    }
    !job.is_request() || around.admits(job)
}

// Puts a job that may be put, or hands it back.
fn offer<R: Wait>(rt: &R, seat: &mut OpenSeat, may_put: bool, job: Job) -> Result<(), Job>
    ensures seat { IsSameSeat seat.old.seat seat.new.seat }
    ensures taken { taken_by seat.new.seat ≡ taken_by seat.old.seat }
    ensures put { MatchResult result
        (λ _. put_by seat.new.seat ≡ put_by seat.old.seat ++ Some job ∷ [])
        (λ back. (back ≡ job) × (put_by seat.new.seat ≡ put_by seat.old.seat)) }
    ensures refused { may_put ≡ false → put_by seat.new.seat ≡ put_by seat.old.seat }
    ensures allowed { IfOk result (λ _. may_put ≡ true) }
{
    if !may_put {
        return Err(job);
    }
    seat.put(rt, job)
}

// Puts the next job of the endpoint. False where there is none, it is not the seat's turn, or the job is to be put again. The endpoint is not
// asked for a job before its turn, since it answers a request that is handed back with ESME_RTHROTTLED.
fn put_next<R: Wait, G: Endpoint, A: Surroundings>(
    rt: &R,
    around: &A,
    seat: &mut OpenSeat,
    endpoint: &mut G,
    has_ended: bool,
) -> Result<bool, AllocError>
    ensures { (p : Phase) (a w : Option (List ℕ)) → Listens p → KnowsEnd p has_ended → Did G.does (standing endpoint.old p a w seat.old.seat)
        (standing endpoint.new (behind (is_ok result) p) a w seat.new.seat) }
{
    if !seat.has_turn() {
        return Ok(false);
    }
    let Some(job) = endpoint.next_job() else {
        return Ok(false);
    };
    let may_put = may_put(around, has_ended, &job);
    match offer(rt, seat, may_put, job) {
        Ok(()) => Ok(true),
        Err(back) => {
            let again = endpoint.handed_back(back)?;
            Ok(!again)
        }
    }
}

/// Puts the jobs of the endpoint, as far as it is the seat's turn, until one is to be put again.
pub(crate) fn put_jobs<R: Wait, G: Endpoint, A: Surroundings>(
    rt: &R,
    around: &A,
    seat: &mut OpenSeat,
    endpoint: &mut G,
    has_ended: bool,
) -> Result<(), AllocError>
    ensures { (p : Phase) (a w : Option (List ℕ)) → Listens p → KnowsEnd p has_ended → Did G.does (standing endpoint.old p a w seat.old.seat)
        (standing endpoint.new (behind (is_ok result) p) a w seat.new.seat) }
{
    for _ in 0..4096 {
        if !put_next(rt, around, seat, endpoint, has_ended)? {
            return Ok(());
        }
    }
    Ok(())
}
