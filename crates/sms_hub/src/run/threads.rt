//! The threads of the sessions.
ghost use Rattle.std.specs.Prelude.{◌≡◌, ◌++◌, ◌∷◌, [], Some, None, true, map, IfOk, IfErr, IfSome};
ghost use Rattle.sms_hub.specs.declared.hub_fault.HubFault.TheVariants.{NoThread};
ghost use Rattle.sms_seats.specs.Jobs.{of, has_end};
ghost use Rattle.sms_keeper.specs.History.{for_seat, work};
ghost use Rattle.sms_keeper.specs.Keeping.{given_by, ran_by};
ghost use Rattle.sms_seats.specs.Seats.{number_of, put_by, taken_by, IsSameSeat};
ghost use Rattle.sms_keeper.specs.Seating.{IsSeatOf, IsUnchanged};

use crate::hub_fault::HubFault;
use crate::session::Session;
use crate::session::steps::run_session;
use sms_keeper::{Keeper, Seat};
use std::alloc::Global;
use std::snapshot::Snapshot;
use std::sync::atomic::AtomicBool;
use std::sync::{Arc, Wait};
use std::thread;
use std::thread::{Promise, PromisedHandle, Threads};

/// What the thread of a session returns: the session of this seat, and whether all these jobs were put.
#[derive(Drop)]
pub struct SessionOf<J, O> {
    pub seat: Snapshot<Seat<J, O>>,
    pub jobs: Snapshot<Vec<J>>,
}

impl<J, O> Promise<(Session<J, O>, bool)> for SessionOf<J, O> {
    ghost kept_by = { λ p r. IsSameSeat p.seat.value r.0.seat × (r.1 ≡ true → put_by r.0.seat ≡ map Some p.jobs.value.items ++ None ∷ []) };
}

/// The thread of a session.
pub(super) type SessionThread<J, O> = PromisedHandle<(Session<J, O>, bool), SessionOf<J, O>>;

/// Starts the thread of a session.
pub(super) fn start<
    J: Drop + Send + 'static,
    O: Drop + Send + 'static,
    R: Threads + Wait + Copy + Send + 'static,
>(
    rt: R,
    alloc: Global,
    over: Arc<AtomicBool, Global>,
    seat: Seat<J, O>,
    jobs: Vec<J>,
) -> Result<SessionThread<J, O>, HubFault>
    requires { (put_by seat ≡ []) × (taken_by seat ≡ []) }
    ensures promise { IfOk result (λ h. (h.promise.seat.value ≡ seat) × (h.promise.jobs.value ≡ jobs)) }
    ensures fault { IfErr result (λ fault. fault ≡ NoThread) }
{
    let promise = SessionOf {
        seat: Snapshot::of(&seat),
        jobs: Snapshot::of(&jobs),
    };
    let started = thread::spawn_with(
        &rt,
        promise,
        move || -> (Session<J, O>, bool)
            requires { (put_by seat ≡ []) × (taken_by seat ≡ []) }
            ensures seat { IsSameSeat seat result.0.seat }
            ensures put { result.1 ≡ true → put_by result.0.seat ≡ map Some jobs.items ++ None ∷ [] }
        { run_session(&rt, alloc, seat, &over, jobs) },
    );
    match started {
        Ok(handle) => Ok(handle),
        Err(_) => Err(HubFault::NoThread),
    }
}

/// Waits for the thread of a session and takes its seat back, with all answers. None where memory ran out, or not all was put.
pub(super) fn settle<J: Drop, O: Drop, R: Threads + Wait>(
    rt: &R,
    alloc: Global,
    keeper: &mut Keeper<J, O>,
    thread: SessionThread<J, O>,
) -> Option<Vec<O>>
    requires { IsSeatOf keeper.old thread.promise.seat.value }
    ensures keeper { IsUnchanged keeper.old keeper.new }
    ensures answers { IfSome result (λ v. v.items ≡ given_by keeper.old (number_of thread.promise.seat.value)) }
    ensures jobs { IfSome result (λ v. has_end (of (number_of thread.promise.seat.value) (ran_by keeper.old)) ≡ true
        → for_seat (number_of thread.promise.seat.value) (work (ran_by keeper.old)) ≡ thread.promise.jobs.value.items) }
{
    let (session, whole) = thread.join(rt);
    let Session {
        seat,
        answers,
        short,
    } = session;
    let rest = keeper.take_back(rt, alloc, seat);
    if short || !whole {
        return None;
    }
    let mut answers = answers;
    let mut rest = rest.ok()?;
    answers.append(&mut rest).ok()?;
    Some(answers)
}
