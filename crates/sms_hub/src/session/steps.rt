//! What a session does.
ghost use Rattle.std.specs.Prelude.{◌≡◌, ◌++◌, [], ◌∷◌, Some, None, false, true, map, MatchBool};
ghost use Rattle.sms_seats.specs.Jobs.{has_end};
ghost use Rattle.sms_seats.specs.Seats.{put_by, taken_by, IsSameSeat};

use super::Session;
use sms_keeper::Seat;
use std::alloc::Global;
use std::sync::Wait;
use std::sync::atomic::{AtomicBool, Ordering};
use std::time::Duration;

impl<J: Drop, O: Drop> Session<J, O> {
    fn new(alloc: Global, seat: Seat<J, O>) -> Session<J, O>
        requires { taken_by seat ≡ [] }
        ensures { result.seat ≡ seat }
    {
        Session {
            seat,
            answers: Vec::new(alloc),
            short: false,
        }
    }

    // Takes an answer, if there is one.
    fn collect<R: Wait>(&mut self, rt: &R) -> bool
        ensures seat { IsSameSeat self.old.seat self.new.seat }
        ensures put { put_by self.new.seat ≡ put_by self.old.seat }
    {
        let short = self.short || self.answers.reserve(1).is_err();
        match self.seat.take_answer(rt) {
            Some(answer) => {
                if short {
                    self.short = true;
                } else {
                    self.answers.push_reserved(answer);
                }
                true
            }
            None => false,
        }
    }

    // Takes an answer, and waits a little where there is none.
    fn rest<R: Wait>(&mut self, rt: &R)
        ensures seat { IsSameSeat self.old.seat self.new.seat }
        ensures put { put_by self.new.seat ≡ put_by self.old.seat }
    {
        if !self.collect(rt) {
            self.seat.wait(rt, Duration::from_millis(1));
        }
    }

    // Puts a job, and takes answers while there is no room. It gives up once the keeper has ended.
    fn put<R: Wait>(&mut self, rt: &R, over: &AtomicBool, job: J) -> bool
        requires { has_end (put_by self.old.seat) ≡ false }
        ensures seat { IsSameSeat self.old.seat self.new.seat }
        ensures put { MatchBool result (put_by self.new.seat ≡ put_by self.old.seat ++ Some job ∷ []) (put_by self.new.seat ≡ put_by self.old.seat) }
    {
        let mut left = job;
        for _ in rt.forever() {
            match self.seat.put(rt, left) {
                Ok(()) => return true,
                Err(back) => left = back,
            }
            if over.load(Ordering::SeqCst) {
                return false;
            }
            self.rest(rt);
        }
        unreachable!()
    }

    // Puts the end mark, as `put`.
    fn close<R: Wait>(&mut self, rt: &R, over: &AtomicBool) -> bool
        requires { has_end (put_by self.old.seat) ≡ false }
        ensures seat { IsSameSeat self.old.seat self.new.seat }
        ensures put { MatchBool result (put_by self.new.seat ≡ put_by self.old.seat ++ None ∷ []) (put_by self.new.seat ≡ put_by self.old.seat) }
    {
        for _ in rt.forever() {
            if self.seat.try_close(rt) {
                return true;
            }
            if over.load(Ordering::SeqCst) {
                return false;
            }
            self.rest(rt);
        }
        unreachable!()
    }

    // Takes answers until the keeper has ended.
    fn drain<R: Wait>(&mut self, rt: &R, over: &AtomicBool)
        ensures seat { IsSameSeat self.old.seat self.new.seat }
        ensures put { put_by self.new.seat ≡ put_by self.old.seat }
    {
        for _ in rt.forever() {
            let ended = over.load(Ordering::SeqCst);
            if !self.collect(rt) {
                if ended {
                    return;
                }
                self.seat.wait(rt, Duration::from_millis(1));
            }
        }
        unreachable!()
    }

    fn put_all<R: Wait>(&mut self, rt: &R, over: &AtomicBool, jobs: Vec<J>) -> bool
        requires { put_by self.old.seat ≡ [] }
        ensures seat { IsSameSeat self.old.seat self.new.seat }
        ensures put { result ≡ true → put_by self.new.seat ≡ map Some jobs.items }
    {
        let mut whole = true;
        for job in jobs {
            if whole {
                whole = self.put(rt, over, job);
            }
        }
        whole
    }
}

/// Puts all jobs of a session and then its end mark, and takes its answers until the keeper has ended. Says whether all was
/// put.
pub(crate) fn run_session<J: Drop, O: Drop, R: Wait>(
    rt: &R,
    alloc: Global,
    seat: Seat<J, O>,
    over: &AtomicBool,
    jobs: Vec<J>,
) -> (Session<J, O>, bool)
    requires { (put_by seat ≡ []) × (taken_by seat ≡ []) }
    ensures seat { IsSameSeat seat result.0.seat }
    ensures put { result.1 ≡ true → put_by result.0.seat ≡ map Some jobs.items ++ None ∷ [] }
{
    let mut session = Session::new(alloc, seat);
    let whole = session.put_all(rt, over, jobs) && session.close(rt, over);
    session.drain(rt, over);
    (session, whole)
}
