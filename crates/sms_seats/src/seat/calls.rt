//! What a seat does.
ghost use Rattle.std.specs.Prelude.{◌≡◌, [], ◌∷◌, ◌++◌, Some, None, false, MatchBool, MatchResult, MatchOption};
ghost use Rattle.sms_seats.specs.Jobs.{has_end};
ghost use Rattle.sms_seats.specs.Seats.{number_of, put_by, taken_by, IsSameSeat};

use super::Seat;
use crate::answers::take;
use crate::bell::Bell;
use crate::jobs::{Letter, put};
use std::alloc::AllocError;
use std::sync::{Arc, Wait};
use std::thread::Parker;
use std::time::Duration;

// Sleeps for a millisecond. The parker is dropped here, where nothing else is owned.
fn rest<R: Wait>(rt: &R) {
    Parker::new().park_timeout(rt, Duration::from_millis(1));
}

impl<J: Drop, O: Drop> Seat<J, O> {
    /// The number of the seat, from 0.
    pub fn number(&self) -> usize
        ensures { result ≡ number_of self.now }
    {
        self.number
    }

    /// Puts a job. Where the queue is full, the job is handed back and nothing is put.
    pub fn put<R: Wait>(&mut self, rt: &R, job: J) -> Result<(), J>
        requires open { has_end (put_by self.old) ≡ false }
        ensures seat { IsSameSeat self.old self.new }
        ensures taken { taken_by self.new ≡ taken_by self.old }
        ensures open { has_end (put_by self.new) ≡ false }
        ensures put { MatchResult result
            (λ _. put_by self.new ≡ put_by self.old ++ Some job ∷ [])
            (λ back. (back ≡ job) × (put_by self.new ≡ put_by self.old)) }
    {
        let letter = Letter {
            seat: self.number,
            job: Some(job),
        };
        match put(rt, &self.jobs, &mut self.pass, letter) {
            Ok(()) => {
                self.keeper.unpark();
                Ok(())
            }
            Err(back) => {
                let Letter { seat: _, job } = back;
                match job {
                    Some(job) => Err(job),
                    None => unreachable!(),
                }
            }
        }
    }

    /// Puts the end mark, after which nothing is put, and says whether there was room for it.
    pub fn try_close<R: Wait>(&mut self, rt: &R) -> bool
        requires open { has_end (put_by self.old) ≡ false }
        ensures seat { IsSameSeat self.old self.new }
        ensures taken { taken_by self.new ≡ taken_by self.old }
        ensures put { MatchBool result (put_by self.new ≡ put_by self.old ++ None ∷ []) (put_by self.new ≡ put_by self.old) }
    {
        let mark = Letter {
            seat: self.number,
            job: None,
        };
        let closed = put(rt, &self.jobs, &mut self.pass, mark).is_ok();
        self.keeper.unpark();
        closed
    }

    /// Puts the end mark, and waits while the queue is full. Where the keeper may be waiting for this seat to take its
    /// answers, call `try_close` and `take_answer` in turn instead.
    pub fn close<R: Wait>(&mut self, rt: &R)
        requires open { has_end (put_by self.old) ≡ false }
        ensures seat { IsSameSeat self.old self.new }
        ensures taken { taken_by self.new ≡ taken_by self.old }
        ensures put { put_by self.new ≡ put_by self.old ++ None ∷ [] }
    {
        for _ in rt.forever() {
            if self.try_close(rt) {
                return;
            }
            rest(rt);
        }
        unreachable!()
    }

    /// Takes the next answer. Where the queue is empty, none is taken.
    pub fn take_answer<R: Wait>(&mut self, rt: &R) -> Option<O>
        ensures seat { IsSameSeat self.old self.new }
        ensures put { put_by self.new ≡ put_by self.old }
        ensures taken { MatchOption result (taken_by self.new ≡ taken_by self.old) (λ x. taken_by self.new ≡ taken_by self.old ++ x ∷ []) }
    {
        take(rt, &self.answers, &mut self.taker)
    }

    /// The bell that the keeper rings where it gives an answer, for whoever else has something for the seat.
    pub fn bell(&self) -> Result<Bell, AllocError> {
        let parker = Arc::try_clone(&self.bell)?;
        Ok(Bell { parker })
    }

    /// Sleeps until the bell rings, at most so long. It may return early.
    pub fn wait<R: Wait>(&self, rt: &R, at_most: Duration) {
        self.bell.park_timeout(rt, at_most);
    }
}
