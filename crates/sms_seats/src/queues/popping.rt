//! How jobs and end marks come out.
ghost use Rattle.std.specs.Prelude.{◌≡◌, ℕ, IsTrue, [], ◌∷◌, ◌++◌, MatchOption};
ghost use Rattle.sms_seats.specs.Queues.{given_by, ran_by, IsClosed, IsSameQueues};

use super::SeatQueues;
use crate::jobs::{Letter, next};
use std::sync::Wait;
use std::time::Duration;

impl<J: Drop, O: Drop> SeatQueues<J, O> {
    /// Takes the next job or end mark, if there is one. No clause says when the queue is empty.
    pub fn pop<R: Wait>(&mut self, rt: &R) -> Option<Letter<J>>
        ensures same { IsSameQueues self.old self.new }
        ensures given { (n : ℕ) → given_by self.new n ≡ given_by self.old n }
        ensures ran { MatchOption result (ran_by self.new ≡ ran_by self.old) (λ x. ran_by self.new ≡ ran_by self.old ++ x ∷ []) }
    {
        let letter = next(rt, &self.jobs, &mut self.pass)?;
        if letter.job.is_none() && letter.seat < self.closed.len() {
            self.closed[letter.seat] = true;
        }
        Some(letter)
    }

    /// Whether all end marks were popped.
    pub fn all_closed(&self) -> bool
        ensures { IsTrue result → IsClosed self.now }
    {
        for at in 0..self.closed.len() {
            if !self.closed[at] {
                return false;
            }
        }
        true
    }

    /// Sleeps until a seat puts something, at most so long. It may return early.
    pub fn wait<R: Wait>(&self, rt: &R, at_most: Duration) {
        self.bell.park_timeout(rt, at_most);
    }
}
