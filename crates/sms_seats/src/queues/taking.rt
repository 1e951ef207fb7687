//! How a seat comes back.
ghost use Rattle.std.specs.Prelude.{◌≡◌, ◌≤◌, ℕ, true, List, Option, [], ◌++◌, IfOk};
ghost use Rattle.sms_seats.specs.Jobs.{of, has_end};
ghost use Rattle.sms_seats.specs.Queues.{ran_by, given_by, seats_of, IsUnchanged};
ghost use Rattle.sms_seats.specs.Seats.{number_of, put_by, taken_by, IsSeatOf};

use super::SeatQueues;
use crate::jobs::{NoOthers, compare};
use crate::seat::Seat;
use std::alloc::{AllocError, Global};
use std::sync::Wait;

impl<J: Drop, O: Drop> SeatQueues<J, O> {
    /// Takes a seat back, with the answers that it has not taken, in order. Where memory runs out they are lost.
    ///
    /// What was popped of the seat is the beginning of what it put, and all of it once the seat's end mark was popped.
    /// What the seat took is the beginning of what it was given. Where no answer is left, it has taken all that it was
    /// given.
    pub fn take_back<R: Wait>(
        &mut self,
        rt: &R,
        alloc: Global,
        seat: Seat<J, O>,
    ) -> Result<Vec<O>, AllocError>
        requires { IsSeatOf self.old seat }
        ensures queues { IsUnchanged self.old self.new }
        ensures put { (rest : List (Option J)) × (put_by seat ≡ of (number_of seat) (ran_by self.old) ++ rest) }
        ensures ended { has_end (of (number_of seat) (ran_by self.old)) ≡ true → put_by seat ≡ of (number_of seat) (ran_by self.old) }
        ensures taken { (rest : List O) × (given_by self.old (number_of seat) ≡ taken_by seat ++ rest) }
        ensures all { IfOk result (λ rest. given_by self.old (number_of seat) ≡ taken_by seat ++ rest.items) }
    {
        let Seat {
            number,
            jobs: _,
            pass,
            answers: _,
            taker,
            bell: _,
            keeper: _,
        } = seat;
        compare(&self.jobs, &mut self.pass, pass);
        self.lines[number].take_back(rt, alloc, taker)
    }

    /// Learns that no job was popped of a seat that was not made.
    pub fn know_others(&mut self)
        ensures queues { IsUnchanged self.old self.new }
        ensures none { (n : ℕ) → seats_of self.old ≤ n → of n (ran_by self.old) ≡ [] }
    {
        self.jobs.learn_as::<NoOthers>(&mut self.pass);
    }
}
