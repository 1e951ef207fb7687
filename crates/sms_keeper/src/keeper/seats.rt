//! The seats of a keeper: how they are made and come back.
ghost use Rattle.std.specs.Prelude.{◌≡◌, ◌<◌, ◌≤◌, ◌+◌, ℕ, true, List, Option, [], ◌++◌, IfOk};
ghost use Rattle.sms_seats.specs.declared.seat.Seat.{Seat};
ghost use Rattle.sms_seats.specs.Jobs.{of, has_end, jobs_among};
ghost use Rattle.sms_seats.specs.Seats.{number_of, put_by, taken_by};
ghost use Rattle.sms_keeper.specs.History.{for_seat, work};
ghost use Rattle.sms_keeper.specs.Keeping.{ran_by, given_by, seats_of, slots_in};
ghost use Rattle.sms_keeper.specs.Seating.{IsNewKeeper, IsNewSeat, IsSeatOf, IsUnchanged};

use super::Keeper;
use sms_seats::{Seat, SeatQueues};
use std::alloc::{AllocError, Global};
use std::sync::Wait;

impl<J: Drop, O: Drop> Keeper<J, O> {
    /// A keeper with no seat.
    pub fn open(alloc: Global, slots: usize) -> Result<Keeper<J, O>, AllocError>
        requires { 0 < slots }
        ensures new { IfOk result (λ k. IsNewKeeper 0 k) }
        ensures slots { IfOk result (λ k. slots_in k ≡ slots) }
    {
        Ok(Keeper {
            queues: SeatQueues::open(alloc, slots)?,
            last: None,
        })
    }

    /// Makes the next seat, with as many slots for its answers as there are for jobs.
    pub fn add_seat(&mut self, alloc: Global) -> Result<Seat<J, O>, AllocError>
        ensures seat { IfOk result (λ s. IsNewSeat self.new (seats_of self.old) s) }
        ensures keeper { IfOk result (λ s. IsNewKeeper (seats_of self.old) self.old → IsNewKeeper (seats_of self.old + 1) self.new) }
        ensures others { IfOk result (λ s. (o : Seat J O) → IsSeatOf self.old o → IsSeatOf self.new o) }
        ensures slots { IfOk result (λ s. slots_in self.new ≡ slots_in self.old) }
    {
        self.queues.add_seat(alloc)
    }

    /// Takes a seat back, with the answers that it has not taken, in order. Where memory runs out they are lost.
    ///
    /// What was popped of the seat is the beginning of what it put. What the seat took is the beginning of what it was
    /// given. Once the seat's end mark was popped, the jobs that it put were all run, in order, each once. Where no answer
    /// is left, it has taken all that it was given.
    pub fn take_back<R: Wait>(
        &mut self,
        rt: &R,
        alloc: Global,
        seat: Seat<J, O>,
    ) -> Result<Vec<O>, AllocError>
        requires { IsSeatOf self.old seat }
        ensures keeper { IsUnchanged self.old self.new }
        ensures put { (rest : List (Option J)) × (put_by seat ≡ of (number_of seat) (ran_by self.old) ++ rest) }
        ensures run { has_end (of (number_of seat) (ran_by self.old)) ≡ true → for_seat (number_of seat) (work (ran_by self.old)) ≡ jobs_among (put_by seat) }
        ensures taken { (rest : List O) × (given_by self.old (number_of seat) ≡ taken_by seat ++ rest) }
        ensures all { IfOk result (λ rest. given_by self.old (number_of seat) ≡ taken_by seat ++ rest.items) }
    {
        self.queues.take_back(rt, alloc, seat)
    }

    /// Learns that no job was popped of a seat that was not made.
    pub fn know_others(&mut self)
        ensures keeper { IsUnchanged self.old self.new }
        ensures none { (n : ℕ) → seats_of self.old ≤ n → of n (ran_by self.old) ≡ [] }
    {
        self.queues.know_others();
    }
}
