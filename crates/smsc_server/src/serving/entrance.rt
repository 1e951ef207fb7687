//! The listeners, and the way from them to the seats.
ghost use Rattle.std.specs.Prelude.{◌≡◌, ◌++◌, ◌∷◌, [], MatchOption};
ghost use Rattle.smsc_arrivals.specs.Arriving.{HaveCome};
ghost use Rattle.smsc_arrivals.specs.Ways.{IsSameTaker, given_by, taken_by};
ghost use Rattle.smsc_arrivals.specs.declared.doors.Doors.{Doors as DoorsOf};
ghost use Rattle.smsc_server.specs.serving.Entering.{HasSameSeats, HaveEntered, arrivals_among};

use crate::serving::board::Board;
use smsc_arrivals::{Arrival, Door, Doors, Giver, PeerKind, Taker};
use smsc_observer::SEATS;
use std::snapshot::Snapshot;
use std::sync::Wait;
use std::thread::{Promise, PromisedHandle};

/// How many connections and end marks wait at most: there are as many of either as seats.
pub(crate) const PLACES: usize = 64;

/// Where connections are given to the seats, and behind the last an end mark for each seat.
pub(crate) type ArrivalGiver<S> = Giver<Option<Arrival<S>>>;

/// Where a seat takes them.
pub(crate) type ArrivalTaker<S> = Taker<Option<Arrival<S>>>;

/// The next connection; none where there will be none any more.
pub(crate) fn next_arrival<R: Wait, S: Drop>(
    rt: &R,
    taker: &mut ArrivalTaker<S>,
) -> Option<Arrival<S>>
    ensures taken { MatchOption result
        (arrivals_among (taken_by taker.new) ≡ arrivals_among (taken_by taker.old))
        (λ arrival. arrivals_among (taken_by taker.new) ≡ arrivals_among (taken_by taker.old) ++ arrival ∷ []) }
    ensures same { IsSameTaker taker.old taker.new }
{
    match taker.take(rt) {
        Some(item) => item,
        None => None,
    }
}

/// The listeners, and where what they give is given to the seats.
#[derive(Drop)]
pub(crate) struct Entrance<L, S: Drop> {
    pub(crate) doors: Doors<L>,
    pub(crate) giver: ArrivalGiver<S>,
    // Nobody takes what is given any more.
    pub(crate) is_shut: bool,
}

impl<S: Drop, L: Door<Stream = S>> Entrance<L, S> {
    /// Nothing has come yet.
    pub(crate) fn new(doors: Doors<L>, giver: ArrivalGiver<S>) -> Entrance<L, S>
        requires { given_by giver ≡ [] }
        ensures entered { HaveEntered L.came doors result }
        ensures seats { HasSameSeats giver result.giver }
    {
        Entrance {
            doors,
            giver,
            is_shut: false,
        }
    }

    // Gives it to the seats. Where nobody takes it any more it ends, and no other comes.
    fn give<R: Wait>(&mut self, rt: &R, arrival: Arrival<S>) -> bool
        ensures entered { (start middle : DoorsOf L) → HaveCome L.came start middle (arrivals_among (given_by self.old.giver))
            → HaveCome L.came middle self.old.doors (arrival ∷ []) → HaveEntered L.came start self.new }
        ensures seats { HasSameSeats self.old.giver self.new.giver }
    {
        match self.giver.give(rt, Some(arrival)) {
            Ok(()) => true,
            Err(refused) => {
                drop(refused);
                self.is_shut = true;
                false
            }
        }
    }

    /// Takes the next connection that waits at that side, if there is one, and gives it to the seats. Says whether they have it.
    pub(crate) fn let_in<R: Wait>(&mut self, rt: &R, board: &Board, side: PeerKind) -> Option<bool>
        ensures entered { (start : DoorsOf L) → HaveEntered L.came start self.old → HaveEntered L.came start self.new }
        ensures seats { HasSameSeats self.old.giver self.new.giver }
    {
        if self.is_shut {
            return None;
        }
        let arrival = self.doors.accept(side)?;
        board.sit(side);
        Some(self.give(rt, arrival))
    }

    /// No more connections come: each seat gets an end mark, behind those that came.
    pub(crate) fn close<R: Wait>(&mut self, rt: &R)
        ensures entered { (start : DoorsOf L) → HaveEntered L.came start self.old → HaveEntered L.came start self.new }
        ensures seats { HasSameSeats self.old.giver self.new.giver }
    {
        for _ in 0..SEATS {
            if self.giver.give(rt, None).is_err() {
                return;
            }
        }
    }
}

/// What the thread that accepts connections promises: it hands the entrance back. What came meanwhile was given to the seats.
#[derive(Drop)]
pub(crate) struct EntrancePromise<L, S: Drop> {
    pub(crate) entrance: Snapshot<Entrance<L, S>>,
}

impl<S: Drop, L: Door<Stream = S>> Promise<Entrance<L, S>> for EntrancePromise<L, S> {
    ghost kept_by = { λ p entrance. ((start : DoorsOf L) → HaveEntered L.came start p.entrance.value → HaveEntered L.came start entrance)
        × HasSameSeats p.entrance.value.giver entrance.giver };
}

/// The thread that accepts connections.
pub(crate) type EntranceThread<L, S> = PromisedHandle<Entrance<L, S>, EntrancePromise<L, S>>;
