//! What both sides of the queue do.
ghost use Rattle.std.specs.Prelude.{◌≡◌, ◌<◌, ◌+◌, ◌++◌, ◌∷◌, [], length, IfOk, MatchOption, MatchResult};
ghost use Rattle.smsc_arrivals.specs.Sharing.{AreShared};
ghost use Rattle.smsc_arrivals.specs.Ways.{IsNewGiver, IsNewTaker, IsSameGiver, IsSameTaker, IsWayOf, given_by, known_by, made_by, returned_to, seat_of};
ghost use Rattle.smsc_arrivals.specs.Ways.{settled_at, taken_by};

use crate::sharing::ends::{Giver, Taker};
use crate::sharing::{Gives, NextSeat, SettleSeat, Takes, TakesBack};
use crossbeam_channel::bounded_with;
use std::alloc::{AllocError, Global};
use std::sync::Wait;

/// A new queue of so many places.
pub fn share<T: Drop>(alloc: Global, places: usize) -> Result<Giver<T>, AllocError>
    requires { 0 < places }
    ensures { IfOk result (λ giver. IsNewGiver giver) }
{
    let (sender, receiver, pass) = bounded_with(alloc, places)?;
    Ok(Giver {
        sender,
        receiver,
        pass,
    })
}

impl<T: Drop> Giver<T> {
    /// Makes the end of the next seat.
    pub fn next_seat(&mut self) -> Result<Taker<T>, AllocError>
        requires { returned_to self.old ≡ [] }
        ensures taker { IfOk result (λ taker. IsNewTaker self.new (made_by self.old) taker) }
        ensures made { IfOk result (λ taker. made_by self.new ≡ made_by self.old + 1) }
        ensures same { IsSameGiver self.old self.new }
        ensures given { given_by self.new ≡ given_by self.old }
        ensures returned { returned_to self.new ≡ [] }
        ensures settled { settled_at self.new ≡ settled_at self.old }
    {
        let receiver = self.receiver.try_clone()?;
        let pass = self.sender.another::<NextSeat>(&mut self.pass);
        Ok(Taker { receiver, pass })
    }

    /// Gives one more, behind the others, and waits where there is no room. It comes back where nobody can take it.
    pub fn give<R: Wait>(&mut self, rt: &R, item: T) -> Result<(), T>
        ensures given { MatchResult result
            (λ _. given_by self.new ≡ given_by self.old ++ item ∷ [])
            (λ back. (back ≡ item) × (given_by self.new ≡ given_by self.old)) }
        ensures same { IsSameGiver self.old self.new }
        ensures made { made_by self.new ≡ made_by self.old }
        ensures returned { returned_to self.new ≡ returned_to self.old }
        ensures settled { settled_at self.new ≡ settled_at self.old }
    {
        match self.sender.send_as::<Gives, R>(rt, &mut self.pass, item) {
            Ok(()) => Ok(()),
            Err(refused) => Err(refused.into_inner()),
        }
    }

    /// Takes in the end of the next seat.
    pub fn settle(&mut self, taker: Taker<T>)
        requires way { IsWayOf self.old taker }
        requires next { seat_of taker ≡ length (settled_at self.old) }
        requires made { length (settled_at self.old) < made_by self.old }
        ensures settled { settled_at self.new ≡ settled_at self.old ++ taken_by taker ∷ [] }
        ensures same { IsSameGiver self.old self.new }
        ensures given { given_by self.new ≡ given_by self.old }
        ensures made { made_by self.new ≡ made_by self.old }
        ensures returned { returned_to self.new ≡ returned_to self.old }
    {
        let Taker { receiver, pass } = taker;
        drop(receiver);
        self.sender.absorb::<SettleSeat>(&mut self.pass, pass);
    }

    /// Takes back the next that nobody took. Where there is none, the seats and whoever gives took all that was given.
    pub fn take_back<R: Wait>(&mut self, rt: &R) -> Option<T>
        ensures back { MatchOption result
            (AreShared (known_by self.new) [])
            (λ item. returned_to self.new ≡ returned_to self.old ++ item ∷ []) }
        ensures given { given_by self.new ≡ given_by self.old }
        ensures same { IsSameGiver self.old self.new }
        ensures made { made_by self.new ≡ made_by self.old }
        ensures settled { settled_at self.new ≡ settled_at self.old }
    {
        match self
            .receiver
            .try_recv_as::<TakesBack, R>(rt, &mut self.pass)
        {
            Ok(item) => Some(item),
            Err(_) => None,
        }
    }
}

impl<T: Drop> Taker<T> {
    /// Takes the next, and waits for it. None where nobody gives any more.
    pub fn take<R: Wait>(&mut self, rt: &R) -> Option<T>
        ensures taken { MatchOption result
            (taken_by self.new ≡ taken_by self.old)
            (λ item. taken_by self.new ≡ taken_by self.old ++ item ∷ []) }
        ensures same { IsSameTaker self.old self.new }
    {
        self.receiver.recv_as::<Takes, R>(rt, &mut self.pass).ok()
    }
}
