//! A hub: a keeper, and up to 32 seats.
ghost use Rattle.std.specs.Prelude.{◌≡◌, ◌≤◌, ℕ, ⊤, Some, IfOk, IfErr, length, slice_get};
ghost use Rattle.sms_hub.specs.Faults.{IsTooMany, MatchFault};
ghost use Rattle.sms_hub.specs.declared.hub_fault.HubFault.TheVariants.{NoMemory};
ghost use Rattle.sms_keeper.specs.Keeping.{slots_in};
ghost use Rattle.sms_keeper.specs.Seating.{IsNewKeeper, IsNewSeat};
ghost use Rattle.sms_seats.specs.declared.seat.Seat.{Seat};

use crate::hub_fault::HubFault;
use sms_keeper::{Keeper, Seat};
use std::alloc::Global;

/// How a hub is made.
pub struct Hub;

impl Hub {
    /// A hub with 1 to 32 seats, numbered from 0, and so many slots in each queue.
    pub fn with_seats<J: Drop, O: Drop>(
        alloc: Global,
        slots: usize,
        seats: usize,
    ) -> Result<(Keeper<J, O>, Vec<Seat<J, O>>), HubFault>
        requires { (1 ≤ slots) × (slots ≤ 1024) }

        // The keeper has done nothing, and neither has a seat.
        ensures keeper { IfOk result (λ r. IsNewKeeper seats r.0) }
        ensures slots { IfOk result (λ r. slots_in r.0 ≡ slots) }
        ensures count { IfOk result (λ r. length r.1.items ≡ seats) }
        ensures seats { IfOk result (λ r. (k : ℕ) (s : Seat J O) → slice_get r.1.items k ≡ Some s → IsNewSeat r.0 k s) }

        // Too many seats are told first.
        ensures many { IsTooMany seats → result ≡ Err HubFault.TooManySessions }
        ensures fault { IfErr result (λ fault. MatchFault fault ⊥ ⊤ ⊥ (IsTooMany seats)) }
    {
        if seats == 0 || seats > 32 {
            return Err(HubFault::TooManySessions);
        }
        let mut keeper = Keeper::<J, O>::open(alloc, slots)?;
        let mut all = Vec::with_capacity(alloc, seats)?;
        for made in 0..seats {
            all.push_reserved(keeper.add_seat(alloc)?);
        }
        Ok((keeper, all))
    }

    /// A hub with two seats.
    pub fn new<J: Drop, O: Drop>(
        alloc: Global,
        slots: usize,
    ) -> Result<(Keeper<J, O>, Seat<J, O>, Seat<J, O>), HubFault>
        requires { (1 ≤ slots) × (slots ≤ 1024) }
        ensures keeper { IfOk result (λ r. IsNewKeeper 2 r.0) }
        ensures slots { IfOk result (λ r. slots_in r.0 ≡ slots) }
        ensures first { IfOk result (λ r. IsNewSeat r.0 0 r.1) }
        ensures second { IfOk result (λ r. IsNewSeat r.0 1 r.2) }
        ensures fault { IfErr result (λ fault. fault ≡ NoMemory) }
    {
        let mut keeper = Keeper::<J, O>::open(alloc, slots)?;
        let first = keeper.add_seat(alloc)?;
        let second = keeper.add_seat(alloc)?;
        Ok((keeper, first, second))
    }
}
