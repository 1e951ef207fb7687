//! The queue from whoever gives to the seats, each of which takes the next.
//!
//! - `calls`: what both sides of the queue do
//! - `ends`: the ends of the queue
ghost use Rattle.std.specs.Prelude.{◌≡◌, ℕ, List};

use crossbeam_channel::Pass;
use crossbeam_channel::protocol::{Join, Lesson, Outcome, Protocol, Split};
use std::collections::LinkedList;

mod calls;
mod ends;

pub use calls::share;
pub use ends::{Giver, Taker};

/// What an end of the queue may do and what it knows. No value of it is made.
pub struct SharesView<T> {
    /// The end is that of whoever gives.
    pub gives: bool,
    /// How many seats were made.
    pub made: u64,
    /// What was given.
    pub given: LinkedList<T>,
    /// What each seat took whose end came back, by the seat's number.
    pub settled: LinkedList<LinkedList<T>>,
    /// What whoever gives took back.
    pub returned: LinkedList<T>,
    /// The end is that of a seat.
    pub takes: bool,
    pub seat: u64,
    /// What the seat took.
    pub taken: LinkedList<T>,
}

/// What was given is what was taken by the seats, and then the queue.
pub struct Sharing;

impl<T> Protocol<T, SharesView<T>> for Sharing {
    ghost use Rattle.std.specs.Prelude.{[]};
    ghost use Rattle.smsc_arrivals.specs.Sharing.{Shared, giver_view};

    ghost holds = { Shared };

    ghost first = { giver_view 0 [] [] [] };
}

/// The pass of whoever gives makes that of the next seat.
pub struct NextSeat;

impl<T> Split<SharesView<T>> for NextSeat {
    ghost use Rattle.std.specs.Prelude.{[], ◌+◌};
    ghost use Rattle.smsc_arrivals.specs.Sharing.{giver_view, taker_view};

    ghost left = { λ v. giver_view (v.made + 1) v.given v.settled [] };

    ghost right = { λ v. taker_view v.made [] };
}

/// Takes in the end of a seat.
pub struct SettleSeat;

impl<T> Join<SharesView<T>> for SettleSeat {
    ghost use Rattle.smsc_arrivals.specs.Sharing.{settled_view, spent_view};

    ghost both = { λ v w. settled_view v w };

    ghost spent = { spent_view };
}

/// What is given is behind what was.
pub struct Gives;

impl<T> Outcome<T, SharesView<T>> for Gives {
    ghost use Rattle.std.specs.Prelude.{◌≡◌, [], ◌∷◌, ◌++◌};
    ghost use Rattle.smsc_arrivals.specs.Sharing.{giver_view};

    ghost then = { λ v x w. w ≡ giver_view v.made (v.given ++ x ∷ []) v.settled v.returned };
}

impl<T> Lesson<T, SharesView<T>> for Gives {
    ghost use Rattle.std.specs.Prelude.{⊤};

    ghost fact = { λ v items. ⊤ };
}

/// A seat took one more.
pub struct Takes;

impl<T> Outcome<T, SharesView<T>> for Takes {
    ghost use Rattle.std.specs.Prelude.{◌≡◌, [], ◌∷◌, ◌++◌};
    ghost use Rattle.smsc_arrivals.specs.Sharing.{taker_view};

    ghost then = { λ v x w. w ≡ taker_view v.seat (v.taken ++ x ∷ []) };
}

impl<T> Lesson<T, SharesView<T>> for Takes {
    ghost use Rattle.std.specs.Prelude.{⊤};

    ghost fact = { λ v items. ⊤ };
}

/// Whoever gives took one back. Where nothing was there, all that was given is what was taken.
pub struct TakesBack;

impl<T> Outcome<T, SharesView<T>> for TakesBack {
    ghost use Rattle.std.specs.Prelude.{◌≡◌, [], ◌∷◌, ◌++◌};
    ghost use Rattle.smsc_arrivals.specs.Sharing.{giver_view};

    ghost then = { λ v x w. w ≡ giver_view v.made v.given v.settled (v.returned ++ x ∷ []) };
}

impl<T> Lesson<T, SharesView<T>> for TakesBack {
    ghost use Rattle.smsc_arrivals.specs.Sharing.{AreShared};

    ghost fact = { λ v items. AreShared v items };
}

pub type SharesPass<T> = Pass<T, SharesView<T>>;
