//! The lanes of a ladder: the accounts' and the handsets', in the order of the script's head, with the centre's between them.
ghost use Rattle.std.specs.Prelude.{◌≤◌};

use crate::drawing::Arrow;
use crate::watching::heads::Places;
use sms_base::{Digits, Octets};
use sms_script::report::{Direction, FrameRow};
use sms_script::{EventSide, Setup};
use std::alloc::{AllocError, Global};

// More have no lane: no such script is played.
const MOST_ACCOUNTS: usize = 32;

const MOST_HANDSETS: usize = 16;

/// The lanes of the sides of a script.
#[derive(Drop)]
pub(crate) struct Lanes {
    places: Places,
}

impl Lanes {
    pub(crate) fn of(alloc: Global, setup: &Setup<'_>) -> Result<Lanes, AllocError> {
        let places = Places::of(alloc, setup)?;
        Ok(Lanes { places })
    }

    /// The names of the accounts.
    pub(crate) fn accounts(&self) -> &[Octets] {
        self.places.accounts()
    }

    /// The numbers of the handsets.
    pub(crate) fn handsets(&self) -> &[Octets] {
        self.places.handsets()
    }

    pub(crate) fn centre(&self) -> usize
        ensures { result ≤ 32 }
    {
        self.accounts().len().min(MOST_ACCOUNTS)
    }

    /// The lane of the account of that name.
    pub(crate) fn account(&self, name: &[u8]) -> usize {
        self.places.account(name)
    }

    // The lane of the handset at that place.
    fn at(&self, place: usize) -> usize {
        self.centre() + 1 + place.min(MOST_HANDSETS)
    }

    /// The lane of the handset of that number.
    pub(crate) fn handset(&self, number: &[u8]) -> usize {
        self.at(self.places.handset(number))
    }

    /// The lane of the handset of those digits.
    pub(crate) fn digits(&self, digits: &Digits) -> usize {
        self.at(self.places.digits(digits))
    }

    pub(crate) fn side(&self, side: &EventSide<'_>) -> usize {
        match side {
            EventSide::Centre => self.centre(),
            EventSide::Handset(number) => self.handset(number.as_slice()),
        }
    }

    /// The way of a frame.
    pub(crate) fn way(&self, frame: &FrameRow) -> Arrow {
        let handset = self.digits(&frame.handset);
        match frame.direction {
            Direction::Up => Arrow {
                from: handset,
                to: self.centre(),
            },
            Direction::Down => Arrow {
                from: self.centre(),
                to: handset,
            },
        }
    }

    /// The way of a request of the account of that name.
    pub(crate) fn request(&self, name: &[u8]) -> Arrow {
        Arrow {
            from: self.account(name),
            to: self.centre(),
        }
    }

    /// The way to the account in that lane.
    pub(crate) fn answer(&self, account: usize) -> Arrow {
        Arrow {
            from: self.centre(),
            to: account,
        }
    }
}
