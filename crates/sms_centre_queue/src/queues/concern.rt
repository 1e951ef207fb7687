//! Where an event that isn't a handset's own stops.
ghost use Rattle.std.specs.Prelude.{◌≡◌};
ghost use Rattle.sms_centre_queue.specs.queues.Keys.{stop_key};

use sms_base::{Moment, Msisdn};
use sms_rows::table::{Key, Row};

/// A handset that an event concerns, by its place in the order in which the event walks over them.
#[derive(Clone, Copy, PartialEq, Eq)]
pub struct ConcernedHandset {
    /// The handset's place in the order of first mention, or its link's in the order in which links were first used; from
    /// 1.
    pub order: u64,
    /// The handset's digits.
    pub number: Msisdn,
}

impl Row for ConcernedHandset {
    ghost key = { stop_key };

    fn key(&self) -> Key {
        Key::of(self.order)
    }
}

/// Why an event stops at a handset.
#[derive(Clone, Copy, PartialEq, Eq)]
pub enum Concern {
    /// A handset that was given a reference, whose link is ready and for which something is due.
    Offer(Moment),
    /// A timer of its link fires; of those that were given a reference.
    Fire(Moment),
    /// A timer of its link fires; of those that were given none.
    FireUnmentioned(Moment),
    /// A handset whose link was up before a recovery.
    Awaited,
}
