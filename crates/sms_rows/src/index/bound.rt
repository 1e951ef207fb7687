//! Which moments a walk through a tree looks for.
ghost use Rattle.std.specs.Prelude.{◌≡◌};
ghost use Rattle.sms_rows.specs.index.First.{has_none, is_within};

use sms_base::Moment;

/// Moments that are reached at another, or those that are still ahead of it.
#[derive(Clone, Copy, PartialEq, Eq)]
pub(crate) enum Bound {
    Past,
    Ahead,
}

impl Bound {
    /// Whether it is such a moment.
    pub(crate) fn is_within(self, now: Moment, moment: Moment) -> bool
        ensures { result ≡ is_within self now moment }
    {
        match self {
            Bound::Past => moment.seconds() <= now.seconds(),
            Bound::Ahead => now.seconds() < moment.seconds(),
        }
    }

    /// Whether none from the one to the other second is.
    pub(crate) fn has_none(self, now: Moment, earliest: u64, latest: u64) -> bool
        ensures { result ≡ has_none self now earliest latest }
    {
        match self {
            Bound::Past => now.seconds() < earliest,
            Bound::Ahead => latest <= now.seconds(),
        }
    }
}
