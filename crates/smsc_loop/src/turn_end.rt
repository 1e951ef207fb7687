//! Whether an endpoint stays after a turn.
use crate::note::LeaveReason;

/// Whether an endpoint stays, and whether there is more to do at once.
#[derive(Clone, Copy, PartialEq, Eq)]
pub enum TurnEnd {
    Stays,
    Rests,
    Leaves(LeaveReason),
}
