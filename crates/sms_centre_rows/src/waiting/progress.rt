//! How far a transfer is.
use sms_base::Moment;

/// How far the transfer of a part or of a report is: all of a row that changes once it was made.
#[derive(Clone, Copy, PartialEq, Eq)]
pub struct Progress {
    /// Whether it was answered for good: a part acknowledged, a report answered or dropped.
    pub is_done: bool,
    /// How many attempts failed, at most 255.
    pub attempts: u8,
    /// When it is offered next.
    pub due: Moment,
}
