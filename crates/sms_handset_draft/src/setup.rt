//! What a handset is given when it starts.
use sms_base::{Address, Moment};

/// What a handset is given when it starts, and does not store.
#[derive(Clone, Copy, PartialEq, Eq)]
pub struct Setup {
    /// The handset's own number.
    pub number: Address,
    /// How many parts it has room for, 1 to 255.
    pub slots: u8,
    /// The address of the service centre.
    pub centre: Address,
    /// The handset's first moment.
    pub start: Moment,
}
