//! What a centre is given when it starts.
use sms_base::{Address, Listed, Moment};
use sms_intake::CentreAccount;

/// What a centre is given when it starts, and does not store.
#[derive(Drop)]
pub struct Setup {
    /// The centre's own address.
    pub centre: Address,
    /// The centre's first moment.
    pub start: Moment,
    /// The first number that its messages may take: above all that earlier runs of its store gave. 1 in a new store.
    pub first: u64,
    pub accounts: Listed<CentreAccount>,
}
