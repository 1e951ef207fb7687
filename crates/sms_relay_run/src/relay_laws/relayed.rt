//! What a centre sends for one unit.
use sms_base::{Address, Octets};

/// The units of the relay layer that a centre sends for one unit of a handset.
#[derive(Drop)]
pub struct Relayed {
    /// The answer to the sender.
    pub answer: Option<Octets>,
    /// The unit to a handset, with the address that names it.
    pub down: Option<(Address, Octets)>,
}
