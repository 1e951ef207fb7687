//! What messages lay claim to.
use sms_base::{Address, Msisdn};

/// A reference to which a message lays claim, of its source and its handset (3GPP TS 23.040 9.2.3.24.8).
#[derive(Drop)]
pub struct Claim {
    pub source: Address,
    /// The number of the destination.
    pub handset: Msisdn,
    pub reference: u16,
    /// Whether a header had it that came with the submission. Else the centre gave it.
    pub is_own: bool,
}
