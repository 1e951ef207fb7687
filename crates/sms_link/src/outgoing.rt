//! Frames to send, with what they carry.
use sms_base::{Carried, Octets};

/// A frame to send, which is one of three: new CP-DATA, a copy of CP-DATA that was sent before, or CP-ACK or CP-ERROR.
#[derive(Drop)]
pub struct Outgoing {
    pub octets: Octets,
    /// What CP-DATA carries. CP-ACK and CP-ERROR carry nothing.
    pub carried: Option<Carried>,
    /// Whether it is a copy: CP-DATA that was sent before with these octets, and carried this then.
    pub is_copy: bool,
}
