//! Why octets are no frame.
use thiserror::Error;

/// What is wrong with the octets of a frame: the first fault from the left, octets left over last.
#[derive(Clone, Copy, Debug, PartialEq, Eq, Error)]
pub enum RelayFault {
    /// An octet is missing.
    #[error("the octets end too early")]
    Truncated,
    /// An octet is left over behind the unit.
    #[error("octets stand behind the unit")]
    Trailing,
    /// The first octet names no unit of this direction.
    #[error("the unit is of an unknown type")]
    Unknown,
    /// The length of an address or of the cause, or the cause, is out of range.
    #[error("a length or the cause is out of range")]
    BadLength,
}

impl RelayFault {
    ghost use Rattle.std.specs.Prelude.{◌≡◌};
    ghost use Rattle.sms_relay.specs.FaultCode.{code_of};

    /// The code of the fault in reports, J1 to J4.
    pub fn code(self) -> &'static str
        ensures { result.now ≡ code_of self }
    {
        match self {
            RelayFault::Truncated => "J1",
            RelayFault::Trailing => "J2",
            RelayFault::Unknown => "J3",
            RelayFault::BadLength => "J4",
        }
    }
}
