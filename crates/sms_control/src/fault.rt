use thiserror::Error;

/// What is wrong with the octets of a frame: the first fault from the left.
#[derive(Clone, Copy, Debug, PartialEq, Eq, Error)]
pub enum CpFault {
    /// The octets end too early.
    #[error("the octets end too early")]
    Truncated,
    /// Octets are behind the frame.
    #[error("octets stand behind the frame")]
    Trailing,
    /// Another protocol, a reserved transaction identifier or another type of message.
    #[error("the frame is of an unknown kind")]
    Unknown,
    /// The length of a unit is 0 or above 248.
    #[error("a length is out of range")]
    BadLength,
}

impl CpFault {
    ghost use Rattle.std.specs.Prelude.{◌≡◌};
    ghost use Rattle.sms_control.specs.FaultCodes.{frame_code};

    /// The code of the fault in reports, P1 to P4.
    pub fn code(self) -> &'static str
        ensures { result.now ≡ frame_code self }
    {
        match self {
            CpFault::Truncated => "P1",
            CpFault::Trailing => "P2",
            CpFault::Unknown => "P3",
            CpFault::BadLength => "P4",
        }
    }
}
