//! What is wrong with the octets of a TPDU.
use thiserror::Error;

/// The first fault of a TPDU's octets, from left to right. Octets left over are reported after every other fault.
#[derive(Clone, Copy, Debug, PartialEq, Eq, Error)]
pub enum TpduFault {
    /// The octets end before the TPDU does.
    #[error("the octets end too early")]
    Truncated,
    /// Octets are behind the TPDU.
    #[error("octets stand behind the TPDU")]
    TrailingOctets,
    /// An address field of no or too many digits, of a reserved type, or with a digit or a fill that can't be there.
    #[error("no such address")]
    BadAddress,
    /// A time stamp of no date, of no time, or out of the years 2000 to 2099.
    #[error("no such time")]
    BadTime,
    /// User data of more than 160 septets or 140 octets.
    #[error("the user data is too long")]
    UserDataTooLong,
    /// A message type that this carrier can't have, or that isn't supported.
    #[error("the TPDU is of an unsupported type")]
    UnsupportedType,
    /// A validity period in the enhanced format.
    #[error("the validity period format is not supported")]
    UnsupportedValidity,
    /// A spare or fill bit of septets that isn't zero.
    #[error("a spare bit is not zero")]
    SpareBits,
    /// A header that passes the end of the user data.
    #[error("the header does not fit the user data")]
    BadHeader,
}

impl TpduFault {
    ghost use Rattle.std.specs.Prelude.{◌≡◌};
    ghost use Rattle.sms_tpdu.specs.FaultCodes.{fault_code};

    /// The code of the fault in reports, G1 to G9.
    pub fn code(self) -> &'static str
        ensures { result.now ≡ fault_code self }
    {
        match self {
            TpduFault::Truncated => "G1",
            TpduFault::TrailingOctets => "G2",
            TpduFault::BadAddress => "G3",
            TpduFault::BadTime => "G4",
            TpduFault::UserDataTooLong => "G5",
            TpduFault::UnsupportedType => "G6",
            TpduFault::UnsupportedValidity => "G7",
            TpduFault::SpareBits => "G8",
            TpduFault::BadHeader => "G9",
        }
    }
}
