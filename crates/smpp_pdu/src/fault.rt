ghost use Rattle.std.specs.Prelude.{◌≡◌, codes};
ghost use Rattle.smpp_pdu.specs.Faults.{code_of};

use thiserror::Error;

/// Why octets are no PDU: the first fault from the left.
#[derive(Clone, Copy, Debug, PartialEq, Eq, Error)]
pub enum PduFault {
    /// An octet is missing, but neither inside a C-octet string that has begun nor inside an optional parameter.
    #[error("octets are missing")]
    Truncated,
    /// The command_length is below 16 or above 65,536, or octets are left over.
    #[error("the length is not that of the PDU")]
    BadLength,
    /// No command has the command_id.
    #[error("no such command")]
    UnknownCommand,
    /// The PDU ends inside a C-octet string.
    #[error("a C-octet string does not end")]
    NoTerminator,
    /// The PDU ends inside an optional parameter.
    #[error("an optional parameter does not end")]
    BadTlv,
    /// A C-octet string has no NUL within its greatest length, or a time has neither of its lengths.
    #[error("a field is too long")]
    FieldTooLong,
    /// The sm_length is above 254.
    #[error("the short_message is too long")]
    ShortMessageTooLong,
}

impl PduFault {
    /// The code of the fault. A short_message that is too long has that of any field that is.
    pub fn code(self) -> &'static str
        ensures { result.now ≡ code_of self }
    {
        match self {
            PduFault::Truncated => "Q1",
            PduFault::BadLength => "Q2",
            PduFault::UnknownCommand => "Q3",
            PduFault::NoTerminator => "Q4",
            PduFault::BadTlv => "Q5",
            PduFault::FieldTooLong | PduFault::ShortMessageTooLong => "Q6",
        }
    }
}
