//! Why octets begin with no header.
use thiserror::Error;

/// Why octets do not begin with a user data header.
#[derive(Clone, Copy, Debug, PartialEq, Eq, Error)]
pub enum HeaderError {
    /// The length octet is missing, or the octets end before the header does.
    #[error("the octets end before the header does")]
    Truncated,
    /// An element passes the end of the header.
    #[error("an element passes the end of the header")]
    BadLength,
}

impl HeaderError {
    ghost use Rattle.std.specs.Prelude.{◌≡◌};
    ghost use Rattle.sms_alphabet.specs.FaultCodes.{header_code};

    /// The code of the fault in reports, U1 or U2.
    pub fn code(self) -> &'static str
        ensures { result.now ≡ header_code self }
    {
        match self {
            HeaderError::Truncated => "U1",
            HeaderError::BadLength => "U2",
        }
    }
}
