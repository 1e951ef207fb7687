//! Why there is no address.
use thiserror::Error;

/// Why a type of number, a numbering plan and a text are no address.
#[derive(Clone, Copy, Debug, PartialEq, Eq, Error)]
pub enum AddressError {
    /// The text has no character.
    #[error("the address is empty")]
    Empty,
    /// A number of more than 20 digits, or a name of more than 11 septets.
    #[error("the address is too long")]
    TooLong,
    /// A character of a number is none of `0-9*#abc`.
    #[error("a character is no digit")]
    BadDigit,
    /// A character of a name has no code in the default alphabet.
    #[error("a character has no code in the default alphabet")]
    BadName,
    /// The type of number is above 6 or the numbering plan above 15.
    #[error("no such type of number or numbering plan")]
    BadKind,
}

impl AddressError {
    ghost use Rattle.std.specs.Prelude.{◌≡◌};
    ghost use Rattle.sms_base.specs.FaultCodes.{address_code};

    /// The code of the fault in reports, A1 to A5.
    pub fn code(self) -> &'static str
        ensures { result.now ≡ address_code self }
    {
        match self {
            AddressError::Empty => "A1",
            AddressError::TooLong => "A2",
            AddressError::BadDigit => "A3",
            AddressError::BadName => "A4",
            AddressError::BadKind => "A5",
        }
    }
}
