//! Why a content is not split.
ghost use Rattle.std.specs.Prelude.{◌≡◌};
ghost use Rattle.sms_concat.specs.declared.split_error.SplitError.TheVariants.{NoMemory};

use std::alloc::AllocError;
use thiserror::Error;

/// Why a content has no parts.
#[derive(Clone, Copy, Debug, PartialEq, Eq, Error)]
pub enum SplitError {
    /// The content takes more than 20 parts.
    #[error("the content takes more than 20 parts")]
    TooManyParts,
    /// The content is compressed and longer than 140 octets.
    #[error("the content does not fit one part")]
    DoesNotFit,
    /// There was no memory for the parts.
    #[error("out of memory")]
    NoMemory,
}

impl SplitError {
    ghost use Rattle.std.specs.Prelude.{◌≡◌, option_map};
    ghost use Rattle.sms_concat.specs.FaultCodes.{split_code};

    /// The code of the fault in reports, C1 or C2; want of memory has none.
    pub fn code(self) -> Option<&'static str>
        ensures { option_map (λ s. s.now) result ≡ split_code self }
    {
        match self {
            SplitError::TooManyParts => Some("C1"),
            SplitError::DoesNotFit => Some("C2"),
            SplitError::NoMemory => None,
        }
    }
}

impl From<AllocError> for SplitError {
    ghost from_gives = { λ _ e. e ≡ NoMemory };

    fn from(_error: AllocError) -> SplitError {
        SplitError::NoMemory
    }
}
