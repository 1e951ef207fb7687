//! Why rows are no handset.
ghost use Rattle.std.specs.Prelude.{◌≡◌, option_copied};
ghost use Rattle.sms_handset.specs.declared.recover_error.RecoverError.TheVariants.{NoMemory as NoMemoryOf};

use sms_handset_draft::NoMemory;
use thiserror::Error;

/// Why rows are no handset.
#[derive(Clone, Copy, Debug, PartialEq, Eq, Error)]
pub enum RecoverError {
    /// H1: no handset committed such rows.
    #[error("the rows are not sound")]
    BadRows,
    /// A growth was refused.
    #[error("out of memory")]
    NoMemory,
}

impl RecoverError {
    ghost use Rattle.sms_handset.specs.FaultCodes.{recover_code};

    /// The code of the fault in reports, H1; want of memory has none.
    pub fn code(self) -> Option<&'static str>
        ensures { option_copied result ≡ recover_code self }
    {
        match self {
            RecoverError::BadRows => Some("H1"),
            RecoverError::NoMemory => None,
        }
    }
}

impl From<NoMemory> for RecoverError {
    ghost from_gives = { λ _ e. e ≡ NoMemoryOf };

    fn from(_error: NoMemory) -> RecoverError {
        RecoverError::NoMemory
    }
}
