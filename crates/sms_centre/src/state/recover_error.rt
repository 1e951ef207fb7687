//! Why rows are no centre.
ghost use Rattle.std.specs.Prelude.{◌≡◌, option_copied};
ghost use Rattle.sms_centre.specs.declared.state.recover_error.RecoverError.TheVariants.{NoMemory as NoMemoryOf};

use std::alloc::AllocError;
use thiserror::Error;

/// Why rows are no centre.
#[derive(Clone, Copy, Debug, PartialEq, Eq, Error)]
pub enum RecoverError {
    /// E1: no centre committed such rows.
    #[error("the rows are not sound")]
    BadRows,
    /// A growth was refused.
    #[error("out of memory")]
    NoMemory,
}

impl RecoverError {
    ghost use Rattle.sms_centre.specs.state.Recovering.{recover_code};

    /// The code of the fault in reports, E1; want of memory has none.
    pub fn code(self) -> Option<&'static str>
        ensures { option_copied result ≡ recover_code self }
    {
        match self {
            RecoverError::BadRows => Some("E1"),
            RecoverError::NoMemory => None,
        }
    }
}

impl From<AllocError> for RecoverError {
    ghost from_gives = { λ _ e. e ≡ NoMemoryOf };

    fn from(_error: AllocError) -> RecoverError {
        RecoverError::NoMemory
    }
}
