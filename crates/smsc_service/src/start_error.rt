//! Why a centre does not start.
use sms_centre::RecoverError;
use sms_rows::keep::KeepError;
use thiserror::Error;

/// Why a centre does not start.
#[derive(Clone, Copy, Debug, PartialEq, Eq, Error)]
pub enum StartError {
    /// The rows that the store gave are not sound.
    #[error("the rows are not sound")]
    BadRows,
    /// A growth was refused.
    #[error("out of memory")]
    NoMemory,
    /// The store gave no rows.
    #[error("{0}")]
    Store(KeepError),
}

impl From<RecoverError> for StartError {
    ghost use Rattle.std.specs.Prelude.{◌≡◌};
    ghost use Rattle.smsc_service.specs.Starting.{of_recover};

    ghost from_gives = { λ recover start. start ≡ of_recover recover };

    fn from(error: RecoverError) -> StartError {
        match error {
            RecoverError::BadRows => StartError::BadRows,
            RecoverError::NoMemory => StartError::NoMemory,
        }
    }
}

impl From<KeepError> for StartError {
    ghost use Rattle.std.specs.Prelude.{◌≡◌};
    ghost use Rattle.smsc_service.specs.declared.start_error.StartError.TheVariants.{Store as StoreOf};

    ghost from_gives = { λ keep start. start ≡ StoreOf keep };

    fn from(error: KeepError) -> StartError {
        StartError::Store(error)
    }
}
