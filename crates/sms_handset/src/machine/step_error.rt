//! Why a step was not made.
ghost use Rattle.std.specs.Prelude.{◌≡◌};
ghost use Rattle.sms_handset.specs.declared.machine.step_error.StepError.TheVariants.{Store as StoreOf};
ghost use Rattle.sms_handset.specs.machine.Stepping.{of_plan};

use crate::{PlanError, Refusal};
use sms_rows::keep::KeepError;
use thiserror::Error;

/// Why a step was not made. The handset is as it was.
#[derive(Clone, Copy, Debug, PartialEq, Eq, Error)]
pub enum StepError {
    /// The owner's act is refused.
    #[error("{0}")]
    Refused(Refusal),
    /// A growth was refused. Nothing was committed.
    #[error("out of memory")]
    NoMemory,
    /// The store refused the commit. It has the rows still, or is closed.
    #[error("{0}")]
    Store(KeepError),
}

impl From<PlanError> for StepError {
    ghost from_gives = { λ plan step. step ≡ of_plan plan };

    fn from(error: PlanError) -> StepError {
        match error {
            PlanError::Refused(refusal) => StepError::Refused(refusal),
            PlanError::NoMemory => StepError::NoMemory,
        }
    }
}

impl From<KeepError> for StepError {
    ghost from_gives = { λ keep step. step ≡ StoreOf keep };

    fn from(error: KeepError) -> StepError {
        StepError::Store(error)
    }
}
