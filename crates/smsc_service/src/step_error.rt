//! Why a step was not made.
use sms_rows::keep::KeepError;
use thiserror::Error;

/// Why a step was not made. The centre is as it was.
#[derive(Clone, Copy, Debug, PartialEq, Eq, Error)]
pub enum StepError {
    /// A growth was refused. Nothing was committed.
    #[error("out of memory")]
    NoMemory,
    /// The store refused to read a body. It has the rows still, or is closed.
    #[error("the store refused to read")]
    NoBody,
    /// The store refused the commit. It has the rows still, or is closed.
    #[error("{0}")]
    Store(KeepError),
}
