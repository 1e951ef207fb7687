//! Why a run ended before its work was done.
use sms_handset::machine::StepError;
use sms_link::framing::FramingFault;
use sms_rows::keep::KeepError;
use std::alloc::AllocError;
use std::io;
use thiserror::Error;

/// Why a run ended before its work was done.
#[derive(Debug, Drop, Error)]
pub enum RunError {
    /// There was no memory.
    #[error("out of memory")]
    NoMemory,
    /// The store refused a commit.
    #[error("{0}")]
    Store(KeepError),
    /// The answers to the owner couldn't be written.
    #[error("{0}")]
    Answers(io::Error),
    /// The centre sent octets that are no frames.
    #[error("{0}")]
    Framing(FramingFault),
}

/// Why no more is done on the link.
#[derive(Drop)]
pub(crate) enum LinkStop {
    /// A write of it failed.
    Broken,
    /// The run ends in an error.
    Error(RunError),
}

impl From<AllocError> for LinkStop {
    fn from(_error: AllocError) -> LinkStop {
        LinkStop::Error(RunError::NoMemory)
    }
}

impl From<FramingFault> for LinkStop {
    fn from(fault: FramingFault) -> LinkStop {
        LinkStop::Error(RunError::Framing(fault))
    }
}

impl From<StepError> for LinkStop {
    fn from(error: StepError) -> LinkStop {
        match error {
            StepError::Store(error) => LinkStop::Error(RunError::Store(error)),
            StepError::Refused(_) | StepError::NoMemory => LinkStop::Error(RunError::NoMemory),
        }
    }
}
