//! Why a centre forgot nothing.
use sms_rows::keep::KeepError;
use std::alloc::AllocError;

/// Why a centre forgot nothing.
#[derive(Clone, Copy, PartialEq, Eq)]
pub enum ForgetError {
    /// The rows of the store are not sound.
    BadRows,
    /// A growth was refused.
    NoMemory,
    /// The archive refused a message.
    NotArchived,
    /// The store refused the commit.
    Store(KeepError),
}

impl From<AllocError> for ForgetError {
    fn from(_error: AllocError) -> ForgetError {
        ForgetError::NoMemory
    }
}
