//! Why a run of the server ended early.
use sms_hub::HubFault;
use sms_rows::keep::KeepError;
use smsc_service::StartError;
use std::alloc::AllocError;
use thiserror::Error;

/// Why a run of the server ended early, or did not start.
#[derive(Clone, Copy, Debug, PartialEq, Eq, Error)]
pub enum ServeFault {
    /// A growth was refused.
    #[error("out of memory")]
    NoMemory,
    /// The system had no further thread or file.
    #[error("no thread")]
    NoThread,
    /// No centre could have left the rows of the store.
    #[error("the rows are not sound")]
    BadRows,
    /// The store refused to be read as the run started.
    #[error("{0}")]
    Store(KeepError),
    /// The store refused a step, and could not be read again.
    #[error("the store could not be read again")]
    Broken,
}

impl From<AllocError> for ServeFault {
    fn from(_refused: AllocError) -> ServeFault {
        ServeFault::NoMemory
    }
}

impl From<HubFault> for ServeFault {
    ghost use Rattle.std.specs.Prelude.{◌≡◌};
    ghost use Rattle.smsc_server.specs.serving.Serving.{fault_of};

    ghost from_gives = { λ from fault. fault ≡ fault_of from };

    fn from(fault: HubFault) -> ServeFault {
        match fault {
            HubFault::NoMemory => ServeFault::NoMemory,
            HubFault::NoThread | HubFault::TooManySessions => ServeFault::NoThread,
            HubFault::MachineFailed => ServeFault::Broken,
        }
    }
}

impl From<StartError> for ServeFault {
    fn from(error: StartError) -> ServeFault {
        match error {
            StartError::BadRows => ServeFault::BadRows,
            StartError::NoMemory => ServeFault::NoMemory,
            StartError::Store(error) => ServeFault::Store(error),
        }
    }
}
