//! Why a hub or a run of one gave no answer.
use std::alloc::AllocError;
use thiserror::Error;

/// Why a hub could not be made, or a run gave no answer.
#[derive(Clone, Copy, Debug, PartialEq, Eq, Error)]
pub enum HubFault {
    /// The system had no further thread.
    #[error("no thread")]
    NoThread,
    /// A growth was refused.
    #[error("out of memory")]
    NoMemory,
    /// The machine could not be opened again after a step that its store refused.
    #[error("the machine could not be opened again")]
    MachineFailed,
    /// No seat, or more than 32.
    #[error("no session, or more than 32")]
    TooManySessions,
}

impl HubFault {
    ghost use Rattle.std.specs.Prelude.{◌≡◌};
    ghost use Rattle.sms_hub.specs.FaultCodes.{hub_code};

    /// The code of the fault in reports, B1 to B4.
    pub fn code(self) -> &'static str
        ensures { result.now ≡ hub_code self }
    {
        match self {
            HubFault::NoThread => "B1",
            HubFault::NoMemory => "B2",
            HubFault::MachineFailed => "B3",
            HubFault::TooManySessions => "B4",
        }
    }
}

impl From<AllocError> for HubFault {
    ghost use Rattle.std.specs.Prelude.{◌≡◌};
    ghost use Rattle.sms_hub.specs.declared.hub_fault.HubFault.TheVariants.{NoMemory};

    ghost from_gives = { λ _ fault. fault ≡ NoMemory };

    fn from(_refused: AllocError) -> HubFault {
        HubFault::NoMemory
    }
}
