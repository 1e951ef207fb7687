use std::alloc::AllocError;
use thiserror::Error;

/// Why a call of `Links` was refused. The links are then as they were.
#[derive(Clone, Copy, Debug, PartialEq, Eq, Error)]
pub enum LinkError {
    /// The transaction that this side began has not ended.
    #[error("a transaction is under way")]
    Busy,
    /// No transaction of the other side waits for an answer.
    #[error("no transaction waits for an answer")]
    NothingToAnswer,
    /// A growth was refused.
    #[error("no memory is left")]
    NoMemory,
}

impl LinkError {
    ghost use Rattle.std.specs.Prelude.{◌≡◌, option_map};
    ghost use Rattle.sms_control.specs.FaultCodes.{link_code};

    /// The code of the refusal in reports, L1 or L2. Want of memory has none.
    pub fn code(self) -> Option<&'static str>
        ensures { option_map (λ s. s.now) result ≡ link_code self }
    {
        match self {
            LinkError::Busy => Some("L1"),
            LinkError::NothingToAnswer => Some("L2"),
            LinkError::NoMemory => None,
        }
    }
}

impl From<AllocError> for LinkError {
    ghost use Rattle.std.specs.Prelude.{◌≡◌};
    ghost use Rattle.sms_control.specs.declared.link_error.LinkError.TheVariants.{NoMemory};

    ghost from_gives = { λ _ e. e ≡ NoMemory };

    fn from(_error: AllocError) -> LinkError {
        LinkError::NoMemory
    }
}
