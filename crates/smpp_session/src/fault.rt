ghost use Rattle.std.specs.Prelude.{◌≡◌, option_map};
ghost use Rattle.smpp_session.specs.Faults.{fault_code};
ghost use Rattle.smpp_session.specs.declared.fault.DeliverFault.TheVariants.{NoMemory};

use std::alloc::AllocError;
use thiserror::Error;

/// Why a deliver_sm was not sent.
#[derive(Clone, Copy, Debug, PartialEq, Eq, Error)]
pub enum DeliverFault {
    /// Ten deliver_sm wait for their answers.
    #[error("too many messages wait for their answers")]
    WindowFull,
    /// No receiver or transceiver is bound.
    #[error("no receiver is bound")]
    NotBound,
    /// There was no memory for it.
    #[error("out of memory")]
    NoMemory,
}

impl DeliverFault {
    /// The code of a refusal. Want of memory has none.
    pub fn code(self) -> Option<&'static str>
        ensures { option_map (λ s. s.now) result ≡ fault_code self }
    {
        match self {
            DeliverFault::WindowFull => Some("N1"),
            DeliverFault::NotBound => Some("N2"),
            DeliverFault::NoMemory => None,
        }
    }
}

impl From<AllocError> for DeliverFault {
    ghost from_gives = { λ _ e. e ≡ NoMemory };

    fn from(_error: AllocError) -> DeliverFault {
        Self::NoMemory
    }
}
