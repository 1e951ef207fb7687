//! Why an act of the owner is refused.
ghost use Rattle.std.specs.Prelude.{◌≡◌};
ghost use Rattle.sms_handset.specs.declared.refusal.PlanError.TheVariants.{NoMemory as NoMemoryOf};

use sms_base::AddressError;
use sms_handset_draft::NoMemory;
use std::alloc::AllocError;
use thiserror::Error;

/// Why an act of the owner is refused. Nothing has changed then.
#[derive(Clone, Copy, Debug, PartialEq, Eq, Error)]
pub enum Refusal {
    /// H2: no entry has that number, or it is not the first stored part of an open group.
    #[error("no such entry")]
    NoEntry,
    /// H3: the entry is a part of an open group, or is Queued or Sending.
    #[error("the entry is still open")]
    StillOpen,
    /// H4: the outbox has no room for the parts, or no entry numbers are left.
    #[error("the outbox is full")]
    OutboxFull,
    /// H5: 64 groups are discarded already.
    #[error("too many groups are discarded")]
    TooManyDiscarded,
    /// C1: the text takes more than 20 parts.
    #[error("the text takes more than 20 parts")]
    TooManyParts,
    /// A1 to A5: the destination is no address.
    #[error("{0}")]
    Destination(AddressError),
}

impl Refusal {
    ghost use Rattle.sms_handset.specs.FaultCodes.{refusal_code};

    /// The code of the refusal in reports: H2 to H5, C1, A1 to A5.
    pub fn code(self) -> &'static str
        ensures { result.now ≡ refusal_code self }
    {
        match self {
            Refusal::NoEntry => "H2",
            Refusal::StillOpen => "H3",
            Refusal::OutboxFull => "H4",
            Refusal::TooManyDiscarded => "H5",
            Refusal::TooManyParts => "C1",
            Refusal::Destination(fault) => fault.code(),
        }
    }
}

/// Why there is no plan. The handset is as it was.
#[derive(Clone, Copy, Debug, PartialEq, Eq, Error)]
pub enum PlanError {
    /// The owner's act is refused.
    #[error("{0}")]
    Refused(Refusal),
    /// A growth was refused.
    #[error("out of memory")]
    NoMemory,
}

impl From<NoMemory> for PlanError {
    ghost from_gives = { λ _ e. e ≡ NoMemoryOf };

    fn from(_error: NoMemory) -> PlanError {
        PlanError::NoMemory
    }
}

impl From<AllocError> for PlanError {
    ghost from_gives = { λ _ e. e ≡ NoMemoryOf };

    fn from(_error: AllocError) -> PlanError {
        PlanError::NoMemory
    }
}
