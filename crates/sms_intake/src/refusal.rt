//! Why a SUBMIT is refused.
ghost use Rattle.std.specs.Prelude.{◌≡◌};
ghost use Rattle.sms_intake.specs.Refusals.{cause_of, failure_of, unread};
ghost use Rattle.sms_intake.specs.declared.refusal.SmppError.TheVariants.{NoMemory as NoMemoryToo, Refused};
ghost use Rattle.sms_intake.specs.declared.refusal.SubmitError.TheVariants.{NoMemory};

use smpp_pdu::CommandStatus;
use sms_relay::RpCause;
use sms_tpdu::{FailureCause, TpduFault};
use std::alloc::AllocError;
use thiserror::Error;

/// Why a SUBMIT is refused (3GPP TS 23.040 9.2.3.22, 3GPP TS 24.011 8.2.5.4).
#[derive(Clone, Copy, Debug, PartialEq, Eq, Error)]
pub enum SubmitRefusal {
    /// A TPDU of another type.
    #[error("the TPDU is no SUBMIT")]
    WrongType,
    /// A format of the validity period that the centre doesn't take.
    #[error("the validity period format is not supported")]
    WrongValidityFormat,
    /// A TPDU that can't be read.
    #[error("the TPDU can't be read")]
    Unreadable,
    /// The destination is no handset.
    #[error("the destination is no handset")]
    NoHandset,
    /// The destination is the number of an account: no text of a handset is sent to an application.
    #[error("the destination is an account's number")]
    OfAccount,
    /// The validity period is over.
    #[error("the validity period is over")]
    PastLimit,
    /// The message is pending under this TP-MR, and TP-RD is 1.
    #[error("the message is a duplicate")]
    Duplicate,
    /// The centre gave the concatenation reference to a message of its own.
    #[error("the concatenation reference is taken")]
    ReferenceTaken,
    /// No references or numbers are free.
    #[error("no reference is free")]
    Congested,
}

impl SubmitRefusal {
    /// The refusal of a TPDU that can't be read.
    pub fn of_fault(fault: TpduFault) -> SubmitRefusal
        ensures { result ≡ unread fault }
    {
        match fault {
            TpduFault::UnsupportedType => SubmitRefusal::WrongType,
            TpduFault::UnsupportedValidity => SubmitRefusal::WrongValidityFormat,
            _ => SubmitRefusal::Unreadable,
        }
    }

    /// The cause in the RP-ERROR.
    pub fn cause(self) -> RpCause
        ensures { result ≡ cause_of self }
    {
        match self {
            SubmitRefusal::WrongType => RpCause::MessageTypeNonExistent,
            SubmitRefusal::Unreadable => RpCause::InvalidMandatoryInformation,
            SubmitRefusal::Congested => RpCause::Congestion,
            _ => RpCause::ShortMessageTransferRejected,
        }
    }

    /// TP-FCS in the SUBMIT-REPORT.
    pub fn failure_cause(self) -> FailureCause
        ensures { result ≡ failure_of self }
    {
        match self {
            SubmitRefusal::WrongValidityFormat => FailureCause::ValidityPeriodFormatNotSupported,
            SubmitRefusal::NoHandset => FailureCause::InvalidSmeAddress,
            SubmitRefusal::OfAccount => FailureCause::DestinationBarred,
            SubmitRefusal::Duplicate => FailureCause::DuplicateShortMessage,
            SubmitRefusal::Congested => FailureCause::ServiceCentreBusy,
            _ => FailureCause::UnspecifiedErrorCause,
        }
    }
}

/// Why there is no submission.
#[derive(Clone, Copy, Debug, PartialEq, Eq, Error)]
pub enum SubmitError {
    /// The SUBMIT is refused.
    #[error("{0}")]
    Refused(SubmitRefusal),
    /// There was no memory.
    #[error("out of memory")]
    NoMemory,
}

impl From<AllocError> for SubmitError {
    ghost from_gives = { λ _ e. e ≡ NoMemory };

    fn from(_error: AllocError) -> SubmitError {
        SubmitError::NoMemory
    }
}

/// Why there is no submission of a submit_sm.
#[derive(Clone, Copy, Debug, PartialEq, Eq, Error)]
pub enum SmppError {
    /// The submit_sm is refused with this status, which is not ESME_ROK.
    #[error("the submit_sm is refused")]
    Refused(CommandStatus),
    /// There was no memory.
    #[error("out of memory")]
    NoMemory,
}

impl From<CommandStatus> for SmppError {
    ghost from_gives = { λ status e. e ≡ Refused status };

    fn from(status: CommandStatus) -> SmppError {
        SmppError::Refused(status)
    }
}

impl From<AllocError> for SmppError {
    ghost from_gives = { λ _ e. e ≡ NoMemoryToo };

    fn from(_error: AllocError) -> SmppError {
        SmppError::NoMemory
    }
}
