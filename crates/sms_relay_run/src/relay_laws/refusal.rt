//! Why a SUBMIT is refused.
ghost use Rattle.std.specs.Prelude.{◌≡◌};
ghost use Rattle.sms_relay.specs.Cause.{IsRpCause};
ghost use Rattle.sms_relay_run.specs.relay_laws.Relay.{refusal_of, cause_of, failure_cause_of, unreadable_cause};

use sms_relay::{RelayFault, RpCause};
use sms_tpdu::TpduFault;

/// TP-FCS (3GPP TS 23.040 9.2.3.22): the destination can't be a short message entity.
pub const INVALID_SME_ADDRESS: u8 = 0xC3;

/// TP-FCS: the format of the validity period isn't supported.
pub const VALIDITY_PERIOD_FORMAT_NOT_SUPPORTED: u8 = 0xC6;

/// TP-FCS: any other cause.
pub const UNSPECIFIED_ERROR: u8 = 0xFF;

/// Why a SUBMIT is refused.
#[derive(Clone, Copy, PartialEq, Eq)]
pub(crate) enum Refusal {
    /// The SUBMIT's type isn't supported.
    WrongType,
    /// The format of the SUBMIT's validity period isn't supported.
    WrongValidityFormat,
    /// The SUBMIT can't be read for another reason.
    Unreadable,
    /// The SUBMIT's destination names no handset.
    NoHandset,
    /// The message would be past its limit at once.
    PastLimit,
}

impl Refusal {
    /// The refusal of a SUBMIT that can't be read.
    pub(crate) fn of(fault: TpduFault) -> Refusal
        ensures { result ≡ refusal_of fault }
    {
        match fault {
            TpduFault::UnsupportedType => Refusal::WrongType,
            TpduFault::UnsupportedValidity => Refusal::WrongValidityFormat,
            _ => Refusal::Unreadable,
        }
    }

    /// The cause in the RP-ERROR of the refusal.
    pub(crate) fn cause(self) -> RpCause
        ensures value { result ≡ cause_of self }
        ensures written { IsRpCause result }
    {
        match self {
            Refusal::WrongType => RpCause::MessageTypeNonExistent,
            Refusal::Unreadable => RpCause::InvalidMandatoryInformation,
            Refusal::WrongValidityFormat | Refusal::NoHandset | Refusal::PastLimit => {
                RpCause::ShortMessageTransferRejected
            }
        }
    }

    /// The failure cause in the SUBMIT-REPORT that the RP-ERROR carries.
    pub(crate) fn failure_cause(self) -> u8
        ensures { result ≡ failure_cause_of self }
    {
        match self {
            Refusal::WrongValidityFormat => VALIDITY_PERIOD_FORMAT_NOT_SUPPORTED,
            Refusal::NoHandset => INVALID_SME_ADDRESS,
            Refusal::WrongType | Refusal::Unreadable | Refusal::PastLimit => UNSPECIFIED_ERROR,
        }
    }
}

/// The cause in the RP-ERROR that answers a unit that can't be read.
pub(crate) fn unreadable_cause(fault: RelayFault) -> RpCause
    ensures { result ≡ unreadable_cause fault }
{
    match fault {
        RelayFault::Unknown => RpCause::MessageTypeNonExistent,
        _ => RpCause::InvalidMandatoryInformation,
    }
}
