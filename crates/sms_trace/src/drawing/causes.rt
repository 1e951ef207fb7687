//! The cause that a frame names, in the standard's words.
ghost use Rattle.std.specs.Prelude.{◌≡◌};
ghost use Rattle.sms_trace.specs.drawing.Causes.{cause_of_frame, cause_number as number_of_cause, control_words as words_of_control};
ghost use Rattle.sms_trace.specs.drawing.Causes.{relay_words as words_of_relay, relayed as relayed_of, unit_cause as cause_of_unit, words as words_of};

use sms_control::{Cp, CpCause};
use sms_relay::{RelayFault, Rp, RpCause, read_down, read_up};
use sms_script::report::Direction;

/// Why a transfer failed, or why a transaction ended early.
#[derive(Clone, Copy, PartialEq, Eq)]
pub enum Cause {
    /// The cause of an RP-ERROR (3GPP TS 24.011 8.2.5.4).
    Relay(RpCause),
    /// The cause of a CP-ERROR (3GPP TS 24.011 8.1.4.2).
    Control(CpCause),
}

fn relayed(direction: Direction, octets: &[u8]) -> Result<Rp<'_>, RelayFault>
    ensures { result ≡ relayed_of direction octets.now }
{
    match direction {
        Direction::Up => read_up(octets),
        Direction::Down => read_down(octets),
    }
}

fn unit_cause(direction: Direction, octets: &[u8]) -> Option<Cause>
    ensures { result ≡ cause_of_unit (relayed_of direction octets.now) }
{
    match relayed(direction, octets) {
        Ok(Rp::ErrorUnit { cause, .. }) => Some(Cause::Relay(cause)),
        _ => None,
    }
}

fn relay_words(cause: RpCause) -> &'static str
    ensures { result.now ≡ words_of_relay cause }
{
    match cause {
        RpCause::UnassignedNumber => "unassigned number",
        RpCause::OperatorDeterminedBarring => "operator determined barring",
        RpCause::CallBarred => "call barred",
        RpCause::ShortMessageTransferRejected => "short message transfer rejected",
        RpCause::MemoryCapacityExceeded => "memory capacity exceeded",
        RpCause::DestinationOutOfOrder => "destination out of order",
        RpCause::UnidentifiedSubscriber => "unidentified subscriber",
        RpCause::FacilityRejected => "facility rejected",
        RpCause::UnknownSubscriber => "unknown subscriber",
        RpCause::NetworkOutOfOrder => "network out of order",
        RpCause::TemporaryFailure => "temporary failure",
        RpCause::Congestion => "congestion",
        RpCause::ResourcesUnavailable => "resources unavailable, unspecified",
        RpCause::RequestedFacilityNotSubscribed => "requested facility not subscribed",
        RpCause::RequestedFacilityNotImplemented => "requested facility not implemented",
        RpCause::InvalidShortMessageTransferReference => {
            "invalid short message transfer reference value"
        }
        RpCause::SemanticallyIncorrectMessage => "semantically incorrect message",
        RpCause::InvalidMandatoryInformation => "invalid mandatory information",
        RpCause::MessageTypeNonExistent => "message type non-existent or not implemented",
        RpCause::MessageNotCompatible => "message not compatible with short message protocol state",
        RpCause::InformationElementNonExistent => {
            "information element non-existent or not implemented"
        }
        RpCause::ProtocolError => "protocol error, unspecified",
        RpCause::Interworking => "interworking, unspecified",
        RpCause::Reserved(_) => "",
    }
}

fn control_words(cause: CpCause) -> &'static str
    ensures { result.now ≡ words_of_control cause }
{
    match cause {
        CpCause::NetworkFailure => "network failure",
        CpCause::Congestion => "congestion",
        CpCause::InvalidTransactionIdentifier => "invalid transaction identifier value",
        CpCause::SemanticallyIncorrectMessage => "semantically incorrect message",
        CpCause::InvalidMandatoryInformation => "invalid mandatory information",
        CpCause::MessageTypeNonExistent => "message type non-existent or not implemented",
        CpCause::MessageNotCompatible => {
            "message not compatible with the short message protocol state"
        }
        CpCause::InformationElementNonExistent => {
            "information element non-existent or not implemented"
        }
        CpCause::ProtocolErrorUnspecified => "protocol error, unspecified",
        CpCause::Other(_) => "",
    }
}

impl Cause {
    /// The cause that a frame names: that of a CP-ERROR, or of the RP-ERROR that a CP-DATA carries.
    pub fn of_frame(direction: Direction, octets: &[u8]) -> Option<Cause>
        ensures { result ≡ cause_of_frame direction octets.now }
    {
        match Cp::read(octets) {
            Ok(Cp::DataUnit { unit, .. }) => unit_cause(direction, unit.as_slice()),
            Ok(Cp::ErrorUnit { cause, .. }) => Some(Cause::Control(cause)),
            _ => None,
        }
    }

    /// The words of the cause; empty where the standard does not name it.
    pub fn words(self) -> &'static str
        ensures { result.now ≡ words_of self }
    {
        match self {
            Cause::Relay(cause) => relay_words(cause),
            Cause::Control(cause) => control_words(cause),
        }
    }

    /// The number of the cause.
    pub fn number(self) -> u8
        ensures { result ≡ number_of_cause self }
    {
        match self {
            Cause::Relay(cause) => cause.number(),
            Cause::Control(cause) => cause.octet(),
        }
    }
}
