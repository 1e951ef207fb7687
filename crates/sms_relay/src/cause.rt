//! The cause of an RP-ERROR (3GPP TS 24.011 8.2.5.4 and annex E).
ghost use Rattle.std.specs.Prelude.{◌≡◌};
ghost use Rattle.sms_relay.specs.Cause.{number_of, cause_of};

/// Why a transfer failed. `number` has the one table of the numbers, 0 to 127.
#[derive(Clone, Copy, PartialEq, Eq)]
pub enum RpCause {
    UnassignedNumber,
    OperatorDeterminedBarring,
    CallBarred,
    ShortMessageTransferRejected,
    MemoryCapacityExceeded,
    DestinationOutOfOrder,
    UnidentifiedSubscriber,
    FacilityRejected,
    UnknownSubscriber,
    NetworkOutOfOrder,
    TemporaryFailure,
    Congestion,
    ResourcesUnavailable,
    RequestedFacilityNotSubscribed,
    RequestedFacilityNotImplemented,
    InvalidShortMessageTransferReference,
    SemanticallyIncorrectMessage,
    InvalidMandatoryInformation,
    MessageTypeNonExistent,
    MessageNotCompatible,
    InformationElementNonExistent,
    ProtocolError,
    Interworking,
    /// A number that has no name here, 11 (reserved) among them.
    Reserved(u8),
}

/// The causes that have a name.
const NAMED: [RpCause; 23] = [
    RpCause::UnassignedNumber,
    RpCause::OperatorDeterminedBarring,
    RpCause::CallBarred,
    RpCause::ShortMessageTransferRejected,
    RpCause::MemoryCapacityExceeded,
    RpCause::DestinationOutOfOrder,
    RpCause::UnidentifiedSubscriber,
    RpCause::FacilityRejected,
    RpCause::UnknownSubscriber,
    RpCause::NetworkOutOfOrder,
    RpCause::TemporaryFailure,
    RpCause::Congestion,
    RpCause::ResourcesUnavailable,
    RpCause::RequestedFacilityNotSubscribed,
    RpCause::RequestedFacilityNotImplemented,
    RpCause::InvalidShortMessageTransferReference,
    RpCause::SemanticallyIncorrectMessage,
    RpCause::InvalidMandatoryInformation,
    RpCause::MessageTypeNonExistent,
    RpCause::MessageNotCompatible,
    RpCause::InformationElementNonExistent,
    RpCause::ProtocolError,
    RpCause::Interworking,
];

impl RpCause {
    /// The cause with that number: the named one, if there is one, else the reserved value.
    #[tactic(auto, unfolding(crate::specs::Cause::cause_of))]
    pub fn of(number: u8) -> RpCause
        ensures { result ≡ cause_of number }
    {
        NAMED
            .iter()
            .copied()
            .find(|cause| cause.number() == number)
            .unwrap_or(RpCause::Reserved(number))
    }

    /// The number of the cause.
    pub fn number(self) -> u8
        ensures { result ≡ number_of self }
    {
        match self {
            RpCause::UnassignedNumber => 1,
            RpCause::OperatorDeterminedBarring => 8,
            RpCause::CallBarred => 10,
            RpCause::ShortMessageTransferRejected => 21,
            RpCause::MemoryCapacityExceeded => 22,
            RpCause::DestinationOutOfOrder => 27,
            RpCause::UnidentifiedSubscriber => 28,
            RpCause::FacilityRejected => 29,
            RpCause::UnknownSubscriber => 30,
            RpCause::NetworkOutOfOrder => 38,
            RpCause::TemporaryFailure => 41,
            RpCause::Congestion => 42,
            RpCause::ResourcesUnavailable => 47,
            RpCause::RequestedFacilityNotSubscribed => 50,
            RpCause::RequestedFacilityNotImplemented => 69,
            RpCause::InvalidShortMessageTransferReference => 81,
            RpCause::SemanticallyIncorrectMessage => 95,
            RpCause::InvalidMandatoryInformation => 96,
            RpCause::MessageTypeNonExistent => 97,
            RpCause::MessageNotCompatible => 98,
            RpCause::InformationElementNonExistent => 99,
            RpCause::ProtocolError => 111,
            RpCause::Interworking => 127,
            RpCause::Reserved(number) => number,
        }
    }
}
