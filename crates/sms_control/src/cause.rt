ghost use Rattle.std.specs.Prelude.{◌≡◌};
ghost use Rattle.sms_control.specs.ControlGrammar.{cause_octet, cause_of};

/// Why a transaction ends early (3GPP TS 24.011 8.1.4.2, table 8.2). `octet` has the one table of the octets.
#[derive(Clone, Copy, PartialEq, Eq)]
pub enum CpCause {
    NetworkFailure,
    Congestion,
    InvalidTransactionIdentifier,
    SemanticallyIncorrectMessage,
    InvalidMandatoryInformation,
    MessageTypeNonExistent,
    MessageNotCompatible,
    InformationElementNonExistent,
    ProtocolErrorUnspecified,
    /// Any other octet, unchanged.
    Other(u8),
}

// The causes that have a name.
const NAMED: [CpCause; 9] = [
    CpCause::NetworkFailure,
    CpCause::Congestion,
    CpCause::InvalidTransactionIdentifier,
    CpCause::SemanticallyIncorrectMessage,
    CpCause::InvalidMandatoryInformation,
    CpCause::MessageTypeNonExistent,
    CpCause::MessageNotCompatible,
    CpCause::InformationElementNonExistent,
    CpCause::ProtocolErrorUnspecified,
];

impl CpCause {
    /// The cause that an octet names: the named one, if there is one, else the octet as it is.
    #[tactic(auto, unfolding(crate::specs::ControlGrammar::cause_of))]
    pub fn of(octet: u8) -> CpCause
        ensures { result ≡ cause_of octet }
    {
        NAMED
            .iter()
            .copied()
            .find(|cause| cause.octet() == octet)
            .unwrap_or(CpCause::Other(octet))
    }

    /// The octet of the cause.
    pub fn octet(self) -> u8
        ensures { result ≡ cause_octet self }
    {
        match self {
            CpCause::NetworkFailure => 17,
            CpCause::Congestion => 22,
            CpCause::InvalidTransactionIdentifier => 81,
            CpCause::SemanticallyIncorrectMessage => 95,
            CpCause::InvalidMandatoryInformation => 96,
            CpCause::MessageTypeNonExistent => 97,
            CpCause::MessageNotCompatible => 98,
            CpCause::InformationElementNonExistent => 99,
            CpCause::ProtocolErrorUnspecified => 111,
            CpCause::Other(octet) => octet,
        }
    }
}
