ghost use Rattle.std.specs.Prelude.{◌≡◌};
ghost use Rattle.sms_control.specs.ControlGrammar.{type_octet, type_of};

/// The type of a message (3GPP TS 24.011 8.1.3). `octet` has the one table of the octets.
#[derive(Clone, Copy, PartialEq, Eq)]
pub enum MessageType {
    Data,
    Ack,
    Error,
}

// The types that there are.
const TYPES: [MessageType; 3] = [MessageType::Data, MessageType::Ack, MessageType::Error];

impl MessageType {
    /// The type that an octet names, if it names one.
    #[tactic(auto, unfolding(crate::specs::ControlGrammar::type_of))]
    pub fn of(octet: u8) -> Option<MessageType>
        ensures { result ≡ type_of octet }
    {
        TYPES
            .iter()
            .copied()
            .find(|message_type| message_type.octet() == octet)
    }

    /// The octet of the type.
    pub fn octet(self) -> u8
        ensures { result ≡ type_octet self }
    {
        match self {
            MessageType::Data => 0x01,
            MessageType::Ack => 0x04,
            MessageType::Error => 0x10,
        }
    }
}
