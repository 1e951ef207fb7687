//! The type of a unit, the first octet of its frame (3GPP TS 24.011 8.2.2).
ghost use Rattle.std.specs.Prelude.{◌≡◌};
ghost use Rattle.sms_relay.specs.MessageType.{type_octet, type_of};

/// Which way a unit is sent: up from the handset, or down to it.
#[derive(Clone, Copy, PartialEq, Eq)]
pub(crate) enum Direction {
    Up,
    Down,
}

/// Which unit it is. `octet` has the two tables of the octets, one for each direction.
#[derive(Clone, Copy, PartialEq, Eq)]
pub(crate) enum MessageType {
    Data,
    Ack,
    Error,
    Smma,
}

/// The types that there are.
const TYPES: [MessageType; 4] = [
    MessageType::Data,
    MessageType::Ack,
    MessageType::Error,
    MessageType::Smma,
];

impl MessageType {
    /// The type that an octet names in a direction, if it names one.
    #[tactic(auto, unfolding(crate::specs::MessageType::type_of))]
    pub(crate) fn of(direction: Direction, octet: u8) -> Option<MessageType>
        ensures { result ≡ type_of direction octet }
    {
        TYPES
            .iter()
            .copied()
            .find(|kind| kind.octet(direction) == octet)
    }

    /// The octet of the type. RP-SMMA is sent up alone: its octet downwards is reserved.
    pub(crate) fn octet(self, direction: Direction) -> u8
        ensures { result ≡ type_octet direction self }
    {
        match (direction, self) {
            (Direction::Up, MessageType::Data) => 0,
            (Direction::Up, MessageType::Ack) => 2,
            (Direction::Up, MessageType::Error) => 4,
            (Direction::Up, MessageType::Smma) => 6,
            (Direction::Down, MessageType::Data) => 1,
            (Direction::Down, MessageType::Ack) => 3,
            (Direction::Down, MessageType::Error) => 5,
            (Direction::Down, MessageType::Smma) => 7,
        }
    }
}
