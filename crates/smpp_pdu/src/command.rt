ghost use Rattle.std.specs.Prelude.{◌≡◌};
ghost use Rattle.smpp_pdu.specs.Commands.{command_number, command_of};

/// The commands (SMPP v3.4 5.1.2.1), each with its command_id.
#[derive(Clone, Copy, PartialEq, Eq)]
pub enum CommandId {
    BindReceiver = 0x0000_0001,
    BindTransmitter = 0x0000_0002,
    QuerySm = 0x0000_0003,
    SubmitSm = 0x0000_0004,
    DeliverSm = 0x0000_0005,
    Unbind = 0x0000_0006,
    CancelSm = 0x0000_0008,
    BindTransceiver = 0x0000_0009,
    EnquireLink = 0x0000_0015,
    GenericNack = 0x8000_0000,
    BindReceiverResp = 0x8000_0001,
    BindTransmitterResp = 0x8000_0002,
    QuerySmResp = 0x8000_0003,
    SubmitSmResp = 0x8000_0004,
    DeliverSmResp = 0x8000_0005,
    UnbindResp = 0x8000_0006,
    CancelSmResp = 0x8000_0008,
    BindTransceiverResp = 0x8000_0009,
    EnquireLinkResp = 0x8000_0015,
}

// Every command.
const COMMANDS: [CommandId; 19] = [
    CommandId::BindReceiver,
    CommandId::BindTransmitter,
    CommandId::QuerySm,
    CommandId::SubmitSm,
    CommandId::DeliverSm,
    CommandId::Unbind,
    CommandId::CancelSm,
    CommandId::BindTransceiver,
    CommandId::EnquireLink,
    CommandId::GenericNack,
    CommandId::BindReceiverResp,
    CommandId::BindTransmitterResp,
    CommandId::QuerySmResp,
    CommandId::SubmitSmResp,
    CommandId::DeliverSmResp,
    CommandId::UnbindResp,
    CommandId::CancelSmResp,
    CommandId::BindTransceiverResp,
    CommandId::EnquireLinkResp,
];

impl CommandId {
    /// The command_id, which is that of the request with bit 31 set for a response.
    pub fn number(self) -> u32
        ensures { result ≡ command_number self }
    {
        self as u32
    }

    /// The command with that command_id, if there is one.
    #[tactic(auto, unfolding(crate::specs::Commands::command_of))]
    pub fn of(number: u32) -> Option<CommandId>
        ensures { result ≡ command_of number }
    {
        COMMANDS
            .iter()
            .copied()
            .find(|command| command.number() == number)
    }
}
