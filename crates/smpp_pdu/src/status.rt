ghost use Rattle.std.specs.Prelude.{◌≡◌};
ghost use Rattle.smpp_pdu.specs.Statuses.{status_number, status_of};

/// The statuses of responses that are used (SMPP v3.4 5.1.3), each with its number, by the standard's names.
#[allow(non_camel_case_types)]
#[derive(Clone, Copy, Debug, PartialEq, Eq)]
pub enum CommandStatus {
    /// No error.
    ESME_ROK = 0x0000_0000,
    /// The short_message is too long.
    ESME_RINVMSGLEN = 0x0000_0001,
    /// The command_length is wrong.
    ESME_RINVCMDLEN = 0x0000_0002,
    /// No such command.
    ESME_RINVCMDID = 0x0000_0003,
    /// Not in this state of the session.
    ESME_RINVBNDSTS = 0x0000_0004,
    /// Bound already.
    ESME_RALYBND = 0x0000_0005,
    /// The centre failed.
    ESME_RSYSERR = 0x0000_0008,
    /// No good source address.
    ESME_RINVSRCADR = 0x0000_000A,
    /// No good destination address.
    ESME_RINVDSTADR = 0x0000_000B,
    /// No such message.
    ESME_RINVMSGID = 0x0000_000C,
    /// The bind failed.
    ESME_RBINDFAIL = 0x0000_000D,
    /// A wrong password.
    ESME_RINVPASWD = 0x0000_000E,
    /// No such system_id.
    ESME_RINVSYSID = 0x0000_000F,
    /// The message could not be cancelled.
    ESME_RCANCELFAIL = 0x0000_0011,
    /// The queue of messages is full.
    ESME_RMSGQFUL = 0x0000_0014,
    /// No good esm_class.
    ESME_RINVESMCLASS = 0x0000_0043,
    /// The message could not be submitted.
    ESME_RSUBMITFAIL = 0x0000_0045,
    /// Too many messages.
    ESME_RTHROTTLED = 0x0000_0058,
    /// No good schedule_delivery_time.
    ESME_RINVSCHED = 0x0000_0061,
    /// No good validity_period.
    ESME_RINVEXPIRY = 0x0000_0062,
    /// No good optional parameters.
    ESME_RINVOPTPARSTREAM = 0x0000_00C0,
    /// An optional parameter that is not allowed.
    ESME_ROPTPARNOTALLWD = 0x0000_00C1,
    /// No good length of a parameter.
    ESME_RINVPARLEN = 0x0000_00C2,
}

// Every status.
const STATUSES: [CommandStatus; 23] = [
    CommandStatus::ESME_ROK,
    CommandStatus::ESME_RINVMSGLEN,
    CommandStatus::ESME_RINVCMDLEN,
    CommandStatus::ESME_RINVCMDID,
    CommandStatus::ESME_RINVBNDSTS,
    CommandStatus::ESME_RALYBND,
    CommandStatus::ESME_RSYSERR,
    CommandStatus::ESME_RINVSRCADR,
    CommandStatus::ESME_RINVDSTADR,
    CommandStatus::ESME_RINVMSGID,
    CommandStatus::ESME_RBINDFAIL,
    CommandStatus::ESME_RINVPASWD,
    CommandStatus::ESME_RINVSYSID,
    CommandStatus::ESME_RCANCELFAIL,
    CommandStatus::ESME_RMSGQFUL,
    CommandStatus::ESME_RINVESMCLASS,
    CommandStatus::ESME_RSUBMITFAIL,
    CommandStatus::ESME_RTHROTTLED,
    CommandStatus::ESME_RINVSCHED,
    CommandStatus::ESME_RINVEXPIRY,
    CommandStatus::ESME_RINVOPTPARSTREAM,
    CommandStatus::ESME_ROPTPARNOTALLWD,
    CommandStatus::ESME_RINVPARLEN,
];

impl CommandStatus {
    /// The number of the status in command_status.
    pub fn number(self) -> u32
        ensures { result ≡ status_number self }
    {
        self as u32
    }

    /// The status with that number, if it is one that is used.
    #[tactic(auto, unfolding(crate::specs::Statuses::status_of))]
    pub fn of(number: u32) -> Option<CommandStatus>
        ensures { result ≡ status_of number }
    {
        STATUSES
            .iter()
            .copied()
            .find(|status| status.number() == number)
    }
}
