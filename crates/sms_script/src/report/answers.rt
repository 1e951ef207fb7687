//! What requests and acts were answered.
use smpp_pdu::CommandStatus;
use sms_base::{MessageId, OctetView};
use sms_centre_rows::report_lines::MessageState;

/// What a request of an application or an act of an owner was answered.
#[derive(Drop)]
pub enum Answered {
    /// A submission was taken under that id.
    Accepted(MessageId),
    /// A query found the message in that state.
    Found(MessageState),
    /// Another request was done, or one was refused.
    Status(CommandStatus),
    /// An act of an owner was done.
    Done,
    /// An act of an owner was refused: the code of the refusal.
    Refused(OctetView<'static>),
    /// The event was stopped before it could answer.
    Stopped,
}

/// What the event of that number was answered.
#[derive(Drop)]
pub struct Answer {
    pub event: u64,
    pub answered: Answered,
}
