//! What a report has of the rows of a centre: a line for each message, and one for each receipt or status report.
use sms_base::{Digits, FinalState, MessageId};

/// The state of a message (SMPP v3.4 5.2.28, message_state).
#[derive(Clone, Copy, PartialEq, Eq)]
pub enum MessageState {
    Enroute,
    Final(FinalState),
}

/// A message at the centre. A handset is named by the digits of its number.
#[derive(Drop)]
pub struct ReportedMessage {
    pub id: MessageId,
    /// The digits or the name of its source.
    pub from: Digits,
    /// The digits of its destination.
    pub to: Digits,
    pub state: MessageState,
}

/// A receipt or a status report.
#[derive(Clone, Copy)]
pub struct ReceiptRow {
    pub id: MessageId,
    pub state: FinalState,
}
