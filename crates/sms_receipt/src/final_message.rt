//! A message that ended.
use sms_base::{Address, FinalState, MessageId, Moment, Msisdn};

/// What a report says of a message that ended.
#[derive(Clone, Copy, PartialEq, Eq)]
pub struct Final {
    /// The message.
    pub id: MessageId,
    /// Who submitted it.
    pub source: Address,
    /// The number of its handset.
    pub handset: Msisdn,
    /// TP-MR of the SUBMIT of a handset; 0 of an application's message.
    pub message_reference: u8,
    /// When it was accepted.
    pub submitted: Moment,
    /// When it ended.
    pub done: Moment,
    /// How it ended.
    pub state: FinalState,
}
