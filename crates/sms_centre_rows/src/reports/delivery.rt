//! Receipts to send.
use sms_base::MessageId;

/// A receipt to send in a session: that of the message with this number.
#[derive(Clone, Copy, PartialEq, Eq)]
pub struct Delivery {
    pub session: u32,
    pub id: MessageId,
}
