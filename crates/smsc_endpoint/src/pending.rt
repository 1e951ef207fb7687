//! What the session of an application waits for.
use smpp_session::Request;
use sms_base::MessageId;

/// A request that was passed up and has no answer yet.
#[derive(Clone, Copy)]
pub(crate) struct PendingRequest {
    pub sequence_number: u32,
    pub request: Request,
    /// The request was handed back, since the centre has too much to do.
    pub is_throttled: bool,
}

/// A receipt that was sent and has no answer yet.
#[derive(Clone, Copy)]
pub(crate) struct SentReceipt {
    pub sequence_number: u32,
    pub id: MessageId,
    /// When it was sent, in milliseconds.
    pub since: u64,
}
