//! What a seat gets.
use crate::CentreAnswer;
use sms_base::Octets;
use sms_receipt::Final;

/// What the seat of a session or a link gets.
#[derive(Drop)]
pub enum Reply {
    /// The answer to the oldest request of its session that has none yet.
    Answer(CentreAnswer),
    /// The message ended so: its receipt is to be sent in the session.
    Receipt(Final),
    /// A frame to send on its link.
    Frame(Octets),
    /// Another seat has the link of this handset: this one is not to be served.
    Taken,
}
