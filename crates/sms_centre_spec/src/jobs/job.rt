//! What a seat asks.
ghost use Rattle.std.specs.Prelude.{◌≡◌};
ghost use Rattle.sms_centre_spec.specs.jobs.Requests.{is_request};

use sms_base::{MessageId, Msisdn, Octets};

/// What the seat of a session or a link asks of the centre. An account is named by its place in the setup, from 0.
#[derive(Drop)]
pub enum Job {
    /// The session of the seat is bound, as a receiver or transceiver or as a transmitter alone.
    Bound { account: u8, receives: bool },
    /// The session of the seat is bound no longer.
    Unbound,
    /// A submit_sm of its session, the whole PDU. It has one answer.
    Submit { account: u8, pdu: Octets },
    /// A query_sm of its session, the whole PDU. It has one answer.
    Query { account: u8, pdu: Octets },
    /// A cancel_sm of its session, the whole PDU. It has one answer.
    Cancel { account: u8, pdu: Octets },
    /// The receipt of the message was accepted in its session, or refused.
    DeliverAnswered { id: MessageId, is_accepted: bool },
    /// The link of the seat is that of the handset, which can be reached.
    LinkUp { handset: Msisdn },
    /// The link of the seat is no longer.
    LinkDown,
    /// A frame that arrived on its link.
    Frame { octets: Octets },
}

impl Job {
    /// Whether it has an answer.
    pub fn is_request(&self) -> bool
        ensures { result ≡ is_request self.now }
    {
        matches!(
            self,
            Job::Submit { .. } | Job::Query { .. } | Job::Cancel { .. }
        )
    }
}
