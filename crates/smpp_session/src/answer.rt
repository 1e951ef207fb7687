//! What the owner of a session answers to the requests that were passed up.
ghost use Rattle.std.specs.Prelude.{◌≡◌, IfOk};
ghost use Rattle.smpp_pdu.specs.Writing.{written};
ghost use Rattle.smpp_session.specs.Answers.{answer_body, answer_status, answer_pdu, refused_body, IsAnswer};

use smpp_pdu::{Body, CommandStatus, MessageResp, Pdu, QuerySmResp};
use sms_base::Octets;
use std::alloc::{AllocError, Global};

/// The requests that are passed up.
#[derive(Clone, Copy, Debug, PartialEq, Eq)]
pub enum Request {
    Submit,
    Query,
    Cancel,
}

/// The answer to a request that was passed up.
#[derive(Debug, Drop)]
pub enum Answer<'a> {
    /// A submit_sm: the message has this message_id.
    Submitted(MessageResp<'a>),
    /// A query_sm: the message's state.
    Queried(QuerySmResp<'a>),
    /// A cancel_sm: the message is not delivered any more.
    Cancelled,
    /// The request is refused with this status, which is not ESME_ROK.
    Refused(Request, CommandStatus),
}

impl<'a> Answer<'a> {
    // The status that stands in the header.
    pub(crate) fn status(&self) -> CommandStatus
        ensures { result ≡ answer_status self.now }
    {
        match self {
            Answer::Refused(_, status) => *status,
            _ => CommandStatus::ESME_ROK,
        }
    }

    // The body behind the header.
    pub(crate) fn into_body(self) -> Body<'a>
        ensures { result ≡ answer_body self.entry }
    {
        match self {
            Answer::Submitted(body) => Body::SubmitSmResp(Some(body)),
            Answer::Queried(body) => Body::QuerySmResp(Some(body)),
            Answer::Cancelled => Body::CancelSmResp,
            Answer::Refused(request, _) => refusal_of(request),
        }
    }

    // The octets of the answer.
    #[tactic(auto, unfolding(crate::specs::Answers::answer_pdu))]
    pub(crate) fn write(self, alloc: Global, sequence_number: u32) -> Result<Octets, AllocError>
        requires { IsAnswer self }
        ensures { IfOk result (λ octets. octets ≡ written (answer_pdu sequence_number self.entry)) }
    {
        let status = self.status();
        let body = self.into_body();
        let pdu = Pdu {
            command_status: status.number(),
            sequence_number,
            body,
        };
        let octets = pdu.write(alloc)?;
        Ok(octets)
    }
}

// The answer without a body.
fn refusal_of(request: Request) -> Body<'static>
    ensures { result ≡ refused_body request }
{
    match request {
        Request::Submit => Body::SubmitSmResp(None),
        Request::Query => Body::QuerySmResp(None),
        Request::Cancel => Body::CancelSmResp,
    }
}
