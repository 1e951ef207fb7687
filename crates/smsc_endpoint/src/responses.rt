//! What answers a request, by the answer of the centre.
ghost use Rattle.std.specs.Prelude.{◌≡◌, ◌≢◌, IfOk, OnOk};
ghost use Rattle.sms_base.specs.MessageId.{id_text};
ghost use Rattle.smpp_pdu.specs.Fields.{IsText, IsTimeText};
ghost use Rattle.smpp_pdu.specs.declared.status.CommandStatus.TheVariants.{ESME_ROK};
ghost use Rattle.smpp_session.specs.Answers.{answered};
ghost use Rattle.smpp_session.specs.Sessions.{after_answered};
ghost use Rattle.smpp_session.specs.declared.answer.Answer.TheVariants.{Submitted as SubmittedAnswer, Queried as QueriedAnswer};
ghost use Rattle.smsc_endpoint.specs.Responses.{final_date, refusal_status as refusal_status_of, response as response_to};
ghost use Rattle.sms_receipt.specs.Receipts.{state_number};

use crate::pending::PendingRequest;
use smpp_pdu::{CommandStatus, MessageResp, QuerySmResp};
use smpp_session::{Answer, Session};
use sms_base::{FinalState, MessageId, Moment, OctetView, Octets};
use sms_centre_spec::CentreAnswer;
use sms_receipt::message_state;
use std::alloc::{AllocError, Global};

// The ten digits of an identity.
fn id_digits(id: MessageId) -> [u8; 10]
    ensures value { result ≡ id_text id }
    ensures text { IsText 65 result }
{
    id.digits()
}

// The moment as an absolute time of SMPP, in sixteen octets at UTC (SMPP v3.4 7.1.1).
fn absolute_time(alloc: Global, done: Option<Moment>) -> Result<Octets, AllocError>
    ensures value { IfOk result (λ text. text ≡ final_date done) }
    ensures text { IfOk result (λ text. IsTimeText text) }
{
    let mut text = Octets::new(alloc);
    let Some(done) = done else {
        return Ok(text);
    };
    let second = (done.seconds() % 60) as u8;
    text.append(&done.date_digits())?;
    text.append(&[48 + second / 10, 48 + second % 10])?;
    text.append(b"000+")?;
    Ok(text)
}

// A refusal never has the status of success.
fn refusal_status(status: CommandStatus) -> CommandStatus
    ensures value { result ≡ refusal_status_of status }
    ensures fails { result ≢ ESME_ROK }
{
    match status {
        CommandStatus::ESME_ROK => CommandStatus::ESME_RSYSERR,
        _ => status,
    }
}

fn submitted(
    session: &mut Session,
    sequence_number: u32,
    id: MessageId,
) -> Result<Option<Octets>, AllocError>
    ensures octets { IfOk result (λ octets. octets
        ≡ answered session.old.conversation sequence_number (SubmittedAnswer (record { message_id = id_text id }))) }
    ensures session { OnOk result (session.new ≡ after_answered sequence_number session.old) }
{
    let digits = id_digits(id);
    session.answer(
        sequence_number,
        Answer::Submitted(MessageResp {
            message_id: OctetView::of(&digits),
        }),
    )
}

fn queried(
    session: &mut Session,
    sequence_number: u32,
    id: MessageId,
    state: Option<FinalState>,
    date: &Octets,
) -> Result<Option<Octets>, AllocError>
    requires { IsTimeText date.now }
    ensures octets { IfOk result (λ octets. octets ≡ answered session.old.conversation sequence_number
        (QueriedAnswer (record { message_id = id_text id; final_date = date.now; message_state = state_number state; error_code = 0 }))) }
    ensures session { OnOk result (session.new ≡ after_answered sequence_number session.old) }
{
    let digits = id_digits(id);
    session.answer(
        sequence_number,
        Answer::Queried(QuerySmResp {
            message_id: OctetView::of(&digits),
            final_date: OctetView::of(date.as_slice()),
            message_state: message_state(state),
            error_code: 0,
        }),
    )
}

/// The octets that answer a request, and with the last answer of a session that is to end the unbind_resp; none of one that is closed.
pub(crate) fn response(
    alloc: Global,
    session: &mut Session,
    waiting: PendingRequest,
    answer: CentreAnswer,
) -> Result<Option<Octets>, AllocError>
    ensures octets { IfOk result (λ octets. octets ≡ response_to session.old.conversation waiting answer) }
    ensures session { OnOk result (session.new ≡ after_answered waiting.sequence_number session.old) }
{
    match answer {
        CentreAnswer::Submitted(id) => submitted(session, waiting.sequence_number, id),
        CentreAnswer::Queried { id, state, done } => {
            let date = absolute_time(alloc, done)?;
            queried(session, waiting.sequence_number, id, state, &date)
        }
        CentreAnswer::Cancelled => session.answer(waiting.sequence_number, Answer::Cancelled),
        CentreAnswer::Refused(status) => session.answer(
            waiting.sequence_number,
            Answer::Refused(waiting.request, refusal_status(status)),
        ),
    }
}
