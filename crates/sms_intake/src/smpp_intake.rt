//! A submit_sm from an application.
ghost use Rattle.std.specs.Prelude.{◌≡◌, IfOk};
ghost use Rattle.sms_intake.specs.SmppIntake.{Answered, from_pdu, judged_in, refusal_in, submission_for};

use crate::refusal::SmppError;
use crate::smpp_front::{Front, front_of};
use crate::smpp_times::{due_of, limit_of, wish_of};
use crate::submission::{CentreAccount, Submission};
use crate::text_view::TextView;
use smpp_pdu::{CommandStatus, Message};
use sms_base::{Moment, Octets, Originator, Priority};
use std::alloc::{AllocError, Global};

/// What was judged of a submit_sm.
#[derive(Drop)]
pub(crate) struct Judged<'a> {
    front: Front,
    text: TextView<'a>,
    limit: Moment,
    due: Moment,
}

// All that is judged.
#[tactic(auto, unfolding(crate::specs::SmppIntake::judged_in))]
fn judge<'a>(
    account: &CentreAccount,
    now: Moment,
    message: &Message<'a>,
) -> Result<Judged<'a>, CommandStatus>
    ensures { result ≡ judged_in account.now now message.now }
{
    let front = front_of(account, message)?;
    let text = TextView::of(message)?;
    let limit = limit_of(message.validity_period.as_slice(), now)?;
    let due = due_of(message.schedule_delivery_time.as_slice(), now, limit)?;
    Ok(Judged {
        front,
        text,
        limit,
        due,
    })
}

// The submission of what was judged well.
fn submission_for(
    alloc: Global,
    account: &CentreAccount,
    message: &Message<'_>,
    judged: &Judged<'_>,
) -> Result<Submission, AllocError>
    ensures { IfOk result (λ s. s ≡ submission_for account.now message.now judged.now) }
{
    Ok(Submission {
        originator: Originator::Application {
            account: Octets::copy_of(alloc, account.name.as_slice())?,
        },
        source: judged.front.source,
        handset: judged.front.handset,
        protocol_identifier: message.protocol_id,
        reply_path: message.esm_class / 0x80 % 2 == 1,
        wish: wish_of(message.registered_delivery),
        rejects_duplicates: false,
        limit: judged.limit,
        due: judged.due,
        priority: Priority::of_flag(message.priority_flag),
        text: judged.text.text(alloc)?,
    })
}

/// The submission of a submit_sm from an account, or the first refusal, in this order:
/// - what `front_of` refuses;
/// - a data_coding that names no coding, octets that are no characters of theirs, an unreadable header;
/// - half a unit of UCS2;
/// - a text too long for 20 parts, or for one behind a header;
/// - a validity period that is no later time;
/// - a schedule that is no time before its end.
///
/// Takes memory for what is accepted alone.
#[tactic(auto, unfolding(crate::specs::SmppIntake::from_pdu))]
pub fn from_pdu(
    alloc: Global,
    account: &CentreAccount,
    now: Moment,
    message: &Message<'_>,
) -> Result<Submission, SmppError>
    ensures { Answered result (from_pdu account.now now message.now) }
{
    let judged = judge(account, now, message)?;
    let submission = submission_for(alloc, account, message, &judged)?;
    Ok(submission)
}

/// The status with which its octets refuse a submit_sm from an account, if they do: the first refusal of `from_pdu`. It
/// takes no memory.
pub fn refusal_of(
    account: &CentreAccount,
    now: Moment,
    message: &Message<'_>,
) -> Option<CommandStatus>
    ensures { result ≡ refusal_in (from_pdu account.now now message.now) }
{
    match judge(account, now, message) {
        Ok(_judged) => None,
        Err(status) => Some(status),
    }
}
