//! query_sm and cancel_sm (SMPP v3.4 4.8, 4.9).
ghost use Rattle.std.specs.Prelude.{◌≡◌, Some, true, IfOk, OnOk};
ghost use Rattle.sms_base.specs.declared.final_state.FinalState.TheVariants.{Deleted};
ghost use Rattle.sms_intake.specs.SmppIntake.{is_empty as is_empty_of};
ghost use Rattle.sms_centre_rows.specs.messages.Messages.{is_pending, message_at};
ghost use Rattle.sms_centre_spec.specs.declared.answer.CentreAnswer.TheVariants.{Cancelled};
ghost use Rattle.sms_centre_spec.specs.Draft.{Draft, answer_with, in_store, messages_in};
ghost use Rattle.sms_centre_spec.specs.Ends.{end};
ghost use Rattle.sms_centre_spec.specs.Requests.{cancel as cancel_of, cancel_by as cancel_by_of, cancelled as cancelled_of, only_to as only_to_of};
ghost use Rattle.sms_centre_spec.specs.Requests.{queried as queried_of, query as query_of, query_by as query_by_of, refused as refused_of, to_cancel};
ghost use Rattle.sms_centre_events.specs.Found.{IsStored};
ghost use Rattle.sms_centre_draft.specs.CentreDraft.{Represents};

use crate::accounts::account_of;
use crate::finding::own_message;
use crate::sources::is_to;
use smpp_pdu::{CancelSm, CommandStatus, QuerySm, SmeAddress};
use sms_base::FinalState;
use sms_centre_draft::CentreDraft;
use sms_centre_rows::messages::MessageRow;
use sms_centre_spec::CentreAnswer;
use sms_intake::CentreAccount;
use std::alloc::AllocError;

/// The request is refused with that status.
pub(crate) fn refuse(draft: &mut CentreDraft<'_>, status: CommandStatus)
    ensures { (d : Draft) → Represents d draft.old → Represents (refused_of status d) draft.new }
{
    draft.answer(CentreAnswer::Refused(status));
}

// ---- query_sm

fn queried(draft: &mut CentreDraft<'_>, found: Option<MessageRow>)
    ensures { (d : Draft) → Represents d draft.old → Represents (queried_of found d) draft.new }
{
    match found {
        Some(message) => draft.answer(CentreAnswer::Queried {
            id: message.id,
            state: message.state,
            done: message.done,
        }),
        None => refuse(draft, CommandStatus::ESME_RINVMSGID),
    }
}

fn query_by(
    draft: &mut CentreDraft<'_>,
    account: &CentreAccount,
    query: &QuerySm<'_>,
) -> Result<(), AllocError>
    ensures { (d : Draft) → Represents d draft.old → OnOk result (Represents (query_by_of (Some account.now) query.now d) draft.new) }
{
    let found = own_message(draft, account, &query.source, query.message_id.as_slice())?;
    queried(draft, found);
    Ok(())
}

/// Answers the state of the message that the account asks for, by its number and source. Refused are an account that
/// isn't there (ESME_RSYSERR) and a message that isn't the account's (ESME_RINVMSGID).
pub fn query(
    draft: &mut CentreDraft<'_>,
    account: u8,
    query: &QuerySm<'_>,
) -> Result<(), AllocError>
    ensures { (d : Draft) → Represents d draft.old → OnOk result (Represents (query_of account query.now d) draft.new) }
{
    match account_of(draft, account) {
        Some(account) => query_by(draft, account, query),
        None => {
            refuse(draft, CommandStatus::ESME_RSYSERR);
            Ok(())
        }
    }
}

// ---- cancel_sm

// The message, which is pending, is deleted.
fn delete(draft: &mut CentreDraft<'_>, message: &MessageRow) -> Result<(), AllocError>
    ensures { (d : Draft) → Represents d draft.old → message_at message.now.id (messages_in d.store) ≡ Some message.now → is_pending message.now ≡ true
        → OnOk result (Represents (answer_with Cancelled (in_store (end Deleted message.now d.store) d)) draft.new) }
{
    draft.end(FinalState::Deleted, message)?;
    draft.answer(CentreAnswer::Cancelled);
    Ok(())
}

fn cancelled(draft: &mut CentreDraft<'_>, message: &MessageRow) -> Result<(), AllocError>
    ensures { (d : Draft) → Represents d draft.old → message_at message.now.id (messages_in d.store) ≡ Some message.now
        → OnOk result (Represents (cancelled_of (Some message.now) d) draft.new) }
{
    if message.state.is_none() {
        return delete(draft, message);
    }
    refuse(draft, CommandStatus::ESME_RCANCELFAIL);
    Ok(())
}

/// The message is deleted, if it is there and hasn't ended.
pub(crate) fn cancel_found(
    draft: &mut CentreDraft<'_>,
    found: Option<MessageRow>,
) -> Result<(), AllocError>
    ensures { (d : Draft) → Represents d draft.old → IsStored found d.store → OnOk result (Represents (cancelled_of found d) draft.new) }
{
    match found {
        Some(message) => cancelled(draft, &message),
        None => {
            refuse(draft, CommandStatus::ESME_RINVMSGID);
            Ok(())
        }
    }
}

fn is_empty(octets: &[u8]) -> bool
    ensures { result ≡ is_empty_of octets.now }
{
    octets.is_empty()
}

// The message, if it is one to the destination that is named.
fn only_to(destination: &SmeAddress<'_>, found: Option<MessageRow>) -> Option<MessageRow>
    ensures { result ≡ only_to_of destination.now found }
{
    match found {
        Some(message) => if_to(destination, message),
        None => None,
    }
}

fn if_to(destination: &SmeAddress<'_>, message: MessageRow) -> Option<MessageRow>
    ensures { result ≡ only_to_of destination.now (Some message) }
{
    if is_to(destination, &message) {
        return Some(message);
    }
    None
}

// The message that it asks for: of that number, account and source, and to the destination that it gives.
fn asked(
    draft: &CentreDraft<'_>,
    account: &CentreAccount,
    cancel: &CancelSm<'_>,
) -> Result<Option<MessageRow>, AllocError>
    ensures { (d : Draft) → Represents d draft.now → IfOk result (λ found. found ≡ to_cancel account.now cancel.now (messages_in d.store)) }
{
    let found = own_message(draft, account, &cancel.source, cancel.message_id.as_slice())?;
    Ok(only_to(&cancel.destination, found))
}

fn cancel_by(
    draft: &mut CentreDraft<'_>,
    account: &CentreAccount,
    cancel: &CancelSm<'_>,
) -> Result<(), AllocError>
    ensures { (d : Draft) → Represents d draft.old → OnOk result (Represents (cancel_by_of (Some account.now) cancel.now d) draft.new) }
{
    if is_empty(cancel.message_id.as_slice()) {
        refuse(draft, CommandStatus::ESME_RCANCELFAIL);
        return Ok(());
    }
    let found = asked(draft, account, cancel)?;
    cancel_found(draft, found)
}

/// Ends the message that the account asks for, by its number and source, and makes its report. Refused are an account
/// that isn't there (ESME_RSYSERR), a request without a number and a message that has ended (ESME_RCANCELFAIL). A
/// message that isn't the account's is refused too, and one to another destination than is given (ESME_RINVMSGID).
pub fn cancel(
    draft: &mut CentreDraft<'_>,
    account: u8,
    cancel: &CancelSm<'_>,
) -> Result<(), AllocError>
    ensures { (d : Draft) → Represents d draft.old → OnOk result (Represents (cancel_of account cancel.now d) draft.new) }
{
    match account_of(draft, account) {
        Some(account) => cancel_by(draft, account, cancel),
        None => {
            refuse(draft, CommandStatus::ESME_RSYSERR);
            Ok(())
        }
    }
}
