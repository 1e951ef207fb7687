//! submit_sm (SMPP v3.4 4.4).
ghost use Rattle.std.specs.Prelude.{◌≡◌, Ok, OnOk, Some};
ghost use Rattle.sms_base.specs.Address.{IsAddress};
ghost use Rattle.sms_intake.specs.PartBodies.{HasUnits};
ghost use Rattle.sms_centre_events.specs.Knowing.{Knows};
ghost use Rattle.sms_centre_spec.specs.Draft.{Draft, rows_of};
ghost use Rattle.sms_centre_spec.specs.MessageNumbers.{next_number as next_number_of};
ghost use Rattle.sms_centre_spec.specs.Shares.{unless_too_much};
ghost use Rattle.sms_centre_spec.specs.Requests.{accepted as accepted_of, submission_received as submission_received_of};
ghost use Rattle.sms_centre_spec.specs.Requests.{submit as submit_of, submit_by as submit_by_of};
ghost use Rattle.sms_centre_spec.specs.SoundRows.{IsSetup};
ghost use Rattle.sms_centre_spec.specs.Consistent.{IsSubmission};
ghost use Rattle.sms_centre_spec.specs.Submitting.{accept as accept_of};
ghost use Rattle.sms_centre_draft.specs.CentreDraft.{Represents as DraftRepresents};

use crate::accepting::accept;
use crate::accounts::account_of;
use crate::asking::is_reference_taken;
use crate::questions::refuse;
use smpp_pdu::{CommandStatus, Message};
use sms_centre_draft::CentreDraft;
use sms_centre_messages::message_index::MessageIndex;
use sms_centre_messages::references::ReferenceIndex;
use sms_centre_spec::CentreAnswer;
use sms_intake::{CentreAccount, SmppError, Submission, from_pdu};
use std::alloc::AllocError;

// The submission becomes a message, if a number and references are free, and its account leaves enough of them to others.
fn accepted(
    draft: &mut CentreDraft<'_>,
    message_index: &MessageIndex,
    reference_index: &ReferenceIndex,
    submission: &Submission,
) -> Result<(), AllocError>
    requires submission { IsSubmission submission.now }
    requires units { HasUnits submission.now.text }
    ensures { (d : Draft) → DraftRepresents d draft.old → Knows message_index.now reference_index.now d.store
        → OnOk result (DraftRepresents
        (accepted_of (next_number_of (rows_of d.store)) (unless_too_much submission.now (accept_of submission.now d.store)) d) draft.new) }
{
    let becomes = accept(draft, message_index, reference_index, submission)?;
    match becomes {
        Some(id) => {
            draft.answer(CentreAnswer::Submitted(id));
            Ok(())
        }
        None => {
            refuse(draft, CommandStatus::ESME_RMSGQFUL);
            Ok(())
        }
    }
}

// A submission that passed all checks that need no rows.
fn submission_received(
    draft: &mut CentreDraft<'_>,
    message_index: &MessageIndex,
    reference_index: &ReferenceIndex,
    submission: &Submission,
) -> Result<(), AllocError>
    requires submission { IsSubmission submission.now }
    requires units { HasUnits submission.now.text }
    ensures { (d : Draft) → DraftRepresents d draft.old → Knows message_index.now reference_index.now d.store
        → OnOk result (DraftRepresents (submission_received_of (Ok submission.now) d) draft.new) }
{
    if is_reference_taken(reference_index, submission) {
        refuse(draft, CommandStatus::ESME_RSUBMITFAIL);
        return Ok(());
    }
    accepted(draft, message_index, reference_index, submission)
}

fn submit_by(
    draft: &mut CentreDraft<'_>,
    message_index: &MessageIndex,
    reference_index: &ReferenceIndex,
    account: &CentreAccount,
    message: &Message<'_>,
) -> Result<(), AllocError>
    requires address { IsAddress account.now.address }
    ensures { (d : Draft) → DraftRepresents d draft.old → Knows message_index.now reference_index.now d.store
        → OnOk result (DraftRepresents (submit_by_of (Some account.now) message.now d) draft.new) }
{
    let now = draft.now();
    // It is a moment that time stamps can tell.
    let _seconds = now.seconds();
    let read = from_pdu(draft.alloc(), account, now, message);
    match read {
        Ok(submission) => submission_received(draft, message_index, reference_index, &submission),
        Err(SmppError::Refused(status)) => {
            refuse(draft, status);
            Ok(())
        }
        Err(SmppError::NoMemory) => Err(AllocError),
    }
}

/// Takes a submit_sm of the account. It becomes a message under the next number, in as many parts as it takes, each
/// under a reference of its own. Or it is refused: by ESME_RSYSERR where the account isn't there, or by the first
/// refusal of `from_pdu`. ESME_RSUBMITFAIL refuses it where its header has a reference that the centre gave. ESME_RMSGQFUL
/// refuses it where no number, split reference or references are left for all of it, or where its account would then hold more than
/// half of the handset's references that are free beside others.
pub fn submit(
    draft: &mut CentreDraft<'_>,
    message_index: &MessageIndex,
    reference_index: &ReferenceIndex,
    account: u8,
    message: &Message<'_>,
) -> Result<(), AllocError>
    requires setup { IsSetup draft.old.setup }
    ensures { (d : Draft) → DraftRepresents d draft.old → Knows message_index.now reference_index.now d.store
        → OnOk result (DraftRepresents (submit_of account message.now d) draft.new) }
{
    match account_of(draft, account) {
        Some(account) => submit_by(draft, message_index, reference_index, account, message),
        None => {
            refuse(draft, CommandStatus::ESME_RSYSERR);
            Ok(())
        }
    }
}
