//! A unit that a handset sends up and that opens a transaction.
ghost use Rattle.std.specs.Prelude.{Ok, OnOk};
ghost use Rattle.sms_relay.specs.Cause.{IsRpCause};
ghost use Rattle.sms_relay.specs.RelayReading.{up_at};
ghost use Rattle.sms_tpdu.specs.TpduReading.{up_at as tpdu_up_at};
ghost use Rattle.sms_tpdu.specs.declared.carrier.Carrier.TheVariants.{InData};
ghost use Rattle.sms_intake.specs.HandsetIntake.{from_read};
ghost use Rattle.sms_intake.specs.PartBodies.{HasUnits};
ghost use Rattle.sms_centre_spec.specs.Draft.{Draft};
ghost use Rattle.sms_centre_spec.specs.Receiving.{data_received as data_received_of, memory_available as memory_available_of, refuse as refuse_of};
ghost use Rattle.sms_centre_spec.specs.Receiving.{reject as reject_of, submit_accepted as submit_accepted_of, submit_received as submit_received_of};
ghost use Rattle.sms_centre_spec.specs.Receiving.{unit_received as unit_received_of};
ghost use Rattle.sms_centre_spec.specs.Consistent.{IsSubmission};
ghost use Rattle.sms_centre_spec.specs.Submitting.{accept as accept_of};
ghost use Rattle.sms_centre_events.specs.Answering.{IsOfHandset};
ghost use Rattle.sms_centre_events.specs.Knowing.{Knows};
ghost use Rattle.sms_centre_draft.specs.CentreDraft.{Represents as DraftRepresents};

use crate::accepting::accept;
use crate::asking::{is_duplicate, is_reference_taken};
use sms_base::{Holder, Msisdn};
use sms_centre_draft::{CentreDraft, Transfer};
use sms_centre_messages::message_index::MessageIndex;
use sms_centre_messages::references::ReferenceIndex;
use sms_intake::{Submission, SubmitError, SubmitRefusal, from_submit};
use sms_relay::{Rp, fault_cause, read_up, reference_octet};
use std::alloc::AllocError;

// The SUBMIT is accepted, if a number and a reference are free.
fn submit_accepted(
    draft: &mut CentreDraft<'_>,
    message_index: &MessageIndex,
    reference_index: &ReferenceIndex,
    transfer: &Transfer,
    submission: &Submission,
) -> Result<(), AllocError>
    requires submission { IsSubmission submission.now }
    requires units { HasUnits submission.now.text }
    requires originator { IsOfHandset submission.now.originator }
    ensures { (d : Draft) → DraftRepresents d draft.old → Knows message_index.now reference_index.now d.store
        → OnOk result (DraftRepresents (submit_accepted_of transfer.now.handset transfer.now.reference transfer.now.tag
        (accept_of submission.now d.store) d) draft.new) }
{
    let becomes = accept(draft, message_index, reference_index, submission)?;
    match becomes {
        Some(_) => draft.confirm(transfer),
        None => draft.refuse(transfer, SubmitRefusal::Congested),
    }
}

// A SUBMIT that passed the checks that need no rows: it is refused as a duplicate, or for a reference that is taken, or accepted.
fn submit_received(
    draft: &mut CentreDraft<'_>,
    message_index: &MessageIndex,
    reference_index: &ReferenceIndex,
    transfer: &Transfer,
    submission: &Submission,
) -> Result<(), AllocError>
    requires submission { IsSubmission submission.now }
    requires units { HasUnits submission.now.text }
    requires originator { IsOfHandset submission.now.originator }
    ensures { (d : Draft) → DraftRepresents d draft.old → Knows message_index.now reference_index.now d.store
        → OnOk result (DraftRepresents (submit_received_of transfer.now.handset transfer.now.reference transfer.now.tag (Ok submission.now) d) draft.new) }
{
    if is_duplicate(reference_index, submission) {
        return draft.refuse(transfer, SubmitRefusal::Duplicate);
    }
    if is_reference_taken(reference_index, submission) {
        return draft.refuse(transfer, SubmitRefusal::ReferenceTaken);
    }
    submit_accepted(draft, message_index, reference_index, transfer, submission)
}

// RP-DATA.
fn data_received(
    draft: &mut CentreDraft<'_>,
    message_index: &MessageIndex,
    reference_index: &ReferenceIndex,
    transfer: &Transfer,
    tpdu: &[u8],
) -> Result<(), AllocError>
    ensures { (d : Draft) → DraftRepresents d draft.old → Knows message_index.now reference_index.now d.store
        → OnOk result (DraftRepresents (data_received_of transfer.now.handset transfer.now.reference transfer.now.tag tpdu.now d) draft.new) }
{
    transfer.handset.spells_a_number();
    let now = draft.now();
    let accounts = draft.accounts();
    let read = from_submit(draft.alloc(), accounts, transfer.handset, now, tpdu);
    match read {
        Ok(submission) => submit_received(
            draft,
            message_index,
            reference_index,
            transfer,
            &submission,
        ),
        Err(SubmitError::Refused(refusal)) => draft.refuse(transfer, refusal),
        Err(SubmitError::NoMemory) => Err(AllocError),
    }
}

/// A unit that opens a transaction of the handset's; other units are dropped.
pub(crate) fn unit_received(
    draft: &mut CentreDraft<'_>,
    message_index: &MessageIndex,
    reference_index: &ReferenceIndex,
    handset: Msisdn,
    tag: Holder,
    unit: &[u8],
) -> Result<(), AllocError>
    ensures { (d : Draft) → DraftRepresents d draft.old → Knows message_index.now reference_index.now d.store
        → OnOk result (DraftRepresents (unit_received_of handset tag unit.now (up_at unit.now) d) draft.new) }
{
    match read_up(unit) {
        Ok(
            Rp::DataUnit {
                reference,
                unit: tpdu,
                ..
            },
        ) => data_received(
            draft,
            message_index,
            reference_index,
            &Transfer {
                handset,
                reference,
                tag,
            },
            tpdu.as_slice(),
        ),
        Ok(Rp::Smma { reference }) => draft.memory_available(&Transfer {
            handset,
            reference,
            tag,
        }),
        Ok(Rp::AckUnit { .. } | Rp::ErrorUnit { .. }) => Ok(()),
        Err(fault) => draft.reject(
            &Transfer {
                handset,
                reference: reference_octet(unit),
                tag,
            },
            fault_cause(fault),
        ),
    }
}
