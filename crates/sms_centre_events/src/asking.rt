//! What a submission is compared with, and the number that its message takes.
ghost use Rattle.std.specs.Prelude.{◌≡◌, ◌&&◌, List, Some, None, if◌then◌else◌, max, nat_le};
ghost use Rattle.sms_centre_messages.specs.references.ReferenceIndex.{Represents};
ghost use Rattle.sms_centre_messages.specs.message_index.MessageIndex.{Represents as MessagesRepresent};
ghost use Rattle.sms_centre_rows.specs.messages.SplitReferences.{held_references, is_taken, wide_in};
ghost use Rattle.sms_centre_rows.specs.declared.messages.bar.BarRow.{BarRow as BarRowOf};
ghost use Rattle.sms_centre_rows.specs.declared.messages.message.MessageRow.{MessageRow as MessageRowOf};
ghost use Rattle.sms_centre_rows.specs.declared.messages.part.PartRow.{PartRow as PartRowOf};
ghost use Rattle.sms_centre_draft.specs.CentreDraft.{Represents as DraftRepresents};
ghost use Rattle.sms_centre_spec.specs.Draft.{Draft, messages_in, parts_in, rows_of};
ghost use Rattle.sms_centre_spec.specs.MessageNumbers.{next_number as next_number_of};
ghost use Rattle.sms_centre_spec.specs.Receiving.{is_pending_double};
ghost use Rattle.sms_centre_spec.specs.Submitting.{own_reference as own_reference_of};

use sms_base::{MessageId, Originator};
use sms_centre_draft::CentreDraft;
use sms_centre_messages::message_index::MessageIndex;
use sms_centre_messages::references::ReferenceIndex;
use sms_concat::{ConcatKey, ConcatReference};
use sms_intake::{Submission, Text};

/// Whether it is to be refused as a duplicate (3GPP TS 23.040 9.2.3.25). It is one where a message of its originator,
/// TP-MR and destination is pending, and TP-RD is 1.
pub(crate) fn is_duplicate(reference_index: &ReferenceIndex, submission: &Submission) -> bool
    ensures { (bs : List BarRowOf) (ms : List MessageRowOf) (ps : List PartRowOf) → Represents reference_index.now bs ms ps
        → result ≡ (submission.now.rejects_duplicates && is_pending_double submission.now ms) }
{
    if !submission.rejects_duplicates {
        return false;
    }
    match &submission.originator {
        Originator::Handset { message_reference } => reference_index.has_pending(
            &submission.source.digits,
            &submission.handset,
            *message_reference,
        ),
        Originator::Application { .. } => false,
    }
}

// The 16-bit reference of a header.
fn wide_of(key: &Option<ConcatKey>) -> Option<u16>
    ensures { result ≡ wide_in key.now }
{
    match key {
        Some(key) => match key.reference {
            ConcatReference::SixteenBit(reference) => Some(reference),
            ConcatReference::EightBit(_) => None,
        },
        None => None,
    }
}

// That of a text that came with a header of its own.
fn own_reference(text: &Text) -> Option<u16>
    ensures { result ≡ own_reference_of text.now }
{
    match text {
        Text::Whole(_) => None,
        Text::Single(part) => wide_of(&part.key),
    }
}

/// Whether its header has a reference that the centre gave for its source and handset (3GPP TS 23.040 9.2.3.24.8).
pub(crate) fn is_reference_taken(reference_index: &ReferenceIndex, submission: &Submission) -> bool
    ensures { (bs : List BarRowOf) (ms : List MessageRowOf) (ps : List PartRowOf) → Represents reference_index.now bs ms ps
        → result ≡ is_taken (own_reference_of submission.now.text) (held_references submission.now.source submission.now.handset bs ms) }
{
    let reference = own_reference(&submission.text);
    reference_index.is_taken(&submission.source, &submission.handset, reference)
}

fn greater(one: u64, other: u64) -> u64
    ensures { result ≡ max one other }
{
    if one < other {
        return other;
    }
    one
}

/// The number of the next message, if one is left: the first of the run, or one more than the greatest in the rows.
pub(crate) fn next_number(
    draft: &CentreDraft<'_>,
    message_index: &MessageIndex,
) -> Option<MessageId>
    ensures { (d : Draft) → DraftRepresents d draft.now → MessagesRepresent message_index.now (messages_in d.store) (parts_in d.store)
        → result ≡ (if nat_le (next_number_of (rows_of d.store)) 9999999999 then Some (next_number_of (rows_of d.store)) else None) }
{
    let next = greater(draft.setup.first, message_index.next_id());
    MessageId::new(next)
}
