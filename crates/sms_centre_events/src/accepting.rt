//! A submission that passed all checks becomes a message.
ghost use Rattle.std.specs.Prelude.{◌≡◌, nat_lt, length, IfOk};
ghost use Rattle.sms_concat.specs.UserData.{AreUnits, capacity};
ghost use Rattle.sms_intake.specs.PartBodies.{HasUnits, bodies_under as bodies_under_of};
ghost use Rattle.sms_intake.specs.declared.submission.Text.TheVariants.{Single, Whole};
ghost use Rattle.sms_centre_messages.specs.references.ReferenceIndex.{Represents as ReferencesRepresent};
ghost use Rattle.sms_centre_rows.specs.messages.SplitReferences.{next_split};
ghost use Rattle.sms_centre_spec.specs.Draft.{Draft, bars_in, messages_in, parts_in, rows_of};
ghost use Rattle.sms_centre_spec.specs.Consistent.{IsSubmission};
ghost use Rattle.sms_centre_spec.specs.Shares.{unless_too_much};
ghost use Rattle.sms_centre_spec.specs.MessageNumbers.{next_number as next_number_of};
ghost use Rattle.sms_centre_spec.specs.Submitting.{accept as accept_of, accept_as as accept_as_of, accept_split as accept_split_of, accept_under};
ghost use Rattle.sms_centre_events.specs.Answering.{AcceptsAs};
ghost use Rattle.sms_centre_events.specs.Knowing.{Knows};
ghost use Rattle.sms_centre_draft.specs.Submitting.{Accepts, IsNewId};
ghost use Rattle.sms_centre_draft.specs.CentreDraft.{Represents as DraftRepresents};

use crate::asking::next_number;
use sms_alphabet::greatest_length;
use sms_base::{MessageId, Octets};
use sms_centre_draft::CentreDraft;
use sms_centre_messages::message_index::MessageIndex;
use sms_centre_messages::references::ReferenceIndex;
use sms_concat::Content;
use sms_intake::{SinglePart, Submission, Text, bodies_under};
use std::alloc::{AllocError, Global};
use std::slice;

// The message of one part under that number; false where there is no room for it, and then nothing changes.
fn accept_one(
    draft: &mut CentreDraft<'_>,
    id: MessageId,
    part: &SinglePart,
    submission: &Submission,
) -> Result<bool, AllocError>
    requires submission { IsSubmission submission.now }
    requires one { submission.now.text ≡ Single part.now }
    ensures { (d : Draft) → DraftRepresents d draft.old → IsNewId id d.store
        → IfOk result (Accepts (unless_too_much submission.now (accept_as_of id submission.now d.store)) d draft.new) }
{
    let parts = slice::from_ref(part);
    draft.accept_under(id, None, parts, submission)
}

// The content as a text, in memory of its own.
fn copy_of(alloc: Global, content: &Content) -> Result<Text, AllocError>
    ensures { IfOk result (λ text. text ≡ Whole content.now) }
{
    let units = Octets::copy_of(alloc, content.units.as_slice())?;
    Ok(Text::Whole(Content {
        coding: content.coding,
        dcs: content.dcs,
        units,
    }))
}

// The message of that content under that number, its parts made under that reference; false where there is no room for them.
fn accept_content(
    draft: &mut CentreDraft<'_>,
    id: MessageId,
    split: Option<u16>,
    reference: u16,
    content: &Content,
    submission: &Submission,
) -> Result<bool, AllocError>
    requires submission { IsSubmission submission.now }
    requires whole { submission.now.text ≡ Whole content.now }
    requires units { AreUnits content.now.coding content.now.units }
    ensures { (d : Draft) → DraftRepresents d draft.old → IsNewId id d.store
        → IfOk result (Accepts
        (unless_too_much submission.now (accept_under id split (bodies_under_of reference submission.now.text) submission.now d.store)) d draft.new) }
{
    let text = copy_of(draft.alloc(), content)?;
    let bodies = bodies_under(draft.alloc(), reference, text)?;
    draft.accept_under(id, split, bodies.as_slice(), submission)
}

// Whether it doesn't fit one part.
fn is_long(content: &Content) -> bool
    ensures { result ≡ nat_lt (capacity content.now.coding) (length content.now.units) }
{
    usize::from(greatest_length(content.coding)) < content.units.len()
}

// The message of a content that is split, under the next reference for it; false where none is free.
fn accept_split(
    draft: &mut CentreDraft<'_>,
    reference_index: &ReferenceIndex,
    id: MessageId,
    content: &Content,
    submission: &Submission,
) -> Result<bool, AllocError>
    requires submission { IsSubmission submission.now }
    requires whole { submission.now.text ≡ Whole content.now }
    requires units { AreUnits content.now.coding content.now.units }
    ensures { (d : Draft) → DraftRepresents d draft.old
        → ReferencesRepresent reference_index.now (bars_in d.store) (messages_in d.store) (parts_in d.store) → IsNewId id d.store
        → IfOk result (Accepts (unless_too_much submission.now (accept_split_of id (next_split submission.now.source submission.now.handset (bars_in d.store)
        (messages_in d.store) (parts_in d.store)) submission.now d.store)) d draft.new) }
{
    let free = reference_index.next_split(&submission.source, &submission.handset);
    match free {
        Some(reference) => {
            accept_content(draft, id, Some(reference), reference, content, submission)
        }
        None => Ok(false),
    }
}

// The message of a content, which is split where it doesn't fit one part.
fn accept_whole(
    draft: &mut CentreDraft<'_>,
    reference_index: &ReferenceIndex,
    id: MessageId,
    content: &Content,
    submission: &Submission,
) -> Result<bool, AllocError>
    requires submission { IsSubmission submission.now }
    requires whole { submission.now.text ≡ Whole content.now }
    requires units { AreUnits content.now.coding content.now.units }
    ensures { (d : Draft) → DraftRepresents d draft.old
        → ReferencesRepresent reference_index.now (bars_in d.store) (messages_in d.store) (parts_in d.store) → IsNewId id d.store
        → IfOk result (Accepts (unless_too_much submission.now (accept_as_of id submission.now d.store)) d draft.new) }
{
    if is_long(content) {
        return accept_split(draft, reference_index, id, content, submission);
    }
    accept_content(draft, id, None, 0, content, submission)
}

// The message of the submission under that number. False where no split reference or no references are free for it, or where its
// account would hold too many of them: then nothing changes.
fn accept_as(
    draft: &mut CentreDraft<'_>,
    reference_index: &ReferenceIndex,
    id: MessageId,
    submission: &Submission,
) -> Result<bool, AllocError>
    requires submission { IsSubmission submission.now }
    requires units { HasUnits submission.now.text }
    ensures { (d : Draft) → DraftRepresents d draft.old
        → ReferencesRepresent reference_index.now (bars_in d.store) (messages_in d.store) (parts_in d.store) → IsNewId id d.store
        → IfOk result (Accepts (unless_too_much submission.now (accept_as_of id submission.now d.store)) d draft.new) }
{
    match &submission.text {
        Text::Single(part) => accept_one(draft, id, part, submission),
        Text::Whole(content) => accept_whole(draft, reference_index, id, content, submission),
    }
}

// Its number, where it is accepted.
fn accept_numbered(
    draft: &mut CentreDraft<'_>,
    reference_index: &ReferenceIndex,
    id: MessageId,
    submission: &Submission,
) -> Result<Option<MessageId>, AllocError>
    requires submission { IsSubmission submission.now }
    requires units { HasUnits submission.now.text }
    ensures { (d : Draft) → DraftRepresents d draft.old
        → ReferencesRepresent reference_index.now (bars_in d.store) (messages_in d.store) (parts_in d.store) → IsNewId id d.store
        → IfOk result (AcceptsAs id (unless_too_much submission.now (accept_as_of id submission.now d.store)) d draft.new) }
{
    let is_accepted = accept_as(draft, reference_index, id, submission)?;
    if !is_accepted {
        return Ok(None);
    }
    Ok(Some(id))
}

/// The submission becomes the message of the next number, which is given. None where no number, split reference or references are free
/// for it, or where its account would hold too many of them: then nothing changes.
pub(crate) fn accept(
    draft: &mut CentreDraft<'_>,
    message_index: &MessageIndex,
    reference_index: &ReferenceIndex,
    submission: &Submission,
) -> Result<Option<MessageId>, AllocError>
    requires submission { IsSubmission submission.now }
    requires units { HasUnits submission.now.text }
    ensures { (d : Draft) → DraftRepresents d draft.old → Knows message_index.now reference_index.now d.store → IfOk result
        (AcceptsAs (next_number_of (rows_of d.store)) (unless_too_much submission.now (accept_of submission.now d.store)) d draft.new) }
{
    let next = next_number(draft, message_index);
    match next {
        Some(id) => accept_numbered(draft, reference_index, id, submission),
        None => Ok(None),
    }
}
