//! A submission that passed all checks becomes a message: a reference for each part, and the parts. All of it or none: whether it
//! can is judged before anything changes.
ghost use Rattle.std.specs.Prelude.{◌≡◌, ◌≤◌, Some, false, IfOk, OnOk, length};
ghost use Rattle.sms_base.specs.Address.{IsAddress};
ghost use Rattle.sms_intake.specs.PartBodies.{IsPartData};
ghost use Rattle.sms_centre_rows.specs.waiting.References.{handset_of};
ghost use Rattle.sms_centre_rows.specs.waiting.SoundAllocations.{IsNumber};
ghost use Rattle.sms_centre_spec.specs.Draft.{Draft, Store, handsets_in, in_store, with_given};
ghost use Rattle.sms_centre_spec.specs.SoundRows.{HasReportAddress};
ghost use Rattle.sms_centre_spec.specs.Consistent.{IsSubmission};
ghost use Rattle.sms_centre_spec.specs.Submitting.{accept_under as accept_under_of, data_coding_of as data_coding_of_text, enter as enter_of};
ghost use Rattle.sms_centre_spec.specs.Submitting.{give_part as give_part_of, give_parts as give_parts_of, message_of as message_of_submission, put_part_of};
ghost use Rattle.sms_centre_spec.specs.Submitting.{reference_for};
ghost use Rattle.sms_centre_spec.specs.Shares.{unless_too_much};
ghost use Rattle.sms_centre_draft.specs.Submitting.{Accepts, AreBodies, CanGive, IsNewId};
ghost use Rattle.sms_centre_draft.specs.CentreDraft.{Represents};

use crate::centre_draft::CentreDraft;
use sms_base::{MessageId, Moment, Octets};
use sms_centre_messages::message_index::copy_of_originator;
use sms_centre_rows::messages::{MessageRow, PartRow, PriorityRow};
use sms_centre_rows::waiting::{Progress, QueuedPart};
use sms_concat::ConcatKey;
use sms_intake::{SinglePart, Submission, Text, deliver_octets};
use std::alloc::{AllocError, Global};

fn data_coding_of(text: &Text) -> u8
    ensures { result ≡ data_coding_of_text text.now }
{
    match text {
        Text::Whole(content) => content.dcs,
        Text::Single(part) => part.data_coding_scheme,
    }
}

// The row of the message.
fn message_of(
    alloc: Global,
    id: MessageId,
    now: Moment,
    split: Option<u16>,
    submission: &Submission,
) -> Result<MessageRow, AllocError>
    ensures { IfOk result (λ row. row ≡ message_of_submission id now split submission.now) }
{
    let originator = copy_of_originator(alloc, &submission.originator)?;
    Ok(MessageRow {
        id,
        originator,
        source: submission.source,
        handset: submission.handset,
        data_coding_scheme: data_coding_of(&submission.text),
        protocol_identifier: submission.protocol_identifier,
        wish: submission.wish,
        submitted: now,
        limit: submission.limit,
        split_reference: split,
        state: None,
        done: None,
    })
}

impl<'a> CentreDraft<'a> {
    // The message with its priority.
    fn enter(
        &mut self,
        id: MessageId,
        split: Option<u16>,
        submission: &Submission,
    ) -> Result<(), AllocError>
        ensures { (d : Draft) → Represents d self.old → IsNewId id d.store → IsNumber submission.now.handset
            → HasReportAddress submission.now.originator submission.now.source
            → OnOk result (Represents (in_store (enter_of id split submission.now d.store) d) self.new) }
    {
        let row = message_of(self.alloc, id, self.moment, split, submission)?;
        self.messages.put_message(row)?;
        let priority = submission.priority.level();
        self.messages.put_priority(PriorityRow { id, priority })?;
        Ok(())
    }

    // The part under that reference, with its DELIVER as made now.
    fn put_part(
        &mut self,
        id: MessageId,
        submission: &Submission,
        number: u8,
        body: &SinglePart,
        reference: u8,
    ) -> Result<(), AllocError>
        requires address { IsAddress submission.now.source }
        requires user_data { IsPartData body.now }
        ensures { (d : Draft) → Represents d self.old → CanGive id submission.now number d.store → number ≤ 20
            → reference_for (handset_of submission.now.handset (handsets_in d.store)) d.store ≡ Some reference
            → OnOk result (Represents (in_store (put_part_of id submission.now number body.now reference
            (with_given (handset_of submission.now.handset (handsets_in d.store)) reference d.store)) d) self.new) }
    {
        let tpdu = deliver_octets(self.alloc, self.moment, submission, body)?;
        let row = part_of(id, number, reference, tpdu, body.key, submission.due);
        self.messages.put_part(row)?;
        let priority = submission.priority.level();
        let queued = QueuedPart {
            id,
            number,
            reference,
            priority,
            due: submission.due,
        };
        self.queues.give(submission.handset, self.moment, queued)?;
        Ok(())
    }

    // The next reference for the part, where one is free.
    fn give_part(
        &mut self,
        id: MessageId,
        submission: &Submission,
        number: u8,
        body: &SinglePart,
    ) -> Result<(), AllocError>
        requires address { IsAddress submission.now.source }
        requires user_data { IsPartData body.now }
        ensures { (d : Draft) (s : Store) → Represents d self.old → CanGive id submission.now number d.store → number ≤ 20
            → give_part_of id submission.now number body.now (handset_of submission.now.handset (handsets_in d.store)) d.store ≡ Some s
            → OnOk result (Represents (in_store s d) self.new) }
    {
        let free = self.next_reference(submission.handset)?;
        match free {
            Some(reference) => self.put_part(id, submission, number, body, reference),
            None => Ok(()),
        }
    }

    // The parts, from number 1 on, where a reference is free for each.
    fn give_parts(
        &mut self,
        id: MessageId,
        submission: &Submission,
        bodies: &[SinglePart],
    ) -> Result<(), AllocError>
        requires address { IsAddress submission.now.source }
        requires bodies { AreBodies submission.now bodies.now }
        requires few { length bodies.now ≤ 20 }
        ensures { (d : Draft) (s : Store) → Represents d self.old → CanGive id submission.now 1 d.store
            → give_parts_of id submission.now 1 bodies.now d.store ≡ Some s → OnOk result (Represents (in_store s d) self.new) }
    {
        let mut number: u8 = 0;
        for body in bodies {
            number += 1;
            self.give_part(id, submission, number, body)?;
        }
        Ok(())
    }

    /// The message of the submission under that number, with these parts. False where references are free for not all of them, or where
    /// its account would hold too many: then nothing changes.
    pub fn accept_under(
        &mut self,
        id: MessageId,
        split: Option<u16>,
        bodies: &[SinglePart],
        submission: &Submission,
    ) -> Result<bool, AllocError>
        requires submission { IsSubmission submission.now }
        requires bodies { AreBodies submission.now bodies.now }
        requires few { length bodies.now ≤ 20 }
        ensures { (d : Draft) → Represents d self.old → IsNewId id d.store → IfOk result
            (Accepts (unless_too_much submission.now (accept_under_of id split bodies.now submission.now d.store)) d self.new) }
    {
        let has_room = self.has_room(submission, bodies.len())?;
        if !has_room {
            return Ok(false);
        }
        self.enter(id, split, submission)?;
        self.give_parts(id, submission, bodies)?;
        Ok(true)
    }
}

// A part that nothing was tried of.
fn part_of(
    id: MessageId,
    number: u8,
    reference: u8,
    tpdu: Octets,
    key: Option<ConcatKey>,
    due: Moment,
) -> PartRow
    ensures { result ≡ record {
      id = id;
      number = number;
      reference = reference;
      tpdu = tpdu;
      key = key;
      progress = record { is_done = false; attempts = 0; due = due };
    } }
{
    let progress = Progress {
        is_done: false,
        attempts: 0,
        due,
    };
    PartRow {
        id,
        number,
        reference,
        tpdu,
        key,
        progress,
    }
}
