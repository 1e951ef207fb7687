//! Messages, parts and priorities in the middle of an event.
ghost use Rattle.std.specs.Prelude.{◌≡◌, [], ℕ, List, Some, OnOk, IfOk, length, option_copied};
ghost use Rattle.sms_centre_messages.specs.message_index.MessageIndex.{FitsTheMessages, Represents, DraftRepresents, found_part, opened};
ghost use Rattle.sms_centre_messages.specs.message_index.Puts.{tpdu_put};
ghost use Rattle.sms_centre_spec.specs.forgetting.Forget.{message_out, part_out, parts_out, without_message, without_part, without_priority};
ghost use Rattle.sms_centre_messages.specs.message_index.Settling.{IsSettled};
ghost use Rattle.sms_rows.specs.table.Keys.{pair_key};
ghost use Rattle.sms_centre_rows.specs.messages.Messages.{Messages, all_done, amend_part, message_at, messages_of, part_at, parts_of, put_message, put_part};
ghost use Rattle.sms_centre_rows.specs.messages.Messages.{put_priority};
ghost use Rattle.sms_centre_rows.specs.messages.PartEntries.{Few, entry_key, part_entry};
ghost use Rattle.sms_centre_rows.specs.declared.messages.message.MessageRow.{MessageRow as MessageRowOf};
ghost use Rattle.sms_centre_rows.specs.declared.messages.part.PartRow.{PartRow as PartRowOf};
ghost use Rattle.sms_centre_rows.specs.declared.messages.priority.PriorityRow.{PriorityRow as PriorityRowOf};

use crate::message_index::changes::NewestChanges;
use crate::message_index::copying::copy_left_by;
use crate::message_index::index::{MessageIndex, MessageIndexReserve};
use crate::message_index::parts_draft::PartsDraft;
use sms_base::{Listed, MessageId};
use sms_centre_rows::messages::{MessageRow, PartEntry, PartRow, PriorityRow};
use sms_centre_rows::waiting::{Progress, Revision};
use sms_rows::table::{Change, Key, Row};
use std::alloc::{AllocError, Global};
use std::marker::Model;

/// Messages, parts and priorities within an event: those from before it, and those that it put.
#[derive(Drop)]
pub struct MessageIndexDraft<'a> {
    alloc: Global,
    index: &'a MessageIndex,
    messages: NewestChanges<MessageRow>,
    parts: PartsDraft<'a>,
    priorities: Vec<Change<PriorityRow>>,
}

impl<'a> Model for MessageIndexDraft<'a> {
    ghost use Rattle.sms_centre_messages.specs.message_index.MessageIndex.{MessageIndexDraftOf};

    ghost Value = { MessageIndexDraftOf };

    ghost view = { λ p. record { index = p.index.now; messages = p.messages; parts = p.parts; priorities = p.priorities.items } };
}

/// What an event changed, of each list in order, and the memory that it takes.
#[derive(Drop)]
pub struct MessageIndexPlan {
    pub messages: Listed<Change<MessageRow>>,
    pub parts: Listed<Revision<PartRow>>,
    pub priorities: Listed<Change<PriorityRow>>,
    pub reserve: MessageIndexReserve,
}

// The changes of parts, and memory for all that an event brings.
#[derive(Drop)]
struct ReservedParts {
    changes: Vec<Revision<PartRow>>,
    reserve: MessageIndexReserve,
}

impl<'a> MessageIndexDraft<'a> {
    /// The messages as an event begins.
    pub fn of(alloc: Global, index: &'a MessageIndex) -> MessageIndexDraft<'a>
        ensures { (ms : List MessageRowOf) (ps : List PartRowOf) (qs : List PriorityRowOf) → Represents index.entry.now ms ps
            → DraftRepresents result (opened ms ps qs) }
    {
        let messages = NewestChanges::new(alloc);
        let parts = PartsDraft::of(alloc, &index.parts);
        let priorities = Vec::new(alloc);
        MessageIndexDraft {
            alloc,
            index,
            messages,
            parts,
            priorities,
        }
    }

    /// The present message of that number, in memory of its own.
    pub fn find(&self, id: MessageId) -> Result<Option<MessageRow>, AllocError>
        ensures { (m : Messages) → DraftRepresents self.now m → IfOk result (λ row. row ≡ message_at id (messages_of m)) }
    {
        match self.messages.newest(Key::of(id.number())) {
            Some(change) => copy_left_by(self.alloc, change),
            None => self.index.find(self.alloc, id),
        }
    }

    /// The part of that message and number, without its TPDU.
    pub fn find_part(&self, id: MessageId, number: u8) -> Option<PartEntry>
        ensures { (m : Messages) → DraftRepresents self.now m → result ≡ found_part (part_at id number (parts_of m)) }
    {
        self.parts.find(id, number)
    }

    /// The TPDU of the part of that message and number, if the event put it: else the store has it.
    pub fn tpdu_put(&self, id: MessageId, number: u8) -> Option<&[u8]>
        ensures { (m : Messages) → DraftRepresents self.now m → option_copied result ≡ tpdu_put (pair_key id number) m.parts.news }
    {
        self.parts.tpdu_put(id, number)
    }

    /// Whether all parts of the message are done; a message has 1 to 20 parts.
    pub fn all_done(&self, id: MessageId) -> bool
        ensures { (m : Messages) → DraftRepresents self.now m → Few (parts_of m) → result ≡ all_done id (parts_of m) }
    {
        self.parts.all_done(id)
    }

    /// Adds a message, or replaces that of its number, as one that ends.
    pub fn put_message(&mut self, row: MessageRow) -> Result<(), AllocError>
        ensures { (m : Messages) → DraftRepresents self.old m → OnOk result (DraftRepresents self.new (put_message row m)) }
    {
        self.messages.push(Change::Put(row))?;
        Ok(())
    }

    /// Adds a priority.
    pub fn put_priority(&mut self, row: PriorityRow) -> Result<(), AllocError>
        ensures { (m : Messages) → DraftRepresents self.old m → OnOk result (DraftRepresents self.new (put_priority row m)) }
    {
        self.priorities.push(Change::Put(row))?;
        Ok(())
    }

    /// Adds a whole part.
    pub fn put_part(&mut self, row: PartRow) -> Result<(), AllocError>
        ensures { (m : Messages) → DraftRepresents self.old m → OnOk result (DraftRepresents self.new (put_part row m)) }
    {
        self.parts.put(row)?;
        Ok(())
    }

    /// Sets how far the part is, which is there.
    pub fn amend_part(&mut self, entry: &PartEntry, progress: &Progress) -> Result<(), AllocError>
        ensures { (m : Messages) (row : PartRowOf) → DraftRepresents self.old m → part_at row.id row.number (parts_of m) ≡ Some row → part_entry row ≡ entry.now
            → OnOk result (DraftRepresents self.new (amend_part row progress.now m)) }
    {
        self.parts.amend(entry, progress)?;
        Ok(())
    }

    /// Takes out the message of that number.
    pub fn remove_message(&mut self, id: MessageId) -> Result<(), AllocError>
        ensures { (m : Messages) → DraftRepresents self.old m → OnOk result (DraftRepresents self.new (without_message id m)) }
    {
        self.messages.push(Change::Remove(Key::of(id.number())))?;
        Ok(())
    }

    /// Takes out the priority of that message.
    pub fn remove_priority(&mut self, id: MessageId) -> Result<(), AllocError>
        ensures { (m : Messages) → DraftRepresents self.old m → OnOk result (DraftRepresents self.new (without_priority id m)) }
    {
        self.priorities.push(Change::Remove(Key::of(id.number())))?;
        Ok(())
    }

    /// Takes out the part.
    pub fn remove_part(&mut self, entry: &PartEntry) -> Result<(), AllocError>
        ensures { (m : Messages) → DraftRepresents self.old m → OnOk result (DraftRepresents self.new (without_part (entry_key entry.now) m)) }
    {
        self.parts.remove(entry.key())?;
        Ok(())
    }

    // Takes out the part of that message and number, if there is one.
    fn remove_found(&mut self, id: MessageId, number: u8) -> Result<(), AllocError>
        ensures { (m : Messages) → DraftRepresents self.old m → OnOk result (DraftRepresents self.new (part_out id number m)) }
    {
        match self.find_part(id, number) {
            Some(entry) => self.remove_part(&entry),
            None => Ok(()),
        }
    }

    // Takes out the parts of the message, which has 20 at most.
    fn remove_parts(&mut self, id: MessageId) -> Result<(), AllocError>
        ensures { (m : Messages) → DraftRepresents self.old m → OnOk result (DraftRepresents self.new (parts_out id 20 m)) }
    {
        for behind in 0u8..20 {
            self.remove_found(id, behind + 1)?;
        }
        Ok(())
    }

    /// Takes out the message with its parts and its priority.
    pub fn take_out(&mut self, id: MessageId) -> Result<(), AllocError>
        ensures { (m : Messages) → DraftRepresents self.old m → OnOk result (DraftRepresents self.new (message_out id m)) }
    {
        self.remove_parts(id)?;
        self.remove_priority(id)?;
        self.remove_message(id)?;
        Ok(())
    }

    /// The changes, with memory for what they add to the index.
    pub fn settle(self, index: &MessageIndex) -> Result<MessageIndexPlan, AllocError>
        ensures settled { (m : Messages) → DraftRepresents self.entry m → IfOk result (IsSettled m) }
        ensures fits { IfOk result (λ s. FitsTheMessages s.reserve (length s.messages) index.now) }
    {
        let count = self.messages.len();
        match settle_parts(self.alloc, index, count, self.parts) {
            Ok(parts) => {
                let messages = Listed::from_vec(self.messages.into_vec());
                let changes = Listed::from_vec(parts.changes);
                let priorities = Listed::from_vec(self.priorities);
                Ok(MessageIndexPlan {
                    messages,
                    parts: changes,
                    priorities,
                    reserve: parts.reserve,
                })
            }
            Err(error) => {
                drop(self.messages);
                drop(self.priorities);
                Err(error)
            }
        }
    }
}

// The changes of parts, with memory for them and for that many changes of messages.
fn settle_parts(
    alloc: Global,
    index: &MessageIndex,
    count: usize,
    parts: PartsDraft<'_>,
) -> Result<ReservedParts, AllocError>
    ensures changes { IfOk result (λ s. (s.reserve.parts.changes ≡ parts.entry.entries.changes) × (s.changes.items ≡ parts.entry.changes)) }
    ensures fits { IfOk result (λ s. FitsTheMessages s.reserve count index.now) }
{
    let outcome = parts.settle(alloc, &index.parts)?;
    match index.make_reserve(alloc, count, outcome.entries) {
        Ok(reserve) => Ok(ReservedParts {
            changes: outcome.changes,
            reserve,
        }),
        Err(error) => {
            drop(outcome.changes);
            Err(error)
        }
    }
}
