//! What memory has of messages, rebuilt from the rows of a store.
ghost use Rattle.std.specs.Prelude.{◌≡◌, [], List, map, IfOk, OnOk};
ghost use Rattle.sms_centre_messages.specs.message_index.MessageIndex.{Represents, Notes};
ghost use Rattle.sms_centre_rows.specs.messages.Messages.{message_key, part_key};
ghost use Rattle.sms_centre_rows.specs.messages.PartEntries.{part_entry};
ghost use Rattle.sms_centre_rows.specs.declared.messages.message.MessageRow.{MessageRow as MessageRowOf};
ghost use Rattle.sms_centre_rows.specs.declared.messages.part.PartRow.{PartRow as PartRowOf};
ghost use Rattle.sms_rows.specs.table.Table.{Rises, put};

use crate::message_index::copying::copy_of;
use crate::message_index::index::MessageIndex;
use sms_centre_rows::messages::{MessageRow, PartEntry, PartRow};
use sms_rows::expiry::Deadline;
use sms_rows::table::RollingTable;
use std::alloc::{AllocError, Global};

impl MessageIndex {
    /// The messages and the parts of rows that are in the order of their keys. It costs a logarithm for each.
    pub fn recover(
        alloc: Global,
        messages: &[MessageRow],
        parts: &[PartRow],
    ) -> Result<MessageIndex, AllocError>
        requires messages { Rises message_key messages.now }
        requires parts { Rises part_key parts.now }
        ensures { IfOk result (λ index. Represents index messages.now parts.now) }
    {
        let mut index = MessageIndex::of_parts(alloc, parts)?;
        match index.enter_each(alloc, messages) {
            Ok(()) => Ok(index),
            Err(error) => {
                drop(index);
                Err(error)
            }
        }
    }

    // The messages, where there are none yet.
    fn enter_each(&mut self, alloc: Global, messages: &[MessageRow]) -> Result<(), AllocError>
        ensures { (ps : List PartRowOf) → Represents self.old [] ps → Rises message_key messages.now → OnOk result (Represents self.new messages.now ps) }
    {
        for row in messages {
            self.enter_copy(alloc, row)?;
        }
        Ok(())
    }

    // A copy of the message is put behind the others, or takes the place of that of its number.
    fn enter_copy(&mut self, alloc: Global, row: &MessageRow) -> Result<(), AllocError>
        ensures { (ms : List MessageRowOf) (ps : List PartRowOf) → Represents self.old ms ps
            → OnOk result (Represents self.new (put message_key row.now ms) ps) }
    {
        let copy = copy_of(alloc, row)?;
        self.enter(copy)?;
        Ok(())
    }

    // The parts alone.
    fn of_parts(alloc: Global, parts: &[PartRow]) -> Result<MessageIndex, AllocError>
        requires { Rises part_key parts.now }
        ensures { IfOk result (λ index. Represents index [] parts.now) }
    {
        let entries = entries_of(alloc, parts)?;
        let mut index = MessageIndex::new(alloc);
        index.parts = RollingTable::from_vec(entries);
        Ok(index)
    }

    // A message is put behind the others, or takes the place of that of its number, in memory that may be taken.
    fn enter(&mut self, row: MessageRow) -> Result<(), AllocError>
        ensures { (ms : List MessageRowOf) (ps : List PartRowOf) → Represents self.old ms ps → OnOk result (Represents self.new (put message_key row ms) ps) }
    {
        self.note_taking(&row)?;
        let entry = self.names.entry(row)?;
        self.messages.put(entry)?;
        Ok(())
    }

    // The deadline of a message that is pending, in memory that may be taken.
    fn note_taking(&mut self, row: &MessageRow) -> Result<(), AllocError>
        ensures { OnOk result (Notes row.now self.old self.new) }
    {
        if row.state.is_none() {
            self.deadlines.push(Deadline {
                limit: row.limit,
                id: row.id,
            })?;
        }
        Ok(())
    }
}

// The parts without their TPDUs.
fn entries_of(alloc: Global, parts: &[PartRow]) -> Result<Vec<PartEntry>, AllocError>
    ensures { IfOk result (λ entries. entries.items ≡ map part_entry parts.now) }
{
    let mut entries = Vec::with_capacity(alloc, parts.len())?;
    for part in parts {
        entries.push(part.entry())?;
    }
    Ok(entries)
}
