//! What rows of a store lay claim to.
ghost use Rattle.std.specs.Prelude.{◌≡◌, ◌<◌, ◌↔◌, [], List, None, true, IfOk, OnOk, length};
ghost use Rattle.sms_centre_messages.specs.references.ReferenceIndex.{AreFew, Represents};
ghost use Rattle.sms_centre_rows.specs.messages.Messages.{message_key, part_key};
ghost use Rattle.sms_centre_rows.specs.declared.messages.message.MessageRow.{MessageRow as MessageRowOf};
ghost use Rattle.sms_centre_rows.specs.declared.messages.part.PartRow.{PartRow as PartRowOf};
ghost use Rattle.sms_rows.specs.table.Table.{Rises, put, row_at};

use crate::references::reference_index::ReferenceIndex;
use sms_centre_rows::messages::{BarRow, MessageRow, PartRow};
use sms_rows::table::{Key, Table};
use std::alloc::{AllocError, Global};

impl ReferenceIndex {
    /// The claims of the messages and the parts, and the bars, which are in the order of their keys. It costs a logarithm
    /// for each.
    pub fn recover(
        alloc: Global,
        messages: &Table<MessageRow>,
        parts: &[PartRow],
        bars: &[BarRow],
    ) -> Result<ReferenceIndex, AllocError>
        requires parts { Rises part_key parts.now }
        ensures { IfOk result (λ index. Represents index bars.now messages.now.rows parts.now) }
    {
        let mut index = ReferenceIndex::new(alloc);
        match index.fill(messages, parts, bars) {
            Ok(()) => Ok(index),
            Err(error) => {
                drop(index);
                Err(error)
            }
        }
    }

    // The claims of the rows, where there are none yet.
    fn fill(
        &mut self,
        messages: &Table<MessageRow>,
        parts: &[PartRow],
        bars: &[BarRow],
    ) -> Result<(), AllocError>
        ensures { Represents self.old [] [] [] → Rises part_key parts.now → OnOk result (Represents self.new bars.now messages.now.rows parts.now) }
    {
        let rows = messages.as_slice();
        if !are_few(rows, parts) {
            return Err(AllocError);
        }
        self.enter_each(rows)?;
        self.bring_each(parts, messages)?;
        self.bar_each(bars)?;
        Ok(())
    }

    fn enter_each(&mut self, rows: &[MessageRow]) -> Result<(), AllocError>
        ensures { Represents self.old [] [] [] → Rises message_key rows.now → length rows.now < 18446744073709551615
            → OnOk result (Represents self.new [] rows.now []) }
    {
        for row in rows {
            self.enter(row)?;
        }
        Ok(())
    }

    fn bring_each(
        &mut self,
        parts: &[PartRow],
        messages: &Table<MessageRow>,
    ) -> Result<(), AllocError>
        ensures { Represents self.old [] messages.now.rows [] → Rises part_key parts.now → AreFew messages.now.rows parts.now
            → OnOk result (Represents self.new [] messages.now.rows parts.now) }
    {
        for part in parts {
            self.bring_found(part, messages)?;
        }
        Ok(())
    }

    // The bars, behind the claims of messages and parts.
    fn bar_each(&mut self, bars: &[BarRow]) -> Result<(), AllocError>
        ensures { (ms : List MessageRowOf) (ps : List PartRowOf) → Represents self.old [] ms ps → OnOk result (Represents self.new bars.now ms ps) }
    {
        for bar in bars {
            self.bar(bar)?;
        }
        Ok(())
    }

    // A part is put; without its message it lays claim to nothing.
    fn bring_found(
        &mut self,
        part: &PartRow,
        messages: &Table<MessageRow>,
    ) -> Result<(), AllocError>
        ensures { (ps : List PartRowOf) → Represents self.old [] messages.now.rows ps → Rises part_key ps → row_at part_key (part_key part.now) ps ≡ None
            → AreFew messages.now.rows ps
            → OnOk result (Represents self.new [] messages.now.rows (put part_key part.now ps)) }
    {
        match messages.find(Key::of(part.id.number())) {
            Some(message) => self.bring(message, &part.key),
            None => Ok(()),
        }
    }
}

// Whether no count of them reaches the largest number.
fn are_few(rows: &[MessageRow], parts: &[PartRow]) -> bool
    ensures { (result ≡ true) ↔ AreFew rows.now parts.now }
{
    match rows.len().checked_add(parts.len()) {
        Some(all) => all < usize::MAX,
        None => false,
    }
}
