//! Copies of a handset's rows.
ghost use Rattle.std.specs.Prelude.{◌≡◌, IfOk};

use crate::handset::keep::MemoryKeep;
use sms_centre_spec::octets::copy_of_octets;
use sms_concat::Content;
use sms_handset_rows::inbox::{DiscardedGroup, Entry, LastAccepted, Message};
use sms_handset_rows::outbox::OutEntry;
use sms_rows::memory::CopiedRow;
use std::alloc::{AllocError, Global};

fn copy_of_message(alloc: Global, message: &Message) -> Result<Message, AllocError>
    ensures { IfOk result (λ copy. copy ≡ message.now) }
{
    match message {
        Message::Single { tpdu } => {
            let tpdu = copy_of_octets(alloc, tpdu)?;
            Ok(Message::Single { tpdu })
        }
        Message::Part {
            group,
            number,
            tpdu,
        } => {
            let tpdu = copy_of_octets(alloc, tpdu)?;
            Ok(Message::Part {
                group: *group,
                number: *number,
                tpdu,
            })
        }
        Message::Joined { source, content } => {
            let content = copy_of_content(alloc, content)?;
            Ok(Message::Joined {
                source: *source,
                content,
            })
        }
    }
}

fn copy_of_content(alloc: Global, content: &Content) -> Result<Content, AllocError>
    ensures { IfOk result (λ copy. copy ≡ content.now) }
{
    let units = copy_of_octets(alloc, &content.units)?;
    Ok(Content {
        coding: content.coding,
        dcs: content.dcs,
        units,
    })
}

impl CopiedRow<MemoryKeep> for Entry {
    fn copied(&self, alloc: Global) -> Result<Entry, AllocError> {
        let message = copy_of_message(alloc, &self.message)?;
        Ok(Entry {
            number: self.number,
            slots: self.slots,
            message,
        })
    }
}

impl CopiedRow<MemoryKeep> for LastAccepted {
    fn copied(&self, alloc: Global) -> Result<LastAccepted, AllocError> {
        let tpdu = copy_of_octets(alloc, &self.tpdu)?;
        Ok(LastAccepted {
            reference: self.reference,
            tpdu,
        })
    }
}

impl CopiedRow<MemoryKeep> for OutEntry {
    fn copied(&self, alloc: Global) -> Result<OutEntry, AllocError> {
        self.copy(alloc)
    }
}

impl CopiedRow<MemoryKeep> for DiscardedGroup {
    fn copied(&self, alloc: Global) -> Result<DiscardedGroup, AllocError> {
        let seen = copy_of_octets(alloc, &self.seen)?;
        Ok(DiscardedGroup {
            number: self.number,
            group: self.group,
            seen,
        })
    }
}
