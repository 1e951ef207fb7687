//! Copies of the changes of an event.
ghost use Rattle.std.specs.Prelude.{◌≡◌, IfOk, OnOk};
ghost use Rattle.sms_handset_draft.specs.Outcome.{changes_in};
ghost use Rattle.sms_store_memory.specs.handset.Copied.{copied};

use crate::handset::keep::MemoryKeep;
use crate::preparing::copy_changes;
use sms_base::Listed;
use sms_handset::{Changes, Counters};
use sms_handset_rows::inbox::{DiscardedGroup, Entry, LastAccepted};
use sms_handset_rows::outbox::OutEntry;
use sms_rows::table::Change;
use std::alloc::{AllocError, Global};

/// What an event changes, copied.
#[derive(Drop)]
pub(crate) struct Copies {
    pub(crate) entries: Listed<Change<Entry>>,
    pub(crate) last: Listed<Change<LastAccepted>>,
    pub(crate) outbox: Listed<Change<OutEntry>>,
    pub(crate) marks: Listed<Change<DiscardedGroup>>,
    pub(crate) counters: Option<Counters>,
}

fn copy_lists(alloc: Global, changes: &Changes, copies: &mut Copies) -> Result<(), AllocError>
    ensures { OnOk result (copied copies.new ≡ record (changes_in changes.now) { counters = copies.old.counters }) }
{
    copy_changes::<MemoryKeep, _>(alloc, changes.entries.changes(), &mut copies.entries)?;
    copy_changes::<MemoryKeep, _>(alloc, changes.last.changes(), &mut copies.last)?;
    copy_changes::<MemoryKeep, _>(alloc, changes.outbox.changes(), &mut copies.outbox)?;
    copy_changes::<MemoryKeep, _>(alloc, changes.marks.changes(), &mut copies.marks)
}

/// The changes, copied.
pub(crate) fn copy_of_changes(alloc: Global, changes: &Changes) -> Result<Copies, AllocError>
    ensures { IfOk result (λ copies. copied copies ≡ changes_in changes.now) }
{
    let mut copies = Copies {
        entries: Listed::new(alloc),
        last: Listed::new(alloc),
        outbox: Listed::new(alloc),
        marks: Listed::new(alloc),
        counters: changes.counters,
    };
    copy_lists(alloc, changes, &mut copies)?;
    Ok(copies)
}
