//! Copies of the changes of an event.
ghost use Rattle.std.specs.Prelude.{◌≡◌, IfOk, OnOk};

use crate::centre::keep::MemoryKeep;
use crate::preparing::{CopiedChange, copy_changes};
use sms_base::Listed;
use sms_centre_rows::waiting::Revision;
use sms_centre_spec::Changes;
use sms_rows::memory::CopiedRow;
use std::alloc::{AllocError, Global};

impl<T: Drop + CopiedRow<MemoryKeep>> CopiedChange<MemoryKeep> for Revision<T> {
    fn copied(&self, alloc: Global) -> Result<Revision<T>, AllocError> {
        match self {
            Revision::Put(row) => {
                let row = row.copied(alloc)?;
                Ok(Revision::Put(row))
            }
            Revision::Amend { key, progress } => Ok(Revision::Amend {
                key: *key,
                progress: *progress,
            }),
            Revision::Remove(key) => Ok(Revision::Remove(*key)),
        }
    }
}

fn copy_lists(alloc: Global, changes: &Changes, copies: &mut Changes) -> Result<(), AllocError>
    ensures { OnOk result (copies.new ≡ changes.now) }
{
    copy_changes::<MemoryKeep, _>(alloc, changes.messages.as_slice(), &mut copies.messages)?;
    copy_changes::<MemoryKeep, _>(alloc, changes.parts.as_slice(), &mut copies.parts)?;
    copy_changes::<MemoryKeep, _>(alloc, changes.references.as_slice(), &mut copies.references)?;
    copy_changes::<MemoryKeep, _>(alloc, changes.handsets.as_slice(), &mut copies.handsets)?;
    copy_changes::<MemoryKeep, _>(alloc, changes.reports.as_slice(), &mut copies.reports)?;
    copy_changes::<MemoryKeep, _>(alloc, changes.priorities.as_slice(), &mut copies.priorities)?;
    copy_changes::<MemoryKeep, _>(alloc, changes.bars.as_slice(), &mut copies.bars)
}

/// The changes, copied.
pub(crate) fn copy_of_changes(alloc: Global, changes: &Changes) -> Result<Changes, AllocError>
    ensures { IfOk result (λ copies. copies ≡ changes.now) }
{
    let mut copies = Changes {
        messages: Listed::new(alloc),
        parts: Listed::new(alloc),
        references: Listed::new(alloc),
        handsets: Listed::new(alloc),
        reports: Listed::new(alloc),
        priorities: Listed::new(alloc),
        bars: Listed::new(alloc),
    };
    copy_lists(alloc, changes, &mut copies)?;
    Ok(copies)
}
