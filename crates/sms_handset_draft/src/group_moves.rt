//! The parts of a group, moved together.
ghost use Rattle.std.specs.Prelude.{◌≡◌, ◌++◌, List, OnOk};
ghost use Rattle.sms_handset_rows.specs.declared.inbox.entry.Entry.{Entry as EntryOf};
ghost use Rattle.sms_handset_draft.specs.Storing.{drop_all, drop_parts as drop_parts_of, free_all, free_parts as free_parts_of};

use crate::draft::Draft;
use crate::no_memory::NoMemory;
use sms_handset_rows::inbox::{Entry, Members, StoredPart};
use sms_rows::table::{Key, Table};

impl<'a> Draft<'a> {
    /// The parts of a group leave.
    pub fn drop_members(&mut self, members: &Members<'_>) -> Result<(), NoMemory>
        ensures all { OnOk result (self.new ≡ drop_all members.now self.old) }
        ensures first { OnOk result ((rest : List EntryOf) → drop_all rest self.new ≡ drop_all (members.now ++ rest) self.old) }
    {
        self.drop_parts(members.parts())
    }

    fn drop_parts(&mut self, parts: &[StoredPart]) -> Result<(), NoMemory>
        ensures { OnOk result (self.new ≡ drop_parts_of parts.now self.old) }
    {
        for part in parts {
            self.remove_entry(part.entry)?;
        }
        Ok(())
    }

    /// The parts of a group become single entries.
    pub(crate) fn free_members(&mut self, members: &Members<'_>) -> Result<(), NoMemory>
        ensures { OnOk result ((rest : List EntryOf) → free_all rest self.new ≡ free_all (members.now ++ rest) self.old) }
    {
        self.free_parts(members.parts(), members.inbox())
    }

    fn free_parts(&mut self, parts: &[StoredPart], entries: &Table<Entry>) -> Result<(), NoMemory>
        ensures { OnOk result (self.new ≡ free_parts_of parts.now entries.now.rows self.old) }
    {
        for part in parts {
            if let Some(entry) = entries.find(Key::of(u64::from(part.entry))) {
                self.free(entry)?;
            }
        }
        Ok(())
    }
}
