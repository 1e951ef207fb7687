//! The parts in the middle of an event, found at once however many of them it changed.
ghost use Rattle.std.specs.Prelude.{◌≡◌, ◌+◌, ◌≤◌, [], length, OnOk, IfOk, option_copied};
ghost use Rattle.std.specs.Option.{option_map};
ghost use Rattle.sms_centre_messages.specs.message_index.Puts.{newest_put, tpdu_of};
ghost use Rattle.sms_centre_messages.specs.message_index.Removing.{removing};
ghost use Rattle.sms_centre_rows.specs.messages.PartEntries.{amending, done_to, entry_key, is_done_entry, putting, rows_now};
ghost use Rattle.sms_rows.specs.table.Keys.{pair_key};
ghost use Rattle.sms_rows.specs.table.TableDraft.{FitsIn};
ghost use Rattle.sms_rows.specs.table.Table.{HasRoom, all_applied, applied, row_at};

use crate::message_index::changes::NewestChanges;
use crate::message_index::part_changes::PartChanges;
use sms_base::MessageId;
use sms_centre_rows::messages::{PartEntry, PartRow};
use sms_centre_rows::waiting::{Progress, Revision};
use sms_rows::table::{Change, Key, RollingTable, Row, TableReserve, are_removals};
use std::alloc::{AllocError, Global};
use std::marker::Model;

// The parts in the middle of an event, and what it changed of them.
#[derive(Drop)]
pub(crate) struct PartsDraft<'a> {
    base: &'a RollingTable<PartEntry>,
    entries: NewestChanges<PartEntry>,
    changes: PartChanges,
}

impl<'a> Model for PartsDraft<'a> {
    ghost use Rattle.sms_centre_rows.specs.messages.PartEntries.{PartsOf};

    ghost Value = { PartsOf };

    ghost view = { λ p. record { entries = record { base = p.base.now; changes = p.entries }; changes = p.changes } };
}

// The changes of parts in memory, with memory for the parts that they bring.
#[derive(Drop)]
pub(crate) struct PartsPlan {
    changes: Vec<Change<PartEntry>>,
    reserve: TableReserve<PartEntry>,
}

impl Model for PartsPlan {
    ghost use Rattle.sms_centre_rows.specs.declared.messages.parts.PartEntry.{PartEntry as PartEntryOf};
    ghost use Rattle.sms_rows.specs.table.TableDraft.{TablePlanOf};

    ghost Value = { TablePlanOf PartEntryOf };

    ghost view = { λ s. record { changes = s.changes.items; reserve = s.reserve } };
}

// What an event leaves of the parts, ready made.
#[derive(Drop)]
pub(crate) struct PartsOutcome {
    pub(crate) entries: PartsPlan,
    pub(crate) changes: Vec<Revision<PartRow>>,
}

impl<'a> PartsDraft<'a> {
    // The parts as an event begins.
    pub(crate) fn of(alloc: Global, base: &'a RollingTable<PartEntry>) -> PartsDraft<'a>
        ensures { result ≡ record { entries = record { base = base.entry.now; changes = [] }; changes = [] } }
    {
        PartsDraft {
            base,
            entries: NewestChanges::new(alloc),
            changes: PartChanges::new(alloc),
        }
    }

    // The part of that message and number.
    pub(crate) fn find(&self, id: MessageId, number: u8) -> Option<PartEntry>
        ensures { result ≡ row_at entry_key (pair_key id number) (rows_now self.now) }
    {
        let key = Key::pair(id.number(), number);
        match self.entries.newest(key) {
            Some(change) => change.row().copied(),
            None => self.base.find(key).copied(),
        }
    }

    // The TPDU of the part of that message and number, if the event put it.
    pub(crate) fn tpdu_put(&self, id: MessageId, number: u8) -> Option<&[u8]>
        ensures { option_copied result ≡ option_map tpdu_of (newest_put (pair_key id number) self.now.changes) }
    {
        self.changes.tpdu(Key::pair(id.number(), number))
    }

    // A part is put whole.
    pub(crate) fn put(&mut self, row: PartRow) -> Result<(), AllocError>
        ensures { OnOk result (self.new ≡ putting row self.old) }
    {
        self.entries.push(Change::Put(row.entry()))?;
        self.changes.put(row)?;
        Ok(())
    }

    // That part, which is there, is so far.
    pub(crate) fn amend(&mut self, entry: &PartEntry, progress: &Progress) -> Result<(), AllocError>
        ensures { OnOk result (self.new ≡ amending entry.now progress.now self.old) }
    {
        let reached = entry.reaching(progress);
        let key = entry.key();
        self.entries.push(Change::Put(reached))?;
        self.changes.amend(key, *progress)?;
        Ok(())
    }

    // The part of that key is taken out.
    pub(crate) fn remove(&mut self, key: Key) -> Result<(), AllocError>
        ensures { OnOk result (self.new ≡ removing key self.old) }
    {
        self.entries.push(Change::Remove(key))?;
        self.changes.remove(key)?;
        Ok(())
    }

    // Whether all parts of the message are done; a message has 1 to 20 parts.
    pub(crate) fn all_done(&self, id: MessageId) -> bool
        ensures { result ≡ done_to id 20 (rows_now self.now) }
    {
        for behind in 0u8..20 {
            if !is_done(&self.find(id, behind + 1)) {
                return false;
            }
        }
        true
    }

    // The changes, with memory for the parts that they bring to that table.
    pub(crate) fn settle(
        self,
        alloc: Global,
        table: &RollingTable<PartEntry>,
    ) -> Result<PartsOutcome, AllocError>
        ensures changes { IfOk result (λ s. (s.entries.changes ≡ self.entry.entries.changes) × (s.changes.items ≡ self.entry.changes)) }
        ensures fits { IfOk result (λ s. FitsIn s.entries table.now) }
    {
        match table.make_reserve(alloc, self.entries.len()) {
            Ok(reserve) => {
                let changes = self.entries.into_vec();
                Ok(PartsOutcome {
                    entries: PartsPlan { changes, reserve },
                    changes: self.changes.into_vec(),
                })
            }
            Err(error) => {
                drop(self);
                Err(error)
            }
        }
    }
}

// Puts the changes in, without taking memory.
pub(crate) fn adopt_parts(table: &mut RollingTable<PartEntry>, left: PartsPlan)
    requires { FitsIn left table.old }
    ensures { table.new.rows ≡ all_applied entry_key left.changes table.old.rows }
{
    table.use_reserve(left.reserve);
    apply_all(table, left.changes);
}

// Carries the changes out in their order. Removals alone go one by one where few parts stand before them, and cost at most
// one pass.
fn apply_all(table: &mut RollingTable<PartEntry>, changes: Vec<Change<PartEntry>>)
    requires { HasRoom (length changes.items) table.old }
    ensures { table.new.rows ≡ all_applied entry_key changes.items table.old.rows }
{
    if changes.len() < 2 {
        apply_each(table, changes);
        return;
    }
    if are_removals(changes.as_slice()) {
        table.remove_all(changes.as_slice());
        drop(changes);
        return;
    }
    apply_each(table, changes);
}

fn apply_each(table: &mut RollingTable<PartEntry>, changes: Vec<Change<PartEntry>>)
    requires { HasRoom (length changes.items) table.old }
    ensures { table.new.rows ≡ all_applied entry_key changes.items table.old.rows }
{
    for change in changes {
        apply(table, change);
    }
}

fn apply(table: &mut RollingTable<PartEntry>, change: Change<PartEntry>)
    requires { HasRoom 1 table.old }
    ensures rows { table.new.rows ≡ applied entry_key change table.old.rows }
    ensures capacity { table.old.capacity ≤ table.new.capacity }
{
    match change {
        Change::Put(row) => table.put_ready(row),
        Change::Remove(key) => {
            table.remove(key);
        }
    }
}

// Whether it is done, if it is there.
fn is_done(entry: &Option<PartEntry>) -> bool
    ensures { result ≡ is_done_entry entry.now }
{
    match entry {
        Some(part) => part.progress.is_done,
        None => true,
    }
}
