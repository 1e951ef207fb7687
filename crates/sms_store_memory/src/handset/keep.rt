//! The keep in memory.
ghost use Rattle.std.specs.Prelude.{◌≡◌, ◌≢◌, ◌⊎◌, ⊤, Err, IfErr, IfOk, OnOk};
ghost use Rattle.sms_rows.specs.declared.keep.error.KeepError.TheVariants.{NoMemory, NotThisStore, OldVersion};
ghost use Rattle.sms_rows.specs.keep.StoreOutcome.{IfHeld, IsCounted, StoreOutcome, WasHonest};
ghost use Rattle.sms_handset_draft.specs.declared.rows.Rows.{Rows as RowsOf};
ghost use Rattle.sms_handset_draft.specs.Draft.{rows_after};
ghost use Rattle.sms_handset_draft.specs.Outcome.{changes_in};
ghost use Rattle.sms_handset_draft.specs.FirstRows.{first_rows};
ghost use Rattle.sms_store_memory.specs.handset.RowsInKeep.{HasRoomFor, rows_in, state_of};
ghost use Rattle.sms_store_memory.specs.handset.Copied.{copied};

use crate::handset::changes::{Copies, copy_of_changes};
use crate::preparing::{copy_rows, make_room};
use sms_handset::{Changes, Counters, Rows, Setup};
use sms_handset_rows::inbox::{DiscardedGroup, Entry, LastAccepted};
use sms_handset_rows::outbox::OutEntry;
use sms_rows::keep::{Keep, KeepError, Refusals, RowStore};
use sms_rows::table::Table;
use std::alloc::{AllocError, Global};

/// The rows of a handset, in memory.
#[derive(Drop)]
pub struct MemoryKeep {
    entries: Table<Entry>,
    last: Table<LastAccepted>,
    outbox: Table<OutEntry>,
    marks: Table<DiscardedGroup>,
    counters: Counters,
    // Handed in at the start.
    setup: Setup,
    alloc: Global,
    refusals: Refusals,
}

impl MemoryKeep {
    /// Keeps a handset's first rows.
    pub fn new(alloc: Global, setup: Setup) -> MemoryKeep
        ensures { rows_in result ≡ first_rows setup }
    {
        MemoryKeep {
            entries: Table::new(alloc),
            last: Table::new(alloc),
            outbox: Table::new(alloc),
            marks: Table::new(alloc),
            counters: Counters {
                entry: 1,
                message_reference: 0,
                reference: 0,
                concat_reference: 0,
                notice: 0,
                is_memory_full: false,
            },
            setup,
            alloc,
            refusals: Refusals::none(),
        }
    }

    /// The entries of the outbox, by number.
    pub fn outbox(&self) -> &Table<OutEntry>
        ensures { result.now.rows ≡ (rows_in self.now).outbox }
    {
        &self.outbox
    }

    /// What the handset counts.
    pub fn counters(&self) -> Counters
        ensures { result ≡ (rows_in self.now).counters }
    {
        self.counters
    }

    /// The setup that was handed in at the start.
    pub fn setup(&self) -> Setup
        ensures { result ≡ (rows_in self.now).setup }
    {
        self.setup
    }

    // Where memory is wanting, the rows are as they were.
    fn make_room(&mut self, changes: &Changes) -> Result<(), AllocError>
        ensures rows { rows_in self.new ≡ rows_in self.old }
        ensures refusals { self.new.refusals ≡ self.old.refusals }
        ensures room { OnOk result (HasRoomFor (changes_in changes.now) self.new) }
    {
        let alloc = self.alloc;
        make_room(alloc, &mut self.entries, changes.entries.changes().len())?;
        make_room(alloc, &mut self.last, changes.last.changes().len())?;
        make_room(alloc, &mut self.outbox, changes.outbox.changes().len())?;
        make_room(alloc, &mut self.marks, changes.marks.changes().len())
    }

    // The changes, copied, with room for the rows that they bring.
    fn readied(&mut self, changes: &Changes) -> Result<Copies, AllocError>
        ensures rows { rows_in self.new ≡ rows_in self.old }
        ensures refusals { self.new.refusals ≡ self.old.refusals }
        ensures same { IfOk result (λ readied. copied readied ≡ changes_in changes.now) }
        ensures room { IfOk result (λ readied. HasRoomFor (copied readied) self.new) }
    {
        self.make_room(changes)?;
        copy_of_changes(self.alloc, changes)
    }

    fn take(&mut self, changes: Copies)
        requires { HasRoomFor (copied changes) self.old }
        ensures rows { rows_in self.new ≡ rows_after (copied changes) (rows_in self.old) }
        ensures refusals { self.new.refusals ≡ self.old.refusals }
    {
        self.entries.apply_all(changes.entries.into_vec());
        self.last.apply_all(changes.last.into_vec());
        self.outbox.apply_all(changes.outbox.into_vec());
        self.marks.apply_all(changes.marks.into_vec());
        self.counters = changes.counters.unwrap_or(self.counters);
    }

    fn copy_lists(&self, rows: &mut Rows) -> Result<(), AllocError>
        ensures { OnOk result (rows.new ≡ record (rows_in self.now) { counters = rows.old.counters; setup = rows.old.setup }) }
    {
        let alloc = self.alloc;
        copy_rows::<MemoryKeep, _>(alloc, self.entries.as_slice(), &mut rows.entries)?;
        copy_rows::<MemoryKeep, _>(alloc, self.last.as_slice(), &mut rows.last)?;
        copy_rows::<MemoryKeep, _>(alloc, self.outbox.as_slice(), &mut rows.outbox)?;
        copy_rows::<MemoryKeep, _>(alloc, self.marks.as_slice(), &mut rows.marks)
    }

    fn copy_of_all(&self) -> Result<Rows, AllocError>
        ensures { IfOk result (λ rows. rows ≡ rows_in self.now) }
    {
        let mut rows = Rows::first(self.alloc, self.setup);
        rows.counters = self.counters;
        self.copy_lists(&mut rows)?;
        Ok(rows)
    }
}

impl RowStore for MemoryKeep {
    type Rows = Rows;

    ghost state = { λ keep. state_of keep };
}

impl Keep for MemoryKeep {
    type Changes = Changes;

    ghost after = { λ changes rows. rows_after (changes_in changes) rows };

    ghost may_leave = { λ keep left. rows_in keep ≡ left };

    fn commit(&mut self, changes: &Changes) -> Result<(), KeepError>
        ensures outcome { (rows : RowsOf)
            → StoreOutcome (λ done. ⊤) rows (rows_after (changes_in changes.now) rows) (state_of self.old) (state_of self.new) result }
        ensures stop { (rows : RowsOf) → IfHeld rows (state_of self.old) (state_of self.new) ((left : RowsOf) → rows_in self.new ≡ left
            → (left ≡ rows) ⊎ (left ≡ rows_after (changes_in changes.now) rows)) }
        ensures memory { IfErr result (λ error. error ≡ NoMemory) }
        ensures named { IfErr result (λ error. (error ≢ OldVersion) × (error ≢ NotThisStore)) }
        ensures before { WasHonest (state_of self.old) (state_of self.new) }
        ensures counted { IsCounted (state_of self.old) (state_of self.new) result }
    {
        match self.readied(changes) {
            Ok(readied) => {
                self.take(readied);
                Ok(())
            }
            Err(_) => {
                self.refusals.call();
                Err(KeepError::NoMemory)
            }
        }
    }

    fn load(&mut self) -> Result<Rows, KeepError>
        ensures outcome { (rows : RowsOf) → StoreOutcome (λ found. found ≡ rows) rows rows (state_of self.old) (state_of self.new) result }
        ensures stop { (rows : RowsOf) → IfHeld rows (state_of self.old) (state_of self.new) ((left : RowsOf) → rows_in self.new ≡ left → left ≡ rows) }
        ensures back { (rows : RowsOf) → IfHeld rows (state_of self.old) (state_of self.new) (result ≢ Err NotThisStore) }
        ensures memory { IfErr result (λ error. error ≡ NoMemory) }
        ensures named { IfErr result (λ error. error ≢ OldVersion) }
        ensures before { WasHonest (state_of self.old) (state_of self.new) }
        ensures counted { IsCounted (state_of self.old) (state_of self.new) result }
    {
        match self.copy_of_all() {
            Ok(rows) => Ok(rows),
            Err(_) => {
                self.refusals.call();
                Err(KeepError::NoMemory)
            }
        }
    }
}
