//! The keep in memory.
ghost use Rattle.std.specs.Prelude.{◌≡◌, ◌≢◌, ◌⊎◌, ⊤, Err, IfErr, IfOk, OnOk};
ghost use Rattle.sms_rows.specs.declared.keep.error.KeepError.TheVariants.{NoMemory, NotThisStore, OldVersion};
ghost use Rattle.sms_rows.specs.keep.StoreOutcome.{IfHeld, IsCounted, StoreOutcome, WasHonest};
ghost use Rattle.sms_centre_spec.specs.declared.rows.Rows.{Rows as RowsOf};
ghost use Rattle.sms_centre_spec.specs.Draft.{rows_after};
ghost use Rattle.sms_centre_spec.specs.SoundRows.{first_rows};
ghost use Rattle.sms_store_memory.specs.centre.RowsInKeep.{HasRoomFor, rows_in, state_of};

use crate::centre::revisions::copy_of_changes;
use crate::preparing::{copy_rows, make_room};
use crate::revising::revise_all;
use sms_base::Listed;
use sms_centre_rows::messages::{BarRow, MessageRow, PartRow, PriorityRow};
use sms_centre_rows::reports::ReportRow;
use sms_centre_rows::waiting::{HandsetRow, ReferenceRow};
use sms_centre_spec::octets::copy_of_setup;
use sms_centre_spec::{Changes, Rows, Setup};
use sms_rows::keep::{Keep, KeepError, Refusals, RowStore};
use sms_rows::table::Table;
use std::alloc::{AllocError, Global};

/// The rows of a centre, in memory.
#[derive(Drop)]
pub struct MemoryKeep {
    pub(crate) messages: Table<MessageRow>,
    pub(crate) parts: Table<PartRow>,
    pub(crate) references: Table<ReferenceRow>,
    pub(crate) handsets: Table<HandsetRow>,
    pub(crate) reports: Table<ReportRow>,
    pub(crate) priorities: Table<PriorityRow>,
    pub(crate) bars: Table<BarRow>,
    // Handed in at the start.
    pub(crate) setup: Setup,
    pub(crate) alloc: Global,
    pub(crate) refusals: Refusals,
}

fn no_rows(alloc: Global, setup: Setup) -> Rows
    ensures { result ≡ first_rows setup }
{
    Rows {
        messages: Listed::new(alloc),
        parts: Listed::new(alloc),
        references: Listed::new(alloc),
        handsets: Listed::new(alloc),
        reports: Listed::new(alloc),
        priorities: Listed::new(alloc),
        bars: Listed::new(alloc),
        setup,
    }
}

impl MemoryKeep {
    /// Keeps a centre's first rows.
    pub fn new(alloc: Global, setup: Setup) -> MemoryKeep
        ensures { rows_in result ≡ first_rows setup }
    {
        MemoryKeep {
            messages: Table::new(alloc),
            parts: Table::new(alloc),
            references: Table::new(alloc),
            handsets: Table::new(alloc),
            reports: Table::new(alloc),
            priorities: Table::new(alloc),
            bars: Table::new(alloc),
            setup,
            alloc,
            refusals: Refusals::none(),
        }
    }

    /// The messages, by their ids.
    pub fn messages(&self) -> &Table<MessageRow>
        ensures { result.now.rows ≡ (rows_in self.now).messages }
    {
        &self.messages
    }

    /// The parts of messages, by id and number.
    pub fn parts(&self) -> &Table<PartRow>
        ensures { result.now.rows ≡ (rows_in self.now).parts }
    {
        &self.parts
    }

    /// The references that were given at handsets.
    pub fn references(&self) -> &Table<ReferenceRow>
        ensures { result.now.rows ≡ (rows_in self.now).references }
    {
        &self.references
    }

    /// The handsets that were given a reference, in the order of their first.
    pub fn handsets(&self) -> &Table<HandsetRow>
        ensures { result.now.rows ≡ (rows_in self.now).handsets }
    {
        &self.handsets
    }

    /// The receipts and status reports.
    pub fn reports(&self) -> &Table<ReportRow>
        ensures { result.now.rows ≡ (rows_in self.now).reports }
    {
        &self.reports
    }

    /// The priorities of messages.
    pub fn priorities(&self) -> &Table<PriorityRow>
        ensures { result.now.rows ≡ (rows_in self.now).priorities }
    {
        &self.priorities
    }

    /// The references that stay barred once their messages are forgotten.
    pub fn bars(&self) -> &Table<BarRow>
        ensures { result.now.rows ≡ (rows_in self.now).bars }
    {
        &self.bars
    }

    /// The setup that was handed in at the start.
    pub fn setup(&self) -> &Setup
        ensures { result.now ≡ (rows_in self.now).setup }
    {
        &self.setup
    }

    // Where memory is wanting, the rows are as they were.
    fn make_room(&mut self, changes: &Changes) -> Result<(), AllocError>
        ensures rows { rows_in self.new ≡ rows_in self.old }
        ensures refusals { self.new.refusals ≡ self.old.refusals }
        ensures room { OnOk result (HasRoomFor changes.now self.new) }
    {
        let alloc = self.alloc;
        make_room(alloc, &mut self.messages, changes.messages.len())?;
        make_room(alloc, &mut self.parts, changes.parts.len())?;
        make_room(alloc, &mut self.references, changes.references.len())?;
        make_room(alloc, &mut self.handsets, changes.handsets.len())?;
        make_room(alloc, &mut self.reports, changes.reports.len())?;
        make_room(alloc, &mut self.priorities, changes.priorities.len())?;
        make_room(alloc, &mut self.bars, changes.bars.len())
    }

    // The changes, copied, with room for the rows that they bring.
    fn readied(&mut self, changes: &Changes) -> Result<Changes, AllocError>
        ensures rows { rows_in self.new ≡ rows_in self.old }
        ensures refusals { self.new.refusals ≡ self.old.refusals }
        ensures same { IfOk result (λ readied. readied ≡ changes.now) }
        ensures room { IfOk result (λ readied. HasRoomFor readied self.new) }
    {
        self.make_room(changes)?;
        copy_of_changes(self.alloc, changes)
    }

    fn take(&mut self, changes: Changes)
        requires { HasRoomFor changes self.old }
        ensures rows { rows_in self.new ≡ rows_after changes (rows_in self.old) }
        ensures refusals { self.new.refusals ≡ self.old.refusals }
    {
        self.messages.apply_all(changes.messages.into_vec());
        revise_all::<MemoryKeep, PartRow>(&mut self.parts, changes.parts.into_vec());
        self.references.apply_all(changes.references.into_vec());
        self.handsets.apply_all(changes.handsets.into_vec());
        revise_all::<MemoryKeep, ReportRow>(&mut self.reports, changes.reports.into_vec());
        self.priorities.apply_all(changes.priorities.into_vec());
        self.bars.apply_all(changes.bars.into_vec());
    }

    fn copy_lists(&self, rows: &mut Rows) -> Result<(), AllocError>
        ensures { OnOk result (rows.new ≡ record (rows_in self.now) { setup = rows.old.setup }) }
    {
        let alloc = self.alloc;
        copy_rows::<MemoryKeep, _>(alloc, self.messages.as_slice(), &mut rows.messages)?;
        copy_rows::<MemoryKeep, _>(alloc, self.parts.as_slice(), &mut rows.parts)?;
        copy_rows::<MemoryKeep, _>(alloc, self.references.as_slice(), &mut rows.references)?;
        copy_rows::<MemoryKeep, _>(alloc, self.handsets.as_slice(), &mut rows.handsets)?;
        copy_rows::<MemoryKeep, _>(alloc, self.reports.as_slice(), &mut rows.reports)?;
        copy_rows::<MemoryKeep, _>(alloc, self.priorities.as_slice(), &mut rows.priorities)?;
        copy_rows::<MemoryKeep, _>(alloc, self.bars.as_slice(), &mut rows.bars)
    }

    fn copy_of_all(&self) -> Result<Rows, AllocError>
        ensures { IfOk result (λ rows. rows ≡ rows_in self.now) }
    {
        let setup = copy_of_setup(self.alloc, &self.setup)?;
        let mut rows = no_rows(self.alloc, setup);
        self.copy_lists(&mut rows)?;
        Ok(rows)
    }
}

impl RowStore for MemoryKeep {
    type Rows = Rows;

    ghost state = { λ keep. state_of keep };
}

impl Keep for MemoryKeep {
    type Changes = Changes;

    ghost after = { λ changes rows. rows_after changes rows };

    ghost may_leave = { λ keep left. rows_in keep ≡ left };

    fn commit(&mut self, changes: &Changes) -> Result<(), KeepError>
        ensures outcome { (rows : RowsOf) → StoreOutcome (λ done. ⊤) rows (rows_after changes.now rows) (state_of self.old) (state_of self.new) result }
        ensures stop { (rows : RowsOf) → IfHeld rows (state_of self.old) (state_of self.new) ((left : RowsOf) → rows_in self.new ≡ left
            → (left ≡ rows) ⊎ (left ≡ rows_after changes.now rows)) }
        ensures memory { IfErr result (λ error. error ≡ NoMemory) }
        ensures named { IfErr result (λ error. (error ≢ OldVersion) × (error ≢ NotThisStore)) }
        ensures before { WasHonest (state_of self.old) (state_of self.new) }
        ensures counted { IsCounted (state_of self.old) (state_of self.new) result }
    {
        match self.readied(changes) {
            Ok(readied) => {
                self.take(readied);
                Ok(())
            }
            Err(_) => {
                self.refusals.call();
                Err(KeepError::NoMemory)
            }
        }
    }

    fn load(&mut self) -> Result<Rows, KeepError>
        ensures outcome { (rows : RowsOf) → StoreOutcome (λ found. found ≡ rows) rows rows (state_of self.old) (state_of self.new) result }
        ensures stop { (rows : RowsOf) → IfHeld rows (state_of self.old) (state_of self.new) ((left : RowsOf) → rows_in self.new ≡ left → left ≡ rows) }
        ensures back { (rows : RowsOf) → IfHeld rows (state_of self.old) (state_of self.new) (result ≢ Err NotThisStore) }
        ensures memory { IfErr result (λ error. error ≡ NoMemory) }
        ensures named { IfErr result (λ error. error ≢ OldVersion) }
        ensures before { WasHonest (state_of self.old) (state_of self.new) }
        ensures counted { IsCounted (state_of self.old) (state_of self.new) result }
    {
        match self.copy_of_all() {
            Ok(rows) => Ok(rows),
            Err(_) => {
                self.refusals.call();
                Err(KeepError::NoMemory)
            }
        }
    }
}
