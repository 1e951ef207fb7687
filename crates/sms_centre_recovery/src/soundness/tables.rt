//! The rows of a centre as tables, and whether they are sound.
ghost use Rattle.std.specs.Prelude.{◌≡◌, ◌↔◌, true, IfNone, IfOk, OnErr, IfSome};
ghost use Rattle.sms_centre_spec.specs.SoundRows.{IsSetup, IsSound};
ghost use Rattle.sms_centre_recovery.specs.soundness.RowsOf.{KeysRise, IsSoundAlone, rows_of};

use sms_centre_rows::messages::{BarRow, MessageRow, PartRow, PriorityRow};
use sms_centre_rows::reports::ReportRow;
use sms_centre_rows::waiting::{HandsetRow, ReferenceRow};
use sms_centre_spec::conditions::{
    allocations_are_sound, both, is_setup, messages_are_sound, report_addresses_are_sound,
    reports_are_sound, splits_are_sound, times_are_sound, waiting_is_sound,
};
use sms_centre_spec::{Rows, Setup};
use sms_rows::table::{Table, rises};
use std::alloc::{AllocError, Global};

/// The rows of a centre, each list in the order of its keys.
#[derive(Drop)]
pub struct RowTables {
    pub messages: Table<MessageRow>,
    pub parts: Table<PartRow>,
    pub references: Table<ReferenceRow>,
    pub handsets: Table<HandsetRow>,
    pub reports: Table<ReportRow>,
    pub priorities: Table<PriorityRow>,
    pub bars: Table<BarRow>,
    pub setup: Setup,
}

fn keys_rise(rows: &Rows) -> bool
    ensures { (result ≡ true) ↔ KeysRise rows.now }
{
    let messages = rises(rows.messages.as_slice());
    let parts = rises(rows.parts.as_slice());
    let references = rises(rows.references.as_slice());
    let handsets = rises(rows.handsets.as_slice());
    let reports = rises(rows.reports.as_slice());
    let priorities = rises(rows.priorities.as_slice());
    let bars = rises(rows.bars.as_slice());
    both(
        both(messages, both(parts, references)),
        both(handsets, both(reports, both(priorities, bars))),
    )
}

// Moved apart where no value is dropped.
fn tables_of(rows: Rows) -> RowTables
    requires { KeysRise rows }
    ensures { rows_of result ≡ rows }
{
    RowTables {
        messages: Table::from_vec(rows.messages.into_vec()),
        parts: Table::from_vec(rows.parts.into_vec()),
        references: Table::from_vec(rows.references.into_vec()),
        handsets: Table::from_vec(rows.handsets.into_vec()),
        reports: Table::from_vec(rows.reports.into_vec()),
        priorities: Table::from_vec(rows.priorities.into_vec()),
        bars: Table::from_vec(rows.bars.into_vec()),
        setup: rows.setup,
    }
}

impl RowTables {
    /// The rows as tables. None where their keys don't rise: such rows are not sound.
    pub fn of(rows: Rows) -> Option<RowTables>
        ensures some { IfSome result (λ tables. rows_of tables ≡ rows) }
        ensures none { IfNone result (¬ IsSound rows) }
    {
        if !keys_rise(&rows) {
            drop(rows);
            return None;
        }
        Some(tables_of(rows))
    }

    fn has_setup(&self) -> bool
        ensures { (result ≡ true) ↔ IsSetup self.now.setup }
    {
        is_setup(&self.setup)
    }

    // What takes no memory to judge.
    fn is_sound_alone(&self) -> bool
        ensures alone { result ≡ true → IsSoundAlone (rows_of self.now) }
        ensures only { IsSound (rows_of self.now) → result ≡ true }
    {
        let setup = self.has_setup();
        let times = times_are_sound(&self.messages, &self.references, &self.reports);
        let addresses = report_addresses_are_sound(&self.messages);
        let messages = messages_are_sound(&self.messages, &self.parts, &self.priorities);
        // The call says that bars are in order.
        let _bars = self.bars.as_slice();
        both(both(setup, times), both(addresses, messages))
    }

    // What takes memory to judge, where all else is sound.
    fn is_sound_with_memory(&self, alloc: Global) -> Result<bool, AllocError>
        ensures { IfOk result (λ b. IsSoundAlone (rows_of self.now) → (b ≡ true) ↔ IsSound (rows_of self.now)) }
    {
        let allocations = allocations_are_sound(alloc, &self.handsets, &self.references)?;
        let reports = reports_are_sound(alloc, &self.messages, &self.reports)?;
        let splits = splits_are_sound(alloc, &self.messages)?;
        let waiting = waiting_is_sound(
            alloc,
            &self.handsets,
            &self.references,
            &self.messages,
            &self.priorities,
            &self.parts,
            &self.reports,
        )?;
        Ok(both(both(allocations, reports), both(splits, waiting)))
    }

    /// Whether the rows are sound. It takes time linear in them, up to a logarithm. What can be judged without memory
    /// is judged first: want of memory is reported only of rows that are sound so far.
    pub fn is_sound(&self, alloc: Global) -> Result<bool, AllocError>
        ensures sound { IfOk result (λ b. (b ≡ true) ↔ IsSound (rows_of self.now)) }
        ensures alone { OnErr result (IsSoundAlone (rows_of self.now)) }
    {
        if !self.is_sound_alone() {
            return Ok(false);
        }
        self.is_sound_with_memory(alloc)
    }
}
