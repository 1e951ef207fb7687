//! A centre that starts on the rows of a store.
ghost use Rattle.std.specs.Prelude.{◌≡◌, IfErr, IfOk};
ghost use Rattle.sms_centre_recovery.specs.soundness.RowsOf.{rows_of};
ghost use Rattle.sms_centre.specs.state.Recovering.{AreNew, RefusesRows, begun};
ghost use Rattle.sms_centre.specs.state.CentreState.{Represents};
ghost use Rattle.sms_centre_spec.specs.CentreEvent.{recovered, started};
ghost use Rattle.sms_centre_spec.specs.SoundCore.{AreDifferent};
ghost use Rattle.sms_centre_spec.specs.SoundRows.{IsSound};

use crate::state::centre_state::CentreState;
use crate::state::memory::memory_of;
use crate::state::recover_error::RecoverError;
use sms_base::{Msisdn, are_numbers};
use sms_centre_recovery::soundness::RowTables;
use sms_centre_recovery::starting::moment_of;
use sms_centre_reports::sessions::ReceiptSession;
use sms_centre_spec::{Rows, Setup};
use sms_rows::table::Table;
use std::alloc::{AllocError, Global};

impl CentreState {
    /// The centre that starts again with these rows, if it can: `BadRows` only where they are not sound, and no centre
    /// of such rows. Want of memory is reported only once all is judged that is judged without memory. Links to these
    /// handsets are up at its first tick. These sessions are bound, in which nothing was sent yet.
    pub fn recover(
        alloc: Global,
        rows: Rows,
        handsets: &[Msisdn],
        sessions: Table<ReceiptSession>,
    ) -> Result<CentreState, RecoverError>
        requires apart { AreDifferent handsets.now }
        requires sessions { AreNew sessions.rows }
        ensures centre_state { IfOk result (Represents (recovered rows handsets.now sessions.rows)) }
        ensures refused { IfErr result (λ error. RefusesRows error rows) }
    {
        let centre_state = CentreState::on(alloc, rows, handsets, false, sessions)?;
        Ok(centre_state)
    }

    /// The centre of the rows, where links to these handsets are up at once.
    pub fn start(
        alloc: Global,
        rows: Rows,
        handsets: &[Msisdn],
        sessions: Table<ReceiptSession>,
    ) -> Result<CentreState, RecoverError>
        requires apart { AreDifferent handsets.now }
        requires sessions { AreNew sessions.rows }
        ensures centre_state { IfOk result (Represents (started rows handsets.now sessions.rows)) }
        ensures refused { IfErr result (λ error. RefusesRows error rows) }
    {
        let centre_state = CentreState::on(alloc, rows, handsets, true, sessions)?;
        Ok(centre_state)
    }

    fn on(
        alloc: Global,
        rows: Rows,
        handsets: &[Msisdn],
        are_up: bool,
        sessions: Table<ReceiptSession>,
    ) -> Result<CentreState, RecoverError>
        requires apart { AreDifferent handsets.now }
        requires sessions { AreNew sessions.rows }
        ensures centre_state { IfOk result (Represents (begun are_up rows handsets.now sessions.rows)) }
        ensures refused { IfErr result (λ error. RefusesRows error rows) }
    {
        let tables = sound_tables(alloc, rows)?;
        let centre_state = CentreState::on_sound(alloc, tables, handsets, are_up, sessions)?;
        Ok(centre_state)
    }

    fn on_sound(
        alloc: Global,
        tables: RowTables,
        handsets: &[Msisdn],
        are_up: bool,
        sessions: Table<ReceiptSession>,
    ) -> Result<CentreState, AllocError>
        requires sound { IsSound (rows_of tables) }
        requires apart { AreDifferent handsets.now }
        requires sessions { AreNew sessions.rows }
        ensures { IfOk result (Represents (begun are_up (rows_of tables) handsets.now sessions.rows)) }
    {
        are_numbers(handsets);
        // By the clause of the call the sessions are in order.
        let _seats = sessions.as_slice();
        let moment = moment_of(&tables);
        match memory_of(alloc, &tables, handsets, are_up, moment) {
            Ok(memory) => Ok(CentreState {
                setup: setup_of(tables),
                moment,
                messages: memory.messages,
                reference_index: memory.reference_index,
                queues: memory.queues,
                reports: memory.reports,
                log: memory.log,
                sessions,
            }),
            Err(error) => {
                drop(sessions);
                drop(tables);
                Err(error)
            }
        }
    }
}

// The rows as tables, if they are sound.
fn sound_tables(alloc: Global, rows: Rows) -> Result<RowTables, RecoverError>
    ensures rows { IfOk result (λ tables. rows_of tables ≡ rows) }
    ensures sound { IfOk result (λ tables. IsSound (rows_of tables)) }
    ensures refused { IfErr result (λ error. RefusesRows error rows) }
{
    let Some(tables) = RowTables::of(rows) else {
        return Err(RecoverError::BadRows);
    };
    match tables.is_sound(alloc) {
        Ok(true) => Ok(tables),
        Ok(false) => {
            drop(tables);
            Err(RecoverError::BadRows)
        }
        Err(error) => {
            drop(tables);
            Err(RecoverError::from(error))
        }
    }
}

fn setup_of(tables: RowTables) -> Setup
    ensures { result ≡ tables.setup }
{
    tables.setup
}
