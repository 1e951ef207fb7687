//! The texts that make what an earlier version lacks.
ghost use Rattle.std.specs.Prelude.{◌≡◌};
ghost use Rattle.sqlite.specs.Held.{state};
ghost use Rattle.sms_store_sql.specs.listing.Inside.{MakesStep, Keeps, Spares};
ghost use Rattle.sms_store_sql.specs.listing.Transaction.{Leads};
ghost use Rattle.sms_store_tables.specs.centre.Completing.{Completes, IndexesReports, MakesBars, MakesPriority, MakesSecond};

use crate::centre::kind::CentreStore;
use sms_centre_rows::messages::{BarRow, PriorityRow};
use sms_store_sql::listing::{make, run};
use sqlite::{Alter, Error, Transaction};

fn make_priority_table<S: Alter>(tx: &mut Transaction<'_, S>) -> Result<(), Error>
    ensures same_reference { tx.new.conn.ghost_name ≡ tx.old.conn.ghost_name }
    ensures done { MakesStep S.Store tx.old.conn.now tx.new.conn.now (Leads MakesPriority) result }
    ensures uncommitted { Keeps S.Store tx.old.conn.now tx.new.conn.now }
    ensures survives { Spares S.Store tx.old.conn.now tx.new.conn.now }
{
    make::<CentreStore, PriorityRow, S>(tx)
}

// By it the octets of a status report are found without a walk over all reports.
fn index_reports<S: Alter>(tx: &mut Transaction<'_, S>) -> Result<(), Error>
    ensures same_reference { tx.new.conn.ghost_name ≡ tx.old.conn.ghost_name }
    ensures done { MakesStep S.Store tx.old.conn.now tx.new.conn.now (Leads IndexesReports) result }
    ensures uncommitted { Keeps S.Store tx.old.conn.now tx.new.conn.now }
    ensures survives { Spares S.Store tx.old.conn.now tx.new.conn.now }
{
    run(tx, "CREATE INDEX report_message ON report (message)", &[])
}

/// Makes what version 2 lacks: the table of bars.
pub fn make_bar_table<S: Alter>(tx: &mut Transaction<'_, S>) -> Result<(), Error>
    ensures same_reference { tx.new.conn.ghost_name ≡ tx.old.conn.ghost_name }
    ensures done { MakesStep S.Store tx.old.conn.now tx.new.conn.now (Leads MakesBars) result }
    ensures uncommitted { Keeps S.Store tx.old.conn.now tx.new.conn.now }
    ensures survives { Spares S.Store tx.old.conn.now tx.new.conn.now }
{
    make::<CentreStore, BarRow, S>(tx)
}

/// Makes what version 1 lacks: the table of priorities, the index of the reports by their messages, and the table of bars.
pub fn complete_tables<S: Alter>(tx: &mut Transaction<'_, S>) -> Result<(), Error>
    ensures same_reference { tx.new.conn.ghost_name ≡ tx.old.conn.ghost_name }
    ensures done { MakesStep S.Store tx.old.conn.now tx.new.conn.now (Leads Completes) result }
    ensures uncommitted { Keeps S.Store tx.old.conn.now tx.new.conn.now }
    ensures survives { Spares S.Store tx.old.conn.now tx.new.conn.now }
{
    make_second_tables(tx)?;
    make_bar_table(tx)
}

// What version 2 has beyond version 1.
fn make_second_tables<S: Alter>(tx: &mut Transaction<'_, S>) -> Result<(), Error>
    ensures same_reference { tx.new.conn.ghost_name ≡ tx.old.conn.ghost_name }
    ensures done { MakesStep S.Store tx.old.conn.now tx.new.conn.now (Leads MakesSecond) result }
    ensures uncommitted { Keeps S.Store tx.old.conn.now tx.new.conn.now }
    ensures survives { Spares S.Store tx.old.conn.now tx.new.conn.now }
{
    make_priority_table(tx)?;
    index_reports(tx)
}
