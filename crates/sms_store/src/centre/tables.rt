//! The texts that make the tables.
ghost use Rattle.std.specs.Prelude.{◌≡◌};
ghost use Rattle.sqlite.specs.Held.{state};
ghost use Rattle.sms_store_sql.specs.listing.Inside.{MakesStep, Keeps, Spares};
ghost use Rattle.sms_store_sql.specs.listing.Transaction.{Leads};
ghost use Rattle.sms_store.specs.centre.Founding.{MakesFirst, MakesNext};

use sms_centre_rows::messages::{MessageRow, PartRow};
use sms_centre_rows::reports::ReportRow;
use sms_centre_rows::waiting::{HandsetRow, ReferenceRow};
use sms_store_sql::listing::{Meta, make};
use sms_store_tables::centre::CentreStore;
use sqlite::{Alter, Error, Transaction};

pub(crate) fn make_first_tables<S: Alter>(tx: &mut Transaction<'_, S>) -> Result<(), Error>
    ensures same_reference { tx.new.conn.ghost_name ≡ tx.old.conn.ghost_name }
    ensures done { MakesStep S.Store tx.old.conn.now tx.new.conn.now (Leads MakesFirst) result }
    ensures uncommitted { Keeps S.Store tx.old.conn.now tx.new.conn.now }
    ensures survives { Spares S.Store tx.old.conn.now tx.new.conn.now }
{
    make::<CentreStore, Meta, S>(tx)?;
    make::<CentreStore, MessageRow, S>(tx)?;
    make::<CentreStore, PartRow, S>(tx)
}

pub(crate) fn make_next_tables<S: Alter>(tx: &mut Transaction<'_, S>) -> Result<(), Error>
    ensures same_reference { tx.new.conn.ghost_name ≡ tx.old.conn.ghost_name }
    ensures done { MakesStep S.Store tx.old.conn.now tx.new.conn.now (Leads MakesNext) result }
    ensures uncommitted { Keeps S.Store tx.old.conn.now tx.new.conn.now }
    ensures survives { Spares S.Store tx.old.conn.now tx.new.conn.now }
{
    make::<CentreStore, ReferenceRow, S>(tx)?;
    make::<CentreStore, HandsetRow, S>(tx)?;
    make::<CentreStore, ReportRow, S>(tx)
}
