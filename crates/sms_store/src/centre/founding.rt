//! A new store: its tables, and what it says of itself.
ghost use Rattle.std.specs.Prelude.{◌≡◌};
ghost use Rattle.sqlite.specs.Held.{state};
ghost use Rattle.sms_store_sql.specs.listing.Inside.{MakesStep, Keeps, Spares};
ghost use Rattle.sms_store_sql.specs.listing.Transaction.{Leads};
ghost use Rattle.sms_store.specs.centre.Founding.{Declares, Tabulates};

use crate::centre::tables::{make_first_tables, make_next_tables};
use sms_store_sql::listing::{Meta, StoreKind, put};
use sms_store_tables::centre::{CentreStore, complete_tables};
use sqlite::{Alter, Error, Transaction};
use std::alloc::Global;

/// Makes the eight tables and the index of reports.
pub(crate) fn make_tables<S: Alter>(tx: &mut Transaction<'_, S>) -> Result<(), Error>
    ensures same_reference { tx.new.conn.ghost_name ≡ tx.old.conn.ghost_name }
    ensures done { MakesStep S.Store tx.old.conn.now tx.new.conn.now (Leads Tabulates) result }
    ensures uncommitted { Keeps S.Store tx.old.conn.now tx.new.conn.now }
    ensures survives { Spares S.Store tx.old.conn.now tx.new.conn.now }
{
    make_first_tables(tx)?;
    make_next_tables(tx)?;
    complete_tables(tx)
}

/// Writes what the store is.
pub(crate) fn declare<S: Alter>(alloc: Global, tx: &mut Transaction<'_, S>) -> Result<(), Error>
    ensures same_reference { tx.new.conn.ghost_name ≡ tx.old.conn.ghost_name }
    ensures done { MakesStep S.Store tx.old.conn.now tx.new.conn.now (Leads Declares) result }
    ensures uncommitted { Keeps S.Store tx.old.conn.now tx.new.conn.now }
    ensures survives { Spares S.Store tx.old.conn.now tx.new.conn.now }
{
    let meta = Meta {
        version: 3,
        kind: StoreKind::Centre,
    };
    put::<CentreStore, Meta, S>(alloc, tx, &meta)
}
