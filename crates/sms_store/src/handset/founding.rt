//! A new store: its tables, what it says of itself, and a handset's first counters.
ghost use Rattle.std.specs.Prelude.{◌≡◌};
ghost use Rattle.sqlite.specs.Held.{state};
ghost use Rattle.sms_store_sql.specs.listing.Inside.{MakesStep, Keeps, Spares};
ghost use Rattle.sms_store_sql.specs.listing.Transaction.{Leads};
ghost use Rattle.sms_store.specs.handset.Founding.{Declares, MakesFirst, MakesLast, Tabulates};

use crate::handset::counters::CountersRow;
use sms_handset::{Counters, DiscardedGroup, Entry, LastAccepted, OutEntry};
use sms_store_sql::listing::{Meta, StoreKind, make, put};
use sms_store_tables::handset::HandsetStore;
use sqlite::{Alter, Error, Transaction};
use std::alloc::Global;

/// Makes the six tables.
pub(crate) fn make_tables<S: Alter>(tx: &mut Transaction<'_, S>) -> Result<(), Error>
    ensures same_reference { tx.new.conn.ghost_name ≡ tx.old.conn.ghost_name }
    ensures done { MakesStep S.Store tx.old.conn.now tx.new.conn.now (Leads Tabulates) result }
    ensures uncommitted { Keeps S.Store tx.old.conn.now tx.new.conn.now }
    ensures survives { Spares S.Store tx.old.conn.now tx.new.conn.now }
{
    make_first_tables(tx)?;
    make_last_tables(tx)
}

fn make_first_tables<S: Alter>(tx: &mut Transaction<'_, S>) -> Result<(), Error>
    ensures same_reference { tx.new.conn.ghost_name ≡ tx.old.conn.ghost_name }
    ensures done { MakesStep S.Store tx.old.conn.now tx.new.conn.now (Leads MakesFirst) result }
    ensures uncommitted { Keeps S.Store tx.old.conn.now tx.new.conn.now }
    ensures survives { Spares S.Store tx.old.conn.now tx.new.conn.now }
{
    make::<HandsetStore, Meta, S>(tx)?;
    make::<HandsetStore, Entry, S>(tx)?;
    make::<HandsetStore, LastAccepted, S>(tx)
}

fn make_last_tables<S: Alter>(tx: &mut Transaction<'_, S>) -> Result<(), Error>
    ensures same_reference { tx.new.conn.ghost_name ≡ tx.old.conn.ghost_name }
    ensures done { MakesStep S.Store tx.old.conn.now tx.new.conn.now (Leads MakesLast) result }
    ensures uncommitted { Keeps S.Store tx.old.conn.now tx.new.conn.now }
    ensures survives { Spares S.Store tx.old.conn.now tx.new.conn.now }
{
    make::<HandsetStore, OutEntry, S>(tx)?;
    make::<HandsetStore, DiscardedGroup, S>(tx)?;
    make::<HandsetStore, CountersRow, S>(tx)
}

/// Writes what the store is, and the counters of a new handset.
pub(crate) fn declare<S: Alter>(alloc: Global, tx: &mut Transaction<'_, S>) -> Result<(), Error>
    ensures same_reference { tx.new.conn.ghost_name ≡ tx.old.conn.ghost_name }
    ensures done { MakesStep S.Store tx.old.conn.now tx.new.conn.now (Leads Declares) result }
    ensures uncommitted { Keeps S.Store tx.old.conn.now tx.new.conn.now }
    ensures survives { Spares S.Store tx.old.conn.now tx.new.conn.now }
{
    let meta = Meta {
        version: 1,
        kind: StoreKind::Handset,
    };
    let counted = CountersRow {
        counters: Counters {
            entry: 1,
            message_reference: 0,
            reference: 0,
            concat_reference: 0,
            notice: 0,
            is_memory_full: false,
        },
    };
    put::<HandsetStore, Meta, S>(alloc, tx, &meta)?;
    put::<HandsetStore, CountersRow, S>(alloc, tx, &counted)
}
