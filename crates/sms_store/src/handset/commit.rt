//! Writes the counters after an event.
ghost use Rattle.std.specs.Prelude.{◌≡◌, unwrap_or};
ghost use Rattle.sms_store_sql.specs.listing.Inside.{MakesStep, Keeps, Spares};
ghost use Rattle.sms_store_sql.specs.listing.Transaction.{Leads};
ghost use Rattle.sms_store.specs.handset.HandsetRows.{handset_stores};
ghost use Rattle.sms_store.specs.keeping.Stores.{Turns};

use crate::handset::counters::CountersRow;
use sms_handset::Counters;
use sms_store_sql::listing::put;
use sms_store_tables::handset::HandsetStore;
use sqlite::{Alter, Error, Transaction};
use std::alloc::Global;

pub(crate) fn write_counters<S: Alter>(
    alloc: Global,
    tx: &mut Transaction<'_, S>,
    counters: Option<Counters>,
) -> Result<(), Error>
    ensures same_reference { tx.new.conn.ghost_name ≡ tx.old.conn.ghost_name }
    ensures done { MakesStep S.Store tx.old.conn.now tx.new.conn.now
        (Leads (Turns handset_stores (λ rows. record rows { counters = unwrap_or counters rows.counters }))) result }
    ensures uncommitted { Keeps S.Store tx.old.conn.now tx.new.conn.now }
    ensures survives { Spares S.Store tx.old.conn.now tx.new.conn.now }
{
    match counters {
        Some(counters) => {
            put::<HandsetStore, CountersRow, S>(alloc, tx, &CountersRow { counters })
        }
        None => Ok(()),
    }
}
