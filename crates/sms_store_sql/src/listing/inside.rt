//! Statements inside one transaction.
ghost use Rattle.std.specs.Prelude.{◌≡◌, [], IfErr, IfOk};
ghost use Rattle.sqlite.specs.Held.{state};
ghost use Rattle.sqlite.specs.State.{HasCleanDisk, KeepsCommit, Shown};
ghost use Rattle.sqlite.specs.Values.{bound};
ghost use Rattle.sms_store_sql.specs.listing.Causes.{IsOfNoRow};
ghost use Rattle.sms_store_sql.specs.listing.Inside.{Alters, Counts, MakesStep, Keeps, OnlyReads, Ran, RanOn, Spares};
ghost use Rattle.sms_rows.specs.table.Table.{all_applied, applied, put as put_row, without};

use crate::listing::keyed::run_at;
use crate::listing::list::{Counted, StoredRow};
use sms_rows::table::{Change, Key};
use sqlite::types::ValueRef;
use sqlite::{Alter, Error, Row as Found, Transaction};
use std::alloc::Global;

/// Runs one statement inside the transaction.
pub fn run<S: Alter>(
    tx: &mut Transaction<'_, S>,
    sql: &str,
    params: &[ValueRef<'_>],
) -> Result<(), Error>
    ensures same_reference { tx.new.conn.ghost_name ≡ tx.old.conn.ghost_name }
    ensures done { MakesStep S.Store tx.old.conn.now tx.new.conn.now (Ran sql.now (bound params.now)) result }
    ensures uncommitted { Keeps S.Store tx.old.conn.now tx.new.conn.now }
    ensures survives { Spares S.Store tx.old.conn.now tx.new.conn.now }
{
    tx.execute(sql, params)?;
    Ok(())
}

/// Runs one statement inside the transaction, and gives how many rows it was on.
pub fn run_counted<S: Alter>(
    tx: &mut Transaction<'_, S>,
    sql: &str,
    params: &[ValueRef<'_>],
) -> Counted
    ensures same_reference { tx.new.conn.ghost_name ≡ tx.old.conn.ghost_name }
    ensures done { Counts S.Store tx.old.conn.now tx.new.conn.now (RanOn sql.now (bound params.now)) result }
    ensures uncommitted { Keeps S.Store tx.old.conn.now tx.new.conn.now }
    ensures survives { Spares S.Store tx.old.conn.now tx.new.conn.now }
{
    tx.execute(sql, params)
}

/// The rows that one query inside the transaction shows.
pub fn query<S: Alter>(
    tx: &mut Transaction<'_, S>,
    sql: &str,
    params: &[ValueRef<'_>],
) -> Result<Vec<Found>, Error>
    ensures same_reference { tx.new.conn.ghost_name ≡ tx.old.conn.ghost_name }
    ensures ok { HasCleanDisk (state S.Store tx.new.conn.now)
        → IfOk result (λ rows. Shown sql.now (bound params.now) (state S.Store tx.old.conn.now) (state S.Store tx.new.conn.now) rows.items) }
    ensures back { HasCleanDisk (state S.Store tx.new.conn.now) → OnlyReads sql.now (state S.Store tx.old.conn.now) → IfErr result IsOfNoRow }
    ensures uncommitted { HasCleanDisk (state S.Store tx.new.conn.now) → OnlyReads sql.now (state S.Store tx.old.conn.now)
        → KeepsCommit (state S.Store tx.old.conn.now) (state S.Store tx.new.conn.now) }
    ensures survives { Spares S.Store tx.old.conn.now tx.new.conn.now }
{
    tx.query_all(sql, params)
}

/// Makes the table of the list.
pub fn make<K, T: Drop + StoredRow<K>, S: Alter>(tx: &mut Transaction<'_, S>) -> Result<(), Error>
    ensures same_reference { tx.new.conn.ghost_name ≡ tx.old.conn.ghost_name }
    ensures done { MakesStep S.Store tx.old.conn.now tx.new.conn.now (Ran T.list.table.create []) result }
    ensures uncommitted { Keeps S.Store tx.old.conn.now tx.new.conn.now }
    ensures survives { Spares S.Store tx.old.conn.now tx.new.conn.now }
{
    let table = T::table();
    run(tx, table.create, &[])
}

/// Removes the row of the key, if there is one.
pub fn remove<K, T: Drop + StoredRow<K>, S: Alter>(
    tx: &mut Transaction<'_, S>,
    key: Key,
) -> Result<(), Error>
    ensures same_reference { tx.new.conn.ghost_name ≡ tx.old.conn.ghost_name }
    ensures done { MakesStep S.Store tx.old.conn.now tx.new.conn.now (Alters T.list (without T.list.key key)) result }
    ensures uncommitted { Keeps S.Store tx.old.conn.now tx.new.conn.now }
    ensures survives { Spares S.Store tx.old.conn.now tx.new.conn.now }
{
    let table = T::table();
    run_at(tx, table.delete, table.key.len(), key)
}

/// Puts the row in the place of that of its key, or where its key belongs.
pub fn put<K, T: Drop + StoredRow<K>, S: Alter>(
    alloc: Global,
    tx: &mut Transaction<'_, S>,
    row: &T,
) -> Result<(), Error>
    ensures same_reference { tx.new.conn.ghost_name ≡ tx.old.conn.ghost_name }
    ensures done { MakesStep S.Store tx.old.conn.now tx.new.conn.now (Alters T.list (put_row T.list.key row.now)) result }
    ensures uncommitted { Keeps S.Store tx.old.conn.now tx.new.conn.now }
    ensures survives { Spares S.Store tx.old.conn.now tx.new.conn.now }
{
    // A row that is there is changed under the rowid that it has. That writes its page alone. A row that is removed and
    // added again writes the page that it leaves, the last page of the table, and a page of the index of its key.
    let table = T::table();
    let changed = row.write(alloc, tx, table.update)?;
    if changed == 0 {
        row.write(alloc, tx, table.insert)?;
    }
    Ok(())
}

/// Adds a row whose key is new, by one statement. Where a row of its key is there, it is refused.
pub fn add<K, T: Drop + StoredRow<K>, S: Alter>(
    alloc: Global,
    tx: &mut Transaction<'_, S>,
    row: &T,
) -> Result<(), Error>
    ensures same_reference { tx.new.conn.ghost_name ≡ tx.old.conn.ghost_name }
    ensures done { MakesStep S.Store tx.old.conn.now tx.new.conn.now (Alters T.list (put_row T.list.key row.now)) result }
    ensures uncommitted { Keeps S.Store tx.old.conn.now tx.new.conn.now }
    ensures survives { Spares S.Store tx.old.conn.now tx.new.conn.now }
{
    let table = T::table();
    row.write(alloc, tx, table.insert)?;
    Ok(())
}

/// Makes the change.
pub fn change<K, T: Drop + StoredRow<K>, S: Alter>(
    alloc: Global,
    tx: &mut Transaction<'_, S>,
    change: &Change<T>,
) -> Result<(), Error>
    ensures same_reference { tx.new.conn.ghost_name ≡ tx.old.conn.ghost_name }
    ensures done { MakesStep S.Store tx.old.conn.now tx.new.conn.now (Alters T.list (applied T.list.key change.now)) result }
    ensures uncommitted { Keeps S.Store tx.old.conn.now tx.new.conn.now }
    ensures survives { Spares S.Store tx.old.conn.now tx.new.conn.now }
{
    match change {
        Change::Put(row) => {
            if row.is_first() {
                add::<K, T, S>(alloc, tx, row)
            } else {
                put::<K, T, S>(alloc, tx, row)
            }
        }
        Change::Remove(key) => remove::<K, T, S>(tx, *key),
    }
}

/// Makes the changes in their order.
pub fn write<K, T: Drop + StoredRow<K>, S: Alter>(
    alloc: Global,
    tx: &mut Transaction<'_, S>,
    changes: &[Change<T>],
) -> Result<(), Error>
    ensures same_reference { tx.new.conn.ghost_name ≡ tx.old.conn.ghost_name }
    ensures done { MakesStep S.Store tx.old.conn.now tx.new.conn.now (Alters T.list (all_applied T.list.key changes.now)) result }
    ensures uncommitted { Keeps S.Store tx.old.conn.now tx.new.conn.now }
    ensures survives { Spares S.Store tx.old.conn.now tx.new.conn.now }
{
    for item in changes {
        change::<K, T, S>(alloc, tx, item)?;
    }
    Ok(())
}
