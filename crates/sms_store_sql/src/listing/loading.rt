//! Reads a list.
ghost use Rattle.std.specs.Prelude.{◌≡◌, false, IfErr, IfOk, IsPermutation, List, map};
ghost use Rattle.std.specs.List.{AllByRecursion};
ghost use Rattle.sqlite.specs.Held.{state};
ghost use Rattle.sms_store_sql.specs.listing.Causes.{IsOfNoRow};
ghost use Rattle.sms_store_sql.specs.listing.Inside.{Finds, Gathers, Spares, SparesOwn, Stays, StaysOutside};
ghost use Rattle.sms_store_sql.specs.listing.Listing.{AreColumnsOf, Represents};
ghost use Rattle.sms_store_sql.specs.listing.Reading.{LacksMemory};
ghost use Rattle.sqlite.specs.State.{HasCleanDisk, IsUnchanged};
ghost use Rattle.sms_rows.specs.table.Table.{Rises};

use crate::listing::list::StoredRow;
use sms_rows::table::Row;
use sqlite::{Alter, Connection, Error, ErrorCode, Row as Found, Transaction};
use std::alloc::Global;

pub(crate) fn rows_of<K, T: Drop + StoredRow<K>>(
    alloc: Global,
    rows: &[Found],
) -> Result<Vec<T>, Error>
    ensures found { IfOk result (λ found. (seen : List T) → AllByRecursion T.list.Fits seen → rows.now ≡ map T.list.columns seen → found.items ≡ seen) }
    ensures back { (seen : List T) → AllByRecursion T.list.Fits seen → rows.now ≡ map T.list.columns seen → IfErr result LacksMemory }
{
    let mut found = Vec::new(alloc);
    for row in rows {
        found.push(T::read(alloc, row)?)?;
    }
    Ok(found)
}

pub(crate) fn in_order<T: Drop + Row>(rows: Vec<T>) -> Result<Vec<T>, Error>
    ensures sorted { IfOk result (λ sorted. (xs : List T) → IsPermutation rows.items xs → Rises T.key xs → sorted.items ≡ xs) }
    ensures only { IfErr result LacksMemory }
{
    let mut sorted = rows;
    sorted.sort_by_key(
        |row: &T| -> u128
            ensures { result ≡ T.key row.now }
        { row.key().number() },
    )?;
    Ok(sorted)
}

// The rows of the list's table, in any order, each read as it comes.
fn gather<K, T: Drop + StoredRow<K>, S: Alter>(
    alloc: Global,
    conn: &mut Connection<S>,
) -> Result<Vec<T>, Error>
    ensures mode { conn.old.in_transaction ≡ false → conn.new.in_transaction ≡ false }
    ensures found { HasCleanDisk (state S.Store conn.new) → (state S.Store conn.old).now.schema ≡ T.list.table.schema
        → IfOk result (λ found. Gathers T.list (state S.Store conn.old) (state S.Store conn.new) found.items) }
    ensures back { HasCleanDisk (state S.Store conn.new) → (state S.Store conn.old).now.schema ≡ T.list.table.schema
        → (xs : List T) → Represents T.list ((state S.Store conn.old).now.trees T.list.table.tree) xs → IfErr result IsOfNoRow }
    ensures stays { HasCleanDisk (state S.Store conn.new) → (state S.Store conn.old).now.schema ≡ T.list.table.schema
        → StaysOutside (state S.Store conn.old) (state S.Store conn.new) }
    ensures survives { SparesOwn T.list.table.schema (state S.Store conn.old) (state S.Store conn.new) }
{
    let table = T::table();
    let mut found = Vec::new(alloc);
    let mut rows = conn.query(table.select, &[])?;
    'rows: for _ in 0..u64::MAX {
        let Some(row) = rows.next()? else {
            return Ok(found);
        };
        found.push(T::read(alloc, row)?)?;
    }
    Err(Error::SqliteFailure(ErrorCode::TooBig))
}

/// The rows of the list in the order of their keys, each read as it comes, outside a transaction. Rows that `put` has put are
/// never refused as those of no store.
pub fn load<K, T: Drop + StoredRow<K>, S: Alter>(
    alloc: Global,
    conn: &mut Connection<S>,
) -> Result<Vec<T>, Error>
    ensures mode { conn.old.in_transaction ≡ false → conn.new.in_transaction ≡ false }
    ensures found { Finds S.Store conn.old conn.new T.list (λ rows. rows.items) result }
    ensures back { HasCleanDisk (state S.Store conn.new) → (state S.Store conn.old).now.schema ≡ T.list.table.schema
        → (xs : List T) → Represents T.list ((state S.Store conn.old).now.trees T.list.table.tree) xs → IfErr result IsOfNoRow }
    ensures stays { HasCleanDisk (state S.Store conn.new) → (state S.Store conn.old).now.schema ≡ T.list.table.schema
        → StaysOutside (state S.Store conn.old) (state S.Store conn.new) }
    ensures survives { SparesOwn T.list.table.schema (state S.Store conn.old) (state S.Store conn.new) }
{
    in_order(gather::<K, T, S>(alloc, conn)?)
}

/// The columns of all rows of the list's table, in any order.
pub fn load_columns<K, T: Drop + StoredRow<K>, S: Alter>(
    tx: &mut Transaction<'_, S>,
) -> Result<Vec<Found>, Error>
    ensures same_reference { tx.new.conn.ghost_name ≡ tx.old.conn.ghost_name }
    ensures found { HasCleanDisk (state S.Store tx.new.conn.now) → (state S.Store tx.old.conn.now).now.schema ≡ T.list.table.schema
        → IfOk result (λ rows. IsUnchanged (state S.Store tx.old.conn.now) (state S.Store tx.new.conn.now) × AreColumnsOf T.list
        ((state S.Store tx.old.conn.now).now.trees T.list.table.tree) rows.items) }
    ensures back { HasCleanDisk (state S.Store tx.new.conn.now) → (state S.Store tx.old.conn.now).now.schema ≡ T.list.table.schema
        → IfErr result IsOfNoRow }
    ensures uncommitted { Stays S.Store tx.old.conn.now tx.new.conn.now T.list }
    ensures survives { Spares S.Store tx.old.conn.now tx.new.conn.now }
{
    let table = T::table();
    let rows = tx.query_all(table.select, &[])?;
    Ok(rows)
}
