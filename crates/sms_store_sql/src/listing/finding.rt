//! Finds the row of a key.
ghost use Rattle.std.specs.Prelude.{◌≡◌, IfErr, IfOk, List, ℕ, map};
ghost use Rattle.std.specs.List.{AllByRecursion};
ghost use Rattle.sqlite.specs.Held.{state};
ghost use Rattle.sqlite.specs.State.{HasCleanDisk, IsUnchanged, KeepsCommit, Shown};
ghost use Rattle.sms_store_sql.specs.listing.Causes.{IsOfNoRow};
ghost use Rattle.sms_store_sql.specs.listing.Finding.{FindsOne, first_of};
ghost use Rattle.sms_store_sql.specs.listing.Inside.{OnlyReads, Spares, Stays};
ghost use Rattle.sms_store_sql.specs.listing.Listing.{Represents};
ghost use Rattle.sms_store_sql.specs.listing.Reading.{LacksMemory};
ghost use Rattle.sms_rows.specs.table.Table.{row_at};

use crate::listing::list::StoredRow;
use sms_rows::table::Key;
use sqlite::{Alter, Error, Row as Found, Transaction};
use std::alloc::Global;

/// A row that one query finds by its key.
pub trait FoundRow<K>: StoredRow<K> {
    /// The text of the query.
    ghost find: { List ℕ };

    /// Runs the text that finds the row of a key.
    fn query<S: Alter>(tx: &mut Transaction<'_, S>, key: Key) -> Result<Vec<Found>, Error>
        ensures same_reference { tx.new.conn.ghost_name ≡ tx.old.conn.ghost_name }
        ensures ok { HasCleanDisk (state S.Store tx.new.conn.now)
            → IfOk result (λ rows. Shown find (Self.list.key_columns key) (state S.Store tx.old.conn.now) (state S.Store tx.new.conn.now) rows.items) }
        ensures back { HasCleanDisk (state S.Store tx.new.conn.now) → OnlyReads find (state S.Store tx.old.conn.now) → IfErr result IsOfNoRow }
        ensures uncommitted { HasCleanDisk (state S.Store tx.new.conn.now) → OnlyReads find (state S.Store tx.old.conn.now)
            → KeepsCommit (state S.Store tx.old.conn.now) (state S.Store tx.new.conn.now) }
        ensures survives { Spares S.Store tx.old.conn.now tx.new.conn.now };

    /// The text is that of the list.
    ghost is_found: { FindsOne Self.list find };
}

fn first_row<K, T: Drop + StoredRow<K>>(alloc: Global, rows: &[Found]) -> Result<Option<T>, Error>
    ensures found { IfOk result (λ found. (seen : List T) → AllByRecursion T.list.Fits seen → rows.now ≡ map T.list.columns seen → found ≡ first_of seen) }
    ensures back { (seen : List T) → AllByRecursion T.list.Fits seen → rows.now ≡ map T.list.columns seen → IfErr result LacksMemory }
{
    match rows.first() {
        Some(row) => {
            let found = T::read(alloc, row)?;
            Ok(Some(found))
        }
        None => Ok(None),
    }
}

/// The row of the key, if there is one.
pub fn find<K, T: Drop + FoundRow<K>, S: Alter>(
    alloc: Global,
    tx: &mut Transaction<'_, S>,
    key: Key,
) -> Result<Option<T>, Error>
    ensures same_reference { tx.new.conn.ghost_name ≡ tx.old.conn.ghost_name }
    ensures found { HasCleanDisk (state S.Store tx.new.conn.now) → (state S.Store tx.old.conn.now).now.schema ≡ T.list.table.schema
        → IfOk result (λ row. IsUnchanged (state S.Store tx.old.conn.now) (state S.Store tx.new.conn.now) ×
        ((xs : List T) → Represents T.list ((state S.Store tx.old.conn.now).now.trees T.list.table.tree) xs → row ≡ row_at T.list.key key xs)) }
    ensures back { HasCleanDisk (state S.Store tx.new.conn.now) → (state S.Store tx.old.conn.now).now.schema ≡ T.list.table.schema
        → (xs : List T) → Represents T.list ((state S.Store tx.old.conn.now).now.trees T.list.table.tree) xs → IfErr result IsOfNoRow }
    ensures uncommitted { Stays S.Store tx.old.conn.now tx.new.conn.now T.list }
    ensures survives { Spares S.Store tx.old.conn.now tx.new.conn.now }
{
    let rows = T::query(tx, key)?;
    first_row::<K, T>(alloc, &rows)
}
