//! Finds the rows of a number that is not their key.
ghost use Rattle.std.specs.Prelude.{◌≡◌, ◌==◌, [], ◌∷◌, IfErr, IfOk, List, ℕ, filter};
ghost use Rattle.sqlite.specs.Held.{state};
ghost use Rattle.sqlite.specs.State.{HasCleanDisk, IsUnchanged, KeepsCommit, Shown};
ghost use Rattle.sqlite.specs.Term.{Term};
ghost use Rattle.sms_store_sql.specs.listing.Causes.{IsOfNoRow};
ghost use Rattle.sms_store_sql.specs.listing.Columns.{number as as_number};
ghost use Rattle.sms_store_sql.specs.listing.Inside.{OnlyReads, Spares, Stays};
ghost use Rattle.sms_store_sql.specs.listing.Listing.{Represents};
ghost use Rattle.sms_store_sql.specs.listing.Seeking.{SeeksBy};

use crate::listing::list::StoredRow;
use crate::listing::loading::{in_order, rows_of};
use sqlite::{Alter, Error, Row as Found, Transaction};
use std::alloc::Global;

/// A row that one query finds by a number that is not its key.
pub trait SoughtRow<K>: StoredRow<K> {
    /// The number.
    ghost mark: { Self → ℕ };

    /// The text of the query.
    ghost sought: { List ℕ };

    /// What it tests.
    ghost tests: { List Term };

    /// Runs the text that finds the rows of a number.
    fn query_mark<S: Alter>(tx: &mut Transaction<'_, S>, number: u128) -> Result<Vec<Found>, Error>
        ensures same_reference { tx.new.conn.ghost_name ≡ tx.old.conn.ghost_name }
        ensures ok { HasCleanDisk (state S.Store tx.new.conn.now)
            → IfOk result (λ rows. Shown sought (as_number number ∷ []) (state S.Store tx.old.conn.now) (state S.Store tx.new.conn.now) rows.items) }
        ensures back { HasCleanDisk (state S.Store tx.new.conn.now) → OnlyReads sought (state S.Store tx.old.conn.now) → IfErr result IsOfNoRow }
        ensures uncommitted { HasCleanDisk (state S.Store tx.new.conn.now) → OnlyReads sought (state S.Store tx.old.conn.now)
            → KeepsCommit (state S.Store tx.old.conn.now) (state S.Store tx.new.conn.now) }
        ensures survives { Spares S.Store tx.old.conn.now tx.new.conn.now };

    /// The text is that of the list.
    ghost is_sought: { SeeksBy Self.list mark sought tests };
}

/// The rows of that number, in the order of their keys.
pub fn seek<K, T: Drop + SoughtRow<K>, S: Alter>(
    alloc: Global,
    tx: &mut Transaction<'_, S>,
    number: u128,
) -> Result<Vec<T>, Error>
    ensures same_reference { tx.new.conn.ghost_name ≡ tx.old.conn.ghost_name }
    ensures found { HasCleanDisk (state S.Store tx.new.conn.now) → (state S.Store tx.old.conn.now).now.schema ≡ T.list.table.schema
        → IfOk result (λ rows. IsUnchanged (state S.Store tx.old.conn.now) (state S.Store tx.new.conn.now) ×
        ((xs : List T) → Represents T.list ((state S.Store tx.old.conn.now).now.trees T.list.table.tree) xs → rows.items ≡ filter
        (λ x. T.mark x == number) xs)) }
    ensures back { HasCleanDisk (state S.Store tx.new.conn.now) → (state S.Store tx.old.conn.now).now.schema ≡ T.list.table.schema
        → (xs : List T) → Represents T.list ((state S.Store tx.old.conn.now).now.trees T.list.table.tree) xs → IfErr result IsOfNoRow }
    ensures uncommitted { Stays S.Store tx.old.conn.now tx.new.conn.now T.list }
    ensures survives { Spares S.Store tx.old.conn.now tx.new.conn.now }
{
    let rows = T::query_mark(tx, number)?;
    in_order(rows_of::<K, T>(alloc, &rows)?)
}
