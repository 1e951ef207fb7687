//! One text that changes how far a row is, and leaves its TPDU alone.
//!
//! The rows of such a list give that text (`AmendedRow`). An event adds a row, removes one, or changes only how far it
//! is. In the last case the row's TPDU is neither read nor written. `amend`, `revise` and `write_revisions` are proved
//! here once for every list, in the words of `sms_store_sql::listing`.
ghost use Rattle.std.specs.Prelude.{◌≡◌, ◌++◌, ℕ, List, OnOk};
ghost use Rattle.sqlite.specs.Held.{state};
ghost use Rattle.sqlite.specs.Order.{Row as RowOf};
ghost use Rattle.sqlite.specs.Term.{Term};
ghost use Rattle.sms_store_tables.specs.amending.Amending.{AmendsOne};
ghost use Rattle.sms_store_tables.specs.centre.Pieces.{IsStoredProgress};
ghost use Rattle.sms_store_sql.specs.listing.Inside.{Alters, MakesStep, Keeps, Ran, Spares};
ghost use Rattle.sms_centre_rows.specs.waiting.Revisions.{all_revised, amended, revised};
ghost use Rattle.sms_centre_rows.specs.declared.waiting.progress.Progress.{Progress as ProgressOf};

use sms_centre_rows::waiting::{Progress, Revision};
use sms_rows::table::Key;
use sms_store_sql::listing::{StoredRow, add, remove};
use sqlite::{Alter, Error, Transaction};
use std::alloc::Global;

/// A row of which one text changes how far it is, found by its key.
pub trait AmendedRow<K>: StoredRow<K> {
    /// The row, so far.
    ghost reaching: { ProgressOf → Self → Self };

    /// The columns that say how far it is.
    ghost progress_columns: { ProgressOf → RowOf };

    /// The text.
    ghost amendment: { List ℕ };

    /// What the columns of a row are then.
    ghost amended_columns: { List Term };

    /// Runs the text.
    fn update<S: Alter>(
        tx: &mut Transaction<'_, S>,
        key: Key,
        progress: Progress,
    ) -> Result<(), Error>
        ensures same_reference { tx.new.conn.ghost_name ≡ tx.old.conn.ghost_name }
        ensures done { MakesStep S.Store tx.old.conn.now tx.new.conn.now (Ran amendment (Self.list.key_columns key ++ progress_columns progress)) result }
        ensures uncommitted { Keeps S.Store tx.old.conn.now tx.new.conn.now }
        ensures survives { Spares S.Store tx.old.conn.now tx.new.conn.now }
        ensures fits { OnOk result (IsStoredProgress progress) };

    /// The text is that of the list.
    ghost amends: { AmendsOne Self.list amendment reaching progress_columns amended_columns };
}

/// The row of the key is so far now, if there is one; all else of it stays.
pub fn amend<K, T: Drop + AmendedRow<K>, S: Alter>(
    tx: &mut Transaction<'_, S>,
    key: Key,
    progress: Progress,
) -> Result<(), Error>
    ensures same_reference { tx.new.conn.ghost_name ≡ tx.old.conn.ghost_name }
    ensures done { MakesStep S.Store tx.old.conn.now tx.new.conn.now (Alters T.list (amended T.list.key T.reaching key progress)) result }
    ensures uncommitted { Keeps S.Store tx.old.conn.now tx.new.conn.now }
    ensures survives { Spares S.Store tx.old.conn.now tx.new.conn.now }
{
    T::update(tx, key, progress)
}

/// Makes the change.
pub fn revise<K, T: Drop + AmendedRow<K>, S: Alter>(
    alloc: Global,
    tx: &mut Transaction<'_, S>,
    revision: &Revision<T>,
) -> Result<(), Error>
    ensures same_reference { tx.new.conn.ghost_name ≡ tx.old.conn.ghost_name }
    ensures done { MakesStep S.Store tx.old.conn.now tx.new.conn.now (Alters T.list (revised T.list.key T.reaching revision.now)) result }
    ensures uncommitted { Keeps S.Store tx.old.conn.now tx.new.conn.now }
    ensures survives { Spares S.Store tx.old.conn.now tx.new.conn.now }
{
    match revision {
        Revision::Put(row) => add::<K, T, S>(alloc, tx, row),
        Revision::Amend { key, progress } => amend::<K, T, S>(tx, *key, *progress),
        Revision::Remove(key) => remove::<K, T, S>(tx, *key),
    }
}

/// Makes the changes in their order.
pub fn write_revisions<K, T: Drop + AmendedRow<K>, S: Alter>(
    alloc: Global,
    tx: &mut Transaction<'_, S>,
    revisions: &[Revision<T>],
) -> Result<(), Error>
    ensures same_reference { tx.new.conn.ghost_name ≡ tx.old.conn.ghost_name }
    ensures done { MakesStep S.Store tx.old.conn.now tx.new.conn.now (Alters T.list (all_revised T.list.key T.reaching revisions.now)) result }
    ensures uncommitted { Keeps S.Store tx.old.conn.now tx.new.conn.now }
    ensures survives { Spares S.Store tx.old.conn.now tx.new.conn.now }
{
    for revision in revisions {
        revise::<K, T, S>(alloc, tx, revision)?;
    }
    Ok(())
}
