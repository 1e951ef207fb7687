//! Rows that keep a TPDU, changed in a table.
//!
//! `revise` makes one change of an event: a row is put or removed, or only how far it is changes and its TPDU stays. It
//! takes no memory where the table has room. `revise_all` makes all changes of an event.
ghost use Rattle.std.specs.Prelude.{◌≡◌, length};
ghost use Rattle.sms_rows.specs.table.Table.{HasRoom};
ghost use Rattle.sms_centre_rows.specs.waiting.Revisions.{all_revised, amended, revised};
ghost use Rattle.sms_centre_rows.specs.declared.waiting.progress.Progress.{Progress as ProgressOf};

use sms_centre_rows::waiting::{Progress, Revision};
use sms_rows::table::{Key, Row, Table};

/// A row of which only how far it is may change, in a keep of the kind `K`.
pub trait Reaching<K>: Row {
    /// The row, so far.
    ghost reaching: { ProgressOf → Self → Self };

    fn reach(self, progress: Progress) -> Self
        ensures { result ≡ reaching progress self };

    /// A row that is reached keeps its key.
    ghost keeps: { (progress : ProgressOf) (row : Self) → Self.key (reaching progress row) ≡ Self.key row };
}

// A table's rows stand in order, which its slice tells.
fn amend<K, T: Drop + Reaching<K>>(table: &mut Table<T>, key: Key, progress: Progress)
    requires { HasRoom 1 table.old }
    ensures { table.new ≡ record table.old { rows = amended T.key T.reaching key progress table.old.rows } }
{
    let _rows = table.as_slice();
    match table.remove(key) {
        Some(row) => table.put_ready(row.reach(progress)),
        None => (),
    }
}

/// Makes the change.
pub fn revise<K, T: Drop + Reaching<K>>(table: &mut Table<T>, revision: Revision<T>)
    requires { HasRoom 1 table.old }
    ensures { table.new ≡ record table.old { rows = revised T.key T.reaching revision table.old.rows } }
{
    match revision {
        Revision::Put(row) => table.put_ready(row),
        Revision::Amend { key, progress } => amend::<K, T>(table, key, progress),
        Revision::Remove(key) => {
            table.remove(key);
        }
    }
}

/// Makes the changes in their order.
pub fn revise_all<K, T: Drop + Reaching<K>>(table: &mut Table<T>, revisions: Vec<Revision<T>>)
    requires { HasRoom (length revisions.items) table.old }
    ensures { table.new ≡ record table.old { rows = all_revised T.key T.reaching revisions.items table.old.rows } }
{
    for revision in revisions {
        revise::<K, T>(table, revision);
    }
}
