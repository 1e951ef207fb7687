//! What a load or a commit needs before it changes anything: copies, put into a list that their owner lends, and room
//! in a table for the rows that changes bring.
ghost use Rattle.std.specs.Prelude.{◌≡◌, [], IfOk, OnOk};
ghost use Rattle.sms_rows.specs.table.Table.{HasRoom};

use sms_base::Listed;
use sms_base::lending::put;
use sms_rows::memory::{CopiedRow, copy_of_rows};
use sms_rows::table::{Change, Row, Table};
use std::alloc::{AllocError, Global};

/// Puts copies of the rows in the place of a list.
pub(crate) fn copy_rows<K, T: Drop + CopiedRow<K>>(
    alloc: Global,
    rows: &[T],
    place: &mut Listed<T>,
) -> Result<(), AllocError>
    ensures { OnOk result (place.new ≡ rows.now) }
{
    let copies = copy_of_rows::<K, T>(alloc, rows)?;
    put(place, Listed::from_vec(copies));
    Ok(())
}

/// A change of a list that can be copied, in a keep of the kind `K`.
pub(crate) trait CopiedChange<K> {
    /// A copy of the change.
    fn copied(&self, alloc: Global) -> Result<Self, AllocError>
        ensures { IfOk result (λ copy. copy ≡ self.now) };
}

impl<K, T: Drop + CopiedRow<K>> CopiedChange<K> for Change<T> {
    fn copied(&self, alloc: Global) -> Result<Change<T>, AllocError> {
        match self {
            Change::Put(row) => {
                let row = row.copied(alloc)?;
                Ok(Change::Put(row))
            }
            Change::Remove(key) => Ok(Change::Remove(*key)),
        }
    }
}

fn add_copies<K, C: Drop + CopiedChange<K>>(
    alloc: Global,
    changes: &[C],
    copies: &mut Listed<C>,
) -> Result<(), AllocError>
    requires { copies.old ≡ [] }
    ensures { OnOk result (copies.new ≡ changes.now) }
{
    for change in changes {
        copies.push(change.copied(alloc)?)?;
    }
    Ok(())
}

/// Puts copies of the changes in the place of a list.
pub(crate) fn copy_changes<K, C: Drop + CopiedChange<K>>(
    alloc: Global,
    changes: &[C],
    place: &mut Listed<C>,
) -> Result<(), AllocError>
    ensures { OnOk result (place.new ≡ changes.now) }
{
    let mut copies = Listed::new(alloc);
    add_copies::<K, C>(alloc, changes, &mut copies)?;
    put(place, copies);
    Ok(())
}

/// Makes room in the table for that many rows more. Where memory is wanting, its rows are as they were.
pub(crate) fn make_room<T: Drop + Row>(
    alloc: Global,
    table: &mut Table<T>,
    extra: usize,
) -> Result<(), AllocError>
    ensures rows { table.new.rows ≡ table.old.rows }
    ensures room { OnOk result (HasRoom extra table.new) }
{
    let reserve = table.make_reserve(alloc, extra)?;
    table.use_reserve(reserve);
    Ok(())
}
