//! What an event changes in a table.
ghost use Rattle.std.specs.Prelude.{◌≡◌, option_copied};
ghost use Rattle.std.specs.List.{list_all};
ghost use Rattle.sms_rows.specs.table.Table.{change_key, change_row, is_removal_of};

use crate::table::Row;
use crate::table::key::Key;

/// A change of a table of rows.
#[derive(Drop)]
pub enum Change<T: Drop> {
    /// The row replaces that of its key, or is added where its key belongs.
    Put(T),
    /// The row of that key is removed.
    Remove(Key),
}

impl<T: Drop + Row> Change<T> {
    /// The key of the row that is put or removed.
    pub fn key(&self) -> Key
        ensures { result ≡ change_key T.key self.now }
    {
        match self {
            Change::Put(row) => row.key(),
            Change::Remove(key) => *key,
        }
    }

    /// The row that is put.
    pub fn row(&self) -> Option<&T>
        ensures { option_copied result ≡ change_row self.now }
    {
        match self {
            Change::Put(row) => Some(row),
            Change::Remove(_) => None,
        }
    }
}

impl<T: Drop> Change<T> {
    fn is_removal(&self) -> bool
        ensures { result ≡ is_removal_of self.now }
    {
        match self {
            Change::Put(_) => false,
            Change::Remove(_) => true,
        }
    }
}

impl<T: Drop + Row> Row for Change<T> {
    ghost key = { change_key T.key };

    fn key(&self) -> Key {
        Change::key(self)
    }
}

/// Whether all of the changes remove rows.
pub fn are_removals<T: Drop>(changes: &[Change<T>]) -> bool
    ensures { result ≡ list_all is_removal_of changes.now }
{
    changes.iter().all(|change| change.is_removal())
}
