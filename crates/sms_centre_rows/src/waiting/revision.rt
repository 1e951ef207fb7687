//! What an event changes in a list whose rows keep a TPDU.
ghost use Rattle.std.specs.Prelude.{◌≡◌};
ghost use Rattle.std.specs.List.{list_all};
ghost use Rattle.sms_centre_rows.specs.waiting.Revisions.{removes_of, revision_key};

use crate::waiting::progress::Progress;
use sms_rows::table::{Key, Row};

/// A change of a list whose rows keep a TPDU. Who amends a row needs to know nothing of its TPDU, which stays.
#[derive(Drop)]
pub enum Revision<T: Drop> {
    /// The row replaces that of its key, or is added where its key belongs.
    Put(T),
    /// The row of that key is so far now; all else of it stays.
    Amend { key: Key, progress: Progress },
    /// The row of that key is removed.
    Remove(Key),
}

impl<T: Drop> Revision<T> {
    fn removes(&self) -> bool
        ensures { result ≡ removes_of self.now }
    {
        match self {
            Revision::Put(_) => false,
            Revision::Amend { .. } => false,
            Revision::Remove(_) => true,
        }
    }
}

impl<T: Drop + Row> Row for Revision<T> {
    ghost key = { revision_key T.key };

    fn key(&self) -> Key {
        match self {
            Revision::Put(row) => row.key(),
            Revision::Amend { key, .. } => *key,
            Revision::Remove(key) => *key,
        }
    }
}

/// Whether all of the changes remove rows.
pub fn only_remove<T: Drop>(changes: &[Revision<T>]) -> bool
    ensures { result ≡ list_all removes_of changes.now }
{
    changes.iter().all(|change| change.removes())
}
