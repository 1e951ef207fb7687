//! What an event changed of a table, found by key.
ghost use Rattle.std.specs.Prelude.{◌≡◌, [], ◌∷◌, ◌++◌, length, OnErr, OnOk, option_copied};
ghost use Rattle.sms_rows.specs.table.Table.{newest_of};

use indexmap::IndexMap;
use sms_rows::table::{Change, Key, Row};
use std::alloc::{AllocError, Global};
use std::marker::Model;

// The changes of a table, the oldest first, seen by contracts as their list. The newest change of a key is found at once,
// however many there are.
#[derive(Drop)]
pub(crate) struct NewestChanges<T: Drop + Row> {
    changes: Vec<Change<T>>,
    // Of each key that was changed the place of its newest change.
    places: IndexMap<u128, usize>,
}

impl<T: Drop + Row> Model for NewestChanges<T> {
    ghost use Rattle.std.specs.Prelude.{List};
    ghost use Rattle.sms_centre_messages.specs.message_index.Newest.{HasPlaces};
    ghost use Rattle.sms_rows.specs.declared.table.change.Change.{Change as ChangeOf};

    ghost Value = { List (ChangeOf T) };

    ghost view = { λ c. c.changes.items };

    ghost invariant = { λ c. HasPlaces T.key c.changes.items c.places.entries };
}

impl<T: Drop + Row> NewestChanges<T> {
    // No changes.
    pub(crate) fn new(alloc: Global) -> NewestChanges<T>
        ensures { result ≡ [] }
    {
        NewestChanges {
            changes: Vec::new(alloc),
            places: IndexMap::new(alloc),
        }
    }

    pub(crate) fn len(&self) -> usize
        ensures { result ≡ length self.now }
    {
        self.changes.len()
    }

    // One more.
    pub(crate) fn push(&mut self, change: Change<T>) -> Result<(), AllocError>
        ensures ok { OnOk result (self.new ≡ self.old ++ change ∷ []) }
        ensures err { OnErr result (self.new ≡ self.old) }
    {
        self.changes.reserve(1)?;
        let place = self.changes.len();
        self.places.insert(change.key().number(), place)?;
        self.changes.push_reserved(change);
        Ok(())
    }

    // The newest change of that key, if there is one.
    pub(crate) fn newest(&self, key: Key) -> Option<&Change<T>>
        ensures { option_copied result ≡ newest_of T.key key self.now }
    {
        match self.places.get(&key.number()) {
            Some(place) => self.changes.as_slice().get(*place),
            None => None,
        }
    }

    // The changes, the oldest first.
    pub(crate) fn into_vec(self) -> Vec<Change<T>>
        ensures { result.items ≡ self }
    {
        let NewestChanges { changes, .. } = self;
        changes
    }
}
