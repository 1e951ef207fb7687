//! What an event changed of the parts, with the parts that it put found by their keys.
ghost use Rattle.std.specs.Prelude.{◌≡◌, [], ◌∷◌, ◌++◌, OnOk, option_copied};
ghost use Rattle.std.specs.Option.{option_map};
ghost use Rattle.sms_centre_messages.specs.message_index.Puts.{newest_put, put_at as put_at_of, tpdu_of};
ghost use Rattle.sms_centre_rows.specs.declared.waiting.revision.Revision.TheVariants.{Amend, Put, Remove};

use indexmap::IndexMap;
use sms_centre_rows::messages::PartRow;
use sms_centre_rows::waiting::{Progress, Revision};
use sms_rows::table::{Key, Row};
use std::alloc::{AllocError, Global};
use std::marker::Model;

// The changes of parts, the oldest first, seen by contracts as their list. The octets of a part that was put are found at once,
// however many changes there are.
#[derive(Drop)]
pub(crate) struct PartChanges {
    changes: Vec<Revision<PartRow>>,
    // Of each key under which a part was put the place of the newest such change.
    places: IndexMap<u128, usize>,
}

impl Model for PartChanges {
    ghost use Rattle.std.specs.Prelude.{List};
    ghost use Rattle.sms_centre_messages.specs.message_index.Puts.{HasPuts};
    ghost use Rattle.sms_centre_rows.specs.declared.messages.part.PartRow.{PartRow as PartRowOf};
    ghost use Rattle.sms_centre_rows.specs.declared.waiting.revision.Revision.{Revision as RevisionOf};

    ghost Value = { List (RevisionOf PartRowOf) };

    ghost view = { λ c. c.changes.items };

    ghost invariant = { λ c. HasPuts c.changes.items c.places.entries };
}

impl PartChanges {
    // No changes.
    pub(crate) fn new(alloc: Global) -> PartChanges
        ensures { result ≡ [] }
    {
        PartChanges {
            changes: Vec::new(alloc),
            places: IndexMap::new(alloc),
        }
    }

    // A part is put whole.
    pub(crate) fn put(&mut self, row: PartRow) -> Result<(), AllocError>
        ensures { OnOk result (self.new ≡ self.old ++ Put row ∷ []) }
    {
        self.changes.reserve(1)?;
        let place = self.changes.len();
        self.places.insert(row.key().number(), place)?;
        self.changes.push_reserved(Revision::Put(row));
        Ok(())
    }

    // The part of that key is so far.
    pub(crate) fn amend(&mut self, key: Key, progress: Progress) -> Result<(), AllocError>
        ensures { OnOk result (self.new ≡ self.old ++ Amend key progress ∷ []) }
    {
        self.changes.reserve(1)?;
        self.changes
            .push_reserved(Revision::Amend { key, progress });
        Ok(())
    }

    // The part of that key is taken out.
    pub(crate) fn remove(&mut self, key: Key) -> Result<(), AllocError>
        ensures { OnOk result (self.new ≡ self.old ++ Remove key ∷ []) }
    {
        self.changes.reserve(1)?;
        self.changes.push_reserved(Revision::Remove(key));
        Ok(())
    }

    // The octets of the newest part of that key that was put.
    pub(crate) fn tpdu(&self, key: Key) -> Option<&[u8]>
        ensures { option_copied result ≡ option_map tpdu_of (newest_put key self.now) }
    {
        match self.places.get(&key.number()) {
            Some(place) => put_at(self.changes.as_slice(), *place),
            None => None,
        }
    }

    // The changes, the oldest first.
    pub(crate) fn into_vec(self) -> Vec<Revision<PartRow>>
        ensures { result.items ≡ self }
    {
        let PartChanges { changes, .. } = self;
        changes
    }
}

// The octets of the part that the change at a place puts.
fn put_at(changes: &[Revision<PartRow>], place: usize) -> Option<&[u8]>
    ensures { option_copied result ≡ option_map tpdu_of (put_at_of changes.now place) }
{
    match changes.get(place) {
        Some(Revision::Put(row)) => Some(row.tpdu.as_slice()),
        Some(Revision::Amend { .. }) => None,
        Some(Revision::Remove(_)) => None,
        None => None,
    }
}
