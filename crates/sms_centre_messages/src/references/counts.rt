//! Counts under keys.
ghost use Rattle.std.specs.Prelude.{◌≡◌, ◌+◌, ◌<◌, ◌≤◌, ℕ, IsOk, OnOk};
ghost use Rattle.sms_centre_messages.specs.references.Counts.{CountsOf, IsAdded, IsSet, IsTaken, counted};
ghost use Rattle.sms_centre_messages.specs.declared.references.message_ends.MessageEnds.{MessageEnds as BetweenOf};

use crate::references::message_ends::MessageEnds;
use indexmap::IndexMap;
use std::alloc::{AllocError, Global};
use std::marker::Model;

// Counts under keys, 0 under those that nothing is under, which take no memory.
#[derive(Drop)]
pub(crate) struct Counts {
    pub(crate) map: IndexMap<MessageEnds, u64>,
}

impl Model for Counts {
    ghost use Rattle.indexmap.specs.IndexMap.{spare};
    ghost use Rattle.sms_centre_messages.specs.references.Counts.{AreSome, CountsOf};

    ghost Value = { CountsOf };

    ghost view = { λ c. record { entries = c.map.entries; room = spare c.map } };

    // So a key whose claims have all ended takes no memory.
    ghost invariant = { λ c. AreSome c.map.entries };
}

impl Counts {
    // Nothing.
    pub(crate) fn new(alloc: Global) -> Counts
        ensures { (key : BetweenOf) → counted key result ≡ 0 }
    {
        Counts {
            map: IndexMap::new(alloc),
        }
    }

    // What is under the key.
    pub(crate) fn of(&self, key: &MessageEnds) -> u64
        ensures { result ≡ counted key.now self.now }
    {
        match self.map.get(key) {
            Some(count) => *count,
            None => 0,
        }
    }

    // So much is to be under the key.
    pub(crate) fn set(&mut self, key: MessageEnds, count: u64) -> Result<(), AllocError>
        ensures set { OnOk result (IsSet key count self.old self.new) }
        ensures room { OnOk result (self.old.room ≤ self.new.room + 1) }
        ensures ready { 0 < self.old.room → IsOk result }
    {
        if count == 0 {
            self.map.swap_remove(&key);
            return Ok(());
        }
        self.map.insert(key, count)?;
        Ok(())
    }

    // One more is under the key.
    pub(crate) fn add(&mut self, key: MessageEnds) -> Result<(), AllocError>
        ensures added { OnOk result (IsAdded key self.old self.new) }
        ensures room { OnOk result (self.old.room ≤ self.new.room + 1) }
        ensures ready { 0 < self.old.room → IsOk result }
    {
        let count = self.of(&key);
        let Some(more) = count.checked_add(1) else {
            return Ok(());
        };
        self.set(key, more)?;
        Ok(())
    }

    // One less is under the key.
    pub(crate) fn take(&mut self, key: MessageEnds)
        ensures taken { IsTaken key self.old self.new }
        ensures room { self.old.room ≤ self.new.room + 1 }
    {
        let count = self.of(&key);
        if count <= 1 {
            self.map.swap_remove(&key);
            return;
        }
        let Ok(_) = self.map.insert(key, count - 1) else {
            return;
        };
    }
}
