//! What waits and is shared by copies.
ghost use Rattle.std.specs.Prelude.{◌≡◌, ◌↔◌, ◌<◌, ℕ, [], true, IfOk, option_copied};
ghost use Rattle.sms_rows.specs.table.Table.{Rises, row_at};
ghost use Rattle.sms_centre_rows.specs.waiting.Keys.{queued_key};
ghost use Rattle.sms_centre_rows.specs.waiting.References.{AreHeld};
ghost use Rattle.sms_schedule.specs.waiting.Base.{AllBelow};

use crate::waiting::held::{held_with, none_held};
use crate::waiting::ordered_rows::is_below;
use sms_centre_rows::waiting::QueuedPart;
use sms_rows::table::{Key, Row, Table};
use std::alloc::{AllocError, Global};
use std::marker::Model;
use std::sync::Arc;

// What waits, and for each reference whether something of it holds it: so that an event which gives a reference has not to go through
// all that waits, which lies in memory that no other event has touched for long.
#[derive(Drop)]
struct Flagged {
    table: Table<QueuedPart>,
    held: [bool; 256],
}

impl Model for Flagged {
    ghost use Rattle.std.specs.Prelude.{List};
    ghost use Rattle.sms_centre_rows.specs.waiting.References.{AreHeld};
    ghost use Rattle.sms_centre_rows.specs.declared.waiting.queued_part.QueuedPart.{QueuedPart as QueuedOf};

    ghost Value = { List QueuedOf };

    ghost view = { λ f. f.table.rows };

    ghost invariant = { λ f. AreHeld f.held f.table.rows };
}

impl Flagged {
    fn of(table: Table<QueuedPart>) -> Flagged
        ensures { result ≡ table.rows }
    {
        let held = held_with(none_held(), table.as_slice());
        Flagged { table, held }
    }

    fn as_slice(&self) -> &[QueuedPart]
        ensures rows { result.now ≡ self.now }
        ensures order { Rises queued_key self.now }
    {
        self.table.as_slice()
    }

    fn find(&self, key: Key) -> Option<&QueuedPart>
        ensures { option_copied result ≡ row_at queued_key key self.now }
    {
        self.table.find(key)
    }

    fn held(&self) -> [bool; 256]
        ensures { AreHeld result self.now }
    {
        self.held
    }
}

/// Queued parts in the order of messages and numbers, which nobody changes and which copies share.
#[derive(Drop)]
pub(crate) struct SharedParts {
    // None while there are none.
    flagged: Option<Arc<Flagged>>,
    // No key is greater.
    end: u128,
}

impl Model for SharedParts {
    ghost use Rattle.std.specs.Prelude.{List, [], ℕ, ◌<◌};
    ghost use Rattle.sms_centre_rows.specs.waiting.Keys.{queued_key};
    ghost use Rattle.sms_schedule.specs.waiting.Base.{AllBelow};
    ghost use Rattle.std.specs.Option.{option_map_or};
    ghost use Rattle.sms_centre_rows.specs.declared.waiting.queued_part.QueuedPart.{QueuedPart as QueuedOf};

    ghost Value = { List QueuedOf };

    ghost view = { λ s. option_map_or (λ f. f.value) s.flagged [] };

    ghost invariant = { λ s. (n : ℕ) → s.end < n → AllBelow queued_key n (option_map_or (λ f. f.value) s.flagged []) };
}

impl SharedParts {
    /// None.
    pub(crate) fn new() -> SharedParts
        ensures { result ≡ [] }
    {
        SharedParts {
            flagged: None,
            end: 0,
        }
    }

    /// The queued parts of the table.
    pub(crate) fn of(alloc: Global, table: Table<QueuedPart>) -> Result<SharedParts, AllocError>
        ensures { IfOk result (λ shared. shared ≡ table.rows) }
    {
        let end = last_key(table.as_slice());
        let flagged = Arc::new(alloc, Flagged::of(table))?;
        Ok(SharedParts {
            flagged: Some(flagged),
            end,
        })
    }

    /// A copy that shares the memory of what waits.
    pub(crate) fn share(&self) -> Result<SharedParts, AllocError>
        ensures { IfOk result (λ shared. shared ≡ self.now) }
    {
        match &self.flagged {
            Some(flagged) => {
                let flagged = Arc::try_clone(flagged)?;
                Ok(SharedParts {
                    flagged: Some(flagged),
                    end: self.end,
                })
            }
            None => Ok(SharedParts::new()),
        }
    }

    /// The queued parts in order.
    pub(crate) fn as_slice(&self) -> &[QueuedPart]
        ensures rows { result.now ≡ self.now }
        ensures order { Rises queued_key self.now }
    {
        match &self.flagged {
            Some(flagged) => flagged.as_slice(),
            None => &[],
        }
    }

    /// The queued part of that key, if it is one of them.
    pub(crate) fn find(&self, key: Key) -> Option<&QueuedPart>
        ensures { option_copied result ≡ row_at queued_key key self.now }
    {
        match &self.flagged {
            Some(flagged) => flagged.find(key),
            None => None,
        }
    }

    /// Whether all have lower keys.
    pub(crate) fn is_below(&self, key: Key) -> bool
        ensures { (result ≡ true) ↔ AllBelow queued_key key self.now }
    {
        if self.end < key.number() {
            return true;
        }
        is_below(self.as_slice(), key)
    }

    /// For each reference whether one of them holds it.
    pub(crate) fn held(&self) -> [bool; 256]
        ensures { AreHeld result self.now }
    {
        match &self.flagged {
            Some(flagged) => flagged.held(),
            None => none_held(),
        }
    }
}

// The key of the last of these, which stand in order, or 0.
fn last_key(all_queued: &[QueuedPart]) -> u128
    requires { Rises queued_key all_queued.now }
    ensures { (n : ℕ) → result < n → AllBelow queued_key n all_queued.now }
{
    match all_queued.last() {
        Some(queued) => queued.key().number(),
        None => 0,
    }
}
