//! What waits for a handset.
ghost use Rattle.std.specs.Prelude.{◌≡◌, [], length, IfOk, OnOk};
ghost use Rattle.sms_rows.specs.table.Keys.{pair_key};
ghost use Rattle.sms_rows.specs.table.Table.{Rises, put, row_at, without};
ghost use Rattle.sms_centre_rows.specs.waiting.Keys.{queued_key};
ghost use Rattle.sms_centre_rows.specs.waiting.References.{AreHeld};
ghost use Rattle.sms_centre_rows.specs.waiting.Waiting.{all_at_once, next as next_of, waits_beside as waits_beside_of, withdrawn};
ghost use Rattle.sms_schedule.specs.waiting.Base.{AllBelow};
ghost use Rattle.sms_schedule.specs.waiting.Waiting.{queued_of};

use crate::waiting::held::held_with;
use crate::waiting::ordered_rows::{is_below, joined};
use crate::waiting::queued_parts::{first_due, is_due_beside, queued_but, queued_due_at};
use crate::waiting::shared_parts::SharedParts;
use sms_base::{MessageId, Moment};
use sms_centre_rows::waiting::QueuedPart;
use sms_rows::table::{Key, Row, Table};
use std::alloc::{AllocError, Global};
use std::marker::Model;

// Where so many stand beside the shared ones, the next that comes behind them has all of them shared: few to copy, and seldom are
// all of them copied.
const MOST_NEWER: usize = 16;

/// What waits for a handset, in the order of messages and numbers. Copies share all but what was added last: a new
/// message is behind all others. A copy of all of them would cost an event more than all else that it does. What
/// changes among the shared ones is changed in a copy of all.
#[derive(Drop)]
pub struct WaitingParts {
    alloc: Global,
    base: SharedParts,
    // Behind the base.
    newer: Table<QueuedPart>,
}

impl Model for WaitingParts {
    ghost use Rattle.std.specs.Prelude.{◌++◌};
    ghost use Rattle.sms_rows.specs.table.Table.{Rises};
    ghost use Rattle.sms_centre_rows.specs.waiting.Keys.{queued_key};
    ghost use Rattle.sms_schedule.specs.waiting.Waiting.{WaitingPartsOf};

    ghost Value = { WaitingPartsOf };

    ghost view = { λ w. record { base = w.base; newer = w.newer.rows } };

    ghost invariant = { λ w. Rises queued_key (w.base ++ w.newer.rows) };
}

impl WaitingParts {
    /// Nothing waits.
    pub fn new(alloc: Global) -> WaitingParts
        ensures { result ≡ record { base = []; newer = [] } }
    {
        WaitingParts {
            alloc,
            base: SharedParts::new(),
            newer: Table::new(alloc),
        }
    }

    /// A copy that shares the memory of the shared parts.
    pub fn copy(&self) -> Result<WaitingParts, AllocError>
        ensures { IfOk result (λ waiting. waiting ≡ self.now) }
    {
        let base = self.base.share()?;
        let newer = Vec::from_slice(self.alloc, self.newer.as_slice())?;
        Ok(WaitingParts {
            alloc: self.alloc,
            base,
            newer: Table::from_vec(newer),
        })
    }

    /// All of it, in memory of its own.
    pub fn all_queued(&self) -> Result<Vec<QueuedPart>, AllocError>
        ensures { IfOk result (λ all_queued. all_queued.items ≡ queued_of self.now) }
    {
        let table = self.table()?;
        Ok(table.into_vec())
    }

    /// How much waits.
    pub fn len(&self) -> usize
        ensures { result ≡ length (queued_of self.now) }
    {
        self.base.as_slice().len() + self.newer.as_slice().len()
    }

    fn table(&self) -> Result<Table<QueuedPart>, AllocError>
        ensures { IfOk result (λ table. table.rows ≡ queued_of self.now) }
    {
        let all_queued = joined(self.alloc, self.base.as_slice(), self.newer.as_slice())?;
        Ok(Table::from_vec(all_queued))
    }
}

impl WaitingParts {
    /// The queued part of that key, if it waits.
    #[tactic(auto, using(crate::proofs::waiting::Parted::row_at_parted))]
    pub fn find(&self, key: Key) -> Option<QueuedPart>
        ensures { result ≡ row_at queued_key key (queued_of self.now) }
    {
        match self.base.find(key) {
            Some(queued) => Some(*queued),
            None => self.newer.find(key).copied(),
        }
    }

    /// What waits is in the order of messages and numbers, and each of them waits once. So `next` is what the laws say.
    pub fn is_ordered(&self)
        ensures { Rises queued_key (queued_of self.now) }
    {
        // Its rows are what is kept in both places.
        let _newer = self.newer.as_slice();
    }

    /// Of all that is due, the first to be offered.
    pub fn next(&self, now: Moment) -> Option<QueuedPart>
        ensures { result ≡ next_of now (queued_of self.now) }
    {
        let behind = first_due(self.newer.as_slice(), now, None);
        first_due(self.base.as_slice(), now, behind)
    }

    /// Whether another one is due beside it.
    #[tactic(auto, using(crate::proofs::waiting::Parted::beside_parted))]
    pub fn waits_beside(&self, now: Moment, chosen: &QueuedPart) -> bool
        ensures { result ≡ waits_beside_of now chosen.now (queued_of self.now) }
    {
        is_due_beside(self.base.as_slice(), now, chosen)
            || is_due_beside(self.newer.as_slice(), now, chosen)
    }

    /// For each reference whether something that waits holds it.
    pub fn held_references(&self) -> [bool; 256]
        ensures { AreHeld result (queued_of self.now) }
    {
        held_with(self.base.held(), self.newer.as_slice())
    }
}

impl WaitingParts {
    /// Lets one more wait, or the one of that message and number wait otherwise.
    pub fn put(&mut self, queued: QueuedPart) -> Result<(), AllocError>
        ensures { OnOk result (queued_of self.new ≡ put queued_key queued (queued_of self.old)) }
    {
        self.make_few(queued.key())?;
        self.make_own(queued.key())?;
        self.put_newer(queued)
    }

    /// The queued part of that key waits no more.
    pub fn remove(&mut self, key: Key) -> Result<(), AllocError>
        ensures { OnOk result (queued_of self.new ≡ without queued_key key (queued_of self.old)) }
    {
        self.make_own(key)?;
        self.remove_newer(key);
        Ok(())
    }

    /// No part of that message waits any more.
    pub fn withdraw(&mut self, id: MessageId) -> Result<(), AllocError>
        ensures { OnOk result (queued_of self.new ≡ withdrawn id (queued_of self.old)) }
    {
        self.make_own(Key::pair(id.number(), 0))?;
        self.withdraw_newer(id)
    }

    /// All that waits is due at that moment.
    #[tactic(auto, using(sms_centre_rows::proofs::waiting::Dues::rises_at_once))]
    pub fn due_at(&mut self, now: Moment) -> Result<(), AllocError>
        ensures { OnOk result (queued_of self.new ≡ all_at_once now (queued_of self.old)) }
    {
        let table = self.table()?;
        let all_queued = queued_due_at(self.alloc, table.as_slice(), now)?;
        self.replace(Table::from_vec(all_queued));
        Ok(())
    }
}

impl WaitingParts {
    // These wait, and copies share none of them.
    fn replace(&mut self, all_queued: Table<QueuedPart>)
        ensures { self.new ≡ record { base = []; newer = all_queued.rows } }
    {
        self.base = SharedParts::new();
        self.newer = all_queued;
    }

    // All of it is shared, where many stand beside the base and the next comes behind them.
    fn make_few(&mut self, key: Key) -> Result<(), AllocError>
        ensures { OnOk result (queued_of self.new ≡ queued_of self.old) }
    {
        if self.newer.as_slice().len() < MOST_NEWER {
            return Ok(());
        }
        if !is_below(self.newer.as_slice(), key) {
            return Ok(());
        }
        self.share_all()
    }

    fn share_all(&mut self) -> Result<(), AllocError>
        ensures { OnOk result (queued_of self.new ≡ queued_of self.old) }
    {
        let table = self.table()?;
        let base = SharedParts::of(self.alloc, table)?;
        self.base = base;
        self.newer = Table::new(self.alloc);
        Ok(())
    }

    // The queued part of that key, if it waits, is not shared.
    fn make_own(&mut self, key: Key) -> Result<(), AllocError>
        ensures all_queued { OnOk result (queued_of self.new ≡ queued_of self.old) }
        ensures below { OnOk result (AllBelow queued_key key self.new.base) }
    {
        if self.base.is_below(key) {
            return Ok(());
        }
        let table = self.table()?;
        self.replace(table);
        Ok(())
    }

    fn put_newer(&mut self, queued: QueuedPart) -> Result<(), AllocError>
        requires { AllBelow queued_key (queued_key queued) self.old.base }
        ensures { OnOk result (queued_of self.new ≡ put queued_key queued (queued_of self.old)) }
    {
        self.newer.put(queued)?;
        Ok(())
    }

    #[tactic(auto, using(crate::proofs::waiting::Parted::without_parted, crate::proofs::waiting::Parted::rises_without_parted))]
    fn remove_newer(&mut self, key: Key)
        requires { AllBelow queued_key key self.old.base }
        ensures { queued_of self.new ≡ without queued_key key (queued_of self.old) }
    {
        self.newer.remove(key);
    }

    #[tactic(auto, using(sms_centre_rows::proofs::waiting::Withdrawing::rises_withdrawn))]
    fn withdraw_newer(&mut self, id: MessageId) -> Result<(), AllocError>
        requires { AllBelow queued_key (pair_key id 0) self.old.base }
        ensures { OnOk result (queued_of self.new ≡ withdrawn id (queued_of self.old)) }
    {
        let all_queued = queued_but(self.alloc, self.newer.as_slice(), id)?;
        self.newer = Table::from_vec(all_queued);
        Ok(())
    }
}
