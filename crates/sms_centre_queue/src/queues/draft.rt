//! The queues of all handsets, within an event.
ghost use Rattle.std.specs.Prelude.{◌≡◌, ◌++◌, ℕ, List, [], Some, nat_eq, if◌then◌else◌, IfOk, OnOk, option_copied};
ghost use Rattle.sms_base.specs.Msisdn.{IsMsisdn};
ghost use Rattle.sms_rows.specs.table.Keys.{digits_key};
ghost use Rattle.sms_centre_rows.specs.waiting.Links.{to_handset};
ghost use Rattle.sms_centre_rows.specs.declared.waiting.handset.HandsetRow.{HandsetRow as HandsetRowOf};
ghost use Rattle.sms_centre_rows.specs.declared.waiting.handset_link.HandsetLink.{HandsetLink};
ghost use Rattle.sms_centre_rows.specs.declared.waiting.queued_part.QueuedPart.{QueuedPart};
ghost use Rattle.sms_centre_rows.specs.declared.waiting.reference.ReferenceRow.{ReferenceRow as ReferenceRowOf};
ghost use Rattle.sms_centre_queue.specs.queues.Queues.{Becomes, Continues, IsTaken, at, link_place_now, counted, link_count_now, under};
ghost use Rattle.sms_centre_queue.specs.queues.Representing.{Begins, Represents};
ghost use Rattle.sms_centre_queue.specs.queues.Stops.{all_noted, noted, scanned, stop_if};

use crate::queues::concern::{Concern, ConcernedHandset};
use crate::queues::delivery_queues::DeliveryQueues;
use crate::queues::keyed::put_under;
use crate::queues::placed_queue::PlacedQueue;
use crate::queues::shared_queues::SharedQueues;
use indexmap::IndexMap;
use sms_base::{Listed, Msisdn};
use sms_centre_rows::waiting::{HandsetRow, ReferenceRow, Sent};
use sms_link::Outgoing;
use sms_rows::table::{Change, Key, Table};
use std::alloc::{AllocError, Global};
use std::marker::Model;
use std::sync::Arc;

/// The queues of all handsets, in the middle of an event: those that it touched are copies.
#[derive(Drop)]
pub struct DeliveryQueuesDraft {
    pub(crate) alloc: Global,
    pub(crate) ground: Arc<SharedQueues>,
    pub(crate) touched: IndexMap<u128, PlacedQueue>,
    pub(crate) handsets: Listed<Change<HandsetRow>>,
    pub(crate) references: Listed<Change<ReferenceRow>>,
    pub(crate) frames: Listed<Sent>,
    pub(crate) next_place: u64,
    pub(crate) link_count: u64,
}

impl Model for DeliveryQueuesDraft {
    ghost use Rattle.sms_centre_queue.specs.queues.Queues.{DeliveryQueuesDraftOf};

    ghost Value = { DeliveryQueuesDraftOf };

    ghost view = { λ p. record {
      base = p.ground.value;
      touched = p.touched.entries;
      handsets = p.handsets;
      references = p.references;
      frames = p.frames;
      next_place = p.next_place;
      link_count = p.link_count;
    } };
}

impl DeliveryQueuesDraft {
    /// The queues as an event begins.
    pub fn of(alloc: Global, base: &DeliveryQueues) -> Result<DeliveryQueuesDraft, AllocError>
        ensures { (handsets : List HandsetRowOf) (references : List ReferenceRowOf) (links : List HandsetLink) (waiting : List ℕ → List QueuedPart)
            → Represents handsets references links waiting base.now
            → IfOk result (Begins handsets references links waiting) }
    {
        let pending = DeliveryQueuesDraft::share(alloc, base)?;
        Ok(pending)
    }

    fn share(alloc: Global, base: &DeliveryQueues) -> Result<DeliveryQueuesDraft, AllocError>
        ensures { IfOk result (Continues base.now) }
    {
        let touched = copies(alloc, &base.touched)?;
        match Arc::try_clone(&base.ground) {
            Ok(ground) => Ok(DeliveryQueuesDraft {
                alloc,
                ground,
                touched,
                handsets: Listed::new(alloc),
                references: Listed::new(alloc),
                frames: Listed::new(alloc),
                next_place: base.next_place,
                link_count: base.link_count,
            }),
            Err(error) => {
                drop(touched);
                Err(error)
            }
        }
    }

    /// The queue under that key as it is, if there is one.
    pub(crate) fn placed(&self, key: u128) -> Option<&PlacedQueue>
        ensures { option_copied result ≡ at key self.now }
    {
        match self.touched.get(&key) {
            Some(placed) => Some(placed),
            None => self.ground.placed(key),
        }
    }

    /// Takes the queue of the handset out, to be put back.
    pub(crate) fn take_out(&mut self, number: Msisdn) -> Result<PlacedQueue, AllocError>
        ensures taken { IfOk result (λ placed. IsTaken number placed self.old self.new) }
        ensures number { IsMsisdn number }
    {
        let key = Key::handset(&number).number();
        if let Some(placed) = self.touched.swap_remove(&key) {
            return Ok(placed);
        }
        match self.ground.placed(key) {
            Some(placed) => placed.copy(),
            None => Ok(PlacedQueue::new(self.alloc, number)),
        }
    }

    /// Puts the queue of the handset back.
    pub(crate) fn put_back(&mut self, number: Msisdn, placed: PlacedQueue) -> Result<(), AllocError>
        ensures { OnOk result (Becomes (digits_key number) placed self.old self.new) }
    {
        put_under(&mut self.touched, Key::handset(&number).number(), placed)
    }

    /// Gives a link that has no place yet one behind all others.
    pub(crate) fn add_link(&mut self, placed: &mut PlacedQueue) -> Result<(), AllocError>
        ensures placed { OnOk result (placed.new ≡ record placed.old { link_place = link_place_now placed.old.link_place self.old.link_count }) }
        ensures link_count { OnOk result (self.new ≡ record self.old { link_count = link_count_now placed.old.link_place self.old.link_count }) }
    {
        if placed.link_place != 0 {
            return Ok(());
        }
        let Some(link_count) = self.link_count.checked_add(1) else {
            return Err(AllocError);
        };
        self.link_count = link_count;
        placed.link_place = link_count;
        Ok(())
    }

    /// Puts the queue of the handset back, whose link is new or has changed, and sends frames on it.
    pub(crate) fn put_link(
        &mut self,
        number: Msisdn,
        placed: PlacedQueue,
        frames: Listed<Outgoing>,
    ) -> Result<(), AllocError>
        ensures { OnOk result (Becomes (digits_key number) (record placed { link_place = link_place_now placed.link_place self.old.link_count })
            (counted (link_count_now placed.link_place self.old.link_count) (self.old.frames ++ to_handset number frames) self.old) self.new) }
    {
        let mut placed = placed;
        let noted = self.note_link(number, &mut placed, frames);
        self.put_back(number, placed)?;
        noted
    }

    // Its link has a place, and the frames are sent on it.
    fn note_link(
        &mut self,
        number: Msisdn,
        placed: &mut PlacedQueue,
        frames: Listed<Outgoing>,
    ) -> Result<(), AllocError>
        ensures placed { OnOk result (placed.new ≡ record placed.old { link_place = link_place_now placed.old.link_place self.old.link_count }) }
        ensures sent { OnOk result (self.new ≡ counted (link_count_now placed.old.link_place self.old.link_count)
            (self.old.frames ++ to_handset number frames) self.old) }
    {
        push_sent(&mut self.frames, number, frames)?;
        self.add_link(placed)
    }

    // The stop at the queue under that key is one of them, if it is a stop.
    fn note(
        &self,
        purpose: &Concern,
        key: u128,
        found: &mut Table<ConcernedHandset>,
    ) -> Result<(), AllocError>
        ensures { OnOk result (found.new.rows ≡ noted (stop_if purpose.now (at key self.now)) found.old.rows) }
    {
        if let Some(placed) = self.placed(key) {
            if let Some(stop) = placed.stop(purpose) {
                found.put(stop)?;
            }
        }
        Ok(())
    }

    fn note_touched(
        &self,
        purpose: &Concern,
        found: &mut Table<ConcernedHandset>,
    ) -> Result<(), AllocError>
        ensures { OnOk result (found.new.rows ≡ all_noted purpose.now self.now self.now.touched found.old.rows) }
    {
        for (key, _) in self.touched.iter() {
            self.note(purpose, *key, found)?;
        }
        Ok(())
    }

    fn note_index(
        &self,
        purpose: &Concern,
        found: &mut Table<ConcernedHandset>,
    ) -> Result<(), AllocError>
        ensures { OnOk result (found.new.rows ≡ all_noted purpose.now self.now self.now.base.index found.old.rows) }
    {
        let ground: &SharedQueues = &self.ground;
        for (key, _) in ground.index.iter() {
            self.note(purpose, *key, found)?;
        }
        Ok(())
    }

    /// The stops among the queues that the event touched and those of the index.
    pub(crate) fn scan(&self, purpose: &Concern) -> Result<Vec<ConcernedHandset>, AllocError>
        ensures { IfOk result (λ stops. stops.items ≡ scanned purpose.now self.now) }
    {
        let mut found = Table::new(self.alloc);
        self.note_touched(purpose, &mut found)?;
        if !self.ground.rests(purpose) {
            self.note_index(purpose, &mut found)?;
        }
        Ok(found.into_vec())
    }
}

// Frames to a handset.
fn push_sent(
    out: &mut Listed<Sent>,
    number: Msisdn,
    frames: Listed<Outgoing>,
) -> Result<(), AllocError>
    ensures { OnOk result (out.new ≡ out.old ++ to_handset number frames) }
{
    for frame in frames.into_vec() {
        out.push(Sent {
            handset: number,
            frame,
        })?;
    }
    Ok(())
}

// The same queues, in memory of their own.
fn copies(
    alloc: Global,
    queues: &IndexMap<u128, PlacedQueue>,
) -> Result<IndexMap<u128, PlacedQueue>, AllocError>
    ensures { IfOk result (λ copy. (key : ℕ) → under key copy.entries ≡ under key queues.now.entries) }
{
    let mut copy = IndexMap::new(alloc);
    // The call says that no key is there twice.
    let _len = queues.len();
    for (key, placed) in queues.iter() {
        copy_one(&mut copy, *key, placed)?;
    }
    Ok(copy)
}

#[tactic(auto, using(crate::proofs::queues::Listing::placed_as))]
fn copy_one(
    copy: &mut IndexMap<u128, PlacedQueue>,
    key: u128,
    placed: &PlacedQueue,
) -> Result<(), AllocError>
    ensures { OnOk result ((k : ℕ) → under k copy.new.entries ≡ (if nat_eq k key then Some placed.now else under k copy.old.entries)) }
{
    let placed = placed.copy()?;
    put_under(copy, key, placed)
}
