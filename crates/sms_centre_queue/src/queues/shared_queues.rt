//! The queues as they were put in last.
ghost use Rattle.std.specs.Prelude.{◌≡◌, ◌+◌, ◌≤◌, ◌<◌, ℕ, max, length, nat_eq, if◌then◌else◌, IfOk, option_copied};
ghost use Rattle.std.specs.Option.{option_or};
ghost use Rattle.indexmap.specs.IndexMap.{index_map_len, spare as reserve_of};
ghost use Rattle.sms_centre_queue.specs.queues.Plan.{FitsIn, IsInstalled, relisted};
ghost use Rattle.sms_centre_queue.specs.queues.Queues.{is_listed, under};
ghost use Rattle.sms_centre_queue.specs.queues.Stops.{is_active, rests_for};

use crate::queues::concern::Concern;
use crate::queues::placed_queue::PlacedQueue;
use crate::queues::reserve::{MapReserve, make_reserve, use_reserve};
use indexmap::IndexMap;
use sms_base::Moment;
use std::alloc::{AllocError, Global};
use std::marker::Model;

/// The queues as they were put in last, which an event shares while it lasts.
#[derive(Drop)]
pub(crate) struct SharedQueues {
    // Under the keys of the handsets' digits.
    pub(crate) queues: IndexMap<u128, PlacedQueue>,
    // The keys of all queues that an event which isn't their own can concern.
    pub(crate) index: IndexMap<u128, ()>,
    pub(crate) rested: Option<Moment>,
}

impl Model for SharedQueues {
    ghost use Rattle.std.specs.Prelude.{◌+◌};
    ghost use Rattle.indexmap.specs.IndexMap.{index_map_len, spare};
    ghost use Rattle.sms_centre_queue.specs.queues.Queues.{SharedQueuesOf};

    ghost Value = { SharedQueuesOf };

    ghost view = { λ s. record {
      queues = s.queues.entries;
      capacity = index_map_len s.queues + spare s.queues;
      index = s.index.entries;
      index_capacity = index_map_len s.index + spare s.index;
      rested = s.rested;
    } };
}

impl SharedQueues {
    /// The queue under that key, if there is one.
    pub(crate) fn placed(&self, key: u128) -> Option<&PlacedQueue>
        ensures { option_copied result ≡ under key self.now.queues }
    {
        self.queues.get(&key)
    }

    /// Whether the event has to look at no queue that it did not touch.
    pub(crate) fn rests(&self, purpose: &Concern) -> bool
        ensures { result ≡ rests_for purpose.now self.now.rested }
    {
        match purpose {
            Concern::Offer(now) => match self.rested {
                Some(moment) => now.seconds() <= moment.seconds(),
                None => false,
            },
            _ => false,
        }
    }

    /// Memory for that many queues more, where its own is too small.
    pub(crate) fn more_queues(
        &self,
        alloc: Global,
        extra: usize,
    ) -> Result<MapReserve<PlacedQueue>, AllocError>
        ensures { IfOk result (λ spare. length self.now.queues + extra ≤ max self.now.capacity spare) }
    {
        let spare = make_reserve(alloc, &self.queues, extra)?;
        Ok(spare)
    }

    /// Memory for that many keys more.
    pub(crate) fn more_keys(
        &self,
        alloc: Global,
        extra: usize,
    ) -> Result<MapReserve<()>, AllocError>
        ensures { IfOk result (λ spare. length self.now.index + extra ≤ max self.now.index_capacity spare) }
    {
        let spare = make_reserve(alloc, &self.index, extra)?;
        Ok(spare)
    }

    /// Puts the queues in, without taking memory.
    pub(crate) fn install(
        &mut self,
        spare: MapReserve<PlacedQueue>,
        index_reserve: MapReserve<()>,
        touched: IndexMap<u128, PlacedQueue>,
        rested: Option<Moment>,
    )
        requires fits { FitsIn spare index_reserve touched.entries self.old }
        ensures { IsInstalled touched.entries rested self.old self.new }
    {
        reindex(&mut self.index, index_reserve, &touched);
        install(&mut self.queues, spare, touched);
        self.rested = rested;
    }
}

// The queues are put in, with that memory where the map's own is too small.
fn install(
    queues: &mut IndexMap<u128, PlacedQueue>,
    memory: MapReserve<PlacedQueue>,
    touched: IndexMap<u128, PlacedQueue>,
)
    requires room { index_map_len queues.old + index_map_len touched ≤ max (index_map_len queues.old + reserve_of queues.old) memory }
    ensures { (key : ℕ) → under key queues.new.entries ≡ option_or (under key touched.entries) (under key queues.old.entries) }
{
    use_reserve(queues, memory);
    put_all(queues, touched);
}

// The keys of these queues are put into the index or removed, with that memory where the map's own is too small.
fn reindex(
    index: &mut IndexMap<u128, ()>,
    memory: MapReserve<()>,
    touched: &IndexMap<u128, PlacedQueue>,
)
    requires room { index_map_len index.old + index_map_len touched.now ≤ max (index_map_len index.old + reserve_of index.old) memory }
    ensures { (key : ℕ) → is_listed key index.new.entries ≡ relisted (under key touched.now.entries) (is_listed key index.old.entries) }
{
    use_reserve(index, memory);
    relist(index, touched);
}

// The queues take the place of those of their keys, or are put behind the others.
fn put_all(queues: &mut IndexMap<u128, PlacedQueue>, touched: IndexMap<u128, PlacedQueue>)
    requires room { index_map_len touched ≤ reserve_of queues.old }
    ensures { (key : ℕ) → under key queues.new.entries ≡ option_or (under key touched.entries) (under key queues.old.entries) }
{
    let mut touched = touched;
    // The call says that no key is there twice.
    let _len = touched.len();
    match queues.append(&mut touched) {
        Ok(()) => (),
        Err(_) => (),
    }
}

// The keys of queues that an event can concern which isn't their own are in the index, those of others are not.
fn relist(index: &mut IndexMap<u128, ()>, touched: &IndexMap<u128, PlacedQueue>)
    requires room { index_map_len touched.now ≤ reserve_of index.old }
    ensures { (key : ℕ) → is_listed key index.new.entries ≡ relisted (under key touched.now.entries) (is_listed key index.old.entries) }
{
    // The call says that no key is there twice.
    let _len = touched.len();
    for (key, placed) in touched.iter() {
        list_one(index, *key, placed);
    }
}

#[tactic(auto, using(crate::proofs::queues::Listing::listed_as))]
fn list_one(index: &mut IndexMap<u128, ()>, key: u128, placed: &PlacedQueue)
    requires room { 0 < reserve_of index.old }
    ensures listed { (k : ℕ) → is_listed k index.new.entries ≡ (if nat_eq k key then is_active placed.now.queue.link else is_listed k index.old.entries) }
    ensures room { reserve_of index.old ≤ reserve_of index.new + 1 }
{
    if placed.is_active() {
        match index.insert(key, ()) {
            Ok(_) => (),
            Err(_) => (),
        }
    } else {
        index.swap_remove(&key);
    }
}
