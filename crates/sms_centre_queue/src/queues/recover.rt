//! The queues, rebuilt from rows.
ghost use Rattle.std.specs.Prelude.{◌≡◌, ℕ, [], None, Some, nat_eq, if◌then◌else◌, IfOk, OnOk};
ghost use Rattle.sms_rows.specs.table.Keys.{digits_key};
ghost use Rattle.sms_centre_rows.specs.waiting.References.{place_after};
ghost use Rattle.sms_centre_rows.specs.waiting.SoundAllocations.{SoundAllocations};
ghost use Rattle.sms_centre_queue.specs.queues.Queues.{under};
ghost use Rattle.sms_centre_queue.specs.queues.Recovering.{AreBare, given_at, restored, restored_all};
ghost use Rattle.sms_centre_queue.specs.queues.Representing.{Represents};

use crate::queue::DeliveryQueue;
use crate::queues::delivery_queues::DeliveryQueues;
use crate::queues::keyed::put_under;
use crate::queues::placed_queue::PlacedQueue;
use crate::queues::shared_queues::SharedQueues;
use indexmap::IndexMap;
use sms_centre_rows::waiting::{HandsetRow, ReferenceRow};
use sms_rows::table::{Key, Table};
use std::alloc::{AllocError, Global};
use std::sync::Arc;

impl DeliveryQueues {
    /// The queues of the handsets of the rows, with the references that were given there. Nothing waits for them yet,
    /// and they have no links: `DeliveryQueuesDraft` adds these, as in an event.
    pub fn recover(
        alloc: Global,
        handsets: &[HandsetRow],
        references: &Table<ReferenceRow>,
    ) -> Result<DeliveryQueues, AllocError>
        requires sound { SoundAllocations handsets.now references.now.rows }
        ensures { IfOk result (λ queues. Represents handsets.now references.now.rows [] (λ number. []) queues) }
    {
        let next_place = place_behind(handsets);
        let queues = queues_of(alloc, handsets, references)?;
        let stood = DeliveryQueues::bare(alloc, queues, next_place)?;
        Ok(stood)
    }

    // These queues, which no event concerns that isn't their own.
    fn bare(
        alloc: Global,
        queues: IndexMap<u128, PlacedQueue>,
        next_place: u64,
    ) -> Result<DeliveryQueues, AllocError>
        ensures { IfOk result (AreBare queues.entries next_place) }
    {
        let ground = Arc::new(
            alloc,
            SharedQueues {
                queues,
                index: IndexMap::new(alloc),
                rested: None,
            },
        )?;
        Ok(DeliveryQueues {
            alloc,
            ground,
            touched: IndexMap::new(alloc),
            next_place,
            link_count: 0,
        })
    }
}

// The place behind the last one.
fn place_behind(handsets: &[HandsetRow]) -> u64
    ensures { result ≡ place_after 1 handsets.now }
{
    let mut place: u64 = 1;
    for handset in handsets {
        place = u64::from(handset.place) + 1;
    }
    place
}

fn queues_of(
    alloc: Global,
    handsets: &[HandsetRow],
    references: &Table<ReferenceRow>,
) -> Result<IndexMap<u128, PlacedQueue>, AllocError>
    ensures { IfOk result (λ queues. (key : ℕ) → under key queues.entries ≡ restored_all key handsets.now references.now.rows None) }
{
    let mut queues = IndexMap::with_capacity(alloc, handsets.len())?;
    for handset in handsets {
        restore(alloc, &mut queues, handset, references)?;
    }
    Ok(queues)
}

fn restore(
    alloc: Global,
    queues: &mut IndexMap<u128, PlacedQueue>,
    handset: &HandsetRow,
    references: &Table<ReferenceRow>,
) -> Result<(), AllocError>
    ensures { OnOk result ((key : ℕ) → under key queues.new.entries
        ≡ (if nat_eq key (digits_key handset.now.number) then Some (restored handset.now references.now.rows) else under key queues.old.entries)) }
{
    let placed = restored_there(alloc, handset, references)?;
    insert(queues, Key::handset(&handset.number).number(), placed)
}

#[tactic(auto, using(crate::proofs::queues::Listing::placed_as))]
fn insert(
    queues: &mut IndexMap<u128, PlacedQueue>,
    key: u128,
    placed: PlacedQueue,
) -> Result<(), AllocError>
    ensures { OnOk result ((k : ℕ) → under k queues.new.entries ≡ (if nat_eq k key then Some placed else under k queues.old.entries)) }
{
    put_under(queues, key, placed)
}

// The queue of the handset, with the references that were given there.
fn restored_there(
    alloc: Global,
    handset: &HandsetRow,
    references: &Table<ReferenceRow>,
) -> Result<PlacedQueue, AllocError>
    ensures { IfOk result (λ placed. placed ≡ restored handset.now references.now.rows) }
{
    let given = given_there(alloc, handset, references)?;
    let queue = DeliveryQueue::of_row(alloc, *handset, given)?;
    Ok(PlacedQueue {
        queue,
        link_place: 0,
    })
}

// The references that were given at the handset.
fn given_there(
    alloc: Global,
    handset: &HandsetRow,
    references: &Table<ReferenceRow>,
) -> Result<Table<ReferenceRow>, AllocError>
    ensures { IfOk result (λ given. given.rows ≡ given_at handset.now references.now.rows) }
{
    // The call says that the rows are in order.
    let _all = references.as_slice();
    let place = u64::from(handset.place);
    let rows = references.rows_between(Key::pair(place, 0), Key::pair(place + 1, 0));
    let rows = Vec::from_slice(alloc, rows)?;
    Ok(Table::from_vec(rows))
}
