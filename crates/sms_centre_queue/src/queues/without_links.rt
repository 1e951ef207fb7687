//! Queues without links.
ghost use Rattle.std.specs.Prelude.{◌≡◌, ℕ, List, [], Some, nat_eq, if◌then◌else◌, IfOk, OnOk, option_map};
ghost use Rattle.std.specs.Option.{option_or};
ghost use Rattle.sms_centre_rows.specs.waiting.Links.{Links};
ghost use Rattle.sms_centre_rows.specs.waiting.References.{Allocations};
ghost use Rattle.sms_centre_rows.specs.declared.waiting.queued_part.QueuedPart.{QueuedPart as QueuedOf};
ghost use Rattle.sms_centre_queue.specs.queues.Queues.{at, under};
ghost use Rattle.sms_centre_queue.specs.queues.Representing.{DraftRepresents};
ghost use Rattle.sms_centre_queue.specs.queues.Unlinked.{unlinked as unlinked_of};

use crate::queues::draft::DeliveryQueuesDraft;
use crate::queues::keyed::put_under;
use crate::queues::placed_queue::PlacedQueue;
use indexmap::IndexMap;
use sms_base::lending::put;
use std::alloc::{AllocError, Global};

impl DeliveryQueuesDraft {
    /// No handset has a link any more, as after a restart: whatever was up, awaited, full or under way is forgotten. What waits, and the
    /// references that were given, stay. Every queue is copied.
    pub fn forget_links(&mut self) -> Result<(), AllocError>
        ensures { OnOk result ((g : Allocations) (links : Links) (waiting : List ℕ → List QueuedOf) → DraftRepresents g links waiting self.old
            → DraftRepresents g (record links { all = [] }) waiting self.new) }
    {
        let queues = self.unlinked(self.alloc)?;
        put(&mut self.touched, queues);
        self.link_count = 0;
        Ok(())
    }

    // All queues without their links.
    fn unlinked(&self, alloc: Global) -> Result<IndexMap<u128, PlacedQueue>, AllocError>
        ensures { IfOk result (λ queues. (key : ℕ) → under key queues.entries ≡ option_map unlinked_of (at key self.now)) }
    {
        let mut queues = IndexMap::new(alloc);
        match self.put_all_unlinked(&mut queues) {
            Ok(()) => Ok(queues),
            Err(error) => {
                drop(queues);
                Err(error)
            }
        }
    }

    fn put_all_unlinked(&self, out: &mut IndexMap<u128, PlacedQueue>) -> Result<(), AllocError>
        ensures { OnOk result ((key : ℕ) → under key out.new.entries ≡ option_or (option_map unlinked_of (under key self.now.touched))
            (option_or (option_map unlinked_of (under key self.now.base.queues)) (under key out.old.entries))) }
    {
        put_unlinked(&self.ground.queues, out)?;
        put_unlinked(&self.touched, out)
    }
}

// These queues are put there without their links, in memory of their own.
fn put_unlinked(
    queues: &IndexMap<u128, PlacedQueue>,
    out: &mut IndexMap<u128, PlacedQueue>,
) -> Result<(), AllocError>
    ensures { OnOk result ((key : ℕ) → under key out.new.entries ≡ option_or (option_map unlinked_of (under key queues.now.entries))
        (under key out.old.entries)) }
{
    // The call says that no key is there twice.
    let _len = queues.len();
    for (key, placed) in queues.iter() {
        put_one(*key, placed, out)?;
    }
    Ok(())
}

#[tactic(auto, using(crate::proofs::queues::Listing::placed_as))]
fn put_one(
    key: u128,
    placed: &PlacedQueue,
    out: &mut IndexMap<u128, PlacedQueue>,
) -> Result<(), AllocError>
    ensures { OnOk result ((k : ℕ) → under k out.new.entries ≡ (if nat_eq k key then Some (unlinked_of placed.now) else under k out.old.entries)) }
{
    let placed = placed.unlinked()?;
    put_under(out, key, placed)
}
