//! What an event asks of queues.
ghost use Rattle.std.specs.Prelude.{◌≡◌, ◌+◌, ℕ, nat_le, List, [], length, IfErr, IfOk};
ghost use Rattle.sms_base.specs.Msisdn.{IsMsisdn};
ghost use Rattle.sms_rows.specs.table.Keys.{pair_key};
ghost use Rattle.sms_rows.specs.table.Table.{row_at};
ghost use Rattle.sms_centre_rows.specs.waiting.Keys.{queued_key};
ghost use Rattle.sms_centre_rows.specs.waiting.Links.{Links, is_ready as is_ready_of, link_of};
ghost use Rattle.sms_centre_rows.specs.waiting.References.{Allocations, handset_at, handset_of, handsets_of, next_reference as next_reference_of, place_after};
ghost use Rattle.sms_centre_rows.specs.waiting.References.{references_of};
ghost use Rattle.sms_centre_queue.specs.queue.FreeReferences.{free_references};
ghost use Rattle.sms_centre_rows.specs.waiting.Waiting.{next as next_of, waits_beside as waits_beside_of};
ghost use Rattle.sms_centre_rows.specs.declared.waiting.queued_part.QueuedPart.{QueuedPart as QueuedOf};
ghost use Rattle.sms_centre_queue.specs.queues.Queues.{HasNoPlace, free_at, placed_of, reference_of};
ghost use Rattle.sms_centre_queue.specs.queues.Representing.{DraftRepresents};
ghost use Rattle.sms_centre_queue.specs.queues.Stops.{found};

use crate::queues::concern::{Concern, ConcernedHandset};
use crate::queues::draft::DeliveryQueuesDraft;
use crate::queues::placed_queue::PlacedQueue;
use sms_base::{Carried, MessageId, Moment, Msisdn};
use sms_centre_rows::waiting::QueuedPart;
use sms_rows::table::Key;
use std::alloc::AllocError;

impl DeliveryQueuesDraft {
    /// What waits for the handset, in the order of messages and numbers, in memory of its own.
    pub fn waiting(&self, number: &Msisdn) -> Result<Vec<QueuedPart>, AllocError>
        ensures { (g : Allocations) (links : Links) (waiting : List ℕ → List QueuedOf) → DraftRepresents g links waiting self.now
            → IfOk result (λ all_queued. all_queued.items ≡ waiting number.now) }
    {
        match self.placed(Key::handset(number).number()) {
            Some(placed) => placed.queue.waiting(),
            None => Ok(Vec::new(self.alloc)),
        }
    }

    /// How many wait for the handset.
    pub fn waiting_count(&self, number: &Msisdn) -> usize
        ensures { (g : Allocations) (links : Links) (waiting : List ℕ → List QueuedOf) → DraftRepresents g links waiting self.now
            → result ≡ length (waiting number.now) }
    {
        match self.placed(Key::handset(number).number()) {
            Some(placed) => placed.queue.figures().waiting,
            None => 0,
        }
    }

    /// The queued part of that message and number, if it waits for the handset.
    pub fn queued(&self, number: &Msisdn, id: MessageId, part: u8) -> Option<QueuedPart>
        ensures { (g : Allocations) (links : Links) (waiting : List ℕ → List QueuedOf) → DraftRepresents g links waiting self.now
            → result ≡ row_at queued_key (pair_key id part) (waiting number.now) }
    {
        match self.placed(Key::handset(number).number()) {
            Some(placed) => placed.queue.queued(id, part),
            None => None,
        }
    }

    /// Of all that is due for the handset, the first to be offered.
    pub fn next(&self, number: &Msisdn, now: Moment) -> Option<QueuedPart>
        ensures { (g : Allocations) (links : Links) (waiting : List ℕ → List QueuedOf) → DraftRepresents g links waiting self.now
            → result ≡ next_of now (waiting number.now) }
    {
        match self.placed(Key::handset(number).number()) {
            Some(placed) => placed.queue.next(now),
            None => None,
        }
    }

    /// Whether another one is due beside it.
    pub fn waits_beside(&self, number: &Msisdn, now: Moment, chosen: &QueuedPart) -> bool
        ensures { (g : Allocations) (links : Links) (waiting : List ℕ → List QueuedOf) → DraftRepresents g links waiting self.now
            → result ≡ waits_beside_of now chosen.now (waiting number.now) }
    {
        match self.placed(Key::handset(number).number()) {
            Some(placed) => placed.queue.waits_beside(now, chosen),
            None => false,
        }
    }

    /// Whether something may be offered to the handset.
    pub fn is_ready(&self, number: &Msisdn) -> bool
        ensures { (g : Allocations) (links : Links) (waiting : List ℕ → List QueuedOf) → DraftRepresents g links waiting self.now
            → result ≡ is_ready_of (link_of number.now links.all) }
    {
        match self.placed(Key::handset(number).number()) {
            Some(placed) => placed.queue.link().is_ready(),
            None => false,
        }
    }

    /// What the transaction to the handset carries that is under way.
    pub fn under_way(&self, number: &Msisdn) -> Option<Carried>
        ensures { (g : Allocations) (links : Links) (waiting : List ℕ → List QueuedOf) → DraftRepresents g links waiting self.now
            → result ≡ (link_of number.now links.all).near_end.under_way }
    {
        match self.placed(Key::handset(number).number()) {
            Some(placed) => placed.queue.link().near_end.under_way(),
            None => None,
        }
    }

    /// The next reference that may be given to the handset. The last place of a handset is 4,294,967,295: a later
    /// handset gets none.
    pub fn next_reference(&self, number: Msisdn, now: Moment) -> Result<Option<u8>, AllocError>
        ensures reference { IfOk result (λ reference. (g : Allocations) (links : Links) (waiting : List ℕ → List QueuedOf)
            → DraftRepresents g links waiting self.now
            → reference ≡ next_reference_of (handset_of number (handsets_of g)) (waiting number) (references_of g) now) }
        // It takes no memory: an error says that the handset is new, and that all places are used up.
        ensures err { IfErr result (λ error. (g : Allocations) (links : Links) (waiting : List ℕ → List QueuedOf) → DraftRepresents g links waiting self.now
            → HasNoPlace (place_after 1 (handsets_of g)) (handset_at number (handsets_of g))) }
    {
        let reference = self.queue_reference(number, now)?;
        Ok(reference)
    }

    fn queue_reference(&self, number: Msisdn, now: Moment) -> Result<Option<u8>, AllocError>
        ensures reference { IfOk result (λ reference. reference ≡ reference_of (placed_of number self.now) self.now.next_place now) }
        ensures err { IfErr result (λ error. HasNoPlace self.now.next_place (placed_of number self.now).queue.row) }
        ensures number { IsMsisdn number }
    {
        match self.placed(Key::handset(&number).number()) {
            Some(placed) => self.reference_at(placed, now),
            None => {
                let placed = PlacedQueue::new(self.alloc, number);
                let reference = self.reference_at(&placed, now);
                drop(placed);
                reference
            }
        }
    }

    fn reference_at(&self, placed: &PlacedQueue, now: Moment) -> Result<Option<u8>, AllocError>
        ensures reference { IfOk result (λ reference. reference ≡ reference_of placed.now self.now.next_place now) }
        ensures err { IfErr result (λ error. HasNoPlace self.now.next_place placed.now.queue.row) }
    {
        match self.row_for(placed) {
            Some(row) => Ok(placed.queue.next_reference(&row, now)),
            None => Err(AllocError),
        }
    }

    /// Whether so many references may be given to the handset. The last place of a handset is 4,294,967,295: a later handset gets none.
    pub fn has_free(&self, number: Msisdn, now: Moment, wanted: usize) -> Result<bool, AllocError>
        ensures is { IfOk result (λ is. (g : Allocations) (links : Links) (waiting : List ℕ → List QueuedOf) → DraftRepresents g links waiting self.now
            → is ≡ nat_le wanted (free_references (handset_of number (handsets_of g)) (waiting number) (references_of g) now)) }
        // It takes no memory: an error says that the handset is new, and that all places are used up.
        ensures err { IfErr result (λ error. (g : Allocations) (links : Links) (waiting : List ℕ → List QueuedOf) → DraftRepresents g links waiting self.now
            → HasNoPlace (place_after 1 (handsets_of g)) (handset_at number (handsets_of g))) }
    {
        let is_free = self.queue_has_free(number, now, wanted)?;
        Ok(is_free)
    }

    fn queue_has_free(&self, number: Msisdn, now: Moment, wanted: usize) -> Result<bool, AllocError>
        ensures is { IfOk result (λ is. is ≡ nat_le wanted (free_at (placed_of number self.now) self.now.next_place now)) }
        ensures err { IfErr result (λ error. HasNoPlace self.now.next_place (placed_of number self.now).queue.row) }
        ensures number { IsMsisdn number }
    {
        match self.placed(Key::handset(&number).number()) {
            Some(placed) => self.has_free_at(placed, now, wanted),
            None => {
                let placed = PlacedQueue::new(self.alloc, number);
                let is_free = self.has_free_at(&placed, now, wanted);
                drop(placed);
                is_free
            }
        }
    }

    fn has_free_at(
        &self,
        placed: &PlacedQueue,
        now: Moment,
        wanted: usize,
    ) -> Result<bool, AllocError>
        ensures is { IfOk result (λ is. is ≡ nat_le wanted (free_at placed.now self.now.next_place now)) }
        ensures err { IfErr result (λ error. HasNoPlace self.now.next_place placed.now.queue.row) }
    {
        match self.row_for(placed) {
            Some(row) => Ok(placed.queue.has_free(&row, now, wanted)),
            None => Err(AllocError),
        }
    }

    /// The handsets that such an event concerns, in the order in which it walks over them. It looks at the queues that
    /// were touched. It also looks at those of the index where something may have become due since it looked at them
    /// last.
    pub fn stops(&self, purpose: &Concern) -> Result<Vec<ConcernedHandset>, AllocError>
        ensures { IfOk result (λ stops. (g : Allocations) (links : Links) (waiting : List ℕ → List QueuedOf) → DraftRepresents g links waiting self.now
            → stops.items ≡ found purpose.now (handsets_of g) links.all waiting) }
    {
        let stops = self.scan(purpose)?;
        Ok(stops)
    }
}
