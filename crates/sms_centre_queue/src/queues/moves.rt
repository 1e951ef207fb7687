//! What an event does with the queue of a handset.
ghost use Rattle.std.specs.Prelude.{◌≡◌, ◌<◌, ◌≤◌, ◌++◌, ℕ, List, Some, length, IfNone, IfOk, IfSome, OnOk};
ghost use Rattle.sms_link.specs.LinkTurn.{begun, fired, replied, taken};
ghost use Rattle.sms_rows.specs.table.Keys.{digits_key, pair_key};
ghost use Rattle.sms_rows.specs.table.Table.{put, without};
ghost use Rattle.sms_centre_rows.specs.waiting.Keys.{queued_key};
ghost use Rattle.sms_centre_rows.specs.waiting.Links.{Links, emptied, filled, link_of, lowered, put_link as put_link_in, raised, to_handset, turn_link};
ghost use Rattle.sms_centre_rows.specs.waiting.DeliveryQueues.{queue_given, queue_with};
ghost use Rattle.sms_centre_rows.specs.waiting.References.{Allocations, give as give_in, handset_of, handsets_of, or_new_handset};
ghost use Rattle.sms_centre_rows.specs.waiting.Waiting.{all_at_once, withdrawn};
ghost use Rattle.sms_centre_rows.specs.declared.waiting.queued_part.QueuedPart.{QueuedPart as QueuedOf};
ghost use Rattle.sms_centre_queue.specs.queues.LinkOrder.{expected};
ghost use Rattle.sms_centre_queue.specs.queues.Queues.{Becomes, HasNoPlace, counted, given_to, link_count_now, link_place_now, with_queue};
ghost use Rattle.sms_centre_queue.specs.queues.Representing.{DraftRepresents, Waits};

use crate::queues::draft::DeliveryQueuesDraft;
use crate::queues::placed_queue::PlacedQueue;
use sms_base::{Holder, Kind, Listed, MessageId, Moment, Msisdn};
use sms_centre_rows::waiting::{HandsetRow, QueuedPart};
use sms_link::{LinkOut, Upward};
use sms_rows::table::Change;
use std::alloc::AllocError;

impl DeliveryQueuesDraft {
    /// Lets one more wait for the handset, or the one of that message and number wait otherwise.
    pub fn put(&mut self, number: Msisdn, queued: QueuedPart) -> Result<(), AllocError>
        ensures { OnOk result ((g : Allocations) (links : Links) (waiting after : List ℕ → List QueuedOf) → DraftRepresents g links waiting self.old
            → Waits number (put queued_key queued) waiting after → DraftRepresents g links after self.new) }
    {
        let mut placed = self.take_out(number)?;
        let done = placed.queue.put(queued);
        self.put_back(number, placed)?;
        done
    }

    /// Removes what waits for the handset under that message and number.
    pub fn remove(&mut self, number: Msisdn, id: MessageId, part: u8) -> Result<(), AllocError>
        ensures { OnOk result ((g : Allocations) (links : Links) (waiting after : List ℕ → List QueuedOf) → DraftRepresents g links waiting self.old
            → Waits number (without queued_key (pair_key id part)) waiting after → DraftRepresents g links after self.new) }
    {
        let mut placed = self.take_out(number)?;
        let done = placed.queue.remove(id, part);
        self.put_back(number, placed)?;
        done
    }

    /// No part of that message waits any more.
    pub fn withdraw(&mut self, number: Msisdn, id: MessageId) -> Result<(), AllocError>
        ensures { OnOk result ((g : Allocations) (links : Links) (waiting after : List ℕ → List QueuedOf) → DraftRepresents g links waiting self.old
            → Waits number (withdrawn id) waiting after → DraftRepresents g links after self.new) }
    {
        let mut placed = self.take_out(number)?;
        let done = placed.queue.withdraw(id);
        self.put_back(number, placed)?;
        done
    }

    /// All that waits for the handset is due at that moment.
    pub fn due_at(&mut self, number: Msisdn, now: Moment) -> Result<(), AllocError>
        ensures { OnOk result ((g : Allocations) (links : Links) (waiting after : List ℕ → List QueuedOf) → DraftRepresents g links waiting self.old
            → Waits number (all_at_once now) waiting after → DraftRepresents g links after self.new) }
    {
        let mut placed = self.take_out(number)?;
        let done = placed.queue.due_at(now);
        self.put_back(number, placed)?;
        done
    }
}

impl DeliveryQueuesDraft {
    /// The handset can be reached, and has memory.
    pub fn raise(&mut self, number: Msisdn) -> Result<(), AllocError>
        ensures { OnOk result ((g : Allocations) (links : Links) (waiting : List ℕ → List QueuedOf) → DraftRepresents g links waiting self.old
            → DraftRepresents g (put_link_in (raised (link_of number links.all)) links) waiting self.new) }
    {
        let mut placed = self.take_out(number)?;
        placed.queue.raise();
        let none = Listed::new(self.alloc);
        self.put_link(number, placed, none)
    }

    /// The handset's link was up before a recovery, and is up again at the next tick.
    pub fn expect(&mut self, number: Msisdn) -> Result<(), AllocError>
        ensures { OnOk result ((g : Allocations) (links : Links) (waiting : List ℕ → List QueuedOf) → DraftRepresents g links waiting self.old
            → DraftRepresents g (put_link_in (expected (link_of number links.all)) links) waiting self.new) }
    {
        let mut placed = self.take_out(number)?;
        placed.queue.expect();
        let none = Listed::new(self.alloc);
        self.put_link(number, placed, none)
    }

    /// The handset can't be reached, and its next connection is a new one.
    pub fn lower(&mut self, number: Msisdn) -> Result<(), AllocError>
        ensures { OnOk result ((g : Allocations) (links : Links) (waiting : List ℕ → List QueuedOf) → DraftRepresents g links waiting self.old
            → DraftRepresents g (put_link_in (lowered (link_of number links.all)) links) waiting self.new) }
    {
        let mut placed = self.take_out(number)?;
        placed.queue.lower();
        let none = Listed::new(self.alloc);
        self.put_link(number, placed, none)
    }

    /// The handset has no memory.
    pub fn fill(&mut self, number: Msisdn) -> Result<(), AllocError>
        ensures { OnOk result ((g : Allocations) (links : Links) (waiting : List ℕ → List QueuedOf) → DraftRepresents g links waiting self.old
            → DraftRepresents g (put_link_in (filled (link_of number links.all)) links) waiting self.new) }
    {
        let mut placed = self.take_out(number)?;
        placed.queue.fill();
        let none = Listed::new(self.alloc);
        self.put_link(number, placed, none)
    }

    /// The handset has memory again.
    pub fn empty(&mut self, number: Msisdn) -> Result<(), AllocError>
        ensures { OnOk result ((g : Allocations) (links : Links) (waiting : List ℕ → List QueuedOf) → DraftRepresents g links waiting self.old
            → DraftRepresents g (put_link_in (emptied (link_of number links.all)) links) waiting self.new) }
    {
        let mut placed = self.take_out(number)?;
        placed.queue.empty();
        let none = Listed::new(self.alloc);
        self.put_link(number, placed, none)
    }
}

impl DeliveryQueuesDraft {
    /// A transaction to the handset, unless one is under way: a unit of 1 to 248 octets.
    pub fn begin(
        &mut self,
        number: Msisdn,
        now: Moment,
        reference: u8,
        tag: Holder,
        unit: &[u8],
    ) -> Result<(), AllocError>
        requires some { 0 < length unit.now }
        requires fits { length unit.now ≤ 248 }
        ensures { OnOk result ((g : Allocations) (links : Links) (waiting : List ℕ → List QueuedOf) → DraftRepresents g links waiting self.old
            → DraftRepresents g (turn_link (link_of number links.all)
            (begun now reference tag unit.now (link_of number links.all).near_end) links) waiting self.new) }
    {
        let mut placed = self.take_out(number)?;
        match placed.queue.begin(now, reference, tag, unit) {
            Ok(frames) => self.put_link(number, placed, frames),
            Err(error) => {
                drop(placed);
                Err(error)
            }
        }
    }

    /// The answer in the transaction that the handset began, if one waits for it: a unit of 1 to 248 octets.
    pub fn reply(
        &mut self,
        number: Msisdn,
        now: Moment,
        kind: Kind,
        reference: u8,
        tag: Holder,
        unit: &[u8],
    ) -> Result<(), AllocError>
        requires some { 0 < length unit.now }
        requires fits { length unit.now ≤ 248 }
        ensures { OnOk result ((g : Allocations) (links : Links) (waiting : List ℕ → List QueuedOf) → DraftRepresents g links waiting self.old
            → DraftRepresents g (turn_link (link_of number links.all)
            (replied now kind reference tag unit.now (link_of number links.all).near_end) links) waiting self.new) }
    {
        let mut placed = self.take_out(number)?;
        match placed.queue.reply(now, kind, reference, tag, unit) {
            Ok(frames) => self.put_link(number, placed, frames),
            Err(error) => {
                drop(placed);
                Err(error)
            }
        }
    }

    /// Takes a frame of the handset, whatever its octets, and gives what its link passes up.
    pub fn take(&mut self, number: Msisdn, frame: &[u8]) -> Result<Option<Upward>, AllocError>
        ensures up { IfOk result (λ up. (g : Allocations) (links : Links) (waiting : List ℕ → List QueuedOf) → DraftRepresents g links waiting self.old
            → up ≡ (taken frame.now (link_of number links.all).near_end).out.up) }
        ensures state { OnOk result ((g : Allocations) (links : Links) (waiting : List ℕ → List QueuedOf) → DraftRepresents g links waiting self.old
            → DraftRepresents g (turn_link (link_of number links.all) (taken frame.now (link_of number links.all).near_end) links) waiting self.new) }
    {
        let mut placed = self.take_out(number)?;
        match placed.queue.take(frame) {
            Ok(out) => self.put_out(number, placed, out),
            Err(error) => {
                drop(placed);
                Err(error)
            }
        }
    }

    /// Lets the timers of the link fire that are due, and gives what it passes up.
    pub fn fire(&mut self, number: Msisdn, now: Moment) -> Result<Option<Upward>, AllocError>
        ensures up { IfOk result (λ up. (g : Allocations) (links : Links) (waiting : List ℕ → List QueuedOf) → DraftRepresents g links waiting self.old
            → up ≡ (fired now (link_of number links.all).near_end).out.up) }
        ensures state { OnOk result ((g : Allocations) (links : Links) (waiting : List ℕ → List QueuedOf) → DraftRepresents g links waiting self.old
            → DraftRepresents g (turn_link (link_of number links.all) (fired now (link_of number links.all).near_end) links) waiting self.new) }
    {
        let mut placed = self.take_out(number)?;
        match placed.queue.fire(now) {
            Ok(out) => self.put_out(number, placed, out),
            Err(error) => {
                drop(placed);
                Err(error)
            }
        }
    }

    // Puts the queue back, whose link gave that.
    fn put_out(
        &mut self,
        number: Msisdn,
        placed: PlacedQueue,
        out: LinkOut,
    ) -> Result<Option<Upward>, AllocError>
        ensures up { IfOk result (λ up. up ≡ out.up) }
        ensures state { OnOk result (Becomes (digits_key number) (record placed { link_place = link_place_now placed.link_place self.old.link_count })
            (counted (link_count_now placed.link_place self.old.link_count) (self.old.frames ++ to_handset number out.frames) self.old) self.new) }
    {
        let up = out.up;
        match self.put_link(number, placed, out.frames) {
            Ok(()) => Ok(up),
            Err(error) => {
                drop(up);
                Err(error)
            }
        }
    }
}

impl DeliveryQueuesDraft {
    /// Gives its reference to the handset, and lets it wait under that. The last place of a handset is 4,294,967,295: a later handset
    /// gets none.
    pub fn give(
        &mut self,
        number: Msisdn,
        now: Moment,
        queued: QueuedPart,
    ) -> Result<(), AllocError>
        ensures { OnOk result ((g : Allocations) (links : Links) (waiting after : List ℕ → List QueuedOf) → DraftRepresents g links waiting self.old
            → Waits number (put queued_key queued) waiting after
            → DraftRepresents (give_in (handset_of number (handsets_of g)) queued.reference now g) links after self.new) }
    {
        let mut placed = self.take_out(number)?;
        let done = self.give_one(&mut placed, now, queued);
        self.put_back(number, placed)?;
        done
    }

    // Gives its reference to the handset of that queue, where it waits then.
    fn give_one(
        &mut self,
        placed: &mut PlacedQueue,
        now: Moment,
        queued: QueuedPart,
    ) -> Result<(), AllocError>
        ensures noted { OnOk result (self.new ≡ given_to (or_new_handset placed.old.queue.link.handset self.old.next_place placed.old.queue.row)
            placed.old.queue.row queued.reference now self.old) }
        ensures placed { OnOk result (placed.new ≡ with_queue (queue_with queued
            (queue_given (or_new_handset placed.old.queue.link.handset self.old.next_place placed.old.queue.row)
            queued.reference now placed.old.queue)) placed.old) }
        ensures octet { queued.reference < 256 }
    {
        self.give_there(placed, queued.reference, now)?;
        placed.queue.put(queued)
    }

    // Gives the reference to the handset of that queue.
    fn give_there(
        &mut self,
        placed: &mut PlacedQueue,
        reference: u8,
        now: Moment,
    ) -> Result<(), AllocError>
        ensures noted { OnOk result (self.new ≡ given_to (or_new_handset placed.old.queue.link.handset self.old.next_place placed.old.queue.row)
            placed.old.queue.row reference now self.old) }
        ensures placed { OnOk result (placed.new ≡ with_queue
            (queue_given (or_new_handset placed.old.queue.link.handset self.old.next_place placed.old.queue.row)
            reference now placed.old.queue) placed.old) }
    {
        let Some(row) = self.row_for(placed) else {
            return Err(AllocError);
        };
        self.note_given(&row, placed.queue.row(), reference, now)?;
        placed.queue.give(row, reference, now)
    }

    /// The row under which the queue's next reference is given, where a place is left for it.
    pub(crate) fn row_for(&self, placed: &PlacedQueue) -> Option<HandsetRow>
        ensures some { IfSome result (λ row. row ≡ or_new_handset placed.now.queue.link.handset self.now.next_place placed.now.queue.row) }
        ensures none { IfNone result (HasNoPlace self.now.next_place placed.now.queue.row) }
    {
        match placed.queue.row() {
            Some(row) => Some(row),
            None => {
                let place = u32::try_from(self.next_place).ok()?;
                Some(placed.queue.row_or_new(place))
            }
        }
    }

    // What is committed of it, and the place of the next handset.
    fn note_given(
        &mut self,
        row: &HandsetRow,
        was: Option<HandsetRow>,
        reference: u8,
        now: Moment,
    ) -> Result<(), AllocError>
        ensures { OnOk result (self.new ≡ given_to row.now was reference now self.old) }
    {
        self.handsets.push(Change::Put(row.mentioned(reference)))?;
        self.references
            .push(Change::Put(row.given(reference, now)))?;
        if was.is_none() {
            let Some(next_place) = self.next_place.checked_add(1) else {
                return Err(AllocError);
            };
            self.next_place = next_place;
        }
        Ok(())
    }
}
