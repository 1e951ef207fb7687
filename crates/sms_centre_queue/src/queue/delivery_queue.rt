//! All that concerns one handset.
ghost use Rattle.std.specs.Prelude.{◌≡◌, ◌<◌, ◌≤◌, nat_le, [], length, true, Some, None, IfOk, OnOk};
ghost use Rattle.sms_link.specs.LinkTurn.{begun, fired, replied, taken};
ghost use Rattle.sms_rows.specs.table.Keys.{pair_key};
ghost use Rattle.sms_rows.specs.table.Table.{row_at};
ghost use Rattle.sms_centre_rows.specs.waiting.Keys.{queued_key};
ghost use Rattle.sms_centre_rows.specs.waiting.Links.{emptied, filled, lowered, new_link_to, raised};
ghost use Rattle.sms_centre_rows.specs.waiting.References.{AreHeld, following as following_of, is_free as is_free_of, next_reference as next_reference_of};
ghost use Rattle.sms_centre_rows.specs.waiting.References.{or_new_handset};
ghost use Rattle.sms_centre_queue.specs.queue.FreeReferences.{free_references as free_references_of};
ghost use Rattle.sms_centre_rows.specs.waiting.DeliveryQueues.{queue_at_once, queue_given, queue_on, queue_turned, queue_with, queue_withdrawn, queue_without};
ghost use Rattle.sms_centre_rows.specs.waiting.Waiting.{next as next_of, waits_beside as waits_beside_of};
ghost use Rattle.sms_centre_queue.specs.queue.Watching.{figures_of};

use crate::queue::given_references::GivenReferences;
use crate::queue::link_figures::LinkFigures;
use sms_base::lending::put;
use sms_base::{Holder, Kind, Listed, MessageId, Moment, Msisdn};
use sms_centre_rows::waiting::{HandsetLink, HandsetRow, QueuedPart, ReferenceRow};
use sms_link::{Link, LinkOut, Outgoing, Side};
use sms_rows::table::{Key, Table};
use sms_schedule::waiting::WaitingParts;
use std::alloc::{AllocError, Global};
use std::marker::Model;

/// All that concerns one handset: its link, the references that were given there, and what waits for it.
#[derive(Drop)]
pub struct DeliveryQueue {
    alloc: Global,
    row: Option<HandsetRow>,
    given: GivenReferences,
    waiting: WaitingParts,
    link: HandsetLink,
}

impl Model for DeliveryQueue {
    ghost use Rattle.sms_centre_rows.specs.waiting.DeliveryQueues.{DeliveryQueueOf};
    ghost use Rattle.sms_schedule.specs.waiting.Waiting.{queued_of};

    ghost Value = { DeliveryQueueOf };

    ghost view = { λ s. record { row = s.row; given = s.given; waiting = queued_of s.waiting; link = s.link } };
}

impl DeliveryQueue {
    /// The queue of a handset of which nothing was heard.
    pub fn new(alloc: Global, number: Msisdn) -> DeliveryQueue
        ensures { result ≡ record { row = None; given = []; waiting = []; link = new_link_to number } }
    {
        DeliveryQueue {
            alloc,
            row: None,
            given: GivenReferences::new(alloc),
            waiting: WaitingParts::new(alloc),
            link: HandsetLink::new(alloc, number),
        }
    }

    /// The queue of the handset of that row, with the references that were given there. Nothing waits, and its link is new.
    pub fn of_row(
        alloc: Global,
        row: HandsetRow,
        given: Table<ReferenceRow>,
    ) -> Result<DeliveryQueue, AllocError>
        ensures { IfOk result (λ queue. queue ≡ record { row = Some row; given = given.rows; waiting = []; link = new_link_to row.number }) }
    {
        let given = GivenReferences::of(alloc, given)?;
        let waiting = WaitingParts::new(alloc);
        let link = HandsetLink::new(alloc, row.number);
        Ok(DeliveryQueue {
            alloc,
            row: Some(row),
            given,
            waiting,
            link,
        })
    }

    /// A copy. It shares most of what waits and of the references that were given, so that it costs little.
    pub fn copy(&self) -> Result<DeliveryQueue, AllocError>
        ensures { IfOk result (λ queue. queue ≡ self.now) }
    {
        let given = self.given.copy()?;
        let waiting = self.waiting.copy()?;
        let link = self.link.copy()?;
        Ok(DeliveryQueue {
            alloc: self.alloc,
            row: self.row,
            given,
            waiting,
            link,
        })
    }

    /// The link to the handset.
    pub fn link(&self) -> &HandsetLink
        ensures { result.now ≡ self.now.link }
    {
        &self.link
    }

    /// The row of the handset, if it was given a reference.
    pub fn row(&self) -> Option<HandsetRow>
        ensures { result ≡ self.now.row }
    {
        self.row
    }

    /// What waits, in the order of messages and numbers, in memory of its own.
    pub fn waiting(&self) -> Result<Vec<QueuedPart>, AllocError>
        ensures { IfOk result (λ all_queued. all_queued.items ≡ self.now.waiting) }
    {
        self.waiting.all_queued()
    }

    /// How many parts and status reports wait, and how the link is.
    pub fn figures(&self) -> LinkFigures
        ensures { result ≡ figures_of self.now.waiting self.now.link }
    {
        LinkFigures {
            waiting: self.waiting.len(),
            is_full: self.link.is_full,
            is_under_way: self.link.near_end.under_way().is_some(),
        }
    }

    /// The row of the handset, which takes that place if it was given no reference.
    pub fn row_or_new(&self, place: u32) -> HandsetRow
        ensures { result ≡ or_new_handset self.now.link.handset place self.now.row }
    {
        match self.row {
            Some(row) => row,
            None => HandsetRow {
                place,
                number: self.link.handset,
                last_reference: 255,
            },
        }
    }
}

impl DeliveryQueue {
    /// The queued part of that message and number, if it waits here.
    pub fn queued(&self, id: MessageId, number: u8) -> Option<QueuedPart>
        ensures { result ≡ row_at queued_key (pair_key id number) self.now.waiting }
    {
        self.waiting.find(Key::pair(id.number(), number))
    }

    /// Lets one more wait, or the one of that message and number wait otherwise.
    pub fn put(&mut self, queued: QueuedPart) -> Result<(), AllocError>
        ensures { OnOk result (self.new ≡ queue_with queued self.old) }
    {
        self.waiting.put(queued)?;
        Ok(())
    }

    /// Removes what waits under that message and number.
    pub fn remove(&mut self, id: MessageId, number: u8) -> Result<(), AllocError>
        ensures { OnOk result (self.new ≡ queue_without (pair_key id number) self.old) }
    {
        self.waiting.remove(Key::pair(id.number(), number))?;
        Ok(())
    }

    /// No part of that message waits any more.
    pub fn withdraw(&mut self, id: MessageId) -> Result<(), AllocError>
        ensures { OnOk result (self.new ≡ queue_withdrawn id self.old) }
    {
        self.waiting.withdraw(id)?;
        Ok(())
    }

    /// All that waits is due at that moment.
    pub fn due_at(&mut self, now: Moment) -> Result<(), AllocError>
        ensures { OnOk result (self.new ≡ queue_at_once now self.old) }
    {
        self.waiting.due_at(now)?;
        Ok(())
    }

    /// Of all that is due, the first to be offered.
    pub fn next(&self, now: Moment) -> Option<QueuedPart>
        ensures { result ≡ next_of now self.now.waiting }
    {
        self.waiting.next(now)
    }

    /// Whether another one is due beside it.
    pub fn waits_beside(&self, now: Moment, chosen: &QueuedPart) -> bool
        ensures { result ≡ waits_beside_of now chosen.now self.now.waiting }
    {
        self.waiting.waits_beside(now, chosen)
    }
}

impl DeliveryQueue {
    /// The next reference that may be given to the handset of that row, which is this queue's or its first one.
    #[tactic(auto, using(sms_centre_rows::proofs::waiting::Passing::passing_there, sms_centre_rows::proofs::waiting::Passing::passing_later, sms_centre_rows::proofs::waiting::Passing::passing_none))]
    pub fn next_reference(&self, row: &HandsetRow, now: Moment) -> Option<u8>
        ensures { result ≡ next_reference_of row.now self.now.waiting self.now.given now }
    {
        let held = self.waiting.held_references();
        let mut reference = following(row.last_reference);
        for turn in 0u16..256 {
            if self.is_free(row, now, &held, reference) {
                return Some(reference);
            }
            reference = following(reference);
        }
        None
    }

    /// Whether so many references may be given to the handset of that row, which is this queue's or its first one.
    #[tactic(auto, using(crate::proofs::queue::FreeCounted::below_none, crate::proofs::queue::FreeCounted::below_grows))]
    pub fn has_free(&self, row: &HandsetRow, now: Moment, wanted: usize) -> bool
        ensures { result ≡ nat_le wanted (free_references_of row.now self.now.waiting self.now.given now) }
    {
        let held = self.waiting.held_references();
        let mut free: usize = 0;
        for reference in 0u16..256 {
            if wanted <= free {
                return true;
            }
            let is_free = self.is_free(row, now, &held, reference as u8);
            free += usize::from(is_free);
        }
        wanted <= free
    }

    // Whether nothing that waits holds it, and it was not given last in this second.
    fn is_free(&self, row: &HandsetRow, now: Moment, held: &[bool; 256], reference: u8) -> bool
        requires { AreHeld held.now self.now.waiting }
        ensures { result ≡ is_free_of row.now self.now.waiting self.now.given now reference }
    {
        if held[usize::from(reference)] {
            return false;
        }
        let key = Key::pair(u64::from(row.place), reference);
        !self.given.is_late(key, now)
    }

    /// The reference is given to the handset, whose row is that.
    pub fn give(&mut self, row: HandsetRow, reference: u8, now: Moment) -> Result<(), AllocError>
        ensures { OnOk result (self.new ≡ queue_given row reference now self.old) }
    {
        self.given.put(row.given(reference, now))?;
        self.row = Some(row.mentioned(reference));
        Ok(())
    }
}

impl DeliveryQueue {
    /// The handset can be reached, and has memory.
    pub fn raise(&mut self)
        ensures { self.new ≡ queue_on (raised self.old.link) self.old }
    {
        self.link.is_up = true;
        self.link.is_awaited = false;
        self.link.is_full = false;
    }

    /// The link was up before a recovery, and is up again at the next tick.
    pub fn expect(&mut self)
        ensures { self.new ≡ queue_on (record self.old.link { is_awaited = true }) self.old }
    {
        self.link.is_awaited = true;
    }

    /// The handset can't be reached, and its next connection is a new one.
    pub fn lower(&mut self)
        ensures { self.new ≡ queue_on (lowered self.old.link) self.old }
    {
        self.link.is_up = false;
        self.link.is_awaited = false;
        put(&mut self.link.near_end, Link::new(self.alloc, Side::Centre));
    }

    /// The handset has no memory.
    pub fn fill(&mut self)
        ensures { self.new ≡ queue_on (filled self.old.link) self.old }
    {
        self.link.is_full = true;
    }

    /// The handset has memory again.
    pub fn empty(&mut self)
        ensures { self.new ≡ queue_on (emptied self.old.link) self.old }
    {
        self.link.is_full = false;
    }

    /// A transaction to the handset, unless one is under way: a unit of 1 to 248 octets.
    pub fn begin(
        &mut self,
        now: Moment,
        reference: u8,
        tag: Holder,
        unit: &[u8],
    ) -> Result<Listed<Outgoing>, AllocError>
        requires some { 0 < length unit.now }
        requires fits { length unit.now ≤ 248 }
        ensures frames { IfOk result (λ frames. frames ≡ (begun now reference tag unit.now self.old.link.near_end).out.frames) }
        ensures state { OnOk result (self.new ≡ queue_turned (begun now reference tag unit.now self.old.link.near_end) self.old) }
    {
        let frames = self.link.near_end.begin(now, reference, tag, unit)?;
        Ok(frames)
    }

    /// The answer in the transaction that the handset began, if one waits for it: a unit of 1 to 248 octets.
    pub fn reply(
        &mut self,
        now: Moment,
        kind: Kind,
        reference: u8,
        tag: Holder,
        unit: &[u8],
    ) -> Result<Listed<Outgoing>, AllocError>
        requires some { 0 < length unit.now }
        requires fits { length unit.now ≤ 248 }
        ensures frames { IfOk result (λ frames. frames ≡ (replied now kind reference tag unit.now self.old.link.near_end).out.frames) }
        ensures state { OnOk result (self.new ≡ queue_turned (replied now kind reference tag unit.now self.old.link.near_end) self.old) }
    {
        let frames = self.link.near_end.reply(now, kind, reference, tag, unit)?;
        Ok(frames)
    }

    /// Takes a frame of the handset, whatever its octets.
    pub fn take(&mut self, frame: &[u8]) -> Result<LinkOut, AllocError>
        ensures out { IfOk result (λ out. out ≡ (taken frame.now self.old.link.near_end).out) }
        ensures state { OnOk result (self.new ≡ queue_turned (taken frame.now self.old.link.near_end) self.old) }
    {
        let out = self.link.near_end.take(frame)?;
        Ok(out)
    }

    /// Lets the timers of the link fire that are due.
    pub fn fire(&mut self, now: Moment) -> Result<LinkOut, AllocError>
        ensures out { IfOk result (λ out. out ≡ (fired now self.old.link.near_end).out) }
        ensures state { OnOk result (self.new ≡ queue_turned (fired now self.old.link.near_end) self.old) }
    {
        let out = self.link.near_end.fire(now)?;
        Ok(out)
    }
}

// The reference behind that one, 0 behind 255.
fn following(reference: u8) -> u8
    ensures { result ≡ following_of reference }
{
    reference.wrapping_add(1)
}
