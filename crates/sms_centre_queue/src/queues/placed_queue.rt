//! A queue among the others.
ghost use Rattle.std.specs.Prelude.{◌≡◌, IfOk, Some, None};
ghost use Rattle.sms_centre_queue.specs.queues.Queues.{new_placed};
ghost use Rattle.sms_centre_queue.specs.queues.Stops.{is_active, is_wanted as is_wanted_of, order_of, stop_at};
ghost use Rattle.sms_centre_queue.specs.queues.Unlinked.{unlinked as unlinked_of};

use crate::queue::DeliveryQueue;
use crate::queues::concern::{Concern, ConcernedHandset};
use sms_base::Msisdn;
use std::alloc::{AllocError, Global};

/// A queue, and its place among the others.
#[derive(Drop)]
pub struct PlacedQueue {
    pub(crate) queue: DeliveryQueue,
    /// The place of its link in the order in which links were first used, from 1, or 0 while it has none.
    pub(crate) link_place: u64,
}

impl PlacedQueue {
    /// The queue of a handset of which nothing was heard.
    pub(crate) fn new(alloc: Global, number: Msisdn) -> PlacedQueue
        ensures { result ≡ new_placed number }
    {
        PlacedQueue {
            queue: DeliveryQueue::new(alloc, number),
            link_place: 0,
        }
    }

    /// A copy, in memory of its own.
    pub(crate) fn copy(&self) -> Result<PlacedQueue, AllocError>
        ensures { IfOk result (λ placed. placed ≡ self.now) }
    {
        Ok(PlacedQueue {
            queue: self.queue.copy()?,
            link_place: self.link_place,
        })
    }

    /// A copy without its link, in memory of its own.
    pub(crate) fn unlinked(&self) -> Result<PlacedQueue, AllocError>
        ensures { IfOk result (λ placed. placed ≡ unlinked_of self.now) }
    {
        let mut queue = self.queue.copy()?;
        queue.lower();
        queue.empty();
        Ok(PlacedQueue {
            queue,
            link_place: 0,
        })
    }

    /// Whether an event that isn't the handset's own can concern it.
    pub(crate) fn is_active(&self) -> bool
        ensures { result ≡ is_active self.now.queue.link }
    {
        let link = self.queue.link();
        if link.is_up {
            return true;
        }
        if link.is_awaited {
            return true;
        }
        link.near_end.is_timed()
    }

    fn is_wanted(&self, purpose: &Concern) -> bool
        ensures { result ≡ is_wanted_of purpose.now self.now.queue.row self.now.queue.link self.now.queue.waiting }
    {
        let link = self.queue.link();
        match purpose {
            Concern::Offer(now) => link.is_ready() && self.queue.next(*now).is_some(),
            Concern::Fire(now) => link.near_end.is_due(*now),
            Concern::FireUnmentioned(now) => self.queue.row().is_none()
                && link.near_end.is_due(*now),
            Concern::Awaited => link.is_awaited,
        }
    }

    // Its place in the order in which such an event visits handsets.
    fn order(&self, purpose: &Concern) -> Option<u64>
        ensures { result ≡ order_of purpose.now self.now }
    {
        match purpose {
            Concern::Offer(_) | Concern::Fire(_) => match self.queue.row() {
                Some(row) => Some(u64::from(row.place)),
                None => None,
            },
            Concern::FireUnmentioned(_) | Concern::Awaited => match self.link_place {
                0 => None,
                link_place => Some(link_place),
            },
        }
    }

    /// The stop at this queue, if it is one.
    pub(crate) fn stop(&self, purpose: &Concern) -> Option<ConcernedHandset>
        ensures { result ≡ stop_at purpose.now self.now }
    {
        if !self.is_wanted(purpose) {
            return None;
        }
        match self.order(purpose) {
            Some(order) => Some(ConcernedHandset {
                order,
                number: self.queue.link().handset,
            }),
            None => None,
        }
    }
}
