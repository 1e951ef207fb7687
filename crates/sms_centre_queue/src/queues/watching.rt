//! What an operator may want to know of the link to a handset.
ghost use Rattle.std.specs.Prelude.{◌≡◌, ℕ, List, option_copied};
ghost use Rattle.sms_centre_rows.specs.waiting.Links.{link_of};
ghost use Rattle.sms_centre_rows.specs.declared.waiting.handset.HandsetRow.{HandsetRow};
ghost use Rattle.sms_centre_rows.specs.declared.waiting.handset_link.HandsetLink.{HandsetLink};
ghost use Rattle.sms_centre_rows.specs.declared.waiting.queued_part.QueuedPart.{QueuedPart};
ghost use Rattle.sms_centre_rows.specs.declared.waiting.reference.ReferenceRow.{ReferenceRow};
ghost use Rattle.sms_centre_queue.specs.queue.Watching.{figures_of};
ghost use Rattle.sms_centre_queue.specs.queues.Queues.{at, pending_of};
ghost use Rattle.sms_centre_queue.specs.queues.Representing.{Represents};

use crate::queue::LinkFigures;
use crate::queues::delivery_queues::DeliveryQueues;
use crate::queues::placed_queue::PlacedQueue;
use sms_base::{Carried, Msisdn};
use sms_rows::table::Key;

impl DeliveryQueues {
    // The queue under that key, if there is one.
    fn placed(&self, key: u128) -> Option<&PlacedQueue>
        ensures { option_copied result ≡ at key (pending_of self.now) }
    {
        match self.touched.get(&key) {
            Some(placed) => Some(placed),
            None => self.ground.placed(key),
        }
    }

    /// How many parts and status reports wait for the handset, and how its link is.
    pub fn figures(&self, number: &Msisdn) -> LinkFigures
        ensures { (handsets : List HandsetRow) (references : List ReferenceRow) (links : List HandsetLink) (waiting : List ℕ → List QueuedPart)
            → Represents handsets references links waiting self.now → result ≡ figures_of (waiting number.now)
            (link_of number.now links) }
    {
        match self.placed(Key::handset(number).number()) {
            Some(placed) => placed.queue.figures(),
            None => LinkFigures {
                waiting: 0,
                is_full: false,
                is_under_way: false,
            },
        }
    }

    /// What the transaction to the handset carries that is under way.
    pub fn under_way(&self, number: &Msisdn) -> Option<Carried>
        ensures { (handsets : List HandsetRow) (references : List ReferenceRow) (links : List HandsetLink) (waiting : List ℕ → List QueuedPart)
            → Represents handsets references links waiting self.now → result ≡ (link_of number.now links).near_end.under_way }
    {
        match self.placed(Key::handset(number).number()) {
            Some(placed) => placed.queue.link().near_end.under_way(),
            None => None,
        }
    }
}
