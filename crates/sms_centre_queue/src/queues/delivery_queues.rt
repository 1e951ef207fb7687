//! The queues of all handsets, between events.
use crate::queues::placed_queue::PlacedQueue;
use crate::queues::shared_queues::SharedQueues;
use indexmap::IndexMap;
use std::alloc::Global;
use std::marker::Model;
use std::sync::Arc;

/// The queues of all handsets, between two events. An event shares them, so that what it left can be put in whatever became of
/// the queues meanwhile.
#[derive(Drop)]
pub struct DeliveryQueues {
    pub(crate) alloc: Global,
    pub(crate) ground: Arc<SharedQueues>,
    pub(crate) touched: IndexMap<u128, PlacedQueue>,
    pub(crate) next_place: u64,
    pub(crate) link_count: u64,
}

impl Model for DeliveryQueues {
    ghost use Rattle.sms_centre_queue.specs.queues.Queues.{DeliveryQueuesOf};

    ghost Value = { DeliveryQueuesOf };

    ghost view = { λ s. record { ground = s.ground.value; touched = s.touched.entries; next_place = s.next_place; link_count = s.link_count } };
}
