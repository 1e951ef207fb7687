//! What an event leaves of the queues.
ghost use Rattle.std.specs.Prelude.{◌≡◌, IfOk};
ghost use Rattle.sms_centre_queue.specs.queues.Plan.{FitsTheQueues, FitsIn, IsAdopted, IsSettled};
ghost use Rattle.sms_centre_queue.specs.queues.Stops.{rested_at, scanned};
ghost use Rattle.sms_centre_queue.specs.declared.queues.concern.Concern.TheVariants.{Offer};

use crate::queues::concern::Concern;
use crate::queues::delivery_queues::DeliveryQueues;
use crate::queues::draft::DeliveryQueuesDraft;
use crate::queues::placed_queue::PlacedQueue;
use crate::queues::reserve::MapReserve;
use crate::queues::shared_queues::SharedQueues;
use indexmap::IndexMap;
use sms_base::lending::put;
use sms_base::{Listed, Moment};
use sms_centre_rows::waiting::{HandsetRow, ReferenceRow, Sent};
use sms_rows::table::Change;
use std::alloc::{AllocError, Global};
use std::marker::Model;
use std::sync::Arc;

/// What an event leaves of the queues, ready made, with the memory that it takes to put it in.
#[derive(Drop)]
pub struct DeliveryQueuesPlan {
    ground: Arc<SharedQueues>,
    touched: IndexMap<u128, PlacedQueue>,
    reserve: MapReserve<PlacedQueue>,
    index_reserve: MapReserve<()>,
    next_place: u64,
    link_count: u64,
    rested: Option<Moment>,
}

impl Model for DeliveryQueuesPlan {
    ghost use Rattle.sms_centre_queue.specs.queues.Plan.{DeliveryQueuesPlanOf};

    ghost Value = { DeliveryQueuesPlanOf };

    ghost view = { λ s. record {
      ground = s.ground.value;
      touched = s.touched.entries;
      reserve = s.reserve;
      index_reserve = s.index_reserve;
      next_place = s.next_place;
      link_count = s.link_count;
      rested = s.rested;
    } };
}

/// What an event does with the queues: what is to be committed of handsets and of references, each in order, and the
/// frames in order. It has the queues as the event leaves them.
#[derive(Drop)]
pub struct DeliveryQueuesOutcome {
    pub handsets: Listed<Change<HandsetRow>>,
    pub references: Listed<Change<ReferenceRow>>,
    pub frames: Listed<Sent>,
    pub queues: DeliveryQueuesPlan,
}

// What a plan has beside what the event left: the memory for it, and the moment at which nothing was left to offer.
#[derive(Drop)]
struct Prepared {
    reserve: MapReserve<PlacedQueue>,
    index_reserve: MapReserve<()>,
    rested: Option<Moment>,
}

impl DeliveryQueuesDraft {
    /// What the event leaves, with the memory for it. The moment is that of the event.
    pub fn settle(self, now: Moment) -> Result<DeliveryQueuesOutcome, AllocError>
        ensures handsets { IfOk result (λ plan. plan.handsets ≡ self.handsets) }
        ensures references { IfOk result (λ plan. plan.references ≡ self.references) }
        ensures frames { IfOk result (λ plan. plan.frames ≡ self.frames) }
        ensures queues { IfOk result (λ plan. IsSettled self plan.queues) }
        ensures fits { IfOk result (λ plan. FitsTheQueues plan.queues) }
        ensures rested { IfOk result (λ plan. plan.queues.rested ≡ rested_at now (scanned (Offer now) self)) }
    {
        match self.prepared(now) {
            Ok(prepared) => Ok(self.outcome(now, prepared)),
            Err(error) => {
                drop(self);
                Err(error)
            }
        }
    }

    fn prepared(&self, now: Moment) -> Result<Prepared, AllocError>
        ensures rested { IfOk result (λ prepared. prepared.rested ≡ rested_at now (scanned (Offer now) self.now)) }
        ensures fits { IfOk result (λ prepared. FitsIn prepared.reserve prepared.index_reserve self.now.touched self.now.base) }
    {
        let rested = self.rested_at(now)?;
        let extra = self.touched.len();
        let index_reserve = self.ground.more_keys(self.alloc, extra)?;
        match self.ground.more_queues(self.alloc, extra) {
            Ok(reserve) => Ok(Prepared {
                reserve,
                index_reserve,
                rested,
            }),
            Err(error) => {
                drop(index_reserve);
                Err(error)
            }
        }
    }

    #[tactic(auto, using(crate::proofs::queues::Listing::rests))]
    fn outcome(self, now: Moment, prepared: Prepared) -> DeliveryQueuesOutcome
        requires rested { prepared.rested ≡ rested_at now (scanned (Offer now) self) }
        requires fits { FitsIn prepared.reserve prepared.index_reserve self.touched self.base }
        ensures handsets { result.handsets ≡ self.handsets }
        ensures references { result.references ≡ self.references }
        ensures frames { result.frames ≡ self.frames }
        ensures queues { IsSettled self result.queues }
        ensures fits { FitsTheQueues result.queues }
        ensures rested { result.queues.rested ≡ prepared.rested }
    {
        DeliveryQueuesOutcome {
            handsets: self.handsets,
            references: self.references,
            frames: self.frames,
            queues: DeliveryQueuesPlan {
                ground: self.ground,
                touched: self.touched,
                reserve: prepared.reserve,
                index_reserve: prepared.index_reserve,
                next_place: self.next_place,
                link_count: self.link_count,
                rested: prepared.rested,
            },
        }
    }

    // That moment, if nothing is left to offer at it.
    #[tactic(auto, using(crate::proofs::queues::Listing::nothing_at, crate::proofs::queues::Listing::something_at))]
    fn rested_at(&self, now: Moment) -> Result<Option<Moment>, AllocError>
        ensures { IfOk result (λ rested. rested ≡ rested_at now (scanned (Offer now) self.now)) }
    {
        let left = self.scan(&Concern::Offer(now))?;
        if left.is_empty() {
            Ok(Some(now))
        } else {
            Ok(None)
        }
    }
}

impl DeliveryQueues {
    /// Puts in what an event left, without taking memory. Where another event still shares the ground, what was touched
    /// is beside it until one is adopted that has it alone.
    pub fn adopt(&mut self, settled: DeliveryQueuesPlan)
        requires fits { FitsTheQueues settled }
        ensures { IsAdopted settled self.new }
    {
        let DeliveryQueuesPlan {
            ground,
            touched,
            reserve,
            index_reserve,
            next_place,
            link_count,
            rested,
        } = settled;
        let alloc = self.alloc;
        put(&mut self.ground, ground);
        self.next_place = next_place;
        self.link_count = link_count;
        match Arc::get_mut(&mut self.ground) {
            Some(ground) => {
                ground.install(reserve, index_reserve, touched, rested);
                put(&mut self.touched, IndexMap::new(alloc));
            }
            None => {
                drop(reserve);
                drop(index_reserve);
                put(&mut self.touched, touched);
            }
        }
    }
}
