//! Laws of the queues of all handsets, over their definitions alone.
ghost use Rattle.std.specs.Prelude.{◌≡◌, ℕ, List, Bool, filter};
ghost use Rattle.sms_base.specs.Among.{Among};
ghost use Rattle.sms_centre_rows.specs.waiting.Links.{Links};
ghost use Rattle.sms_centre_rows.specs.waiting.References.{Allocations, handsets_of, references_of};
ghost use Rattle.sms_centre_rows.specs.declared.waiting.queued_part.QueuedPart.{QueuedPart};
ghost use Rattle.sms_centre_queue.specs.queues.Plan.{IsAdopted, IsSettled, DeliveryQueuesPlanOf};
ghost use Rattle.sms_centre_queue.specs.queues.Queues.{DeliveryQueuesDraftOf, DeliveryQueuesOf};
ghost use Rattle.sms_centre_queue.specs.queues.Representing.{DraftRepresents, Represents};
ghost use Rattle.sms_centre_queue.specs.queues.Walks.{AreApart, StepsAlone, walk};
ghost use Rattle.sms_centre_queue.specs.declared.queues.concern.ConcernedHandset.{ConcernedHandset};

/// What an event left represents the rows with their changes, once it was put in. The next event begins with it.
pub fn an_adopted_plan_represents_its_rows()
    ensures { (g : Allocations) (links : Links) (waiting : List ℕ
        → List QueuedPart) (p : DeliveryQueuesDraftOf) (s : DeliveryQueuesPlanOf) (new : DeliveryQueuesOf)
        → DraftRepresents g links waiting p → IsSettled p s → IsAdopted s new → Represents (handsets_of g) (references_of g) links.all waiting new }
{}

/// An event that walks over all handsets may walk over those alone that it concerns as it begins.
pub fn a_walk_stops_where_it_acts<D: Drop>()
    ensures { (step : List ℕ → D → D) (concerns : List ℕ → D → Bool) (test : ConcernedHandset → Bool) (stops : List ConcernedHandset) (d : D)
        → StepsAlone D step concerns → AreApart stops
        → ((s : ConcernedHandset) → Among s stops → test s ≡ concerns s.number d) → walk step stops d ≡ walk step (filter test stops) d }
{}
