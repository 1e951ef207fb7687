//! The threads of the seats, each of which hands its seat back at its end.
ghost use Rattle.std.specs.Prelude.{◌≡◌, ◌<◌, ◌++◌, ◌∷◌, ℕ, List, [], true, IfOk, Option, length, map, Some, slice_get};
ghost use Rattle.std.specs.Arc.{arc_value};
ghost use Rattle.sms_seats.specs.Jobs.{has_end, of};
ghost use Rattle.sms_seats.specs.Seats.{IsSameSeat, number_of, put_by, taken_by};
ghost use Rattle.sms_keeper.specs.History.{for_seat, work};
ghost use Rattle.sms_keeper.specs.Keeping.{IsClosed, given_by, ran_by, seats_of};
ghost use Rattle.sms_keeper.specs.Seating.{IsSeatOf, IsUnchanged};
ghost use Rattle.smsc_arrivals.specs.Sharing.{AreShared};
ghost use Rattle.smsc_arrivals.specs.Ways.{IsSameGiver, IsSameTaker, IsWayOf, given_by as items_given, known_by, made_by, seat_of, settled_at};
ghost use Rattle.smsc_arrivals.specs.Ways.{taken_by as items_taken};
ghost use Rattle.smsc_arrivals.specs.declared.arrival.Arrival.{Arrival as ArrivalOf};
ghost use Rattle.smsc_server.specs.serving.Connections.{Admitted, admits};
ghost use Rattle.smsc_server.specs.serving.Entering.{arrivals_among};
ghost use Rattle.smsc_server.specs.serving.SeatThreads.{AreAt, AreWays, HaveAdmitted, admitted_by, end_of, seat_in};
ghost use Rattle.smsc_server.specs.serving.Sittings.{IsHandedBack, SeatDid};

use crate::serving::account_book::AccountBook;
use crate::serving::endpoints::{Returned, SeatContext, serve_seat};
use crate::serving::entrance::{ArrivalGiver, ArrivalTaker};
use crate::serving::fault::ServeFault;
use sms_centre_spec::jobs::{Job, Reply};
use sms_keeper::{Keeper, Seat};
use smsc_arrivals::Duplicate;
use smsc_endpoint::LinkAccess;
use smsc_observer::Observer;
use std::alloc::Global;
use std::io::{Read, Write};
use std::net::OpenStream;
use std::snapshot::Snapshot;
use std::sync::{Arc, Wait};
use std::thread::{self, Promise, PromisedHandle, Threads};
use std::time::Clock;

/// What the thread of a seat promises: it hands this seat back, and the end at which it took connections. Those sat at the seat, and were admitted
/// by these.
#[derive(Drop)]
pub(crate) struct SeatPromise<S: Drop> {
    pub(crate) seat: Snapshot<Seat<Job, Reply>>,
    pub(crate) accounts: Snapshot<Arc<AccountBook>>,
    pub(crate) access: Snapshot<Arc<LinkAccess>>,
    pub(crate) taker: Snapshot<ArrivalTaker<S>>,
}

impl<S: Read + Write + Drop> Promise<Returned<S>> for SeatPromise<S> {
    ghost kept_by = { λ p r. IsSameSeat p.seat.value r.seat × IsSameTaker p.taker.value r.taker
        × IsHandedBack S.remaining S.contents (admitted_by p) r.seat (arrivals_among (items_taken r.taker)) };
}

/// The thread of a seat.
pub(crate) type SeatThread<S> = PromisedHandle<Returned<S>, SeatPromise<S>>;

/// Starts the thread of a seat.
pub(crate) fn start_thread<
    R: Threads + Wait + Clock + Copy + Send + 'static,
    S: OpenStream + Duplicate + Read + Write + Drop + Send + 'static,
    T: Observer + Drop + Send + Sync + 'static,
>(
    context: SeatContext<R, S, T>,
    seat: Seat<Job, Reply>,
    taker: ArrivalTaker<S>,
) -> Result<SeatThread<S>, ServeFault>
    requires seat { (put_by seat ≡ []) × (taken_by seat ≡ []) }
    requires taker { items_taken taker ≡ [] }
    ensures { IfOk result (λ h. (h.promise.seat.value ≡ seat) × (h.promise.taker.value ≡ taker)
        × (admitted_by h.promise ≡ admits (arc_value context.accounts) (arc_value context.access))) }
{
    let rt = context.rt;
    let promise = SeatPromise {
        seat: Snapshot::of(&seat),
        accounts: Snapshot::of(&context.accounts),
        access: Snapshot::of(&context.access),
        taker: Snapshot::of(&taker),
    };
    let started = thread::spawn_with(
        &rt,
        promise,
        move || -> Returned<S>
            requires seat { (put_by seat ≡ []) × (taken_by seat ≡ []) }
            requires taker { items_taken taker ≡ [] }
            ensures seat { IsSameSeat seat result.seat }
            ensures taker { IsSameTaker taker result.taker }
            ensures sat { IsHandedBack S.remaining S.contents (admits (arc_value context.accounts) (arc_value context.access)) result.seat
                (arrivals_among (items_taken result.taker)) }
        { serve_seat(&context, seat, taker) },
    );
    match started {
        Ok(thread) => Ok(thread),
        Err(_) => Err(ServeFault::NoThread),
    }
}

/// Waits for the threads of seats, of a run that could not start.
pub(crate) fn give_up<R: Threads, S: Read + Write + Drop>(rt: &R, threads: Vec<SeatThread<S>>) {
    for thread in threads {
        drop(thread.join(rt));
    }
}

// Waits for the thread of the next seat, and takes the seat back, and the end at which it took connections.
fn settle<R: Threads + Wait, S: Read + Write + Drop>(
    rt: &R,
    alloc: Global,
    keeper: &mut Keeper<Job, Reply>,
    giver: &mut ArrivalGiver<S>,
    thread: SeatThread<S>,
)
    requires seat { IsSeatOf keeper.old (seat_in thread) }
    requires way { IsWayOf giver.old (end_of thread) }
    requires next { seat_of (end_of thread) ≡ length (settled_at giver.old) }
    requires made { length (settled_at giver.old) < made_by giver.old }
    ensures keeper { IsUnchanged keeper.old keeper.new }
    ensures same { IsSameGiver giver.old giver.new × (made_by giver.new ≡ made_by giver.old) × (items_given giver.new ≡ items_given giver.old) }
    ensures did { (took : List (Option (ArrivalOf S))) × (settled_at giver.new ≡ settled_at giver.old ++ took ∷ [])
        × (has_end (of (number_of (seat_in thread)) (ran_by keeper.old)) ≡ true
        → SeatDid S.remaining S.contents (admitted_by thread.promise)
        (for_seat (number_of (seat_in thread)) (work (ran_by keeper.old)))
        (given_by keeper.old (number_of (seat_in thread))) (arrivals_among took)) }
{
    let Returned { seat, taker } = thread.join(rt);
    let rest = keeper.take_back(rt, alloc, seat);
    drop(rest);
    giver.settle(taker);
}

/// Waits for the threads of all seats and takes the seats back, once the keeper has popped the end mark of each.
pub(crate) fn settle_all<R: Threads + Wait, S: Read + Write + Drop>(
    rt: &R,
    alloc: Global,
    keeper: &mut Keeper<Job, Reply>,
    giver: &mut ArrivalGiver<S>,
    threads: Vec<SeatThread<S>>,
)
    requires seats { AreAt keeper.old threads.items }
    requires closed { IsClosed keeper.old }
    requires count { length threads.items ≡ seats_of keeper.old }
    requires ways { AreWays giver.old threads.items }
    requires made { made_by giver.old ≡ length threads.items }
    requires none { settled_at giver.old ≡ [] }
    ensures keeper { IsUnchanged keeper.old keeper.new }
    ensures giver { (made_by giver.new ≡ made_by giver.old) × (items_given giver.new ≡ items_given giver.old) }
    ensures did { (n : ℕ) → n < seats_of keeper.old → (took : List (Option (ArrivalOf S))) × (slice_get (settled_at giver.new) n ≡ Some took)
        × ((admitted : Admitted) → HaveAdmitted admitted threads.items
        → SeatDid S.remaining S.contents admitted (for_seat n (work (ran_by keeper.old))) (given_by keeper.old n) (arrivals_among took)) }
{
    for thread in threads {
        settle(rt, alloc, keeper, giver, thread);
    }
}

/// Takes back what no seat took, and closes it.
pub(crate) fn take_back_all<R: Wait, S: Drop>(rt: &R, giver: &mut ArrivalGiver<S>)
    ensures shared { AreShared (known_by giver.new) [] }
    ensures giver { (made_by giver.new ≡ made_by giver.old) × (items_given giver.new ≡ items_given giver.old)
        × (settled_at giver.new ≡ settled_at giver.old) }
{
    for _ in rt.forever() {
        match giver.take_back(rt) {
            Some(item) => drop(item),
            None => return,
        }
    }
}
