//! A run of the server.
ghost use Rattle.std.specs.Thread.{IsSend};
ghost use Rattle.std.specs.Prelude.{◌≡◌, ◌<◌, ⊤, ℕ, List, [], Err, IfErr, IfOk, Ok, Option, Some, length, slice_get};
ghost use Rattle.std.specs.Arc.{arc_value};
ghost use Rattle.sms_hub.specs.Lasting.{Ran};
ghost use Rattle.sms_centre_spec.specs.declared.jobs.job.Job.{Job as JobOf};
ghost use Rattle.sms_centre_spec.specs.declared.jobs.reply.Reply.{Reply as ReplyOf};
ghost use Rattle.sms_keeper.specs.Groups.{Between};
ghost use Rattle.sms_keeper.specs.History.{for_seat, work};
ghost use Rattle.sms_keeper.specs.Keeping.{IsClosed, given_by, ran_by, seats_of};
ghost use Rattle.sms_keeper.specs.Seating.{IsNewKeeper, IsUnchanged};
ghost use Rattle.sms_seats.specs.declared.seat.Seat.{Seat as SeatOf};
ghost use Rattle.sms_seats.specs.Seats.{put_by, taken_by};
ghost use Rattle.sms_rows.specs.keep.StoreOutcome.{WasHonest};
ghost use Rattle.smsc_service.specs.Course.{after, gives};
ghost use Rattle.smsc_service.specs.InService.{HasHonestStore, IsRunAs, store_in};
ghost use Rattle.smsc_arrivals.specs.Sharing.{of};
ghost use Rattle.smsc_arrivals.specs.Ways.{made_by, settled_at};
ghost use Rattle.smsc_arrivals.specs.declared.arrival.Arrival.{Arrival as ArrivalOf};
ghost use Rattle.smsc_arrivals.specs.declared.doors.Doors.{Doors as DoorsOf};
ghost use Rattle.smsc_arrivals.specs.declared.sharing.ends.Giver.{Giver as GiverOf};
ghost use Rattle.smsc_server.specs.serving.Connections.{Admitted, admits};
ghost use Rattle.smsc_server.specs.serving.Entering.{Came, HasSameSeats, HaveEntered, doors_of};
ghost use Rattle.smsc_server.specs.serving.SeatThreads.{AreAt, AreWays, HaveAdmitted, HaveStarted};
ghost use Rattle.smsc_server.specs.serving.Serving.{IsOneHistory, IsServed};
ghost use Rattle.smsc_server.specs.serving.Sittings.{SeatDid};

use crate::connection_laws::each_connection_reads_the_centres_answers;
use crate::serving::connection::Ports;
use crate::serving::entrance::{Entrance, EntranceThread};
use crate::serving::fault::ServeFault;
use crate::serving::orders::Orders;
use crate::serving::poller::Poller;
use crate::serving::seat_thread::{SeatThread, give_up, settle_all, take_back_all};
use crate::serving::server::{Given, SLOTS, Server, Shared, start_entrance};
use sms_centre_spec::jobs::{Job, Reply};
use sms_hub::{Hub, run_terms};
use sms_keeper::{Clock, Gate, Item, Keeper, Machine, Recorder, Seat};
use smsc_arrivals::{Door, Doors, Duplicate};
use smsc_observer::{Event, Observer, SEATS};
use smsc_service::{Archive, CentreAccount, CentreStore, Forgetting, serve_with};
use std::alloc::Global;
use std::io::{Read, Write};
use std::net::OpenStream;
use std::sync::Wait;
use std::thread::Threads;
use std::time::Clock as SystemClock;

// Tells how large groups were, and that the store refused one. It keeps no item. Where the machine could not be opened again, it orders
// the run to end: each seat leaves once its requests have their answers.
#[derive(Drop)]
struct GroupWatch<'a, T> {
    observer: &'a T,
    orders: &'a Orders,
}

impl<'a, T: Observer> Recorder<Job, Reply> for GroupWatch<'a, T> {
    ghost use Rattle.std.specs.Prelude.{⊤};

    ghost has = { λ watch told. ⊤ };

    fn record(&mut self, _item: &Item<Job, Reply>) {}

    fn end_group(&mut self, count: usize) {
        self.observer.end_group(count);
    }

    fn reopened(&mut self) {
        self.observer.observe(&Event::Reopened);
    }

    fn failed(&mut self) {
        self.observer.observe(&Event::Failed);
        self.orders.stop();
    }
}

// Runs the keeper while the threads of the run put what their connections ask.
fn run_keeper<R: Wait, M: Machine<Job, Reply>, G: Gate, C: Clock, T: Observer>(
    rt: &R,
    alloc: Global,
    machine: &mut M,
    gate: &G,
    clock: &C,
    observer: &T,
    orders: &Orders,
    keeper: &mut Keeper<Job, Reply>,
) -> Result<(), ServeFault>
    ensures ran { IfOk result (λ _. Ran (C.reads clock.now) M.gives M.after (M.is_honest machine.new)
        (Between (M.stands machine.old)) (Between (M.stands machine.new)) (λ told. ⊤) (λ told. ⊤) keeper.old keeper.new) }
    // Also where it could not be opened again.
    ensures failed { IfErr result (λ _. Ran (C.reads clock.now) M.gives M.after (M.is_honest machine.new)
        (Between (M.stands machine.old)) (M.fails_as machine.new) (λ told. ⊤) (λ told. ⊤) keeper.old keeper.new) }
    ensures closed { IsClosed keeper.new }
    ensures before { M.is_honest machine.new → M.is_honest machine.old }
{
    let mut watch = GroupWatch { observer, orders };
    match run_terms(rt, alloc, keeper, machine, gate, clock, &mut watch) {
        Ok(()) => Ok(()),
        Err(fault) => Err(ServeFault::from(fault)),
    }
}

// Takes all seats back, and what was given to none. Gives the listeners.
fn close_all<
    R: Threads + Wait,
    S: OpenStream + Duplicate + Read + Write + Drop + Send + 'static,
    L: Door<Stream = S> + Drop,
>(
    rt: &R,
    alloc: Global,
    keeper: &mut Keeper<Job, Reply>,
    entrance: Entrance<L, S>,
    threads: Vec<SeatThread<S>>,
) -> Doors<L>
    requires seats { AreAt keeper.old threads.items }
    requires closed { IsClosed keeper.old }
    requires count { (length threads.items ≡ 32) × (seats_of keeper.old ≡ 32) }
    requires ways { AreWays entrance.giver threads.items × (made_by entrance.giver ≡ 32) × (settled_at entrance.giver ≡ []) }
    ensures keeper { IsUnchanged keeper.old keeper.new }
    ensures did { (start : DoorsOf L) → HaveEntered L.came start entrance → (arrivals : List (ℕ × ArrivalOf S)) × Came L.came start result arrivals
        × ((admitted : Admitted) → HaveAdmitted admitted threads.items → (n : ℕ) → n < 32
        → SeatDid S.remaining S.contents admitted (for_seat n (work (ran_by keeper.old))) (given_by keeper.old n) (of n arrivals)) }
{
    let Entrance { doors, giver, .. } = entrance;
    let mut giver = giver;
    settle_all(rt, alloc, keeper, &mut giver, threads);
    take_back_all(rt, &mut giver);
    drop(giver);
    doors
}

// Runs the keeper, tells the threads that it has ended, and takes their seats back.
fn run_started<
    R: Threads + Wait,
    M: Machine<Job, Reply>,
    G: Gate,
    C: Clock,
    S: OpenStream + Duplicate + Read + Write + Drop + Send + 'static,
    L: Door<Stream = S> + Drop + Send + 'static,
    T: Observer + Drop,
>(
    rt: &R,
    alloc: Global,
    machine: &mut M,
    gate: &G,
    clock: &C,
    shared: &Shared<T>,
    keeper: Keeper<Job, Reply>,
    server: Server<S>,
    entrance: EntranceThread<L, S>,
) -> Result<Doors<L>, ServeFault>
    requires seats { AreAt keeper server.seats.items }
    requires count { length server.seats.items ≡ 32 }
    requires ways { AreWays entrance.promise.entrance.value.giver server.seats.items }
    requires made { (made_by entrance.promise.entrance.value.giver ≡ 32) × (settled_at entrance.promise.entrance.value.giver ≡ []) }
    requires new { IsNewKeeper 32 keeper }
    ensures history { IfOk result (λ doors_then. (admitted : Admitted) (doors : DoorsOf L) → HaveAdmitted admitted server.seats.items
        → HaveEntered L.came doors entrance.promise.entrance.value
        → IsOneHistory S.remaining S.contents admitted (C.reads clock.now) L.came doors doors_then
        M.gives M.after (M.is_honest machine.new) (Between (M.stands machine.old)) (Between (M.stands machine.new))) }
    // So it is where the machine could not be opened again: each job that a connection put was run, or refused, and given its replies.
    ensures failed { IfErr result (λ _. (admitted : Admitted) (doors : DoorsOf L) → HaveAdmitted admitted server.seats.items
        → HaveEntered L.came doors entrance.promise.entrance.value
        → (doors_then : DoorsOf L) × IsOneHistory S.remaining S.contents admitted (C.reads clock.now) L.came doors doors_then
        M.gives M.after (M.is_honest machine.new) (Between (M.stands machine.old)) (M.fails_as machine.new)) }
    ensures before { M.is_honest machine.new → M.is_honest machine.old }
{
    let mut keeper = keeper;
    let ended = run_keeper(
        rt,
        alloc,
        machine,
        gate,
        clock,
        &*shared.observer,
        &*shared.board.orders,
        &mut keeper,
    );
    shared.board.end();
    let entrance = entrance.join(rt);
    let threads = server.end(rt);
    match ended {
        Ok(()) => {
            keeper.know_others();
            Ok(close_all(rt, alloc, &mut keeper, entrance, threads))
        }
        Err(fault) => {
            keeper.know_others();
            let doors = close_all(rt, alloc, &mut keeper, entrance, threads);
            drop(doors);
            Err(fault)
        }
    }
}

// Starts all threads of a run.
fn start_all<
    R: Threads + Wait + SystemClock + Copy + Send + 'static,
    S: OpenStream + Duplicate + Read + Write + Drop + Send + 'static,
    L: Door<Stream = S> + Drop + Send + 'static,
    T: Observer + Drop + Send + Sync + 'static,
>(
    rt: R,
    alloc: Global,
    shared: &Shared<T>,
    server: &mut Server<S>,
    doors: Doors<L>,
    poller: Poller,
    seats: Vec<Seat<Job, Reply>>,
) -> Result<EntranceThread<L, S>, ServeFault>
    requires none { server.old.seats.items ≡ [] }
    requires new { (n : ℕ) (s : SeatOf JobOf ReplyOf) → slice_get seats.items n ≡ Some s → (put_by s ≡ []) × (taken_by s ≡ []) }
    ensures entrance { IfOk result (λ thread. HaveEntered L.came doors thread.promise.entrance.value) }
    ensures seats { IfOk result (λ thread. (giver : GiverOf (Option (ArrivalOf S)))
        × HaveStarted (admits (arc_value shared.now.accounts) (arc_value shared.now.access)) giver seats.items server.new.seats.items
        × HasSameSeats giver thread.promise.entrance.value.giver) }
{
    let giver = server.start(rt, alloc, shared, seats)?;
    start_entrance(rt, shared, doors, poller, giver)
}

/// Runs a machine for the connections of two ports, until as many were served as are given, or the run is ordered to end.
///
/// # Errors
/// As `serve`.
pub fn serve_machine<
    R: Threads + Wait + SystemClock + Copy + Send + 'static,
    M: Machine<Job, Reply>,
    G: Gate,
    C: Clock,
    L: Door + Drop + Send + 'static,
    T: Observer + Drop + Send + Sync + 'static,
>(
    rt: R,
    alloc: Global,
    machine: &mut M,
    gate: &G,
    clock: &C,
    ports: Ports<L>,
    given: &Given<T>,
) -> Result<Doors<L>, ServeFault>
where
    L::Stream: OpenStream + Duplicate + Read + Write + Send + 'static,
    // What its connections asked was run, and is one history of the machine. They are those that came at the ports.
    ensures history { IfOk result (λ doors. IsOneHistory L.Stream.remaining L.Stream.contents
        (admits (arc_value given.now.accounts) (arc_value given.now.access)) (C.reads clock.now) L.came (doors_of ports) doors
        M.gives M.after (M.is_honest machine.new) (Between (M.stands machine.old)) (Between (M.stands machine.new))) }
    ensures before { M.is_honest machine.new → M.is_honest machine.old }
{
    let (keeper, seats) = Hub::with_seats(alloc, SLOTS, SEATS)?;
    let Ports {
        doors,
        poller,
        waker,
    } = ports;
    let shared = Shared::of(alloc, given, waker)?;
    let mut server = Server::new(alloc);
    match start_all(rt, alloc, &shared, &mut server, doors, poller, seats) {
        Ok(entrance) => run_started(
            &rt, alloc, machine, gate, clock, &shared, keeper, server, entrance,
        ),
        Err(fault) => {
            shared.board.end();
            let threads = server.end(&rt);
            give_up(&rt, threads);
            Err(fault)
        }
    }
}

// What a run that ended in order gives: the listeners, the keep and the archive.
fn with_parts<L: Drop, K: Drop, A: Drop>(
    ended: Result<Doors<L>, ServeFault>,
    keep: K,
    archive: A,
) -> Result<(Doors<L>, K, A), ServeFault>
    ensures given { IfOk result (λ given. (ended ≡ Ok given.0) × (given.1 ≡ keep) × (given.2 ≡ archive)) }
    ensures fault { IfErr result (λ fault. ended ≡ Err fault) }
{
    match ended {
        Ok(doors) => Ok((doors, keep, archive)),
        Err(fault) => {
            drop(keep);
            drop(archive);
            Err(fault)
        }
    }
}

/// Starts a centre with the rows of a keep and these accounts, and serves the connections of two ports. The keep was opened without accounts. The
/// run ends once as many connections were served as are given, or it is ordered to end. Then it gives the listeners back, the keep and the
/// archive. At most 32 connections are open at once. Those beyond wait unaccepted, and each is accepted as a seat becomes free. As it runs it
/// forgets what it is to forget.
///
/// # Errors
/// The store gave no rows, or they are not sound. A growth, a thread or a file was refused. Or the store refused a step and could not
/// be read again.
pub fn serve<
    R: Threads + Wait + SystemClock + Copy + Send + 'static,
    K: CentreStore + Drop,
    A: Archive + Drop,
    G: Gate,
    C: Clock,
    L: Door + Drop + Send + 'static,
    T: Observer + Drop + Send + Sync + 'static,
>(
    rt: R,
    alloc: Global,
    keep: K,
    accounts: Vec<CentreAccount>,
    forgetting: Forgetting<A>,
    gate: &G,
    clock: &C,
    ports: Ports<L>,
    given: &Given<T>,
) -> Result<(Doors<L>, K, A), ServeFault>
where
    L::Stream: OpenStream + Duplicate + Read + Write + Send + 'static,
    // What its connections asked was run, and is one history of the centre's definition. It begins with the rows of the keep, the accounts and nobody
    // at any seat. The connections are those that came at the ports. Each read the centre's answers to its own requests in its own part of that
    // history, and had all replies of that part. The keep that is given back holds the rows of the end. Each message that went is kept by the
    // archive that is given back, with the number of its parts.
    ensures served { IfOk result (λ ended. IsServed L.Stream.remaining L.Stream.contents
        (admits (arc_value given.now.accounts) (arc_value given.now.access)) (C.reads clock.now) L.came (doors_of ports) ended.0 K.state A.keeps keep
        accounts.items ended.1 ended.2) }
{
    each_connection_reads_the_centres_answers::<L::Stream>();
    let served = serve_with(
        alloc,
        keep,
        accounts,
        given.links.as_ref(),
        given.orders.cutoff(),
        given.orders.desk(),
        forgetting,
        |service|
            requires listener { IsSend L.row }
            requires stream { IsSend L.Stream.row }
            requires observer { IsSend T.row }
            ensures history { IfOk result (λ doors. IsOneHistory L.Stream.remaining L.Stream.contents
                (admits (arc_value given.entry.now.accounts) (arc_value given.entry.now.access)) (C.reads clock.entry.now)
                L.came (doors_of ports) doors gives after (HasHonestStore K.state service.new) (IsRunAs K.state A.keeps service.old)
                (IsRunAs K.state A.keeps service.new)) }
            ensures before { WasHonest (K.state (store_in service.old)) (K.state (store_in service.new)) }
        { serve_machine(rt, alloc, service, gate, clock, ports, given) },
    );
    match served {
        Ok((ended, keep, archive)) => with_parts(ended, keep, archive),
        Err(error) => Err(ServeFault::from(error)),
    }
}
