//! The threads of a run.
ghost use Rattle.std.specs.Prelude.{◌≡◌, ◌∷◌, ◌++◌, ◌+◌, ℕ, [], Some, IfOk, OnOk, slice_get};
ghost use Rattle.std.specs.Arc.{arc_value};
ghost use Rattle.sms_seats.specs.declared.seat.Seat.{Seat as SeatOf};
ghost use Rattle.sms_seats.specs.Seats.{put_by, taken_by};
ghost use Rattle.sms_centre_spec.specs.declared.jobs.job.Job.{Job as JobOf};
ghost use Rattle.sms_centre_spec.specs.declared.jobs.reply.Reply.{Reply as ReplyOf};
ghost use Rattle.smsc_server.specs.serving.Connections.{admits};
ghost use Rattle.smsc_arrivals.specs.Ways.{IsNewGiver, IsSameGiver, given_by, made_by, returned_to, settled_at, taken_by as items_taken};
ghost use Rattle.smsc_arrivals.specs.declared.doors.Doors.{Doors as DoorsOf};
ghost use Rattle.smsc_server.specs.serving.Entering.{HasSameSeats, HaveEntered};
ghost use Rattle.smsc_server.specs.serving.SeatThreads.{HasOneMore, HaveStarted, IsThreadOf, SeatThread as ThreadOf, end_of};

use crate::serving::accepting::{Acceptor, accept_all};
use crate::serving::account_book::AccountBook;
use crate::serving::allowances::Allowances;
use crate::serving::board::Board;
use crate::serving::endpoints::SeatContext;
use crate::serving::entrance::{
    ArrivalGiver, ArrivalTaker, Entrance, EntrancePromise, EntranceThread, PLACES,
};
use crate::serving::fault::ServeFault;
use crate::serving::orders::Orders;
use crate::serving::poller::Poller;
use crate::serving::seat_thread::{SeatThread, start_thread};
use crossbeam_channel::{Sender, bounded};
use mio::Waker;
use sms_centre_spec::jobs::{Job, Reply};
use sms_keeper::Seat;
use smsc_arrivals::{Door, Doors, Duplicate, Reader, Reading, share};
use smsc_endpoint::LinkAccess;
use smsc_observer::{Observer, SEATS};
use smsc_service::LinkBoard;
use std::alloc::{AllocError, Global};
use std::io::{Read, Write};
use std::net::OpenStream;
use std::snapshot::Snapshot;
use std::sync::{Arc, Wait};
use std::thread::{self, JoinHandle, Threads};
use std::time::Clock;

/// How many jobs wait at most, and replies of one seat: a seat has at most eight requests and ten answers to receipts there.
pub(crate) const SLOTS: usize = 1024;

/// What the threads of a run are given.
#[derive(Drop)]
pub struct Given<T> {
    /// Who may bind. Whoever has it may renew it as the run goes on, where it is one that is renewed.
    pub accounts: Arc<AccountBook>,
    /// Who may have the link of a number.
    pub access: Arc<LinkAccess>,
    /// The observer of the run.
    pub observer: Arc<T>,
    /// What an operator orders of the run.
    pub orders: Arc<Orders>,
    /// Where the keeper puts down how links are, if anybody looks.
    pub links: Option<Arc<LinkBoard>>,
    /// How many connections are served in all; no end of them where this is none.
    pub sessions: Option<u32>,
    /// What the accounts may do. Whoever has it changes it as the run goes on.
    pub allowances: Arc<Allowances>,
}

/// What the threads of a run share.
#[derive(Drop)]
pub(crate) struct Shared<T> {
    accounts: Arc<AccountBook>,
    access: Arc<LinkAccess>,
    pub(crate) observer: Arc<T>,
    pub(crate) board: Arc<Board>,
    sessions: Option<u32>,
}

impl<T: Observer + Drop> Shared<T> {
    #[tactic(auto, using(crate::proofs::serving::Threads::admits_same))]
    pub(crate) fn of(alloc: Global, given: &Given<T>, waker: Waker) -> Result<Shared<T>, AllocError>
        ensures { IfOk result (λ shared. admits (arc_value shared.accounts) (arc_value shared.access)
            ≡ admits (arc_value given.now.accounts) (arc_value given.now.access)) }
    {
        let orders = Arc::try_clone(&given.orders)?;
        let allowances = Arc::try_clone(&given.allowances)?;
        Ok(Shared {
            accounts: Arc::try_clone(&given.accounts)?,
            access: Arc::try_clone(&given.access)?,
            observer: Arc::try_clone(&given.observer)?,
            board: Arc::new(alloc, Board::new(alloc, orders, waker, allowances)?)?,
            sessions: given.sessions,
        })
    }

    #[tactic(auto, using(crate::proofs::serving::Threads::admits_same))]
    fn context<R: Copy, S: Read + Drop>(
        &self,
        rt: R,
        alloc: Global,
        readings: Sender<Reading<S>>,
    ) -> Result<SeatContext<R, S, T>, AllocError>
        ensures { IfOk result (λ context. admits (arc_value context.accounts) (arc_value context.access)
            ≡ admits (arc_value self.now.accounts) (arc_value self.now.access)) }
    {
        Ok(SeatContext {
            rt,
            alloc,
            accounts: Arc::try_clone(&self.accounts)?,
            access: Arc::try_clone(&self.access)?,
            observer: Arc::try_clone(&self.observer)?,
            board: Arc::try_clone(&self.board)?,
            readings,
        })
    }
}

/// The threads of a run: those of the seats, and those that read for them.
#[derive(Drop)]
pub(crate) struct Server<S: Read + Write + Drop> {
    pub(crate) seats: Vec<SeatThread<S>>,
    readers: Vec<JoinHandle<()>>,
}

// The reader of a seat, and the way to it.
fn open_reader<R: Copy, S: Read + Drop>(
    alloc: Global,
    rt: R,
    seat: &Seat<Job, Reply>,
) -> Result<(Sender<Reading<S>>, Reader<R, S>), AllocError> {
    let (sender, readings) = bounded::<Reading<S>, _>(alloc, 1)?;
    let bell = seat.bell()?;
    Ok((sender, Reader { rt, bell, readings }))
}

impl<S: OpenStream + Duplicate + Read + Write + Drop + Send + 'static> Server<S> {
    /// No thread.
    pub(crate) fn new(alloc: Global) -> Server<S>
        ensures { result.seats.items ≡ [] }
    {
        Server {
            seats: Vec::new(alloc),
            readers: Vec::new(alloc),
        }
    }

    fn start_reader<R: Wait + Threads + Copy + Send + 'static>(
        &mut self,
        reader: Reader<R, S>,
    ) -> Result<(), ServeFault>
        ensures { self.new.seats.items ≡ self.old.seats.items }
    {
        self.readers.reserve(1)?;
        let rt = reader.rt;
        match thread::spawn(&rt, move || reader.read_all()) {
            Ok(thread) => {
                self.readers.push_reserved(thread);
                Ok(())
            }
            Err(_) => Err(ServeFault::NoThread),
        }
    }

    fn start_endpoints<
        R: Threads + Wait + Clock + Copy + Send + 'static,
        T: Observer + Drop + Send + Sync + 'static,
    >(
        &mut self,
        context: SeatContext<R, S, T>,
        seat: Seat<Job, Reply>,
        taker: ArrivalTaker<S>,
    ) -> Result<(), ServeFault>
        requires seat { (put_by seat ≡ []) × (taken_by seat ≡ []) }
        requires taker { items_taken taker ≡ [] }
        ensures { OnOk result ((t : ThreadOf S) × (self.new.seats.items ≡ self.old.seats.items ++ t ∷ [])
            × IsThreadOf (admits (arc_value context.accounts) (arc_value context.access)) seat t × (end_of t ≡ taker)) }
    {
        self.seats.reserve(1)?;
        let thread = start_thread(context, seat, taker)?;
        self.seats.push_reserved(thread);
        Ok(())
    }

    // Starts the two threads of one more seat: one reads the connection, and the other serves it.
    fn start_seat<
        R: Threads + Wait + Clock + Copy + Send + 'static,
        T: Observer + Drop + Send + Sync + 'static,
    >(
        &mut self,
        rt: R,
        alloc: Global,
        shared: &Shared<T>,
        giver: &mut ArrivalGiver<S>,
        seat: Seat<Job, Reply>,
    ) -> Result<(), ServeFault>
        requires seat { (put_by seat ≡ []) × (taken_by seat ≡ []) }
        requires giver { returned_to giver.old ≡ [] }
        ensures more { OnOk result (HasOneMore (admits (arc_value shared.now.accounts) (arc_value shared.now.access)) giver.new (made_by giver.old) seat
            self.old.seats.items self.new.seats.items) }
        ensures giver { OnOk result (IsSameGiver giver.old giver.new × (made_by giver.new ≡ made_by giver.old + 1) × (given_by giver.new ≡ given_by giver.old)
            × (settled_at giver.new ≡ settled_at giver.old) × (returned_to giver.new ≡ [])) }
    {
        let (sender, reader) = open_reader(alloc, rt, &seat)?;
        let context = shared.context(rt, alloc, sender)?;
        let taker = giver.next_seat()?;
        self.start_reader(reader)?;
        self.start_endpoints(context, seat, taker)
    }

    // Starts the threads of all seats. Once one could not be had the others are let go.
    fn start_seats<
        R: Threads + Wait + Clock + Copy + Send + 'static,
        T: Observer + Drop + Send + Sync + 'static,
    >(
        &mut self,
        rt: R,
        alloc: Global,
        shared: &Shared<T>,
        giver: &mut ArrivalGiver<S>,
        seats: Vec<Seat<Job, Reply>>,
    ) -> Result<(), ServeFault>
        requires none { self.old.seats.items ≡ [] }
        requires giver { IsNewGiver giver.old }
        requires new { (n : ℕ) (s : SeatOf JobOf ReplyOf) → slice_get seats.items n ≡ Some s → (put_by s ≡ []) × (taken_by s ≡ []) }
        ensures { OnOk result (HaveStarted (admits (arc_value shared.now.accounts) (arc_value shared.now.access)) giver.new seats.items self.new.seats.items) }
    {
        let mut started = Ok(());
        for seat in seats {
            if started.is_ok() {
                started = self.start_seat(rt, alloc, shared, giver, seat);
            }
        }
        started
    }

    /// Starts the threads of all seats, and gives where connections are given to them.
    pub(crate) fn start<
        R: Threads + Wait + Clock + Copy + Send + 'static,
        T: Observer + Drop + Send + Sync + 'static,
    >(
        &mut self,
        rt: R,
        alloc: Global,
        shared: &Shared<T>,
        seats: Vec<Seat<Job, Reply>>,
    ) -> Result<ArrivalGiver<S>, ServeFault>
        requires none { self.old.seats.items ≡ [] }
        requires new { (n : ℕ) (s : SeatOf JobOf ReplyOf) → slice_get seats.items n ≡ Some s → (put_by s ≡ []) × (taken_by s ≡ []) }
        ensures { IfOk result (λ giver. HaveStarted (admits (arc_value shared.now.accounts) (arc_value shared.now.access))
            giver seats.items self.new.seats.items) }
    {
        let mut giver = share(alloc, PLACES)?;
        shared.board.open(&rt);
        self.start_seats(rt, alloc, shared, &mut giver, seats)?;
        Ok(giver)
    }

    /// Waits for the threads that read. Gives those of the seats.
    pub(crate) fn end<R: Threads>(self, rt: &R) -> Vec<SeatThread<S>>
        ensures { result ≡ self.seats }
    {
        let Server { seats, readers } = self;
        for thread in readers {
            thread.join(rt);
        }
        seats
    }
}

// Starts the thread that takes connections.
fn start_acceptor<
    R: Threads + Wait + Clock + Copy + Send + 'static,
    S: Drop + Send + 'static,
    L: Door<Stream = S> + Drop + Send + 'static,
    T: Observer + Drop + Send + Sync + 'static,
>(acceptor: Acceptor<R, L, S, T>) -> Result<EntranceThread<L, S>, ServeFault>
    ensures { IfOk result (λ thread. thread.promise.entrance.value ≡ acceptor.entrance) }
{
    let rt = acceptor.rt;
    let promise = EntrancePromise {
        entrance: Snapshot::of(&acceptor.entrance),
    };
    let started = thread::spawn_with(
        &rt,
        promise,
        move || -> Entrance<L, S>
            ensures entered { (start : DoorsOf L) → HaveEntered L.came start acceptor.entrance → HaveEntered L.came start result }
            ensures seats { HasSameSeats acceptor.entrance.giver result.giver }
        { accept_all(acceptor) },
    );
    match started {
        Ok(thread) => Ok(thread),
        Err(_) => Err(ServeFault::NoThread),
    }
}

/// Starts the thread that takes connections, and gives them to the seats.
pub(crate) fn start_entrance<
    R: Threads + Wait + Clock + Copy + Send + 'static,
    S: Drop + Send + 'static,
    L: Door<Stream = S> + Drop + Send + 'static,
    T: Observer + Drop + Send + Sync + 'static,
>(
    rt: R,
    shared: &Shared<T>,
    doors: Doors<L>,
    poller: Poller,
    giver: ArrivalGiver<S>,
) -> Result<EntranceThread<L, S>, ServeFault>
    requires { given_by giver ≡ [] }
    ensures { IfOk result (λ thread. HaveEntered L.came doors thread.promise.entrance.value × HasSameSeats giver thread.promise.entrance.value.giver) }
{
    let board = Arc::try_clone(&shared.board)?;
    let observer = Arc::try_clone(&shared.observer)?;
    start_acceptor(Acceptor {
        rt,
        entrance: Entrance::new(doors, giver),
        poller,
        board,
        observer,
        told: 0,
        sessions: shared.sessions,
    })
}
