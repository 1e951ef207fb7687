//! The threads of the seats.
ghost use Rattle.std.specs.Prelude.{◌≡◌, [], IfOk, ⊤};
ghost use Rattle.std.specs.declared.net.socket_addr.SocketAddr.{SocketAddr as PeerOf};
ghost use Rattle.std.specs.Arc.{arc_value};
ghost use Rattle.smsc_endpoint.specs.declared.link_access.LinkAccess.{LinkAccess as AccessOf};
ghost use Rattle.sms_seats.specs.Seats.{IsSameSeat, put_by, taken_by};
ghost use Rattle.smsc_loop.specs.Owing.{IsCleared};
ghost use Rattle.smsc_arrivals.specs.Ways.{IsSameTaker, taken_by as items_taken};
ghost use Rattle.smsc_arrivals.specs.declared.arrival.PeerKind.TheVariants.{Application as ForApplication, Handset as ForHandset};
ghost use Rattle.smsc_server.specs.serving.SeatEvents.{ends_intake as ends_intake_after, ends_waiting as ends_waiting_after};
ghost use Rattle.smsc_server.specs.serving.AccountBooks.{Book};
ghost use Rattle.smsc_server.specs.serving.Connections.{HasSat, IsOpened, admits, arrival_of};
ghost use Rattle.smsc_server.specs.serving.Entering.{arrivals_among};
ghost use Rattle.smsc_server.specs.serving.Sittings.{HaveSat, IsHandedBack};

use crate::serving::account_book::AccountBook;
use crate::serving::board::Board;
use crate::serving::clock::milliseconds;
use crate::serving::connection::Socket;
use crate::serving::entrance::{ArrivalTaker, next_arrival};
use crate::serving::refusing::no_room;
use crate::serving::telling::{NO_ACCOUNT, account_in, event_of_note};
use crossbeam_channel::Sender;
use smpp_session::FullAccounts;
use sms_centre_spec::jobs::{Job, Reply};
use sms_keeper::Seat;
use smsc_arrivals::{Arrival, Duplicate, PeerKind, Reading};
use smsc_endpoint::{Esme, LinkAccess, LinkEndpoint};
use smsc_loop::{Activity, Counts, LeaveReason, Note, OpenSeat, Order, Surroundings, Wire, serve};
use smsc_observer::Observer;
use std::alloc::Global;
use std::io::{Read, Write};
use std::net::{OpenStream, SocketAddr};
use std::sync::atomic::{AtomicBool, AtomicU8, AtomicU64, Ordering};
use std::sync::{Arc, Wait};
use std::time::Clock;

// Milliseconds after which the centre begins nothing more once a seat saw an order to stop. It sees one within a second. So much is left of
// the seven seconds that an endpoint waits for its answers: the commit that is under way ends, each request that waits is refused, and all
// of them are answered.
const INTAKE_LIMIT: u64 = 4_000;

// And after which no seat waits for anything any more. What is left of ten seconds is for the threads to end, and for the store.
const STOP_LIMIT: u64 = 7_000;

/// What the thread of a seat has beside its seat.
#[derive(Drop)]
pub(crate) struct SeatContext<R, S: Read, T> {
    pub(crate) rt: R,
    pub(crate) alloc: Global,
    pub(crate) accounts: Arc<AccountBook>,
    pub(crate) access: Arc<LinkAccess>,
    pub(crate) observer: Arc<T>,
    pub(crate) board: Arc<Board>,
    /// To the thread that reads for the seat.
    pub(crate) readings: Sender<Reading<S>>,
}

// Whether the centre begins nothing more, so many milliseconds behind an order to stop.
fn ends_intake(passed: u64) -> bool
    ensures { result ≡ ends_intake_after passed }
{
    INTAKE_LIMIT <= passed
}

// Whether no seat waits any more.
fn ends_waiting(passed: u64) -> bool
    ensures { result ≡ ends_waiting_after passed }
{
    STOP_LIMIT <= passed
}

// What is round the endpoint of one connection.
#[derive(Drop)]
struct SeatSurroundings<'a, R: Wait, T> {
    rt: &'a R,
    board: &'a Board,
    observer: &'a T,
    side: PeerKind,
    peer: SocketAddr,
    // The endpoint said who it is.
    is_known: AtomicBool,
    // The place of the account that was bound last; no account has that of `NO_ACCOUNT`.
    account: AtomicU8,
    // It is about to bind, and nobody else is.
    binds: AtomicBool,
    // When the order to stop was seen, or 0.
    stopping: AtomicU64,
}

impl<'a, R: Wait + Clock, T: Observer> SeatSurroundings<'a, R, T> {
    // What others need of the note.
    fn follow(&self, seat: usize, note: &Note) {
        match note {
            Note::Bound(account, _) => {
                self.is_known.store(true, Ordering::SeqCst);
                self.account.store(*account, Ordering::SeqCst);
                self.board.bind(self.rt, seat, Some(*account));
            }
            Note::Unbound => self.board.bind(self.rt, seat, None),
            Note::LinkUp(handset) => {
                self.is_known.store(true, Ordering::SeqCst);
                self.board.link(self.rt, seat, Some(*handset));
            }
            Note::Taken(handset) => self.board.replace(self.rt, seat, handset),
            Note::Ended(_, _) => {
                self.board.link(self.rt, seat, None);
                self.board.bind(self.rt, seat, None);
            }
            _ => (),
        }
    }

    // The place of the account that was bound last.
    fn last_account(&self) -> Option<u8> {
        account_in(self.account.load(Ordering::SeqCst))
    }

    // Whether the endpoint may be bound yet.
    fn may_bind(&self) -> bool {
        self.side == PeerKind::Application && !self.is_known.load(Ordering::SeqCst)
    }

    // Since when the run is to end: now, where it was not known.
    fn stopping_since(&self, now: u64) -> u64 {
        let since = self.stopping.load(Ordering::SeqCst);
        if since > 0 {
            return since;
        }
        self.stopping.store(now, Ordering::SeqCst);
        now
    }

    // For how long the run has been ordered to end, as far as this seat knows.
    fn ending_for(&self) -> u64 {
        if !self.board.is_ending() {
            return 0;
        }
        let now = milliseconds(self.rt);
        now.saturating_sub(self.stopping_since(now))
    }

    // Whether the run was ordered to end so long ago that no seat waits any more. Before that the centre begins nothing more.
    fn is_late(&self) -> bool {
        let passed = self.ending_for();
        if ends_intake(passed) {
            self.board.orders.cutoff().pass();
        }
        ends_waiting(passed)
    }
}

impl<'a, R: Wait + Clock, T: Observer> Surroundings for SeatSurroundings<'a, R, T> {
    ghost was_over = { λ _. ⊤ };

    fn now(&self) -> u64 {
        milliseconds(self.rt)
    }

    fn is_over(&self) -> bool {
        self.board.is_over() || self.is_late()
    }

    fn do_others_wait(&self) -> bool {
        self.board.do_others_wait()
    }

    // A link's requests are of no account: it asks nothing by them.
    fn admits(&self, request: &Job) -> bool {
        self.side == PeerKind::Handset || self.board.admit(self.rt, request)
    }

    fn order(&self, seat: usize) -> Order {
        self.board.orders.of(seat)
    }

    fn before_octets(&self, _seat: usize) -> FullAccounts {
        if !self.may_bind() {
            return FullAccounts::none();
        }
        self.binds.store(true, Ordering::SeqCst);
        self.board.begin_bind(self.rt)
    }

    fn octets_taken(&self, _seat: usize) {
        if self.binds.swap(false, Ordering::SeqCst) {
            self.board.end_bind(self.rt);
        }
    }

    fn observe(&self, seat: usize, note: Note) {
        self.follow(seat, &note);
        let is_known = self.is_known.load(Ordering::SeqCst);
        let event = event_of_note(
            seat,
            self.side,
            self.peer,
            is_known,
            self.last_account(),
            note,
        );
        self.observer.observe(&event);
    }

    fn watch(&self, seat: usize, activity: &Activity) {
        self.observer.watch(seat, activity);
    }
}

// There is no memory for an endpoint.
fn refuse_new<A: Surroundings, W: Wire>(side: PeerKind, around: &A, seat: &OpenSeat, wire: &mut W) {
    let _ = wire.write_soon(no_room(side));
    around.observe(
        seat.number(),
        Note::Ended(LeaveReason::NoMemory, Counts::none()),
    );
}

fn serve_application<R: Wait + Clock, S: OpenStream + Duplicate + Read + Write + Drop, T: Observer>(
    rt: &R,
    alloc: Global,
    book: &AccountBook,
    around: &SeatSurroundings<'_, R, T>,
    seat: &mut OpenSeat,
    wire: &mut Socket<S>,
)
    ensures { (stream : S) → IsOpened S.remaining S.contents stream wire.old → (access : AccessOf) (peer : PeerOf)
        → HasSat S.remaining S.contents (admits book.now access) (arrival_of stream ForApplication peer) seat.old.seat seat.new.seat }
{
    let Ok(accounts) = book.in_force(rt) else {
        return refuse_new(PeerKind::Application, around, seat, wire);
    };
    let mut endpoint = Esme::new(alloc, accounts);
    serve(rt, alloc, around, wire, seat, &mut endpoint);
}

fn serve_handset<R: Wait + Clock, S: OpenStream + Duplicate + Read + Write + Drop, T: Observer>(
    rt: &R,
    alloc: Global,
    access: &Arc<LinkAccess>,
    around: &SeatSurroundings<'_, R, T>,
    seat: &mut OpenSeat,
    wire: &mut Socket<S>,
)
    ensures { (stream : S) → IsOpened S.remaining S.contents stream wire.old → (book : Book) (peer : PeerOf)
        → HasSat S.remaining S.contents (admits book (arc_value access.now)) (arrival_of stream ForHandset peer) seat.old.seat seat.new.seat }
{
    let Ok(access) = Arc::try_clone(access) else {
        return refuse_new(PeerKind::Handset, around, seat, wire);
    };
    let mut endpoint = LinkEndpoint::new(alloc, access);
    serve(rt, alloc, around, wire, seat, &mut endpoint);
}

impl<R: Wait + Clock, S: OpenStream + Duplicate + Read + Write + Drop, T: Observer> SeatContext<
    R,
    S,
    T,
> {
    fn surroundings(&self, side: PeerKind, peer: SocketAddr) -> SeatSurroundings<'_, R, T> {
        SeatSurroundings {
            rt: &self.rt,
            board: &self.board,
            observer: &self.observer,
            side,
            peer,
            is_known: AtomicBool::new(false),
            account: AtomicU8::new(NO_ACCOUNT),
            binds: AtomicBool::new(false),
            stopping: AtomicU64::new(0),
        }
    }

    fn serve_side(
        &self,
        around: &SeatSurroundings<'_, R, T>,
        seat: &mut OpenSeat,
        side: PeerKind,
        socket: &mut Socket<S>,
    )
        ensures { (stream : S) → IsOpened S.remaining S.contents stream socket.old → (peer : PeerOf)
            → HasSat S.remaining S.contents (admits (arc_value self.now.accounts) (arc_value self.now.access)) (arrival_of stream side peer)
            seat.old.seat seat.new.seat }
    {
        match side {
            PeerKind::Application => {
                serve_application(&self.rt, self.alloc, &self.accounts, around, seat, socket)
            }
            PeerKind::Handset => {
                serve_handset(&self.rt, self.alloc, &self.access, around, seat, socket)
            }
        }
    }

    // The wire of the connection, which is read from now on.
    fn open_socket(&self, stream: S, side: PeerKind) -> Result<Socket<S>, LeaveReason>
        ensures { IfOk result (λ wire. IsOpened S.remaining S.contents stream wire) }
    {
        let (socket, reading) = Socket::open(self.alloc, stream, side)?;
        match self.readings.send(&self.rt, reading) {
            Ok(()) => Ok(socket),
            Err(_) => Err(LeaveReason::Closed),
        }
    }

    // Serves the wire, and ends the connection.
    fn serve_socket(
        &self,
        around: &SeatSurroundings<'_, R, T>,
        seat: &mut OpenSeat,
        side: PeerKind,
        socket: Socket<S>,
    )
        ensures { (stream : S) → IsOpened S.remaining S.contents stream socket → (peer : PeerOf)
            → HasSat S.remaining S.contents (admits (arc_value self.now.accounts) (arc_value self.now.access)) (arrival_of stream side peer)
            seat.old.seat seat.new.seat }
    {
        let mut socket = socket;
        self.serve_side(around, seat, side, &mut socket);
        socket.close();
    }

    fn serve_stream(
        &self,
        around: &SeatSurroundings<'_, R, T>,
        seat: &mut OpenSeat,
        stream: S,
        side: PeerKind,
    )
        ensures { (peer : PeerOf) → HasSat S.remaining S.contents (admits (arc_value self.now.accounts) (arc_value self.now.access))
            (arrival_of stream side peer) seat.old.seat seat.new.seat }
    {
        match self.open_socket(stream, side) {
            Ok(socket) => self.serve_socket(around, seat, side, socket),
            Err(why) => around.observe(seat.number(), Note::Ended(why, Counts::none())),
        }
    }

    fn serve_connection(&self, seat: &mut OpenSeat, arrival: Arrival<S>)
        ensures { HasSat S.remaining S.contents (admits (arc_value self.now.accounts) (arc_value self.now.access)) arrival seat.old.seat seat.new.seat }
    {
        let Arrival { stream, side, peer } = arrival;
        let around = self.surroundings(side, peer);
        self.board.orders.begin(seat.number());
        self.serve_stream(&around, seat, stream, side);
        self.board.orders.leave(seat.number());
    }

    // Serves one connection after another, until there will be none any more. Where the run was over before the seat had all its
    // answers, no other connection gets them.
    fn serve_all(&self, seat: &mut OpenSeat, taker: &mut ArrivalTaker<S>)
        requires { IsCleared (put_by seat.old.seat) (taken_by seat.old.seat) }
        ensures sat { HaveSat S.remaining S.contents (admits (arc_value self.now.accounts) (arc_value self.now.access)) seat.old.seat seat.new.seat
            (arrivals_among (items_taken taker.old)) (arrivals_among (items_taken taker.new)) }
        ensures same { IsSameTaker taker.old taker.new }
    {
        for _ in 0..u64::MAX {
            let Some(arrival) = next_arrival(&self.rt, taker) else {
                return;
            };
            let side = arrival.side;
            self.serve_connection(seat, arrival);
            self.board.rise(side);
            if !seat.is_cleared() {
                return;
            }
        }
    }
}

/// What the thread of a seat hands back: the seat, and the end at which it took connections.
#[derive(Drop)]
pub(crate) struct Returned<S: Drop> {
    pub(crate) seat: Seat<Job, Reply>,
    pub(crate) taker: ArrivalTaker<S>,
}

/// Serves one connection after another at a seat, until there will be none any more; then the seat closes, and comes back.
pub(crate) fn serve_seat<
    R: Wait + Clock,
    S: OpenStream + Duplicate + Read + Write + Drop,
    T: Observer,
>(context: &SeatContext<R, S, T>, seat: Seat<Job, Reply>, taker: ArrivalTaker<S>) -> Returned<S>
    requires seat { (put_by seat ≡ []) × (taken_by seat ≡ []) }
    requires taker { items_taken taker ≡ [] }
    ensures seat { IsSameSeat seat result.seat }
    ensures taker { IsSameTaker taker result.taker }
    ensures sat { IsHandedBack S.remaining S.contents (admits (arc_value context.now.accounts) (arc_value context.now.access)) result.seat
        (arrivals_among (items_taken result.taker)) }
{
    let mut taker = taker;
    let mut seat = OpenSeat::new(seat);
    context.serve_all(&mut seat, &mut taker);
    let seat = seat.close(&context.rt, &context.board.over);
    Returned { seat, taker }
}
