//! What an operator orders of a run.
ghost use Rattle.std.specs.Prelude.{◌≡◌};
ghost use Rattle.smsc_server.specs.serving.SeatOrders.{order_of};

use sms_base::MessageId;
use smsc_loop::Order;
use smsc_observer::SEATS;
use smsc_service::{CentreAccount, Cutoff, Order as MessageOrder, OrderDesk, OrderOutcome};
use std::alloc::{AllocError, Global};
use std::sync::Arc;
use std::sync::atomic::{AtomicBool, AtomicU8, Ordering};

// The numbers of what is ordered of one seat.
const STAY: u8 = 0;

const END: u8 = 1;

const REPLACED: u8 = 2;

// Nobody is there.
const EMPTY: u8 = 3;

const UNBIND: u8 = 4;

// What is ordered of a seat of that number, in a run that ends at once, or in good order.
fn order_by(is_cut: bool, is_stopped: bool, number: u8) -> Order
    ensures { result ≡ order_of is_cut is_stopped number }
{
    if is_cut {
        return Order::End;
    }
    match number {
        END => Order::End,
        REPLACED => Order::Replaced,
        UNBIND => Order::Unbind,
        _ if is_stopped => Order::Unbind,
        _ => Order::Stay,
    }
}

/// What is ordered of a run, by whoever has it: the run looks at it once a second.
#[derive(Drop)]
pub struct Orders {
    seats: Vec<AtomicU8>,
    stop: AtomicBool,
    cut: AtomicBool,
    // Behind it the centre begins nothing.
    cutoff: Arc<Cutoff>,
    // Where orders of messages and accounts that come wait for the centre.
    desk: Arc<OrderDesk>,
}

impl Orders {
    /// Nothing is ordered.
    pub fn new(alloc: Global) -> Result<Orders, AllocError> {
        let mut seats = Vec::with_capacity(alloc, SEATS)?;
        for _ in 0..SEATS {
            seats.push(AtomicU8::new(EMPTY))?;
        }
        Ok(Orders {
            seats,
            stop: AtomicBool::new(false),
            cut: AtomicBool::new(false),
            cutoff: Arc::new(alloc, Cutoff::new())?,
            desk: Arc::new(alloc, OrderDesk::new())?,
        })
    }

    /// The run ends in good order: it takes no more connections, and sends unbind to each session.
    pub fn stop(&self) {
        self.stop.store(true, Ordering::SeqCst);
    }

    /// The run ends at once: all connections end, and nothing more is sent on them.
    pub fn cut(&self) {
        self.cut.store(true, Ordering::SeqCst);
    }

    /// What keeps the centre from beginning anything, once the time of a run that is to end is nearly over.
    pub(crate) fn cutoff(&self) -> &Arc<Cutoff> {
        &self.cutoff
    }

    pub(crate) fn desk(&self) -> &Arc<OrderDesk> {
        &self.desk
    }

    /// Orders something of a message. False where another such order is not done yet. One thread alone orders such.
    pub fn order(&self, order: MessageOrder, id: MessageId) -> bool {
        self.desk.put(order, id)
    }

    /// Orders that the account is the last of the centre's accounts from now on. False where another order of the centre is not done yet, or
    /// where no unit can carry the account's address. One thread alone orders such.
    pub fn enrol(&self, account: CentreAccount) -> bool {
        self.desk.put_account(account)
    }

    /// What came of the order of a message, or of an account, once it is done.
    pub fn outcome(&self) -> Option<OrderOutcome> {
        self.desk.outcome()
    }

    /// Whether the run is to end.
    pub fn is_ending(&self) -> bool {
        self.stop.load(Ordering::SeqCst) || self.cut.load(Ordering::SeqCst)
    }

    fn put(&self, seat: usize, number: u8) -> bool {
        match self.seats.get(seat) {
            Some(order) => {
                order.store(number, Ordering::SeqCst);
                true
            }
            None => false,
        }
    }

    /// The connection at the seat of this number ends. False where nobody is at it, or there is no such seat.
    pub fn end(&self, seat: usize) -> bool {
        let Some(order) = self.seats.get(seat) else {
            return false;
        };
        match order.compare_exchange(STAY, END, Ordering::SeqCst, Ordering::SeqCst) {
            Ok(_) => true,
            Err(UNBIND) => self.put(seat, END),
            Err(found) => found != EMPTY,
        }
    }

    /// The session at the seat of this number leaves in good order: it is sent unbind.
    pub(crate) fn unbind(&self, seat: usize) {
        if let Some(order) = self.seats.get(seat) {
            let _ = order.compare_exchange(STAY, UNBIND, Ordering::SeqCst, Ordering::SeqCst);
        }
    }

    /// The link at the seat of this number has a newer one in its place.
    pub(crate) fn replace(&self, seat: usize) {
        let _ = self.put(seat, REPLACED);
    }

    /// A new endpoint sits at the seat of this number.
    pub(crate) fn begin(&self, seat: usize) {
        let _ = self.put(seat, STAY);
    }

    /// Nobody is at the seat of this number any more.
    pub(crate) fn leave(&self, seat: usize) {
        let _ = self.put(seat, EMPTY);
    }

    fn number(&self, seat: usize) -> u8 {
        match self.seats.get(seat) {
            Some(order) => order.load(Ordering::SeqCst),
            None => STAY,
        }
    }

    /// What is ordered of the endpoint at the seat of this number.
    pub fn of(&self, seat: usize) -> Order {
        let is_cut = self.cut.load(Ordering::SeqCst);
        let is_stopped = self.stop.load(Ordering::SeqCst);
        order_by(is_cut, is_stopped, self.number(seat))
    }
}
