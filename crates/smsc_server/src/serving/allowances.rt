//! What the accounts of a run may do for now.
ghost use Rattle.std.specs.Prelude.{◌≡◌, ◌<◌, ℕ, not};
ghost use Rattle.smpp_session.specs.Logins.{is_full};
ghost use Rattle.smsc_server.specs.serving.SessionLimits.{full_where, suspends};

use crate::serving::occupancy::{Bound, MOST_ACCOUNTS};
use crate::serving::orders::Orders;
use crate::serving::rates::Rates;
use crossbeam_channel::{Receiver, Sender, bounded};
use smpp_session::FullAccounts;
use sms_centre_spec::jobs::Job;
use smsc_observer::SEATS;
use std::alloc::{AllocError, Global};
use std::sync::{Mutex, Wait};
use std::time::{Clock, Duration};

// Whoever has it may bind. There is one.
#[derive(Drop)]
struct Turn;

// Where it waits for the next one.
#[derive(Drop)]
struct Turnstile {
    put: Sender<Turn>,
    taken: Receiver<Turn>,
}

// Whoever changes what accounts may do waits so many seconds for the turn at most.
const TURN_LIMIT: u64 = 2;

impl Turnstile {
    fn new(alloc: Global) -> Result<Turnstile, AllocError> {
        let (put, taken) = bounded::<Turn, _>(alloc, 1)?;
        Ok(Turnstile { put, taken })
    }

    fn take<R: Wait>(&self, rt: &R) {
        let _ = self.taken.recv(rt);
    }

    // False where nobody gives it on in time.
    fn take_soon<R: Wait + Clock>(&self, rt: &R) -> bool {
        self.taken
            .recv_timeout(rt, Duration::from_secs(TURN_LIMIT))
            .is_ok()
    }

    fn put<R: Wait>(&self, rt: &R) {
        let _ = self.put.try_send(rt, Turn);
    }
}

/// What an account may do.
#[derive(Clone, Copy, PartialEq, Eq)]
pub struct Allowance {
    /// The account may have no session for now.
    pub is_suspended: bool,
    /// How many requests it may put in a second. One without a rate puts as many as it likes.
    pub rate: Option<u32>,
}

/// What the accounts of a run may do, by their places.
#[derive(Drop)]
pub struct Allowances {
    bound: Mutex<Bound>,
    rates: Rates,
    turnstile: Turnstile,
}

// Whether the account at that place is suspended.
fn is_suspended(allowed: &[Allowance], account: u8) -> bool
    ensures { result ≡ suspends account allowed.now }
{
    match allowed.get(usize::from(account)) {
        Some(allowance) => allowance.is_suspended,
        None => false,
    }
}

// Those accounts, and this one too where it is suspended.
fn with_account(full: FullAccounts, account: u8, is_suspended: bool) -> FullAccounts
    ensures { result ≡ full_where (not is_suspended) account full }
{
    if !is_suspended {
        return full;
    }
    let mut full = full;
    full.put(usize::from(account));
    full
}

// Which accounts are suspended.
fn suspended_in(allowed: &[Allowance]) -> FullAccounts
    ensures { (account : ℕ) → account < 32 → is_full account result ≡ suspends account allowed.now }
{
    let mut suspended = FullAccounts::none();
    for account in 0..MOST_ACCOUNTS {
        suspended = with_account(suspended, account, is_suspended(allowed, account));
    }
    suspended
}

impl Allowances {
    /// Each account may have so many sessions at once, by its place. One that has no number here may have one at each seat.
    pub fn new(
        alloc: Global,
        limits: &[u8],
        allowed: &[Allowance],
    ) -> Result<Allowances, AllocError> {
        let bound = Bound::new(alloc, limits, suspended_in(allowed))?;
        Ok(Allowances {
            bound: Mutex::new(bound),
            rates: Rates::new(alloc, allowed)?,
            turnstile: Turnstile::new(alloc)?,
        })
    }

    /// From now on the accounts may do this, and have so many sessions at once, where those are more than before. The sessions of those that
    /// are suspended are sent unbind. False where the run takes no orders: it has not begun, or is about to end.
    pub fn change<R: Wait + Clock>(
        &self,
        rt: &R,
        orders: &Orders,
        limits: &[u8],
        allowed: &[Allowance],
    ) -> bool {
        // Nobody is about to bind meanwhile.
        if !self.turnstile.take_soon(rt) {
            return false;
        }
        self.rates.change(rt, allowed);
        self.raise(rt, limits);
        self.suspend(rt, orders, suspended_in(allowed));
        self.turnstile.put(rt);
        true
    }

    // The accounts may have so many sessions.
    fn raise<R: Wait>(&self, rt: &R, limits: &[u8]) {
        let mut bound = self.bound.lock(rt);
        for place in 0..limits.len() {
            bound.raise(place, limits[place]);
        }
    }

    // These accounts are suspended, and no others.
    fn suspend<R: Wait>(&self, rt: &R, orders: &Orders, suspended: FullAccounts) {
        let mut bound = self.bound.lock(rt);
        bound.suspend(suspended);
        for seat in 0..SEATS {
            if bound.is_suspended_at(seat) {
                orders.unbind(seat);
            }
        }
    }

    /// The first may bind.
    pub(crate) fn open<R: Wait>(&self, rt: &R) {
        self.turnstile.put(rt);
    }

    /// Waits until nobody else is about to bind, and says which accounts may have no further session. Nobody else is about to bind
    /// until `end_bind`.
    pub(crate) fn begin_bind<R: Wait>(&self, rt: &R) -> FullAccounts {
        self.turnstile.take(rt);
        self.bound.lock(rt).full()
    }

    /// Whoever was about to bind is bound, or not.
    pub(crate) fn end_bind<R: Wait>(&self, rt: &R) {
        self.turnstile.put(rt);
    }

    /// The session at the seat of this number is of that account; none is bound there without one. False where the account may have
    /// no further session.
    pub(crate) fn bind<R: Wait>(&self, rt: &R, seat: usize, account: Option<u8>) -> bool {
        self.bound.lock(rt).put(seat, account)
    }

    /// Whether the request is put now, by the rate of its account.
    pub(crate) fn admit<R: Wait + Clock>(&self, rt: &R, request: &Job) -> bool {
        self.rates.admit(rt, request)
    }

    /// The place of the account that has most sessions, and how many; none where no session is bound.
    pub(crate) fn most<R: Wait>(&self, rt: &R) -> Option<(u8, usize)> {
        self.bound.lock(rt).most()
    }
}
