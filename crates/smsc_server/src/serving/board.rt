//! What the threads of a run share.
use crate::serving::allowances::Allowances;
use crate::serving::link_seats::LinkSeats;
use crate::serving::occupancy::Seating;
use crate::serving::orders::Orders;
use mio::Waker;
use smpp_session::FullAccounts;
use sms_base::Msisdn;
use sms_centre_spec::jobs::Job;
use smsc_arrivals::PeerKind;
use smsc_observer::Seated;
use std::alloc::{AllocError, Global};
use std::sync::atomic::{AtomicBool, Ordering};
use std::sync::{Arc, Mutex, Wait};
use std::time::Clock;

/// What the threads of a run share.
#[derive(Drop)]
pub(crate) struct Board {
    pub(crate) orders: Arc<Orders>,
    pub(crate) over: AtomicBool,
    others_wait: AtomicBool,
    seating: Seating,
    links: Mutex<LinkSeats>,
    allowances: Arc<Allowances>,
    // Wakes whoever takes connections.
    waker: Waker,
}

impl Board {
    /// Nothing has happened yet. The accounts may do what the allowances say.
    pub(crate) fn new(
        alloc: Global,
        orders: Arc<Orders>,
        waker: Waker,
        allowances: Arc<Allowances>,
    ) -> Result<Board, AllocError> {
        Ok(Board {
            orders,
            over: AtomicBool::new(false),
            others_wait: AtomicBool::new(false),
            seating: Seating::new(),
            links: Mutex::new(LinkSeats::new(alloc)?),
            allowances,
            waker,
        })
    }

    /// The keeper has ended.
    pub(crate) fn end(&self) {
        self.over.store(true, Ordering::SeqCst);
        let _ = self.waker.wake();
    }

    /// Whether the keeper has ended.
    pub(crate) fn is_over(&self) -> bool {
        self.over.load(Ordering::SeqCst)
    }

    /// Whether no more connections are to be taken.
    pub(crate) fn is_ending(&self) -> bool {
        self.is_over() || self.orders.is_ending()
    }

    /// Whether connections wait for a seat.
    pub(crate) fn do_others_wait(&self) -> bool {
        self.others_wait.load(Ordering::SeqCst)
    }

    /// Notes whether connections wait for a seat.
    pub(crate) fn let_wait(&self, others_wait: bool) {
        self.others_wait.store(others_wait, Ordering::SeqCst);
    }

    /// Whether one more connection of that side may take a seat.
    pub(crate) fn has_room(&self, side: PeerKind) -> bool {
        self.seating.has_room(side)
    }

    /// Whether no seat is free, for either side.
    pub(crate) fn is_full(&self) -> bool {
        !self.has_room(PeerKind::Application) && !self.has_room(PeerKind::Handset)
    }

    /// Whether one side has no seat left.
    pub(crate) fn is_full_of_some(&self) -> bool {
        !self.has_room(PeerKind::Application) || !self.has_room(PeerKind::Handset)
    }

    /// A connection of that side takes a seat.
    pub(crate) fn sit(&self, side: PeerKind) {
        self.seating.sit(side);
    }

    /// A seat that a connection of that side had is free again.
    pub(crate) fn rise(&self, side: PeerKind) {
        self.seating.rise(side);
        let _ = self.waker.wake();
    }

    /// The first may bind.
    pub(crate) fn open<R: Wait>(&self, rt: &R) {
        self.allowances.open(rt);
    }

    /// Waits until nobody else is about to bind, and says which accounts may have no further session. Nobody else is about to bind
    /// until `end_bind`.
    pub(crate) fn begin_bind<R: Wait>(&self, rt: &R) -> FullAccounts {
        self.allowances.begin_bind(rt)
    }

    /// Whoever was about to bind is bound, or not.
    pub(crate) fn end_bind<R: Wait>(&self, rt: &R) {
        self.allowances.end_bind(rt);
    }

    /// The session at the seat of this number is of that account; none is bound there without one. One beyond the limit of its account
    /// ends: there is none while each that binds was told which accounts are full.
    pub(crate) fn bind<R: Wait>(&self, rt: &R, seat: usize, account: Option<u8>) {
        if !self.allowances.bind(rt, seat, account) {
            let _ = self.orders.end(seat);
        }
    }

    /// Whether the request is put now, by the rate of its account.
    pub(crate) fn admit<R: Wait + Clock>(&self, rt: &R, request: &Job) -> bool {
        self.allowances.admit(rt, request)
    }

    /// Who sits now.
    pub(crate) fn seated<R: Wait>(&self, rt: &R) -> Seated {
        let most = self.allowances.most(rt);
        self.seating.seated(most)
    }

    /// The handset has its link at the seat of this number; none has without one.
    pub(crate) fn link<R: Wait>(&self, rt: &R, seat: usize, handset: Option<Msisdn>) {
        self.links.lock(rt).put(seat, handset);
    }

    /// The handset has a newer link at the seat of this number: the other one is to end.
    pub(crate) fn replace<R: Wait>(&self, rt: &R, seat: usize, handset: &Msisdn) {
        // No other connection begins at that seat meanwhile: the older link forgets its handset first.
        let links = self.links.lock(rt);
        if let Some(other) = links.other(seat, handset) {
            self.orders.replace(other);
        }
    }
}
