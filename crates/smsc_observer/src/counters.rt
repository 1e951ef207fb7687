//! What the threads of a run count. Each adds to numbers that it shares with nobody who waits, so that a look holds up nobody.
use crate::accounts::{AccountCounts, AccountTotals};
use crate::observer::Event;
use crate::refusals::{RefusalTable, Refusals};
use crate::seated::SEATS;
use sms_base::FinalState;
use smsc_loop::{Activity, Note};
use smsc_status::{CommitFigures, GroupFigures, MessageCounts, PLACES, place_of};
use std::alloc::{AllocError, Global};
use std::sync::atomic::{AtomicU64, Ordering};

// What the endpoint at a seat did so far.
#[derive(Drop)]
struct SeatCounters {
    submits: AtomicU64,
    receipts: AtomicU64,
    window: AtomicU64,
}

/// What the endpoint at a seat did so far.
#[derive(Clone, Copy)]
pub struct SeatCounts {
    pub submits: u64,
    pub receipts: u64,
    pub window: u64,
}

/// What the threads of a run count.
#[derive(Drop)]
pub struct Counters {
    seats: Vec<SeatCounters>,
    accepted: AtomicU64,
    delivered: AtomicU64,
    expired: AtomicU64,
    deleted: AtomicU64,
    undeliverable: AtomicU64,
    commits: Vec<AtomicU64>,
    micros: AtomicU64,
    refused: AtomicU64,
    // How many groups had at most so many items as `GROUP_SIZES` says at the same place.
    groups: Vec<AtomicU64>,
    items: AtomicU64,
    accounts: AccountTotals,
    submits_refused: RefusalTable,
    binds_refused: RefusalTable,
}

// A keeper's group has 64 items at most.
const GROUP_SIZES: [usize; 7] = [1, 2, 4, 8, 16, 32, 64];

fn zero() -> AtomicU64 {
    AtomicU64::new(0)
}

fn one_more(counter: &AtomicU64) {
    counter.fetch_add(1, Ordering::SeqCst);
}

fn now(counter: &AtomicU64) -> u64 {
    counter.load(Ordering::SeqCst)
}

fn seat_counters(alloc: Global) -> Result<Vec<SeatCounters>, AllocError> {
    let mut seats = Vec::with_capacity(alloc, SEATS)?;
    for _ in 0..SEATS {
        seats.push(SeatCounters {
            submits: zero(),
            receipts: zero(),
            window: zero(),
        })?;
    }
    Ok(seats)
}

fn zeros(alloc: Global, count: usize) -> Result<Vec<AtomicU64>, AllocError> {
    let mut counters = Vec::with_capacity(alloc, count)?;
    for _ in 0..count {
        counters.push(zero())?;
    }
    Ok(counters)
}

impl Counters {
    /// Nothing is counted yet.
    pub fn new(alloc: Global) -> Result<Counters, AllocError> {
        Ok(Counters {
            seats: seat_counters(alloc)?,
            accepted: zero(),
            delivered: zero(),
            expired: zero(),
            deleted: zero(),
            undeliverable: zero(),
            commits: zeros(alloc, PLACES)?,
            micros: zero(),
            refused: zero(),
            groups: zeros(alloc, GROUP_SIZES.len())?,
            items: zero(),
            accounts: AccountTotals::new(alloc)?,
            submits_refused: RefusalTable::new(alloc)?,
            binds_refused: RefusalTable::new(alloc)?,
        })
    }

    /// Counts a message that was accepted, or that ended, a submit_sm or a bind that was refused, and what a session did.
    pub fn count(&self, event: &Event) {
        match event {
            Event::Accepted(_, _) => one_more(&self.accepted),
            Event::Final(_, FinalState::Delivered) => one_more(&self.delivered),
            Event::Final(_, FinalState::Expired) => one_more(&self.expired),
            Event::Final(_, FinalState::Deleted) => one_more(&self.deleted),
            Event::Final(_, FinalState::Undeliverable) => one_more(&self.undeliverable),
            Event::SubmitRefused(account, status) => self.submits_refused.count(*account, *status),
            Event::Endpoint(_, _, Note::BindRefused(status, _)) => {
                self.binds_refused.count(None, *status)
            }
            Event::Endpoint(seat, _, Note::Bound(account, _)) => self
                .accounts
                .bind(*seat, *account),
            Event::Endpoint(seat, _, Note::Ended(_, counts)) => self.accounts.leave(*seat, counts),
            Event::Endpoint(_, _, _)
            | Event::Unknown(_, _, _)
            | Event::SeatsFull(_)
            | Event::NotAccepted
            | Event::Reopened
            | Event::Failed => (),
        }
    }

    /// Takes what the endpoint at the seat of this number did so far.
    pub fn watch(&self, seat: usize, activity: &Activity) {
        if let Some(counters) = self.seats.get(seat) {
            counters
                .submits
                .store(activity.counts.submits, Ordering::SeqCst);
            counters
                .receipts
                .store(activity.counts.receipts, Ordering::SeqCst);
            counters
                .window
                .store(activity.window as u64, Ordering::SeqCst);
        }
        self.accounts.watch(seat, &activity.counts);
    }

    /// Counts a commit that took so many millionths of a second.
    pub fn commit_took(&self, micros: u64) {
        if let Some(counter) = self.commits.get(place_of(micros)) {
            one_more(counter);
        }
        self.micros.fetch_add(micros, Ordering::SeqCst);
    }

    /// Counts a group of so many items.
    pub fn end_group(&self, count: usize) {
        for (counter, size) in self.groups.iter().zip(GROUP_SIZES.iter()) {
            if count <= *size {
                one_more(counter);
            }
        }
        self.items.fetch_add(count as u64, Ordering::SeqCst);
    }

    /// Counts a commit that the store refused.
    pub fn commit_refused(&self) {
        one_more(&self.refused);
    }
}

impl Counters {
    /// What the endpoint at the seat of this number did so far.
    pub fn seat(&self, seat: usize) -> SeatCounts {
        match self.seats.get(seat) {
            Some(counters) => SeatCounts {
                submits: now(&counters.submits),
                receipts: now(&counters.receipts),
                window: now(&counters.window),
            },
            None => SeatCounts {
                submits: 0,
                receipts: 0,
                window: 0,
            },
        }
    }

    /// The messages so far.
    pub fn messages(&self) -> MessageCounts {
        MessageCounts {
            accepted: now(&self.accepted),
            delivered: now(&self.delivered),
            expired: now(&self.expired),
            deleted: now(&self.deleted),
            undeliverable: now(&self.undeliverable),
        }
    }

    /// The commits so far.
    pub fn commits(&self) -> CommitFigures {
        let mut counts = [0u64; PLACES];
        for place in 0..PLACES {
            if let Some(counter) = self.commits.get(place) {
                counts[place] = now(counter);
            }
        }
        CommitFigures {
            counts,
            micros: now(&self.micros),
            refused: now(&self.refused),
        }
    }

    // How many groups had at most as many items as the size at that place.
    fn groups_up_to(&self, place: usize) -> u64 {
        match self.groups.get(place) {
            Some(counter) => now(counter),
            None => 0,
        }
    }

    /// The groups so far.
    pub fn groups(&self) -> GroupFigures {
        GroupFigures {
            of_1: self.groups_up_to(0),
            up_to_2: self.groups_up_to(1),
            up_to_4: self.groups_up_to(2),
            up_to_8: self.groups_up_to(3),
            up_to_16: self.groups_up_to(4),
            up_to_32: self.groups_up_to(5),
            up_to_64: self.groups_up_to(6),
            items: now(&self.items),
        }
    }

    /// What the sessions of each account did so far.
    pub fn accounts(&self, alloc: Global) -> Result<Vec<AccountCounts>, AllocError> {
        self.accounts.all(alloc)
    }

    /// The submit_sm that were refused so far, by the account and the status.
    pub fn submits_refused(&self, alloc: Global) -> Result<Vec<Refusals>, AllocError> {
        self.submits_refused.all(alloc)
    }

    /// The binds that were refused so far, by the status.
    pub fn binds_refused(&self, alloc: Global) -> Result<Vec<Refusals>, AllocError> {
        self.binds_refused.all(alloc)
    }
}
