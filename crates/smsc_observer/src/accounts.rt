//! What the sessions of each account did since the run began. A session's end takes nothing from it.
ghost use Rattle.std.specs.Prelude.{◌≡◌};
ghost use Rattle.smsc_observer.specs.AccountTotals.{gained as gained_of};

use crate::seated::SEATS;
use smsc_loop::Counts;
use std::alloc::{AllocError, Global};
use std::sync::atomic::{AtomicU8, AtomicU64, Ordering};

// So many accounts may be.
const ACCOUNTS: u8 = 32;

// No account has this place.
const NO_ACCOUNT: u8 = u8::MAX;

/// What all sessions of the account at this place did.
#[derive(Clone, Copy, PartialEq, Eq)]
pub struct AccountCounts {
    pub account: u8,
    pub submits: u64,
    pub receipts: u64,
}

#[derive(Drop)]
struct Total {
    submits: AtomicU64,
    receipts: AtomicU64,
}

// The account that was bound last at a seat, and what is counted of the connection there.
#[derive(Drop)]
struct SeatMark {
    account: AtomicU8,
    submits: AtomicU64,
    receipts: AtomicU64,
}

/// What the sessions of each account did. The thread of a seat counts what its connections do.
#[derive(Drop)]
pub struct AccountTotals {
    totals: Vec<Total>,
    marks: Vec<SeatMark>,
}

// How much more a count has become.
fn gained(before: u64, now: u64) -> u64
    ensures { result ≡ gained_of before now }
{
    if before <= now { now - before } else { now }
}

// Counts what a seat's count has gained.
fn add_gained(total: &AtomicU64, mark: &AtomicU64, now: u64) {
    let before = mark.swap(now, Ordering::SeqCst);
    total.fetch_add(gained(before, now), Ordering::SeqCst);
}

fn no_totals(alloc: Global) -> Result<Vec<Total>, AllocError> {
    let mut totals = Vec::with_capacity(alloc, usize::from(ACCOUNTS))?;
    for _ in 0..ACCOUNTS {
        totals.push(Total {
            submits: AtomicU64::new(0),
            receipts: AtomicU64::new(0),
        })?;
    }
    Ok(totals)
}

fn no_marks(alloc: Global) -> Result<Vec<SeatMark>, AllocError> {
    let mut marks = Vec::with_capacity(alloc, SEATS)?;
    for _ in 0..SEATS {
        marks.push(SeatMark {
            account: AtomicU8::new(NO_ACCOUNT),
            submits: AtomicU64::new(0),
            receipts: AtomicU64::new(0),
        })?;
    }
    Ok(marks)
}

impl AccountTotals {
    /// No session did anything yet.
    pub fn new(alloc: Global) -> Result<AccountTotals, AllocError> {
        let totals = no_totals(alloc)?;
        let marks = no_marks(alloc)?;
        Ok(AccountTotals { totals, marks })
    }

    /// The account at this place is bound at the seat of this number.
    pub fn bind(&self, seat: usize, account: u8) {
        if let Some(mark) = self.marks.get(seat) {
            mark.account.store(account, Ordering::SeqCst);
        }
    }

    /// The connection at the seat of this number did so much so far.
    pub fn watch(&self, seat: usize, counts: &Counts) {
        let Some(mark) = self.marks.get(seat) else {
            return;
        };
        let account = mark.account.load(Ordering::SeqCst);
        if let Some(total) = self.totals.get(usize::from(account)) {
            add_gained(&total.submits, &mark.submits, counts.submits);
            add_gained(&total.receipts, &mark.receipts, counts.receipts);
        }
    }

    /// The connection at the seat of this number has ended, and did so much.
    pub fn leave(&self, seat: usize, counts: &Counts) {
        self.watch(seat, counts);
        if let Some(mark) = self.marks.get(seat) {
            mark.account.store(NO_ACCOUNT, Ordering::SeqCst);
            mark.submits.store(0, Ordering::SeqCst);
            mark.receipts.store(0, Ordering::SeqCst);
        }
    }

    // What the sessions of the account at this place did, if they did anything.
    fn of(&self, account: u8) -> Option<AccountCounts> {
        let total = self.totals.get(usize::from(account))?;
        let submits = total.submits.load(Ordering::SeqCst);
        let receipts = total.receipts.load(Ordering::SeqCst);
        if submits == 0 && receipts == 0 {
            return None;
        }
        Some(AccountCounts {
            account,
            submits,
            receipts,
        })
    }

    /// The accounts of which a session did something.
    pub fn all(&self, alloc: Global) -> Result<Vec<AccountCounts>, AllocError> {
        let mut all = Vec::new(alloc);
        for account in 0..ACCOUNTS {
            if let Some(counts) = self.of(account) {
                all.push(counts)?;
            }
        }
        Ok(all)
    }
}
