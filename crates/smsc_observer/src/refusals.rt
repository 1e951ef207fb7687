//! Refused requests, counted by the account and the command_status.
ghost use Rattle.std.specs.Prelude.{◌≡◌, ◌<◌, ◌≤◌};
ghost use Rattle.smsc_observer.specs.Refusals.{account_at, column_of as column, place_of as place_of_pair, refusals_at, row_of as row};

use std::alloc::{AllocError, Global};
use std::sync::atomic::{AtomicU64, Ordering};

// The statuses have lesser numbers (SMPP v3.4 5.1.3).
const STATUSES: usize = 256;

// One row for each account, and one for those of no account.
const ROWS: usize = 33;

const NO_ACCOUNT: usize = ROWS - 1;

/// So many requests of the account at this place, or of none, were refused with this command_status.
#[derive(Clone, Copy, PartialEq, Eq)]
pub struct Refusals {
    pub account: Option<u8>,
    pub status: u32,
    pub count: u64,
}

/// How many requests were refused. Several threads count at once.
#[derive(Drop)]
pub struct RefusalTable {
    counts: Vec<AtomicU64>,
}

fn row_of(account: Option<u8>) -> usize
    ensures row { result ≡ row account }
    ensures few { result ≤ 32 }
{
    match account {
        Some(place) if usize::from(place) < NO_ACCOUNT => usize::from(place),
        _ => NO_ACCOUNT,
    }
}

fn column_of(status: u32) -> usize
    ensures column { result ≡ column status }
    ensures few { result < 256 }
{
    if status < 255 { status as usize } else { 255 }
}

// Where a request of that account, or of none, with that status is counted.
fn place_of(account: Option<u8>, status: u32) -> usize
    ensures { result ≡ place_of_pair account status }
{
    row_of(account) * STATUSES + column_of(status)
}

fn account_of(row: usize) -> Option<u8>
    ensures { result ≡ account_at row }
{
    if row < NO_ACCOUNT {
        Some(row as u8)
    } else {
        None
    }
}

// What so many of that place are.
fn refusals_of(place: usize, count: u64) -> Refusals
    ensures { result ≡ refusals_at place count }
{
    Refusals {
        account: account_of(place / STATUSES),
        status: (place % STATUSES) as u32,
        count,
    }
}

impl RefusalTable {
    /// None was refused.
    pub fn new(alloc: Global) -> Result<RefusalTable, AllocError> {
        let mut counts = Vec::with_capacity(alloc, ROWS * STATUSES)?;
        for _ in 0..ROWS * STATUSES {
            counts.push(AtomicU64::new(0))?;
        }
        Ok(RefusalTable { counts })
    }

    /// Counts one more refusal.
    pub fn count(&self, account: Option<u8>, status: u32) {
        if let Some(counter) = self.counts.get(place_of(account, status)) {
            counter.fetch_add(1, Ordering::SeqCst);
        }
    }

    /// The refusals so far.
    pub fn all(&self, alloc: Global) -> Result<Vec<Refusals>, AllocError> {
        let mut all = Vec::new(alloc);
        for place in 0..self.counts.len() {
            let count = self.counts[place].load(Ordering::SeqCst);
            if count > 0 {
                all.push(refusals_of(place, count))?;
            }
        }
        Ok(all)
    }

    /// How many kinds of them there are.
    pub fn kinds(&self) -> usize {
        self.counts.len()
    }

    /// The refusals of the kind of this number since this was asked last, if there are any.
    pub fn take(&self, kind: usize) -> Option<Refusals> {
        let counter = self.counts.get(kind)?;
        match counter.swap(0, Ordering::SeqCst) {
            0 => None,
            count => Some(refusals_of(kind, count)),
        }
    }
}
