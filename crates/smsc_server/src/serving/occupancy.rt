//! Which connections may sit at the seats of a run, and which accounts may have one session more.
ghost use Rattle.std.specs.Prelude.{◌≡◌, ◌<◌, ◌≤◌, ℕ, not, None, IfOk, length, replicate, slice_set};
ghost use Rattle.smpp_session.specs.Logins.{is_full};
ghost use Rattle.smsc_server.specs.serving.KeptSeats.{may_sit as may_sit_of};
ghost use Rattle.smsc_server.specs.serving.SessionLimits.{bound_at, bound_where, count_of, full_where, has_room as has_room_of, is_of as is_of_account};
ghost use Rattle.smsc_server.specs.serving.SessionLimits.{is_suspended_at, limit_of, may_be_bound, may_have_more as may_have_more_of, raised};
ghost use Rattle.smsc_server.specs.serving.SessionLimits.{rises as rises_of, AreWithin};

use smpp_session::FullAccounts;
use smsc_arrivals::PeerKind;
use smsc_observer::{SEATS, Seated};
use std::alloc::{AllocError, Global};
use std::sync::atomic::{AtomicUsize, Ordering};

// So many seats are kept for applications, and as many for handsets: the other side never takes them.
const KEPT: usize = 8;

// So many seats one side takes at most.
const MOST: usize = SEATS - KEPT;

fn may_sit(side: PeerKind, applications: usize, links: usize) -> bool
    ensures { result ≡ may_sit_of side applications links }
{
    let own = match side {
        PeerKind::Application => applications,
        PeerKind::Handset => links,
    };
    applications.saturating_add(links) < SEATS && own < MOST
}

// So many accounts may be.
pub(crate) const MOST_ACCOUNTS: u8 = 32;

// Whether a session of that account is bound there.
fn is_of(account: u8, bound: Option<u8>) -> bool
    ensures { result ≡ is_of_account account bound }
{
    match bound {
        Some(bound) => bound == account,
        None => false,
    }
}

// How many sessions of the account are bound at these seats.
fn count_in(account: u8, seats: &[Option<u8>]) -> usize
    ensures count { result ≡ count_of account seats.now }
    ensures few { result ≤ length seats.now }
{
    match seats {
        [] => 0,
        [first, rest @ ..] => {
            let others = count_in(account, rest);
            if is_of(account, *first) {
                others + 1
            } else {
                others
            }
        }
    }
}

/// The account that is bound at each seat, how many sessions each account may have, and which accounts are suspended.
#[derive(Drop)]
pub(crate) struct Bound {
    accounts: Vec<Option<u8>>,
    limits: Vec<u8>,
    suspended: FullAccounts,
    // No account has more sessions than it may have.
    ghost within: { AreWithin limits.items accounts.items },
}

impl Bound {
    /// Nobody is bound. The accounts at their places may have so many sessions, and those are suspended.
    pub(crate) fn new(
        alloc: Global,
        limits: &[u8],
        suspended: FullAccounts,
    ) -> Result<Bound, AllocError>
        ensures accounts { IfOk result (λ bound. bound.accounts.items ≡ replicate 32 None) }
        ensures limits { IfOk result (λ bound. bound.limits.items ≡ limits.now) }
        ensures suspended { IfOk result (λ bound. bound.suspended ≡ suspended) }
    {
        let accounts = none_bound(alloc)?;
        let mut all = Vec::new(alloc);
        all.extend_from_slice(limits)?;
        Ok(Bound {
            accounts,
            limits: all,
            suspended,
        })
    }

    // How many sessions the account may have.
    fn limit(&self, account: u8) -> usize
        ensures { result ≡ limit_of account self.now.limits.items }
    {
        match self.limits.get(usize::from(account)) {
            Some(limit) => usize::from(*limit),
            None => SEATS,
        }
    }

    // How many it has.
    fn count(&self, account: u8) -> usize
        ensures { result ≡ count_of account self.now.accounts.items }
    {
        count_in(account, self.accounts.as_slice())
    }

    // Whether it may have one more.
    fn has_room(&self, account: u8) -> bool
        ensures { result ≡ has_room_of account self.now.limits.items self.now.accounts.items }
    {
        self.count(account) < self.limit(account)
    }

    // Whether it may have one more, and is not suspended.
    fn may_have_more(&self, account: u8) -> bool
        ensures { result ≡ may_have_more_of account self.now.suspended self.now.limits.items self.now.accounts.items }
    {
        self.has_room(account) && !self.suspended.contains(usize::from(account))
    }

    /// From now on those accounts are suspended, and no others.
    pub(crate) fn suspend(&mut self, suspended: FullAccounts)
        ensures suspended { self.new.suspended ≡ suspended }
        ensures accounts { self.new.accounts ≡ self.old.accounts }
        ensures limits { self.new.limits ≡ self.old.limits }
    {
        self.suspended = suspended;
    }

    // Whether the account at that place may have more sessions by this number.
    fn rises(&self, place: usize, most: u8) -> bool
        ensures { result ≡ rises_of place most self.now.limits.items }
    {
        match self.limits.get(place) {
            Some(limit) => *limit < most,
            None => false,
        }
    }

    /// The account at that place may have so many sessions from now on, where those are more than before.
    pub(crate) fn raise(&mut self, place: usize, most: u8)
        ensures limits { self.new.limits.items ≡ raised place most self.old.limits.items }
        ensures accounts { self.new.accounts ≡ self.old.accounts }
        ensures suspended { self.new.suspended ≡ self.old.suspended }
    {
        if self.rises(place, most) {
            self.set_limit(place, most);
        }
    }

    fn set_limit(&mut self, place: usize, most: u8)
        requires { AreWithin (slice_set self.old.limits.items place most) self.old.accounts.items }
        ensures limits { self.new.limits.items ≡ slice_set self.old.limits.items place most }
        ensures accounts { self.new.accounts ≡ self.old.accounts }
        ensures suspended { self.new.suspended ≡ self.old.suspended }
    {
        if let Some(limit) = self.limits.get_mut(place) {
            *limit = most;
        }
    }

    /// Whether a session of a suspended account is bound at the seat.
    pub(crate) fn is_suspended_at(&self, seat: usize) -> bool
        ensures { result ≡ is_suspended_at seat self.now.suspended self.now.accounts.items }
    {
        match self.accounts.get(seat) {
            Some(Some(account)) => self.suspended.contains(usize::from(*account)),
            _ => false,
        }
    }

    fn set(&mut self, seat: usize, account: Option<u8>)
        requires { AreWithin self.old.limits.items (slice_set self.old.accounts.items seat account) }
        ensures accounts { self.new.accounts.items ≡ slice_set self.old.accounts.items seat account }
        ensures limits { self.new.limits ≡ self.old.limits }
        ensures suspended { self.new.suspended ≡ self.old.suspended }
    {
        if let Some(bound) = self.accounts.get_mut(seat) {
            *bound = account;
        }
    }

    /// The session at the seat is of that account, or none is bound there. False where the account may have no further session.
    pub(crate) fn put(&mut self, seat: usize, account: Option<u8>) -> bool
        ensures accounts { self.new.accounts.items ≡ bound_at seat account self.old.limits.items self.old.accounts.items }
        ensures limits { self.new.limits ≡ self.old.limits }
        ensures suspended { self.new.suspended ≡ self.old.suspended }
        ensures said { result ≡ may_be_bound account self.old.limits.items self.old.accounts.items }
    {
        match account {
            Some(account) => self.put_account(seat, account),
            None => {
                self.set(seat, None);
                true
            }
        }
    }

    // The session at the seat is of that account, unless the account may have no further session.
    fn put_account(&mut self, seat: usize, account: u8) -> bool
        ensures accounts { self.new.accounts.items ≡ bound_where (has_room_of account self.old.limits.items self.old.accounts.items)
            seat account self.old.accounts.items }
        ensures limits { self.new.limits ≡ self.old.limits }
        ensures suspended { self.new.suspended ≡ self.old.suspended }
        ensures said { result ≡ has_room_of account self.old.limits.items self.old.accounts.items }
    {
        if !self.has_room(account) {
            return false;
        }
        self.set(seat, Some(account));
        true
    }

    // Those accounts, and this one too where it may have no further session.
    fn with_account(&self, full: FullAccounts, account: u8) -> FullAccounts
        ensures { result ≡ full_where (may_have_more_of account self.now.suspended self.now.limits.items self.now.accounts.items) account full }
    {
        if self.may_have_more(account) {
            return full;
        }
        let mut full = full;
        full.put(usize::from(account));
        full
    }

    /// Which accounts may have no further session.
    pub(crate) fn full(&self) -> FullAccounts
        ensures { (account : ℕ) → account < 32
            → is_full account result ≡ not (may_have_more_of account self.now.suspended self.now.limits.items self.now.accounts.items) }
    {
        let mut full = FullAccounts::none();
        for account in 0..MOST_ACCOUNTS {
            full = self.with_account(full, account);
        }
        full
    }

    /// The account with most sessions.
    pub(crate) fn most(&self) -> Option<(u8, usize)> {
        let mut most: Option<(u8, usize)> = None;
        for bound in self.accounts.iter() {
            let Some(account) = *bound else { continue };
            let count = self.count(account);
            if most.is_none_or(|(_, others)| others < count) {
                most = Some((account, count));
            }
        }
        most
    }
}

// Nobody is bound at any seat.
fn none_bound(alloc: Global) -> Result<Vec<Option<u8>>, AllocError>
    ensures { IfOk result (λ accounts. accounts.items ≡ replicate 32 None) }
{
    let mut accounts = Vec::with_capacity(alloc, SEATS)?;
    for _ in 0..SEATS {
        accounts.push(None)?;
    }
    Ok(accounts)
}

/// How many sit at the seats of a run.
#[derive(Drop)]
pub(crate) struct Seating {
    applications: AtomicUsize,
    links: AtomicUsize,
}

impl Seating {
    /// Nobody sits.
    pub(crate) fn new() -> Seating {
        Seating {
            applications: AtomicUsize::new(0),
            links: AtomicUsize::new(0),
        }
    }

    fn of(&self, side: PeerKind) -> &AtomicUsize {
        match side {
            PeerKind::Application => &self.applications,
            PeerKind::Handset => &self.links,
        }
    }

    /// Counts one more seat of that side as taken.
    pub(crate) fn sit(&self, side: PeerKind) {
        self.of(side).fetch_add(1, Ordering::SeqCst);
    }

    /// Counts one seat of that side as free.
    pub(crate) fn rise(&self, side: PeerKind) {
        self.of(side).fetch_sub(1, Ordering::SeqCst);
    }

    /// Whether one more of that side may sit.
    pub(crate) fn has_room(&self, side: PeerKind) -> bool {
        let applications = self.applications.load(Ordering::SeqCst);
        let links = self.links.load(Ordering::SeqCst);
        may_sit(side, applications, links)
    }

    /// Who sits now, where that account has most sessions.
    pub(crate) fn seated(&self, most: Option<(u8, usize)>) -> Seated {
        Seated {
            applications: self.applications.load(Ordering::SeqCst),
            links: self.links.load(Ordering::SeqCst),
            most,
        }
    }
}
