//! How many requests of an account are put in a second.
ghost use Rattle.std.specs.Prelude.{◌≡◌, ◌≤◌, ℕ, List, Some, IfOk, map, true, slice_get, slice_set};
ghost use Rattle.smsc_server.specs.serving.Rates.{AreInOrder, account_asking, after_request, count_put, first_rate, has_place as has_place_of, is_admitted};
ghost use Rattle.smsc_server.specs.serving.Rates.{limited_all as limited_all_to, limited_at as limited_at_place, new_rate, one_more, limited as limited_to};
ghost use Rattle.smsc_server.specs.serving.Rates.{put_in as put_in_of, rate_of, rates_after, second_of as second_of_moment};

use crate::serving::allowances::Allowance;
use crate::serving::clock::milliseconds;
use sms_centre_spec::jobs::Job;
use std::alloc::{AllocError, Global};
use std::sync::{Mutex, Wait};
use std::time::Clock;

/// How many requests an account may put in a second of the run's clock, and how many it has put.
#[derive(Clone, Copy, PartialEq, Eq)]
pub struct Rate {
    /// So many in a second.
    pub most: u32,
    /// The last second in which one was put.
    pub second: u64,
    /// How many were put in it.
    pub put: u32,
}

// The second of a moment.
fn second_of(now: u64) -> u64
    ensures { result ≡ second_of_moment now }
{
    now / 1000
}

impl Rate {
    /// So many requests a second. None was put yet.
    pub fn of(most: u32) -> Rate
        ensures { result ≡ new_rate most }
    {
        Rate {
            most,
            second: 0,
            put: 0,
        }
    }

    // How many were put in that second.
    fn put_in(&self, second: u64) -> u32
        ensures { result ≡ put_in_of second self.now }
    {
        if self.second < second { 0 } else { self.put }
    }

    // Whether one more may be put at the moment, in milliseconds.
    fn has_place(&self, now: u64) -> bool
        ensures { result ≡ has_place_of now self.now }
    {
        self.put_in(second_of(now)) < self.most
    }

    // One is put at the moment.
    fn count(&mut self, now: u64)
        requires { has_place_of now self.old ≡ true }
        ensures { self.new ≡ one_more now self.old }
    {
        let second = second_of(now);
        self.put = self.put_in(second) + 1;
        if self.second < second {
            self.second = second;
        }
    }

    // Whether a request is put at the moment.
    fn admit(&mut self, now: u64) -> bool
        ensures said { result ≡ has_place_of now self.old }
        ensures rate { self.new ≡ after_request now self.old }
    {
        if !self.has_place(now) {
            return false;
        }
        self.count(now);
        true
    }
}

// The rate that allows no more than so many a second. It knows how many were put.
fn limited(most: Option<u32>, rate: Option<Rate>) -> Option<Rate>
    ensures { result ≡ limited_to most rate }
{
    match (most, rate) {
        (Some(most), Some(rate)) => Some(Rate { most, ..rate }),
        (Some(most), None) => Some(Rate::of(most)),
        (None, _) => None,
    }
}

// The rates of the accounts at their places.
#[derive(Drop)]
struct AccountRates {
    rates: Vec<Option<Rate>>,
}

impl AccountRates {
    fn rate_at(&self, place: usize) -> Option<Rate>
        ensures { result ≡ rate_of (slice_get self.now.rates.items place) }
    {
        match self.rates.get(place) {
            Some(rate) => *rate,
            None => None,
        }
    }

    fn put(&mut self, place: usize, rate: Rate)
        ensures { self.new.rates.items ≡ slice_set self.old.rates.items place (Some rate) }
    {
        if let Some(old) = self.rates.get_mut(place) {
            *old = Some(rate);
        }
    }

    // The account at that place puts no more than so many in a second from now on; as many as it likes without a number.
    fn limit(&mut self, place: usize, most: Option<u32>)
        ensures { self.new.rates.items ≡ slice_set self.old.rates.items place (limited_to most (rate_of (slice_get self.old.rates.items place))) }
    {
        let rate = limited(most, self.rate_at(place));
        if let Some(old) = self.rates.get_mut(place) {
            *old = rate;
        }
    }

    // The account at that place does what it is allowed, if something is said of it.
    fn limit_at(&mut self, place: usize, allowed: &[Allowance])
        ensures { self.new.rates.items ≡ limited_at_place (slice_get allowed.now place) place self.old.rates.items }
    {
        if let Some(allowance) = allowed.get(place) {
            self.limit(place, allowance.rate);
        }
    }

    // So do all accounts, by their places.
    fn limit_all(&mut self, allowed: &[Allowance])
        ensures { self.new.rates.items ≡ limited_all_to allowed.now self.old.rates.items }
    {
        for place in 0..allowed.len() {
            self.limit_at(place, allowed);
        }
    }

    // Whether a request of the account at that place, which has that rate, is put at the moment.
    fn admit_one(&mut self, place: usize, rate: Rate, now: u64) -> bool
        ensures said { result ≡ has_place_of now rate }
        ensures rates { self.new.rates.items ≡ slice_set self.old.rates.items place (Some (after_request now rate)) }
    {
        let mut rate = rate;
        let is_admitted = rate.admit(now);
        self.put(place, rate);
        is_admitted
    }

    fn admit_by(&mut self, place: usize, rate: Option<Rate>, now: u64) -> bool
        ensures said { result ≡ is_admitted now rate }
        ensures rates { self.new.rates.items ≡ rates_after place now rate self.old.rates.items }
    {
        match rate {
            Some(rate) => self.admit_one(place, rate, now),
            None => true,
        }
    }

    // Whether a request of the account at that place is put at the moment.
    fn admit(&mut self, place: usize, now: u64) -> bool
        ensures said { result ≡ is_admitted now (rate_of (slice_get self.old.rates.items place)) }
        ensures rates { self.new.rates.items ≡ rates_after place now (rate_of (slice_get self.old.rates.items place)) self.old.rates.items }
    {
        let rate = self.rate_at(place);
        self.admit_by(place, rate, now)
    }
}

/// The rates of the accounts of a run.
#[derive(Drop)]
pub(crate) struct Rates {
    accounts: Mutex<AccountRates>,
}

// The rates that accounts are allowed. None has put anything yet.
fn new_rates(alloc: Global, allowed: &[Allowance]) -> Result<Vec<Option<Rate>>, AllocError>
    ensures { IfOk result (λ rates. rates.items ≡ map first_rate allowed.now) }
{
    let mut rates = Vec::with_capacity(alloc, allowed.len())?;
    for allowance in allowed {
        rates.push(limited(allowance.rate, None))?;
    }
    Ok(rates)
}

// The account of a request.
fn account_of(request: &Job) -> Option<u8>
    ensures { result ≡ account_asking request.now }
{
    match request {
        Job::Submit { account, .. } | Job::Query { account, .. } | Job::Cancel { account, .. } => {
            Some(*account)
        }
        _ => None,
    }
}

impl Rates {
    /// The rates that accounts are allowed. None has put anything yet.
    pub(crate) fn new(alloc: Global, allowed: &[Allowance]) -> Result<Rates, AllocError> {
        let rates = new_rates(alloc, allowed)?;
        Ok(Rates {
            accounts: Mutex::new(AccountRates { rates }),
        })
    }

    /// From now on the accounts have these rates.
    pub(crate) fn change<R: Wait>(&self, rt: &R, allowed: &[Allowance]) {
        self.accounts.lock(rt).limit_all(allowed);
    }

    /// Whether the request is put now. The clock is read while nobody else asks, so that the moments do not go back.
    pub(crate) fn admit<R: Wait + Clock>(&self, rt: &R, request: &Job) -> bool {
        let Some(account) = account_of(request) else {
            return true;
        };
        let mut accounts = self.accounts.lock(rt);
        let now = milliseconds(rt);
        accounts.admit(usize::from(account), now)
    }
}

/// Of the requests of an account no more than its rate are put in any second, whatever its sessions ask.
pub fn no_account_passes_its_rate()
    ensures { (most second : ℕ) (nows : List ℕ) → AreInOrder 0 nows → count_put second (new_rate most) nows ≤ most }
{}
