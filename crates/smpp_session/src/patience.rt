//! How long an endpoint is waited for.
ghost use Rattle.std.specs.Prelude.{◌≡◌, Some, None};
ghost use Rattle.smpp_session.specs.Patience.{is_within as is_within_of, is_within_some as is_within_some_of, known_verdict as known_verdict_of};
ghost use Rattle.smpp_session.specs.Patience.{silence_of as silence_verdict, since_first as since_first_of, unknown_limit as unknown_limit_of, verdict_of};

// Milliseconds in which a deliver_sm or an enquire_link is answered: response_timer (SMPP v3.4 7.2).
const RESPONSE_LIMIT: u64 = 60_000;

// Milliseconds of silence after which a session is sent enquire_link: enquire_link_timer (SMPP v3.4 7.2).
const SILENCE_LIMIT: u64 = 300_000;

// Milliseconds in which an endpoint takes an octet of those that wait.
const STALL_LIMIT: u64 = 10_000;

// Milliseconds that an endpoint has to leave.
const LEAVE_LIMIT: u64 = 5_000;

/// What waiting has led to.
#[derive(Clone, Copy, PartialEq, Eq)]
pub enum WaitOutcome {
    /// The endpoint is waited for.
    Waits,
    /// The endpoint is sent enquire_link.
    AsksLink,
    /// The endpoint did not say who it is in time.
    Silent,
    /// The endpoint took no octets in time.
    Stalled,
    /// The endpoint answered no deliver_sm in time.
    Unanswered,
    /// The endpoint did not answer enquire_link in time.
    Inactive,
    /// The endpoint did not leave in time.
    Ordered,
}

/// What is to be seen of an endpoint.
#[derive(Clone, Copy)]
pub struct EndpointState {
    /// The endpoint said who it is.
    pub is_known: bool,
    /// The endpoint is a bound session.
    pub is_bound: bool,
    /// Connections wait for its seat.
    pub others_wait: bool,
    /// When its oldest deliver_sm without an answer was sent.
    pub owed: Option<u64>,
}

/// Since when an endpoint is waited for, in milliseconds.
#[derive(Clone, Copy)]
pub struct Patience {
    /// The endpoint has not said who it is since then.
    pub unknown: u64,
    /// Nothing arrived since then.
    pub heard: u64,
    /// The endpoint was sent enquire_link then, and nothing arrived since.
    pub asked: Option<u64>,
    /// Octets wait since then, and it takes none.
    pub stalled: Option<u64>,
    /// The endpoint is to leave since then.
    pub leaving: Option<u64>,
}

fn is_within(limit: u64, since: u64, now: u64) -> bool
    ensures { result ≡ is_within_of limit since now }
{
    now.saturating_sub(since) < limit
}

fn is_within_some(limit: u64, since: Option<u64>, now: u64) -> bool
    ensures { result ≡ is_within_some_of limit since now }
{
    match since {
        Some(since) => is_within(limit, since, now),
        None => true,
    }
}

// The first of both moments: a later one changes nothing.
fn since_first(since: Option<u64>, now: u64) -> Option<u64>
    ensures { result ≡ since_first_of since now }
{
    match since {
        Some(since) => Some(since),
        None => Some(now),
    }
}

// How long an endpoint may take to say who it is.
fn unknown_limit(others_wait: bool) -> u64
    ensures { result ≡ unknown_limit_of others_wait }
{
    if others_wait { 5_000 } else { 30_000 }
}

// What the silence of a bound session has led to.
fn silence_of(asked: Option<u64>, heard: u64, now: u64) -> WaitOutcome
    ensures { result ≡ silence_verdict asked heard now }
{
    match asked {
        Some(asked) => {
            if is_within(RESPONSE_LIMIT, asked, now) {
                WaitOutcome::Waits
            } else {
                WaitOutcome::Inactive
            }
        }
        None => {
            if is_within(SILENCE_LIMIT, heard, now) {
                WaitOutcome::Waits
            } else {
                WaitOutcome::AsksLink
            }
        }
    }
}

impl Patience {
    /// The patience with an endpoint whose connection opens at this moment.
    pub fn new(now: u64) -> Patience
        ensures { result ≡ record { unknown = now; heard = now; asked = None; stalled = None; leaving = None } }
    {
        Patience {
            unknown: now,
            heard: now,
            asked: None,
            stalled: None,
            leaving: None,
        }
    }

    /// Octets arrived.
    pub fn hear(&mut self, now: u64)
        ensures { self.new ≡ record self.old { heard = now; asked = None } }
    {
        self.heard = now;
        self.asked = None;
    }

    /// The endpoint was sent enquire_link.
    pub fn ask(&mut self, now: u64)
        ensures { self.new ≡ record self.old { asked = Some now } }
    {
        self.asked = Some(now);
    }

    /// The endpoint was asked to leave. Only the first time counts.
    pub fn leave(&mut self, now: u64)
        ensures { self.new ≡ record self.old { leaving = since_first_of self.old.leaving now } }
    {
        self.leaving = since_first(self.leaving, now);
    }

    /// The endpoint is known, so the time to say who it is begins anew.
    pub fn know(&mut self, now: u64)
        ensures { self.new ≡ record self.old { unknown = now } }
    {
        self.unknown = now;
    }

    /// The endpoint took octets, or none wait.
    pub fn flow(&mut self)
        ensures { self.new ≡ record self.old { stalled = None } }
    {
        self.stalled = None;
    }

    /// Octets wait and it took none. Only the first time counts.
    pub fn stall(&mut self, now: u64)
        ensures { self.new ≡ record self.old { stalled = since_first_of self.old.stalled now } }
    {
        self.stalled = since_first(self.stalled, now);
    }

    fn known_verdict(&self, state: &EndpointState, now: u64) -> WaitOutcome
        ensures { result ≡ known_verdict_of self.now state.now now }
    {
        if !is_within_some(RESPONSE_LIMIT, state.owed, now) {
            return WaitOutcome::Unanswered;
        }
        if state.is_bound {
            silence_of(self.asked, self.heard, now)
        } else {
            WaitOutcome::Waits
        }
    }

    /// What the waiting has led to at this moment.
    pub fn verdict(&self, state: &EndpointState, now: u64) -> WaitOutcome
        ensures { result ≡ verdict_of self.now state.now now }
    {
        if !is_within_some(STALL_LIMIT, self.stalled, now) {
            return WaitOutcome::Stalled;
        }
        if !is_within_some(LEAVE_LIMIT, self.leaving, now) {
            return WaitOutcome::Ordered;
        }
        if state.is_known {
            return self.known_verdict(state, now);
        }
        if is_within(unknown_limit(state.others_wait), self.unknown, now) {
            WaitOutcome::Waits
        } else {
            WaitOutcome::Silent
        }
    }
}
