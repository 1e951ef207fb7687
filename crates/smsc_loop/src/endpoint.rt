//! Who may sit at a seat.
ghost use Rattle.std.specs.Prelude.{◌≡◌, ◌≤◌, ℕ, Bool, true, false, List, take, length, is_ok, MatchOption, MatchResult};
ghost use Rattle.smsc_loop.specs.Calls.{Call, Timed, Told, Took, Heard, GaveUp, AskedLink, AskedToLeave, Noted, Sent, Put, PutBack, Left};

use crate::note::{Counts, Note};
use smpp_session::FullAccounts;
use sms_centre_spec::jobs::{Job, Reply};
use std::alloc::AllocError;

/// A session or a link at a seat.
pub trait Endpoint {
    /// The octets that wait to be sent.
    ghost waits: { Self → List ℕ };

    /// Whether the endpoint takes and gives nothing any more.
    ghost over: { Self → Bool };

    /// A request that it took has no answer yet.
    ghost owing: { Self → Bool };

    /// Jobs wait to be put.
    ghost any_job: { Self → Bool };

    /// What a call leads to. A call that was refused memory may say nothing of how it is behind it.
    ghost does: { Call → Self → Self → Type 0 };

    /// Takes the time, in milliseconds. They never go back.
    fn at(&mut self, now: u64) -> Result<(), AllocError>
        ensures at { does (Timed now (is_ok result)) self.old self.new };

    /// Takes which accounts are full: they take no further session.
    fn take_full(&mut self, full: FullAccounts)
        ensures told { does (Told full) self.old self.new };

    /// Takes received octets. Without memory the endpoint can't continue.
    fn take(&mut self, octets: &[u8]) -> Result<(), AllocError>
        ensures took { does (Took octets.now (is_ok result)) self.old self.new };

    /// Takes a reply of the seat.
    fn take_reply(&mut self, reply: Reply) -> Result<(), AllocError>
        ensures heard { does (Heard reply (is_ok result)) self.old self.new };

    /// The endpoint has not said who it is for too long: it is to be sent that there is no room for it.
    fn give_up(&mut self) -> Result<(), AllocError>
        ensures given_up { does (GaveUp (is_ok result)) self.old self.new };

    /// Asks the endpoint whether it is there: a session is sent enquire_link.
    fn ask_link(&mut self) -> Result<(), AllocError>
        ensures asked { does (AskedLink (is_ok result)) self.old self.new };

    /// The endpoint is to leave. Says whether it was sent so; else it leaves at once.
    fn ask_to_leave(&mut self) -> Result<bool, AllocError>
        ensures asked_to_leave { MatchResult result
            (λ asked. does (AskedToLeave asked true) self.old self.new)
            (λ error. does (AskedToLeave false false) self.old self.new) };

    /// What happened that somebody may want to know, one after the other.
    fn note(&mut self) -> Option<Note>
        ensures noted { does (Noted result) self.old self.new };

    /// The octets to send now.
    fn octets(&self) -> &[u8]
        ensures waits { result.now ≡ waits self.now };

    /// So many of them were sent.
    fn sent(&mut self, count: usize)
        requires count { count ≤ length (waits self.old) }
        ensures sent { does (Sent (take count (waits self.old))) self.old self.new };

    /// The next job to put, while fewer than eight requests are with the keeper.
    fn next_job(&mut self) -> Option<Job>
        ensures handed { MatchOption result (self.new ≡ self.old) (λ job. does (Put job) self.old self.new) };

    /// The job was handed back. Says whether it is to be put again.
    fn handed_back(&mut self, job: Job) -> Result<bool, AllocError>
        ensures back { (v : Self) → does (Put job) v self.old → MatchResult result
            (λ again. does (PutBack job again true) v self.new)
            (λ error. does (PutBack job false false) v self.new) };

    /// Whether jobs wait to be put.
    fn has_jobs(&self) -> bool
        ensures any_job { result ≡ any_job self.now };

    /// Whether no more of its octets are to be read now.
    fn is_full(&self) -> bool;

    /// How many requests that it took have no answer yet.
    fn unanswered(&self) -> usize;

    /// Whether a request that it took has no answer yet.
    fn owes(&self) -> bool
        ensures owing { result ≡ owing self.now };

    /// Whether it said who it is.
    fn is_known(&self) -> bool;

    /// Whether it is a session that is bound.
    fn is_bound(&self) -> bool;

    /// When the oldest deliver_sm that has no answer was sent.
    fn owed_since(&self) -> Option<u64>;

    /// Whether it takes and gives nothing any more.
    fn is_over(&self) -> bool
        ensures over { result ≡ over self.now };

    /// How much it did.
    fn counts(&self) -> Counts;

    /// The connection has ended: nothing is sent any more, and this is the last job.
    fn close(&mut self) -> Option<Job>
        ensures left { does (Left result) self.old self.new };
}
