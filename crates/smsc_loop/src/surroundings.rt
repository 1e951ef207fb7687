//! What is round a seat: time, other connections, orders, and an observer of its endpoint.
ghost use Rattle.std.specs.Prelude.{◌≡◌, true};

use crate::note::{Counts, Note};
use smpp_session::FullAccounts;
use sms_centre_spec::jobs::Job;

/// What is ordered of the endpoint at a seat.
#[derive(Clone, Copy, PartialEq, Eq)]
pub enum Order {
    /// The endpoint may stay.
    Stay,
    /// The endpoint leaves in good order: a bound session is sent unbind, and has five seconds to end.
    Unbind,
    /// The connection ends at once.
    End,
    /// The handset has a newer link at another seat, so this connection ends at once.
    Replaced,
}

/// How much an endpoint did so far, and how much it waits for.
#[derive(Clone, Copy)]
pub struct Activity {
    pub counts: Counts,
    /// How many of its requests have no answer yet.
    pub window: usize,
}

/// What is round a seat.
pub trait Surroundings {
    /// The run was over, or its time to end had passed.
    ghost was_over: { Self → Type 0 };

    /// Milliseconds since a moment of its own. They never go back.
    fn now(&self) -> u64;

    /// Whether the run is over: the keeper has ended, or the time in which the seats leave after an order to stop has passed.
    fn is_over(&self) -> bool
        ensures over { result ≡ true → was_over self.now };

    /// Whether connections wait for a seat.
    fn do_others_wait(&self) -> bool;

    /// Whether a request may be put now: its account has not put as many in this second as it may.
    fn admits(&self, request: &Job) -> bool;

    /// What is ordered of the endpoint at the seat of this number.
    fn order(&self, seat: usize) -> Order;

    /// The endpoint at the seat of this number is about to take octets, and may be bound by them. Says which accounts are full. No
    /// other endpoint is bound until `octets_taken`.
    fn before_octets(&self, seat: usize) -> FullAccounts;

    /// The endpoint has taken them, and `observe` what happened by them.
    fn octets_taken(&self, seat: usize);

    /// Takes what happened to the endpoint at the seat of this number.
    fn observe(&self, seat: usize, note: Note);

    /// Takes how much the endpoint at the seat of this number did so far, after each of its turns.
    fn watch(&self, seat: usize, activity: &Activity);
}
