//! What a run of the server is given in a test.
use crate::rows::{holds, made};
use crate::service::centre::{accounts, book, clock};
use sms_base::FinalState;
use sms_keeper::Gate;
use smsc_endpoint::LinkAccess;
use smsc_observer::{Event, Observer};
use smsc_server::{AccountBook, Allowances, Given, Loopback, Orders, ServeFault, loopback_pair};
use smsc_service::CentreStore;
use std::alloc::{AllocError, Global};
use std::net::{Net, TcpListener, TcpStream};
use std::sync::atomic::{AtomicU32, Ordering};
use std::sync::{Arc, Wait};
use std::test::Fail;
use std::thread::Threads;
use std::time::Clock;

/// An observer that does nothing.
#[derive(Drop)]
pub(crate) struct Silent;

impl Observer for Silent {
    fn observe(&self, _event: &Event) {}
}

/// An observer that counts the messages which were accepted, and those which were delivered.
#[derive(Drop)]
pub(crate) struct Counting {
    accepted: AtomicU32,
    delivered: AtomicU32,
}

impl Counting {
    /// None yet.
    pub(crate) fn new() -> Counting {
        Counting {
            accepted: AtomicU32::new(0),
            delivered: AtomicU32::new(0),
        }
    }

    /// How many were accepted, and how many delivered.
    pub(crate) fn counts(&self) -> (u32, u32) {
        (
            self.accepted.load(Ordering::SeqCst),
            self.delivered.load(Ordering::SeqCst),
        )
    }
}

impl Observer for Counting {
    fn observe(&self, event: &Event) {
        match event {
            Event::Accepted(_, _) => {
                self.accepted.fetch_add(1, Ordering::SeqCst);
            }
            Event::Final(_, FinalState::Delivered) => {
                self.delivered.fetch_add(1, Ordering::SeqCst);
            }
            _ => (),
        }
    }
}

// The run and its clients ended well.
fn is_over(ended: &Result<(), ServeFault>, came: Result<(), Fail>) -> Result<(), Fail> {
    came?;
    holds(ended.is_ok(), "the run ends with its connections")
}

fn given_with<T: Drop>(
    alloc: Global,
    accounts: Arc<AccountBook>,
    observer: T,
    sessions: u32,
    limits: &[u8],
) -> Result<Given<T>, AllocError> {
    let orders = Orders::new(alloc)?;
    let orders = Arc::new(alloc, orders)?;
    let allowances = Allowances::new(alloc, limits, &[])?;
    Ok(Given {
        accounts,
        access: Arc::new(alloc, LinkAccess::Anyone)?,
        observer: Arc::new(alloc, observer)?,
        orders,
        links: None,
        sessions: Some(sessions),
        allowances: Arc::new(alloc, allowances)?,
    })
}

/// A run for so many connections: app1 may bind with the password secret. It may have so many sessions at once as the limits say.
pub(crate) fn given<T: Drop>(
    alloc: Global,
    observer: T,
    sessions: u32,
    limits: &[u8],
) -> Result<Given<T>, Fail> {
    let accounts = book(alloc)?;
    made(
        given_with(alloc, accounts, observer, sessions, limits).ok(),
        "what a run is given",
    )
}

/// Serves so many connections over the store, whatever that is, to the clients that come. An account may have a session at each seat.
pub(crate) fn serves<
    R: Net<Listener = TcpListener, Stream = TcpStream>
        + Threads
        + Wait
        + Clock
        + Copy
        + Send
        + Sync
        + 'static,
    K: CentreStore + Drop + Send,
    G: Gate + Sync,
    C: FnOnce(Loopback) -> Result<(), Fail>,
>(rt: R, alloc: Global, store: K, gate: &G, sessions: u32, come: C) -> Result<(), Fail>
    requires { C.IsAlwaysCallable come }
{
    serves_within(rt, alloc, store, gate, sessions, Vec::new(alloc), come)
}

/// So too, but the account at each place may have so many sessions at once.
pub(crate) fn serves_within<
    R: Net<Listener = TcpListener, Stream = TcpStream>
        + Threads
        + Wait
        + Clock
        + Copy
        + Send
        + Sync
        + 'static,
    K: CentreStore + Drop + Send,
    G: Gate + Sync,
    C: FnOnce(Loopback) -> Result<(), Fail>,
>(
    rt: R,
    alloc: Global,
    store: K,
    gate: &G,
    sessions: u32,
    limits: Vec<u8>,
    come: C,
) -> Result<(), Fail>
    requires { C.IsAlwaysCallable come }
{
    let clock = clock()?;
    let run = given(alloc, Silent, sessions, limits.as_slice())?;
    let all = accounts(alloc)?;
    match loopback_pair(rt, alloc, store, all, gate, &clock, &run, come) {
        Ok((ended, came)) => is_over(&ended, came),
        Err(_) => Err(Fail::new("the run begins")),
    }
}
