//! What wakes whoever takes connections.
use mio::unix::SourceFd;
use mio::{Events, Interest, Poll, Token, Waker};
use std::alloc::Global;
use std::io;
use std::net::Net;
use std::os::fd::{AsRawFd, RawFd};
use std::time::Duration;

// The number of the waker, behind those of the ports.
const WAKER: usize = 2;

/// Rings where a connection waits at one of two ports, or somebody rings it.
#[derive(Drop)]
pub(crate) struct Poller {
    poll: Poll,
    events: Events,
    ports: [RawFd; 2],
}

fn watch(poll: &Poll, port: RawFd, number: usize) -> io::Result<()> {
    poll.registry()
        .register(&mut SourceFd(&port), Token(number), Interest::READABLE)
}

fn watch_both<N: Net>(net: &N, ports: [RawFd; 2]) -> io::Result<Poll> {
    let poll = Poll::new(net)?;
    watch(&poll, ports[0], 0)?;
    watch(&poll, ports[1], 1)?;
    Ok(poll)
}

impl Poller {
    /// A poller of the two ports, and what rings it beside them.
    pub(crate) fn of<N: Net, L: AsRawFd>(
        net: &N,
        alloc: Global,
        first: &L,
        second: &L,
    ) -> io::Result<(Poller, Waker)> {
        let ports = [first.as_raw_fd(), second.as_raw_fd()];
        let poll = watch_both(net, ports)?;
        let waker = Waker::new(poll.registry(), Token(WAKER))?;
        let events = Events::with_capacity(alloc, 4)?;
        Ok((
            Poller {
                poll,
                events,
                ports,
            },
            waker,
        ))
    }

    // A port at which somebody waits rings again.
    fn arm(&self, port: RawFd, number: usize) -> bool {
        self.poll
            .registry()
            .reregister(&mut SourceFd(&port), Token(number), Interest::READABLE)
            .is_ok()
    }

    // Whether a port rang.
    fn is_port(&self) -> bool {
        self.events
            .iter()
            .any(|event| event.token() != Token(WAKER))
    }

    /// Whether somebody waits at a port, waiting at most so long for it or for a ring. None where it can't be waited for.
    pub(crate) fn look(&mut self, at_most: Duration) -> Option<bool> {
        let [first, second] = self.ports;
        if !self.arm(first, 0) || !self.arm(second, 1) {
            return None;
        }
        self.poll.poll(&mut self.events, Some(at_most)).ok()?;
        Some(self.is_port())
    }

    /// Waits at most so long until it rings for something new. Says whether it could wait.
    pub(crate) fn wait(&mut self, at_most: Duration) -> bool {
        self.poll.poll(&mut self.events, Some(at_most)).is_ok()
    }
}
