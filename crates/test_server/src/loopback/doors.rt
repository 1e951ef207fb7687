//! A run over listeners that state what they gave. The connections are of this process alone.
ghost use Rattle.std.specs.Prelude.{Some};

use crate::clock_and_gate::{Open, Still};
use crate::loopback::server::given;
use crate::rows::holds;
use crate::service::centre::{accounts, clock, keep};
use sms_store_memory::centre::MemoryKeep;
use smsc_observer::{Event, Observer};
use smsc_server::{Door, Doors, Duplicate, Given, PeerKind, Ports, serve};
use smsc_service::{CentreAccount, Forgetting, NoArchive};
use std::alloc::Global;
use std::io::{self, ErrorKind, Read, Write};
use std::net::{
    Ipv4Addr, Net, OpenListener, OpenStream, Shutdown, SocketAddr, SocketAddrV4, TcpListener,
    TcpStream,
};
use std::os::fd::{AsRawFd, RawFd};
use std::sync::Wait;
use std::sync::atomic::{AtomicU32, Ordering};
use std::test::Fail;
use std::thread::Threads;
use std::time::{Clock, Duration};

/// A connection on which nothing arrives. What is written to it is let go.
#[derive(Clone, Copy, PartialEq, Eq)]
struct Numbered(u32);

impl Read for Numbered {
    fn read(&mut self, _buf: &mut [u8]) -> io::Result<usize> {
        Ok(0)
    }
}

impl Write for Numbered {
    fn write(&mut self, buf: &[u8]) -> io::Result<usize> {
        Ok(buf.len())
    }

    fn flush(&mut self) -> io::Result<()> {
        Ok(())
    }
}

impl OpenStream for Numbered {
    fn shutdown(&self, _how: Shutdown) -> io::Result<()> {
        Ok(())
    }

    fn set_nodelay(&self, _nodelay: bool) -> io::Result<()> {
        Ok(())
    }

    fn set_write_timeout(&self, _dur: Option<Duration>) -> io::Result<()> {
        Ok(())
    }
}

impl Duplicate for Numbered {
    fn duplicate(&self) -> io::Result<Numbered> {
        Ok(*self)
    }
}

/// A listener that gives some connections and keeps which it gave. It has a port only since a run waits at one.
#[derive(Drop)]
struct Listed {
    port: TcpListener,
    /// So many are still to be given.
    left: u16,
    gave: Vec<(Numbered, SocketAddr)>,
}

// The address of the connection of that number.
fn address(number: u16) -> SocketAddr {
    SocketAddr::V4(SocketAddrV4::new(Ipv4Addr::LOCALHOST, number))
}

impl Door for Listed {
    type Stream = Numbered;

    ghost came = { λ l. Some l.gave.items };

    fn accept(&mut self) -> Option<(Numbered, SocketAddr)> {
        let left = self.left.checked_sub(1)?;
        let entered = (Numbered(u32::from(self.left)), address(self.left));
        self.gave.push(entered).ok()?;
        self.left = left;
        Some(entered)
    }
}

impl OpenListener for Listed {
    type Stream = Numbered;

    fn accept(&self) -> io::Result<(Numbered, SocketAddr)> {
        Err(io::Error::from(ErrorKind::WouldBlock))
    }

    fn set_nonblocking(&self, _nonblocking: bool) -> io::Result<()> {
        Ok(())
    }
}

impl AsRawFd for Listed {
    fn as_raw_fd(&self) -> RawFd {
        self.port.as_raw_fd()
    }
}

/// Adds the port numbers of those who ended without having said who they are, on each side.
#[derive(Drop)]
struct Sums {
    applications: AtomicU32,
    links: AtomicU32,
}

impl Observer for Sums {
    fn observe(&self, event: &Event) {
        if let Event::Unknown(side, peer, _) = event {
            let sum = match side {
                PeerKind::Application => &self.applications,
                PeerKind::Handset => &self.links,
            };
            sum.fetch_add(u32::from(peer.port()), Ordering::SeqCst);
        }
    }
}

fn opened<R: Net<Listener = TcpListener, Stream = TcpStream>>(
    rt: &R,
    alloc: Global,
    left: u16,
) -> io::Result<Listed> {
    let port = TcpListener::bind(rt, (Ipv4Addr::LOCALHOST, 0))?;
    Ok(Listed {
        port,
        left,
        gave: Vec::new(alloc),
    })
}

// Where two applications and three handsets come.
fn ports_of<R: Net<Listener = TcpListener, Stream = TcpStream>>(
    rt: &R,
    alloc: Global,
) -> io::Result<Ports<Listed>> {
    let applications = opened(rt, alloc, 2)?;
    let links = opened(rt, alloc, 3)?;
    Ports::of(rt, alloc, applications, links)
}

fn run<
    R: Net<Listener = TcpListener, Stream = TcpStream>
        + Threads
        + Wait
        + Clock
        + Copy
        + Send
        + 'static,
>(
    rt: R,
    alloc: Global,
    store: MemoryKeep,
    accounts: Vec<CentreAccount>,
    clock: &Still,
    ports: Ports<Listed>,
    taken: &Given<Sums>,
) -> Result<Doors<Listed>, Fail> {
    let forgetting = Forgetting {
        keep: None,
        archive: NoArchive,
    };
    match serve(
        rt, alloc, store, accounts, forgetting, &Open, clock, ports, taken,
    ) {
        Ok((doors, store, _)) => {
            drop(store);
            Ok(doors)
        }
        Err(_) => Err(Fail::new("the run ends with its connections")),
    }
}

// It gave the connections of these numbers, in order.
fn gave(listed: &Listed, numbers: &[u16]) -> bool {
    if listed.gave.len() != numbers.len() {
        return false;
    }
    for (one, number) in listed.gave.iter().zip(numbers) {
        if one.0 != Numbered(u32::from(*number)) || one.1 != address(*number) {
            return false;
        }
    }
    true
}

// Each application and each handset had a seat once.
fn are_seated(doors: &Doors<Listed>, sums: &Sums) -> Result<(), Fail> {
    holds(gave(&doors.applications, &[2, 1]), "two applications came")?;
    holds(gave(&doors.links, &[3, 2, 1]), "three handsets came")?;
    let applications = sums.applications.load(Ordering::SeqCst);
    let links = sums.links.load(Ordering::SeqCst);
    holds(applications == 3, "each application had a seat once")?;
    holds(links == 6, "each handset had a seat once")
}

fn no_sums() -> Sums {
    Sums {
        applications: AtomicU32::new(0),
        links: AtomicU32::new(0),
    }
}

#[test]
fn a_run_gives_back_which_connections_came(rt: HostRuntime) -> Result<(), Fail> {
    let alloc = rt.alloc();
    let clock = clock()?;
    let taken = given(alloc, no_sums(), 5, &[])?;
    let Ok(ports) = ports_of(&rt, alloc) else {
        return Err(Fail::new("ports"));
    };
    let store = keep(alloc)?;
    let doors = run(rt, alloc, store, accounts(alloc)?, &clock, ports, &taken)?;
    are_seated(&doors, &taken.observer)
}
