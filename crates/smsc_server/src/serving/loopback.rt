//! A server and its clients in one process.
ghost use Rattle.std.specs.Thread.{IsSend};

use crate::serving::connection::Ports;
use crate::serving::fault::ServeFault;
use crate::serving::run::serve;
use crate::serving::server::Given;
use sms_keeper::{Clock, Gate};
use smsc_arrivals::Doors;
use smsc_observer::Observer;
use smsc_service::{CentreAccount, CentreStore, Forgetting, NoArchive};
use std::alloc::Global;
use std::io;
use std::net::{Ipv4Addr, Net, SocketAddr, TcpListener, TcpStream};
use std::sync::Wait;
use std::thread::{Threads, join};
use std::time::Clock as SystemClock;

/// Where a server of this process listens.
#[derive(Clone, Copy, PartialEq, Eq)]
pub struct Loopback {
    /// The port for applications.
    pub applications: SocketAddr,
    /// The port for handsets.
    pub links: SocketAddr,
}

// The ports of a server on two free numbers of this machine, and where they are.
fn open<N: Net<Listener = TcpListener, Stream = TcpStream>>(
    net: &N,
    alloc: Global,
) -> io::Result<(Ports<TcpListener>, Loopback)> {
    let applications = TcpListener::bind(net, (Ipv4Addr::LOCALHOST, 0))?;
    let links = TcpListener::bind(net, (Ipv4Addr::LOCALHOST, 0))?;
    let loopback = Loopback {
        applications: applications.local_addr()?,
        links: links.local_addr()?,
    };
    let ports = Ports::of(net, alloc, applications, links)?;
    Ok((ports, loopback))
}

// Neither the listeners nor the keep is needed any more, and nothing was archived.
fn drop_given<L: Drop, K: Drop>(
    served: Result<(Doors<L>, K, NoArchive), ServeFault>,
) -> Result<(), ServeFault> {
    match served {
        Ok((doors, keep, _)) => {
            drop(doors);
            drop(keep);
            Ok(())
        }
        Err(fault) => Err(fault),
    }
}

/// Serves the connections of two free ports of this machine, as `serve` does, in a thread beside the work, which makes them. It forgets
/// nothing. Gives how the server ended, and what the work gave.
///
/// # Errors
/// The system gave no port, and neither was begun.
pub fn loopback_pair<
    R: Net<Listener = TcpListener, Stream = TcpStream>
        + Threads
        + Wait
        + SystemClock
        + Copy
        + Send
        + 'static,
    K: CentreStore + Drop + Send,
    G: Gate + Sync,
    C: Clock + Sync,
    T: Observer + Drop + Send + Sync + 'static,
    V,
    W: FnOnce(Loopback) -> V,
>(
    rt: R,
    alloc: Global,
    keep: K,
    accounts: Vec<CentreAccount>,
    gate: &G,
    clock: &C,
    given: &Given<T>,
    work: W,
) -> io::Result<(Result<(), ServeFault>, V)>
    requires { W.IsAlwaysCallable work }
{
    let (ports, loopback) = open(&rt, alloc)?;
    let both = join(
        &rt,
        move ||
            requires observer { IsSend T.row }
        {
            let forgetting = Forgetting {
                keep: None,
                archive: NoArchive,
            };
            drop_given(serve(
                rt, alloc, keep, accounts, forgetting, gate, clock, ports, given,
            ))
        },
        move || work(loopback),
    );
    Ok(both)
}
