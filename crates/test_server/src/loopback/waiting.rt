//! Connections beyond the seats wait unaccepted, and are served as seats become free.
use crate::clock_and_gate::Open;
use crate::loopback::client::Client;
use crate::loopback::server::serves;
use crate::rows::holds;
use crate::service::centre::{BIND, keep};
use smsc_server::Loopback;
use std::alloc::Global;
use std::io;
use std::net::{Net, SocketAddr, TcpStream};
use std::test::Fail;
use std::time::Clock;

// bind_transceiver_resp with the name smsc and sc_interface_version (SMPP v3.4 4.1.6, 5.3.2.25).
const BIND_ANSWER: &[u8] = &[
    0x00, 0x00, 0x00, 0x1A, 0x80, 0x00, 0x00, 0x09, 0x00, 0x00, 0x00, 0x00, 0x00, 0x00, 0x00, 0x01,
    0x73, 0x6D, 0x73, 0x63, 0x00, 0x02, 0x10, 0x00, 0x01, 0x34,
];

// So many seats applications have at most: eight of 32 are kept for handsets.
const SEATED: usize = 24;

// So many clients more come. The run is for as many connections as come, and ends with the last of them.
const MORE: usize = 8;

fn bound<R: Net<Stream = TcpStream>>(rt: &R, server: SocketAddr) -> io::Result<Client> {
    let mut client = Client::to(rt, server)?;
    client.says(BIND)?;
    Ok(client)
}

fn come_all<R: Net<Stream = TcpStream>>(
    rt: &R,
    server: SocketAddr,
    clients: &mut Vec<Client>,
    count: usize,
) -> io::Result<()> {
    for _ in 0..count {
        clients.push(bound(rt, server)?)?;
    }
    Ok(())
}

fn are_answered(clients: &mut Vec<Client>) -> io::Result<()> {
    for client in clients.iter_mut() {
        client.hears(BIND_ANSWER)?;
    }
    Ok(())
}

fn come_and_wait<R: Net<Stream = TcpStream>>(
    rt: &R,
    server: SocketAddr,
    seated: &mut Vec<Client>,
    more: &mut Vec<Client>,
) -> io::Result<()> {
    come_all(rt, server, seated, SEATED)?;
    are_answered(seated)?;
    come_all(rt, server, more, MORE)
}

// All seats are taken, and more clients come; each is served once the others have gone.
fn come<R: Net<Stream = TcpStream>>(rt: &R, alloc: Global, server: SocketAddr) -> Result<(), Fail> {
    let mut seated = Vec::new(alloc);
    let mut more = Vec::new(alloc);
    let came = come_and_wait(rt, server, &mut seated, &mut more);
    drop(seated);
    let answered = are_answered(&mut more);
    holds(came.is_ok() && answered.is_ok(), "all clients are served")
}

// So many seconds pass at most until a silent connection has given way: five, and what a loaded machine takes.
const MOST_SECONDS: u64 = 20;

fn come_to_say_nothing<R: Net<Stream = TcpStream>>(
    rt: &R,
    server: SocketAddr,
    clients: &mut Vec<Client>,
) -> io::Result<()> {
    for _ in 0..SEATED {
        clients.push(Client::to(rt, server)?)?;
    }
    Ok(())
}

fn is_answered<R: Net<Stream = TcpStream>>(rt: &R, server: SocketAddr) -> io::Result<()> {
    let mut client = bound(rt, server)?;
    client.hears(BIND_ANSWER)
}

// So many seconds another client waits for its answer.
fn waits<R: Net<Stream = TcpStream> + Clock>(rt: &R, server: SocketAddr) -> io::Result<u64> {
    let began = rt.monotonic()?.as_secs();
    is_answered(rt, server)?;
    let ended = rt.monotonic()?.as_secs();
    Ok(ended.saturating_sub(began))
}

fn is_soon(waited: io::Result<u64>) -> bool {
    match waited {
        Ok(seconds) => seconds < MOST_SECONDS,
        Err(_) => false,
    }
}

// All seats are taken by clients that say nothing, and another one comes: it does not wait for half a minute.
fn come_silently<R: Net<Stream = TcpStream> + Clock>(
    rt: &R,
    alloc: Global,
    server: SocketAddr,
) -> Result<(), Fail> {
    let mut silent = Vec::new(alloc);
    let came = come_to_say_nothing(rt, server, &mut silent).is_ok();
    let is_soon = is_soon(waits(rt, server));
    drop(silent);
    holds(came && is_soon, "a silent connection gives way")
}

#[test]
fn connections_beyond_the_seats_wait_and_are_served(rt: HostRuntime) -> Result<(), Fail> {
    let alloc = rt.alloc();
    serves(rt, alloc, keep(alloc)?, &Open, 32, |at: Loopback| {
        come(&rt, alloc, at.applications)
    })
}

#[test]
fn silent_connections_give_way_to_those_that_wait(rt: HostRuntime) -> Result<(), Fail> {
    let alloc = rt.alloc();
    serves(rt, alloc, keep(alloc)?, &Open, 25, |at: Loopback| {
        come_silently(&rt, alloc, at.applications)
    })
}
