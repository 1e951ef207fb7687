//! The ports of a run.
use libc::net as system;
use smsc_server::Ports;
use std::io;
use std::net::TcpListener;
use std::os::fd::AsRawFd;

// Seconds of silence after which the system asks the other side, between two questions, and how many go unanswered (SO_KEEPALIVE,
// TCP_KEEPIDLE, TCP_KEEPINTVL, TCP_KEEPCNT).
const IDLE: i32 = 60;

const INTERVAL: i32 = 20;

const QUESTIONS: i32 = 3;

// The number of TCP_KEEPIDLE, TCP_KEEPINTVL and TCP_KEEPCNT.
const KEEPIDLE: i32 = 4;

const KEEPINTVL: i32 = 5;

const KEEPCNT: i32 = 6;

fn value_of(number: i32) -> [u8; 16] {
    let mut value = [0u8; 16];
    value[..4].copy_from_slice(&number.to_ne_bytes());
    value
}

// Connections that are accepted there have these options too. An option that the system does not know is left out.
fn keep_alive(listener: &TcpListener) {
    let fd = listener.as_raw_fd();
    let (on, idle) = (value_of(1), value_of(IDLE));
    let (interval, questions) = (value_of(INTERVAL), value_of(QUESTIONS));
    let _ = unsafe { system::setsockopt(fd, system::SOL_SOCKET, system::SO_KEEPALIVE, &on, 4) };
    let _ = unsafe { system::setsockopt(fd, system::IPPROTO_TCP, KEEPIDLE, &idle, 4) };
    let _ = unsafe { system::setsockopt(fd, system::IPPROTO_TCP, KEEPINTVL, &interval, 4) };
    let _ = unsafe { system::setsockopt(fd, system::IPPROTO_TCP, KEEPCNT, &questions, 4) };
}

/// Listens on a port of this machine alone.
pub fn listen(rt: &HostRuntime, port: u16) -> io::Result<TcpListener> {
    let listener = TcpListener::bind(rt, ("127.0.0.1", port))?;
    keep_alive(&listener);
    Ok(listener)
}

/// The listeners as the ports of a run.
pub fn ports_of(
    rt: &HostRuntime,
    applications: TcpListener,
    links: TcpListener,
) -> io::Result<Ports<TcpListener>> {
    Ports::of(rt, rt.alloc(), applications, links)
}
