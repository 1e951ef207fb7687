//! A submit is held between what the centre plans of it and its commit; all other connections are answered meanwhile. Each connection
//! gets the answers to its own requests: no two of them use one sequence number.
use crate::loopback::board::{Board, Held};
use crate::loopback::client::Client;
use crate::loopback::server::serves;
use crate::rows::holds;
use crate::service::centre::{BIND, ENQUIRE, QUERY, SUBMIT, keep};
use smsc_server::Loopback;
use std::io::{self, ErrorKind};
use std::net::{Net, SocketAddr, TcpListener, TcpStream};
use std::sync::atomic::Ordering;
use std::sync::{Arc, Wait};
use std::test::Fail;
use std::thread::{self, JoinHandle, Threads};
use std::time::{Clock, Duration};

// What answers begin with, behind their lengths: query_sm_resp, enquire_link_resp, and submit_sm_resp with ESME_ROK (SMPP v3.4
// 5.1.2 and 5.1.3).
const QUERY_ANSWER: &[u8] = &[0x80, 0x00, 0x00, 0x03];

const LINK_ANSWER: &[u8] = &[0x80, 0x00, 0x00, 0x15];

const ACCEPTED: &[u8] = &[0x80, 0x00, 0x00, 0x04, 0x00, 0x00, 0x00, 0x00];

// So many turns of a millisecond a client waits for the others.
const MOST_TURNS: u32 = 10_000;

// The sequence number of a client's request.
fn number_of(place: u32, request: u32) -> u32 {
    place.saturating_mul(8).saturating_add(request)
}

// Reads PDUs until one begins so behind its length. It is to be under that sequence number.
fn awaits(client: &mut Client, wanted: &[u8], number: u32) -> io::Result<()> {
    for _ in 0..8 {
        let head = client.next_head()?;
        if head.starts_with(wanted) {
            if head.ends_with(&number.to_be_bytes()) {
                return Ok(());
            }
            // It answers the request of another client.
            return Err(io::Error::from(ErrorKind::InvalidData));
        }
    }
    // It is not among eight PDUs.
    Err(io::Error::from(ErrorKind::InvalidData))
}

// Waits until the board says so.
fn until<R: Clock, F: Fn(&Board) -> bool>(rt: &R, board: &Board, is_so: F) -> io::Result<()>
    requires { F.IsAlwaysCallable is_so }
{
    for _ in 0..MOST_TURNS {
        if is_so(board) {
            return Ok(());
        }
        thread::sleep(rt, Duration::from_millis(1));
    }
    Err(io::Error::from(ErrorKind::TimedOut))
}

// Binds, and asks once.
fn binds(client: &mut Client, place: u32) -> io::Result<()> {
    client.asks(BIND, number_of(place, 1))?;
    client.asks(QUERY, number_of(place, 2))?;
    awaits(client, QUERY_ANSWER, number_of(place, 2))
}

fn begins<R: Net<Stream = TcpStream>>(
    rt: &R,
    board: &Board,
    server: SocketAddr,
    place: u32,
) -> io::Result<Client> {
    let mut client = Client::to(rt, server)?;
    binds(&mut client, place)?;
    board.ready.fetch_add(1, Ordering::SeqCst);
    Ok(client)
}

fn submits_first<R: Clock>(rt: &R, board: &Board, client: &mut Client) -> io::Result<()> {
    until(rt, board, |board| {
        board.ready.load(Ordering::SeqCst) > board.others
    })?;
    board.armed.store(true, Ordering::SeqCst);
    client.asks(SUBMIT, number_of(0, 3))?;
    awaits(client, ACCEPTED, number_of(0, 3))?;
    board.accepted.fetch_add(1, Ordering::SeqCst);
    Ok(())
}

// The client whose submit is held.
fn held<R: Net<Stream = TcpStream> + Clock>(
    rt: &R,
    board: &Board,
    server: SocketAddr,
) -> io::Result<()> {
    let mut client = begins(rt, board, server, 0)?;
    submits_first(rt, board, &mut client)
}

fn submits_beside<R: Clock>(
    rt: &R,
    board: &Board,
    client: &mut Client,
    place: u32,
) -> io::Result<()> {
    until(rt, board, |board| board.reached.load(Ordering::SeqCst))?;
    client.asks(SUBMIT, number_of(place, 3))?;
    client.asks(ENQUIRE, number_of(place, 4))?;
    awaits(client, LINK_ANSWER, number_of(place, 4))?;
    board.answered.fetch_add(1, Ordering::SeqCst);
    awaits(client, ACCEPTED, number_of(place, 3))?;
    board.accepted.fetch_add(1, Ordering::SeqCst);
    Ok(())
}

// A client that submits and asks whether the server is there while another's submit is held.
fn other<R: Net<Stream = TcpStream> + Clock>(
    rt: &R,
    board: &Board,
    server: SocketAddr,
    place: u32,
) -> io::Result<()> {
    let mut client = begins(rt, board, server, place)?;
    submits_beside(rt, board, &mut client, place)
}

fn start_other<R: Threads>(
    rt: &R,
    host: HostRuntime,
    board: &Arc<Board>,
    server: SocketAddr,
    place: u32,
) -> Result<JoinHandle<bool>, Fail> {
    let board = Arc::try_clone(board)?;
    match thread::spawn(rt, move || other(&host, &board, server, place).is_ok()) {
        Ok(thread) => Ok(thread),
        Err(_) => Err(Fail::new("a thread")),
    }
}

fn start_others<R: Threads>(
    rt: &R,
    host: HostRuntime,
    board: &Arc<Board>,
    server: SocketAddr,
) -> Result<Vec<JoinHandle<bool>>, Fail> {
    let mut threads = Vec::new(host.alloc());
    for other in 0..board.others {
        threads.push(start_other(rt, host, board, server, other.saturating_add(1))?)?;
    }
    Ok(threads)
}

fn join_all<R: Threads>(rt: &R, threads: Vec<JoinHandle<bool>>) -> bool {
    let mut are_well = true;
    for thread in threads {
        if !thread.join(rt) {
            are_well = false;
        }
    }
    are_well
}

// All clients of a run.
fn come<R: Threads>(
    rt: &R,
    host: HostRuntime,
    board: &Arc<Board>,
    server: SocketAddr,
) -> Result<(), Fail> {
    let threads = start_others(rt, host, board, server)?;
    let first = held(&host, board, server);
    let are_well = join_all(rt, threads);
    first?;
    holds(are_well, "each of the others has its answers")
}

fn is_whole(board: &Board) -> Result<(), Fail> {
    holds(
        board.in_time.load(Ordering::SeqCst),
        "the others are answered while one is held",
    )?;
    holds(
        board.accepted.load(Ordering::SeqCst) > board.others,
        "each submit is answered",
    )
}

fn serves_held<
    R: Net<Listener = TcpListener, Stream = TcpStream>
        + Threads
        + Wait
        + Clock
        + Copy
        + Send
        + Sync
        + 'static,
>(rt: R, host: HostRuntime, board: &Arc<Board>) -> Result<(), Fail> {
    let gate = Held { rt, board };
    let sessions = board.others.saturating_add(1);
    serves(
        rt,
        host.alloc(),
        keep(host.alloc())?,
        &gate,
        sessions,
        |at: Loopback| { come(&rt, host, board, at.applications) },
    )
}

fn serves_others<
    R: Net<Listener = TcpListener, Stream = TcpStream>
        + Threads
        + Wait
        + Clock
        + Copy
        + Send
        + Sync
        + 'static,
>(rt: R, host: HostRuntime, others: u32) -> Result<(), Fail> {
    let board = Arc::new(host.alloc(), Board::new(others))?;
    serves_held(rt, host, &board)?;
    is_whole(&board)
}

// So many others there are: at most 23, since applications have 24 seats.
const OTHERS: &[u32] = &[1, 23];

#[test]
fn connections_are_answered_while_another_is_held(rt: HostRuntime) -> Result<(), Fail> {
    for others in OTHERS {
        serves_others(rt, rt, *others)?;
    }
    Ok(())
}
