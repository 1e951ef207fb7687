//! A bind and a submit over TCP, whose text a handset has once.
use crate::clock_and_gate::Open;
use crate::handset_runs::machine::with_machine;
use crate::loopback::client::Client;
use crate::loopback::handset::attends;
use crate::loopback::server::{Counting, serves};
use crate::rows::holds;
use crate::service::centre::{BIND, SUBMIT, keep};
use sms_handset::machine::HandsetMachine;
use sms_store_memory::handset::MemoryKeep;
use smsc_cli::handset_table::handset_table;
use smsc_server::{Loopback, ObservedKeep};
use smsc_service::CentreStore;
use std::alloc::Global;
use std::io;
use std::net::{Net, SocketAddr, TcpListener, TcpStream};
use std::sync::Wait;
use std::test::Fail;
use std::thread::Threads;
use std::time::Clock;

// bind_transceiver_resp with the name smsc and sc_interface_version (SMPP v3.4 4.1.6, 5.3.2.25).
const BIND_ANSWER: &[u8] = &[
    0x00, 0x00, 0x00, 0x1A, 0x80, 0x00, 0x00, 0x09, 0x00, 0x00, 0x00, 0x00, 0x00, 0x00, 0x00, 0x01,
    0x73, 0x6D, 0x73, 0x63, 0x00, 0x02, 0x10, 0x00, 0x01, 0x34,
];

// submit_sm_resp with the message_id 0000000001 (4.4.2).
const SUBMIT_ANSWER: &[u8] = &[
    0x00, 0x00, 0x00, 0x1B, 0x80, 0x00, 0x00, 0x04, 0x00, 0x00, 0x00, 0x00, 0x00, 0x00, 0x00, 0x02,
    0x30, 0x30, 0x30, 0x30, 0x30, 0x30, 0x30, 0x30, 0x30, 0x31, 0x00,
];

// What its inbox and outbox show then.
const SHOWN: &[u8] = b"ENTRY      FROM                  STATE        TEXT
1          447700900001          RECEIVED     hello
ENTRY      TO                    STATE        TEXT
";

fn submits(client: &mut Client) -> io::Result<()> {
    client.says(BIND)?;
    client.hears(BIND_ANSWER)?;
    client.says(SUBMIT)?;
    client.hears(SUBMIT_ANSWER)
}

fn comes<R: Net<Stream = TcpStream>>(rt: &R, server: SocketAddr) -> io::Result<Client> {
    let mut client = Client::to(rt, server)?;
    submits(&mut client)?;
    Ok(client)
}

// The message goes in one frame to the handset, and its acknowledgement back in another.
fn come<R: Net<Stream = TcpStream>>(
    rt: &R,
    alloc: Global,
    machine: &mut HandsetMachine<MemoryKeep>,
    at: &Loopback,
) -> Result<(), Fail> {
    let Ok(client) = comes(rt, at.applications) else {
        return Err(Fail::new("a client that submits"));
    };
    // The client is there until the handset has what it sent.
    let attended = attends(rt, alloc, machine, at.links, 2);
    drop(client);
    attended
}

fn is_shown(alloc: Global, machine: &HandsetMachine<MemoryKeep>) -> bool {
    match handset_table(alloc, machine.handset().inbox(), machine.handset().outbox()) {
        Ok(table) => table.as_slice() == SHOWN,
        Err(_) => false,
    }
}

// Over any store, whose commits are observed.
fn serves_observed<
    R: Net<Listener = TcpListener, Stream = TcpStream>
        + Threads
        + Wait
        + Clock
        + Copy
        + Send
        + Sync
        + 'static,
    K: CentreStore + Drop + Send,
>(
    rt: R,
    alloc: Global,
    machine: &mut HandsetMachine<MemoryKeep>,
    keep: K,
    observer: &Counting,
) -> Result<(), Fail> {
    let store = ObservedKeep {
        keep,
        observer: Some(observer),
    };
    serves(rt, alloc, store, &Open, 2, |at: Loopback| {
        come(&rt, alloc, machine, &at)
    })
}

fn serves_one<
    R: Net<Listener = TcpListener, Stream = TcpStream>
        + Threads
        + Wait
        + Clock
        + Copy
        + Send
        + Sync
        + 'static,
>(rt: R, alloc: Global, machine: &mut HandsetMachine<MemoryKeep>) -> Result<(), Fail> {
    let counting = Counting::new();
    serves_observed(rt, alloc, machine, keep(alloc)?, &counting)?;
    holds(is_shown(alloc, machine), "hello is in the inbox once")?;
    holds(
        counting.counts() == (1, 1),
        "a message is accepted and delivered",
    )
}

#[test]
fn a_submit_over_tcp_is_in_the_inbox_once(rt: HostRuntime) -> Result<(), Fail> {
    let alloc = rt.alloc();
    with_machine(alloc, |machine: &mut HandsetMachine<MemoryKeep>| {
        serves_one(rt, alloc, machine)
    })
}
