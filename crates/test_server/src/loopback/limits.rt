//! An account that may have one session at once.
use crate::clock_and_gate::Open;
use crate::loopback::client::Client;
use crate::loopback::server::serves_within;
use crate::rows::holds;
use crate::service::centre::{BIND, ENQUIRE, keep};
use smsc_server::Loopback;
use std::net::{Net, SocketAddr, TcpStream};
use std::test::Fail;

// bind_transceiver_resp and unbind_resp with ESME_ROK, bind_transceiver_resp with ESME_RBINDFAIL, enquire_link_resp (SMPP v3.4 5.1.2 and
// 5.1.3).
const BOUND: &[u8] = &[0x80, 0x00, 0x00, 0x09, 0x00, 0x00, 0x00, 0x00];

const UNBOUND: &[u8] = &[0x80, 0x00, 0x00, 0x06, 0x00, 0x00, 0x00, 0x00];

const REFUSED: &[u8] = &[0x80, 0x00, 0x00, 0x09, 0x00, 0x00, 0x00, 0x0D];

const LINK_ANSWER: &[u8] = &[0x80, 0x00, 0x00, 0x15, 0x00, 0x00, 0x00, 0x00];

// unbind, sequence number 5 (4.2.1).
const UNBIND: &[u8] = &[
    0x00, 0x00, 0x00, 0x10, 0x00, 0x00, 0x00, 0x06, 0x00, 0x00, 0x00, 0x00, 0x00, 0x00, 0x00, 0x05,
];

// Says that, and hears an answer that begins so.
fn is_answered(client: &mut Client, said: &[u8], begins: &[u8]) -> bool {
    if client.says(said).is_err() {
        return false;
    }
    match client.next_head() {
        Ok(head) => head.starts_with(begins),
        Err(_) => false,
    }
}

// The second session is refused while the first is bound, which stays as it is, and then goes.
fn is_refused_beside(first: &mut Client, second: &mut Client) -> bool {
    is_answered(first, BIND, BOUND)
        && is_answered(second, BIND, REFUSED)
        && is_answered(first, ENQUIRE, LINK_ANSWER)
        && is_answered(first, UNBIND, UNBOUND)
}

// Once the first has gone another one is bound.
fn is_bound_behind(first: Client, second: &mut Client) -> bool {
    let mut first = first;
    let is_refused = is_refused_beside(&mut first, second);
    drop(first);
    is_refused && is_answered(second, BIND, BOUND)
}

fn come<R: Net<Stream = TcpStream>>(rt: &R, server: SocketAddr) -> Result<(), Fail> {
    let Ok(first) = Client::to(rt, server) else {
        return Err(Fail::new("a client"));
    };
    match Client::to(rt, server) {
        Ok(mut second) => holds(
            is_bound_behind(first, &mut second),
            "a second session only behind the first",
        ),
        Err(_) => Err(Fail::new("another client")),
    }
}

#[test]
fn an_account_with_one_session_has_no_second_one(rt: HostRuntime) -> Result<(), Fail> {
    let alloc = rt.alloc();
    let limits = vec![in alloc; 1u8]?;
    serves_within(rt, alloc, keep(alloc)?, &Open, 2, limits, |at: Loopback| {
        come(&rt, at.applications)
    })
}
