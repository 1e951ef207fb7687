//! A client of the status page: one request, and its response.
use crate::later::is_later;
use sms_base::Octets;
use smsc_status::{Wanted, wanted_of};
use std::alloc::{AllocError, Global};
use std::io::{self, Read, Write};
use std::net::{Shutdown, TcpStream};

// A request has so many octets at most.
const MOST_OCTETS: usize = 8192;

// So many thousandths of a second a client has, and where others wait for its place.
const PATIENCE: u64 = 5000;

const SHORT_PATIENCE: u64 = 1000;

/// A client.
#[derive(Drop)]
pub struct Client {
    stream: TcpStream,
    received: Octets,
    // The response, once there is one.
    out: Option<Octets>,
    sent: usize,
    // When its time began, in thousandths of a second.
    began: u64,
}

/// What was heard of a client.
#[derive(Clone, Copy)]
pub enum Heard {
    /// Nothing yet.
    Nothing,
    /// The client asks for this.
    Asked(Wanted),
    /// The client has left, or its connection failed.
    Left,
}

fn patience(others_wait: bool) -> u64 {
    if others_wait {
        SHORT_PATIENCE
    } else {
        PATIENCE
    }
}

impl Client {
    /// A client on a connection, whose time begins at this moment.
    pub fn new(alloc: Global, stream: TcpStream, now: u64) -> io::Result<Client> {
        stream.set_nonblocking(true)?;
        Ok(Client {
            stream,
            received: Octets::new(alloc),
            out: None,
            sent: 0,
            began: now,
        })
    }

    /// Whether its time is over: five seconds, or one where others wait for its place.
    pub fn is_late(&self, now: u64, others_wait: bool) -> bool {
        now.saturating_sub(self.began) >= patience(others_wait)
    }

    /// Whether it has its response.
    pub fn is_answered(&self) -> bool {
        self.out.is_some()
    }

    fn take(&mut self, octets: &[u8]) -> Result<Heard, AllocError> {
        self.received.append(octets)?;
        match wanted_of(self.received.as_slice()) {
            Wanted::Waiting if self.received.len() >= MOST_OCTETS => Ok(Heard::Asked(Wanted::Bad)),
            Wanted::Waiting => Ok(Heard::Nothing),
            wanted => Ok(Heard::Asked(wanted)),
        }
    }

    /// Takes what arrived, and says what is asked once that is whole.
    pub fn hear(&mut self) -> Heard {
        let mut octets = [0u8; 2048];
        match self.stream.read(&mut octets) {
            Ok(0) => Heard::Left,
            Ok(count) => match self.take(&octets[..count]) {
                Ok(heard) => heard,
                Err(_) => Heard::Left,
            },
            Err(error) if is_later(&error) => Heard::Nothing,
            Err(_) => Heard::Left,
        }
    }

    /// The client is to be sent these octets.
    pub fn answer(&mut self, octets: Octets) {
        self.out = Some(octets);
    }

    // Sends more of the octets. Says how many went; none where nobody takes them any more.
    fn send_some(&mut self) -> Option<usize> {
        let Some(out) = &self.out else {
            return Some(0);
        };
        if self.sent >= out.len() {
            return None;
        }
        match self.stream.write(&out.as_slice()[self.sent..]) {
            Ok(0) => None,
            Ok(count) => Some(count),
            Err(error) if is_later(&error) => Some(0),
            Err(_) => None,
        }
    }

    // Ends the connection. What arrived beyond the request is read first: a connection that is closed over octets that nobody read loses
    // what was sent to it.
    fn close(&mut self) {
        let mut octets = [0u8; 2048];
        let _ = self.stream.read(&mut octets);
        let _ = self.stream.shutdown(Shutdown::Both);
    }

    /// Sends more of its response, and says whether it stays for the rest.
    pub fn send(&mut self) -> bool {
        match self.send_some() {
            Some(count) => {
                self.sent = self.sent.saturating_add(count);
                true
            }
            None => {
                self.close();
                false
            }
        }
    }
}
