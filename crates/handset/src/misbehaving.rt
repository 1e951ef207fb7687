//! A link on which a handset does wrong what it is asked to do wrong.
//!
//! The handset itself is the proved one. What stands here is between it and its socket: frames get lost, wait, or are
//! refused before they reach it. So what the centre sees is a real handset behind a bad link, or one that answers RP-ERROR.
ghost use Rattle.std.specs.Prelude.{◌≤◌, length};

use crate::clock::SystemClock;
use sms_base::{Holder, Kind, Octets};
use sms_control::{Cp, Transaction};
use sms_handset_link::Clock;
use sms_link::framing::{FrameBuffer, is_frame, push_frame};
use sms_link::{Link, LinkOut, Outgoing, Side, Upward};
use sms_relay::{Rp, read_down};
use smsc_cli::words::Misbehaviour;
use std::alloc::AllocError;
use std::io::{self, ErrorKind, Print, Read, Write};
use std::net::TcpStream;
use std::thread;
use std::time::Duration;

// Octets that are read at once.
const ROOM: usize = 4096;

// The cause memory capacity exceeded (3GPP TS 24.011 8.2.5.4).
const FULL: u8 = 22;

// The type of an RP-ERROR from a handset (3GPP TS 24.011 8.2.2).
const ERROR_UP: u8 = 4;

/// Whether anything is to be done wrong.
pub(crate) fn is_any(asked: &Misbehaviour) -> bool {
    asked.is_silent
        || asked.refuses.is_some()
        || asked.slow.is_some()
        || asked.full_after.is_some()
        || asked.drops.is_some()
}

// Which frames get lost: the same ones for one seed.
#[derive(Clone, Copy)]
struct Chance {
    percent: u8,
    state: u64,
}

impl Chance {
    fn of(asked: &Misbehaviour, side: u64) -> Chance {
        Chance {
            percent: asked.drops.unwrap_or(0),
            state: u64::from(asked.seed.unwrap_or(0))
                .wrapping_mul(2)
                .wrapping_add(side),
        }
    }

    // The generator is Knuth's MMIX; its high bits are the better ones.
    fn loses_next(&mut self) -> bool {
        self.state = self
            .state
            .wrapping_mul(6_364_136_223_846_793_005)
            .wrapping_add(1_442_695_040_888_963_407);
        (self.state >> 33) % 100 < u64::from(self.percent)
    }
}

// A transfer that the centre began: its transaction, and the reference of its RP-DATA.
type Offer = (Transaction, u8);

fn reference_in(unit: &[u8]) -> Option<u8> {
    match read_down(unit) {
        Ok(Rp::DataUnit { reference, .. }) => Some(reference),
        _ => None,
    }
}

// What the frame offers, if it offers something.
fn offer_in(frame: &[u8]) -> Option<Offer> {
    match Cp::read(frame) {
        Ok(Cp::DataUnit { transaction, unit }) => {
            Some((transaction, reference_in(unit.as_slice())?))
        }
        _ => None,
    }
}

// The transaction of a CP-ACK.
fn acknowledged_in(frame: &[u8]) -> Option<Transaction> {
    match Cp::read(frame) {
        Ok(Cp::AckUnit { transaction }) => Some(transaction),
        _ => None,
    }
}

fn no_memory(_error: AllocError) -> io::Error {
    io::Error::from(ErrorKind::OutOfMemory)
}

/// What comes from the centre.
#[derive(Drop)]
pub(crate) struct Incoming<'a> {
    rt: &'a HostRuntime,
    link: &'a TcpStream,
    asked: Misbehaviour,
    chance: Chance,
    // Octets that have not been judged yet.
    waiting: FrameBuffer,
    // Octets for the handset, and how many it has taken.
    ready: Octets,
    taken: usize,
    // The end of the link that refuses.
    refuser: Link,
    // The last offer, and the cause with which it was refused, if it was.
    last: Option<(Offer, Option<u8>)>,
    // So many were refused, and so many were let through.
    refused: u32,
    passed: u32,
}

impl<'a> Incoming<'a> {
    /// Nothing has come yet.
    pub(crate) fn new(
        rt: &'a HostRuntime,
        link: &'a TcpStream,
        asked: Misbehaviour,
    ) -> Incoming<'a> {
        let alloc = rt.alloc();
        Incoming {
            rt,
            link,
            asked,
            chance: Chance::of(&asked, 0),
            waiting: FrameBuffer::new(alloc),
            ready: Octets::new(alloc),
            taken: 0,
            refuser: Link::new(alloc, Side::Handset),
            last: None,
            refused: 0,
            passed: 0,
        }
    }

    // The cause with which another offer is refused, if it is.
    fn judge_new(&mut self) -> Option<u8> {
        if let Some(refusal) = self.asked.refuses {
            if refusal.count.is_none_or(|count| self.refused < count) {
                self.refused = self.refused.saturating_add(1);
                return Some(refusal.cause);
            }
        }
        if self
            .asked
            .full_after
            .is_some_and(|most| self.passed >= most)
        {
            return Some(FULL);
        }
        self.passed = self.passed.saturating_add(1);
        None
    }

    // So too for one that was judged before, as where the centre sent it again.
    fn judge(&mut self, offer: Offer) -> Option<u8> {
        if let Some((last, cause)) = self.last {
            if last == offer {
                return cause;
            }
        }
        let cause = self.judge_new();
        self.last = Some((offer, cause));
        cause
    }

    // Whether the last offer was refused, and the frame acknowledges that.
    fn is_of_refused(&self, frame: &[u8]) -> bool {
        match (self.last, acknowledged_in(frame)) {
            (Some(((transaction, _), Some(_))), Some(acknowledged)) => transaction == acknowledged,
            _ => false,
        }
    }

    fn send(&self, frames: &[Outgoing]) -> io::Result<()> {
        let mut out = Octets::new(self.rt.alloc());
        for frame in frames {
            let octets = frame.octets.as_slice();
            if is_frame(octets) {
                push_frame(&mut out, octets).map_err(no_memory)?;
            }
        }
        let mut link = self.link;
        link.write_all(out.as_slice())
    }

    fn refusal(&mut self, reference: u8, cause: u8) -> io::Result<()> {
        let unit = [ERROR_UP, reference, 1, cause];
        let now = SystemClock { rt: self.rt }.now();
        let frames = self
            .refuser
            .reply(now, Kind::Error, reference, Holder::Memory(0), &unit)
            .map_err(no_memory)?;
        self.send(frames.as_slice())
    }

    // The refusing end takes the frame, and answers it where that opens a transaction.
    fn refuse(&mut self, frame: &[u8], refusal: Option<(u8, u8)>) -> io::Result<()> {
        let LinkOut { frames, up } = self.refuser.take(frame).map_err(no_memory)?;
        self.send(frames.as_slice())?;
        match (up, refusal) {
            (Some(Upward::Opened(_)), Some((reference, cause))) => {
                eprint!(self.rt; "handset: refused an offer with cause {cause}\n")?;
                self.refusal(reference, cause)
            }
            _ => Ok(()),
        }
    }

    fn pass(&mut self, frame: &[u8]) -> io::Result<()> {
        if is_frame(frame) {
            push_frame(&mut self.ready, frame).map_err(no_memory)?;
        }
        Ok(())
    }

    fn meet_offer(&mut self, frame: &[u8], offer: Offer) -> io::Result<()> {
        if let Some(seconds) = self.asked.slow {
            thread::sleep(self.rt, Duration::from_secs(u64::from(seconds)));
        }
        let (_, reference) = offer;
        match self.judge(offer) {
            Some(cause) => self.refuse(frame, Some((reference, cause))),
            None => self.pass(frame),
        }
    }

    fn meet(&mut self, frame: &[u8]) -> io::Result<()> {
        if self.chance.loses_next() {
            return eprint!(self.rt; "handset: lost a frame from the centre\n");
        }
        match offer_in(frame) {
            Some(offer) => self.meet_offer(frame, offer),
            None if self.is_of_refused(frame) => self.refuse(frame, None),
            None => self.pass(frame),
        }
    }

    // The next whole frame, cut off.
    fn next(&mut self) -> io::Result<Option<Octets>> {
        let frame = match self.waiting.front() {
            Ok(Some(frame)) => {
                Octets::copy_of(self.rt.alloc(), frame.as_slice()).map_err(no_memory)?
            }
            Ok(None) => return Ok(None),
            Err(_) => return Err(io::Error::from(ErrorKind::InvalidData)),
        };
        self.waiting.cut();
        Ok(Some(frame))
    }

    fn meet_all(&mut self) -> io::Result<()> {
        for _ in 0..u64::MAX {
            match self.next()? {
                Some(frame) => self.meet(frame.as_slice())?,
                None => return Ok(()),
            }
        }
        Ok(())
    }

    // Takes what the link has. Whether it is still open.
    fn take(&mut self) -> io::Result<bool> {
        let mut room = [0; ROOM];
        let mut link = self.link;
        let count = link.read(&mut room)?;
        if count == 0 {
            return Ok(false);
        }
        self.waiting.feed(&room[..count]).map_err(no_memory)?;
        self.meet_all()?;
        Ok(true)
    }

    // What is ready, as far as there is room; none is left where all was taken.
    fn hand_over(&mut self, room: &mut [u8]) -> usize
        ensures { result ≤ length room.new }
    {
        let Some(left) = self.ready.as_slice().get(self.taken..) else {
            return 0;
        };
        let count = left.len().min(room.len());
        room[..count].copy_from_slice(&left[..count]);
        let is_all = count == left.len();
        if is_all {
            self.ready = Octets::new(self.rt.alloc());
            self.taken = 0;
        } else {
            self.taken = self.taken.saturating_add(count);
        }
        count
    }
}

impl Read for Incoming<'_> {
    fn read(&mut self, room: &mut [u8]) -> io::Result<usize> {
        if self.ready.is_empty() && !self.take()? {
            return Ok(0);
        }
        if self.ready.is_empty() {
            return Err(io::Error::from(ErrorKind::WouldBlock));
        }
        Ok(self.hand_over(room))
    }
}

/// What goes to the centre.
#[derive(Drop)]
pub(crate) struct OutgoingLink<'a> {
    rt: &'a HostRuntime,
    link: &'a TcpStream,
    is_silent: bool,
    chance: Chance,
    // Its number is sent, which is never lost.
    has_said_number: bool,
}

impl<'a> OutgoingLink<'a> {
    /// Nothing was sent yet.
    pub(crate) fn new(
        rt: &'a HostRuntime,
        link: &'a TcpStream,
        asked: &Misbehaviour,
    ) -> OutgoingLink<'a> {
        OutgoingLink {
            rt,
            link,
            is_silent: asked.is_silent,
            chance: Chance::of(asked, 1),
            has_said_number: false,
        }
    }

    // Whether what is written gets lost.
    fn loses(&mut self) -> bool {
        if !self.has_said_number {
            self.has_said_number = true;
            return false;
        }
        self.is_silent || self.chance.loses_next()
    }
}

impl Write for OutgoingLink<'_> {
    fn write(&mut self, octets: &[u8]) -> io::Result<usize> {
        if self.loses() {
            eprint!(self.rt; "handset: lost a frame to the centre\n")?;
        } else {
            let mut link = self.link;
            link.write_all(octets)?;
        }
        Ok(octets.len())
    }

    fn flush(&mut self) -> io::Result<()> {
        Ok(())
    }
}
