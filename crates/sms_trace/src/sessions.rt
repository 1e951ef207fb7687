//! The sessions of a script's applications, as a capture file has them.
//!
//! `SessionSoFar` counts what an application and the centre sent to one another. It writes each PDU behind those
//! before: its sequence number, and how many octets were sent up and down before it. What is written is a PDU that can
//! be written. A body whose texts are too long for their fields is none, and `can_be_written` answers that.
//! `SequenceNumbers` counts the requests of both sides, so that a ladder has the numbers of its capture.
//! `absolute_time` is a field of an answer to a query.
ghost use Rattle.std.specs.Prelude.{◌≡◌, nat_le, length, Some, None, if◌then◌else◌};

mod numbers;
mod pdus;

use crate::sessions::pdus::octets_of;
pub use numbers::SequenceNumbers;
pub use pdus::{absolute_time, can_be_written};
use smpp_pdu::{Body, Pdu};
use sms_base::{Moment, OctetView, Octets};
use sms_trace_files::capture::{CapturedPdu, put_pdu};
use std::alloc::{AllocError, Global};

/// The session of an application, up to its last PDU so far.
#[derive(Clone, Copy)]
pub struct SessionSoFar {
    application: u16,
    // How many octets were sent up and down.
    up: u32,
    down: u32,
    numbers: SequenceNumbers,
    // Whether the application's last request is in the capture.
    is_asked: bool,
}

// The length of a PDU that a packet has room for. Octets are counted modulo 2^32, as TCP does (RFC 9293 3.4).
fn length_of(octets: &[u8]) -> Option<u32>
    ensures { result ≡ (if nat_le (length octets.now) 65495 then Some (length octets.now) else None) }
{
    if octets.len() <= 65_495 {
        Some(octets.len() as u32)
    } else {
        None
    }
}

impl SessionSoFar {
    /// The session of the application at that place, before its first PDU.
    pub fn of(application: u16) -> SessionSoFar {
        SessionSoFar {
            application,
            up: 0,
            down: 0,
            numbers: SequenceNumbers::new(),
            is_asked: false,
        }
    }

    fn put(
        &mut self,
        out: &mut Octets,
        moment: Moment,
        is_up: bool,
        octets: &[u8],
    ) -> Result<(), AllocError> {
        let Some(size) = length_of(octets) else {
            return Ok(());
        };
        let pdu = CapturedPdu {
            moment,
            application: self.application,
            is_up,
            sent: if is_up { self.up } else { self.down },
            received: if is_up { self.down } else { self.up },
            octets: OctetView::of(octets),
        };
        put_pdu(out, &pdu)?;
        if is_up {
            self.up = self.up.wrapping_add(size);
        } else {
            self.down = self.down.wrapping_add(size);
        }
        Ok(())
    }

    // Whether there is such a PDU; then it is put into the capture.
    fn put_body(
        &mut self,
        alloc: Global,
        out: &mut Octets,
        moment: Moment,
        is_up: bool,
        pdu: &Pdu<'_>,
    ) -> Result<bool, AllocError> {
        match octets_of(alloc, pdu)? {
            Some(octets) => {
                self.put(out, moment, is_up, octets.as_slice())?;
                Ok(true)
            }
            None => Ok(false),
        }
    }

    /// The application asks. Where no PDU says that, nothing is written.
    pub fn ask(
        &mut self,
        alloc: Global,
        out: &mut Octets,
        moment: Moment,
        body: Body<'_>,
    ) -> Result<(), AllocError> {
        let pdu = Pdu {
            command_status: 0,
            sequence_number: self.numbers.ask(),
            body,
        };
        self.is_asked = self.put_body(alloc, out, moment, true, &pdu)?;
        Ok(())
    }

    /// Answers the request. Where the request is not in the capture, nothing is written.
    pub fn answer(
        &mut self,
        alloc: Global,
        out: &mut Octets,
        moment: Moment,
        status: u32,
        body: Body<'_>,
    ) -> Result<(), AllocError> {
        if !self.is_asked {
            return Ok(());
        }
        let pdu = Pdu {
            command_status: status,
            sequence_number: self.numbers.asked,
            body,
        };
        self.put_body(alloc, out, moment, false, &pdu)?;
        Ok(())
    }

    /// The centre sends it a receipt, in a deliver_sm.
    pub fn deliver(
        &mut self,
        alloc: Global,
        out: &mut Octets,
        moment: Moment,
        body: Body<'_>,
    ) -> Result<(), AllocError> {
        let pdu = Pdu {
            command_status: 0,
            sequence_number: self.numbers.deliver(),
            body,
        };
        self.put_body(alloc, out, moment, false, &pdu)?;
        Ok(())
    }

    /// The application accepts the receipt.
    pub fn accept(
        &mut self,
        alloc: Global,
        out: &mut Octets,
        moment: Moment,
        body: Body<'_>,
    ) -> Result<(), AllocError> {
        let pdu = Pdu {
            command_status: 0,
            sequence_number: self.numbers.delivered,
            body,
        };
        self.put_body(alloc, out, moment, true, &pdu)?;
        Ok(())
    }
}
