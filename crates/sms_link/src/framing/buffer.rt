//! Octets that arrived and are not cut off yet.
ghost use Rattle.std.specs.Prelude.{◌≡◌, ◌≢◌, ◌++◌, ℕ, List, [], Ok, Some, length, OnOk, OnErr};
ghost use Rattle.sms_link.specs.framing.Framing.{framed, front_of, sized_of};

use crate::framing::fault::FramingFault;
use crate::framing::writing::LONGEST_FRAME;
use bytes::{Buf, BytesMut};
use sms_base::OctetView;
use std::alloc::{AllocError, Global};
use std::marker::Model;

/// The octets of a link that arrived and are not cut off yet. Contracts see them as a list.
#[derive(Drop)]
pub struct FrameBuffer {
    waiting: BytesMut,
}

impl Model for FrameBuffer {
    ghost use Rattle.std.specs.Prelude.{ℕ, List};

    ghost Value = { List ℕ };

    ghost view = { λ b. b.waiting.items };
}

// The frame at the front of octets behind its length, unless more has to come.
fn sized(length: usize, octets: &[u8]) -> Result<Option<OctetView<'_>>, FramingFault>
    ensures { result ≡ sized_of length octets.now }
{
    if length == 0 {
        return Err(FramingFault::Empty);
    }
    if length > LONGEST_FRAME {
        return Err(FramingFault::TooLong);
    }
    if length <= octets.len() {
        Ok(Some(OctetView::of(&octets[..length])))
    } else {
        Ok(None)
    }
}

// The frame at the front of octets.
fn front_frame(octets: &[u8]) -> Result<Option<OctetView<'_>>, FramingFault>
    ensures { result ≡ front_of octets.now }
{
    match octets {
        [high, low, rest @ ..] => sized(256 * usize::from(*high) + usize::from(*low), rest),
        _ => Ok(None),
    }
}

impl FrameBuffer {
    /// No octets.
    pub fn new(alloc: Global) -> FrameBuffer
        ensures { result ≡ [] }
    {
        FrameBuffer {
            waiting: BytesMut::new(alloc),
        }
    }

    /// Puts received octets at the end. Without memory none is taken.
    pub fn feed(&mut self, octets: &[u8]) -> Result<(), AllocError>
        ensures ok { OnOk result (self.new ≡ self.old ++ octets.now) }
        ensures err { OnErr result (self.new ≡ self.old) }
    {
        self.waiting.extend_from_slice(octets)
    }

    /// The frame at the front, in place, or none where more octets have to arrive. A length that no frame has is
    /// refused as soon as its two octets are there, and ever after.
    pub fn front(&self) -> Result<Option<OctetView<'_>>, FramingFault>
        ensures { result ≡ front_of self.now }
    {
        front_frame(self.waiting.as_slice())
    }

    /// Cuts the frame at the front off, in place. Where no whole frame is there, nothing is cut.
    pub fn cut(&mut self)
        ensures frame { (frame : List ℕ) → front_of self.old ≡ Ok (Some frame) → self.old ≡ framed frame ++ self.new }
        ensures none { ((frame : List ℕ) → front_of self.old ≢ Ok (Some frame)) → self.new ≡ self.old }
    {
        if let Ok(Some(frame)) = front_frame(self.waiting.as_slice()) {
            let length = frame.as_slice().len();
            self.waiting.advance(2 + length);
        }
    }
}
