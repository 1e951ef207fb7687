//! Frames, written with their lengths.
ghost use Rattle.std.specs.Prelude.{◌≡◌, ◌↔◌, ◌++◌, true, length, OnOk, OnErr};
ghost use Rattle.sms_link.specs.framing.Framing.{framed, IsFrame};

use sms_base::Octets;
use std::alloc::AllocError;

/// Octets in the longest frame.
pub(crate) const LONGEST_FRAME: usize = 251;

/// Whether the octets can be a frame: 1 to 251 of them.
pub fn is_frame(octets: &[u8]) -> bool
    ensures { (result ≡ true) ↔ IsFrame octets.now }
{
    !octets.is_empty() && octets.len() <= LONGEST_FRAME
}

/// Puts a frame behind its length at the end of octets to send.
pub fn push_frame(out: &mut Octets, frame: &[u8]) -> Result<(), AllocError>
    requires { IsFrame frame.now }
    ensures { OnOk result (out.new ≡ out.old ++ framed frame.now) }
{
    let length = frame.len();
    out.append(&[(length / 256) as u8, (length % 256) as u8])?;
    out.append(frame)
}
