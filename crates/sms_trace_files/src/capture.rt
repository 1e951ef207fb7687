//! A capture file of what crosses the links of a centre, as tcpdump writes one and Wireshark opens it.
//!
//! A frame of a handset's link is GSMTAP over UDP. So the CP layer (3GPP TS 24.011 8) and all that it carries are
//! dissected. A PDU of an application's session is SMPP over TCP. The calls put octets at the end of a file: first
//! `put_file_head`, then a record for each frame and PDU, in order.

mod checksum;
mod heads;
mod host;
mod records;
mod segments;

pub use records::{CapturedFrame, CapturedPdu, put_file_head, put_frame, put_pdu};
