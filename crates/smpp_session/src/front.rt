//! What the octets that aren't treated yet begin with.
ghost use Rattle.std.specs.Prelude.{◌≡◌, ◌≤◌, length, nat_lt, if◌then◌else◌};
ghost use Rattle.smpp_session.specs.Stream.{number_at, header_at, front_of as front_of_state};

use crate::conversation::SessionState;
use smpp_pdu::Header;

// What octets begin with.
#[derive(Clone, Copy)]
pub(crate) enum Front {
    // No whole PDU yet.
    Waiting,
    // A whole PDU of so many octets.
    Whole(usize),
    // A header that states no good length.
    BadLength,
    // Nothing that matters: the session is closed.
    Dropped,
}

// The header that the octets begin with.
pub(crate) fn header_of(octets: &[u8]) -> Option<Header>
    ensures { result ≡ (if nat_lt (length octets.now) 16 then None else Some (header_at octets.now)) }
{
    Header::read(octets)
}

// The command_length of a header, alone: it is looked at whenever octets come.
fn command_length_of(header: &[u8]) -> u32
    requires { 16 ≤ length header.now }
    ensures { result ≡ number_at 0 header.now }
{
    16_777_216 * u32::from(header[0])
        + 65_536 * u32::from(header[1])
        + 256 * u32::from(header[2])
        + u32::from(header[3])
}

// What the octets begin with in that state.
pub(crate) fn front_of(state: SessionState, octets: &[u8]) -> Front
    ensures { result ≡ front_of_state state octets.now }
{
    if state.is_deaf() {
        return Front::Dropped;
    }
    if octets.len() < 16 {
        return Front::Waiting;
    }
    let len = command_length_of(octets) as usize;
    if !(16..=65_536).contains(&len) {
        return Front::BadLength;
    }
    if octets.len() < len {
        return Front::Waiting;
    }
    Front::Whole(len)
}
