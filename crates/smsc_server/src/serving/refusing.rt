//! A connection that is refused.
ghost use Rattle.std.specs.Prelude.{◌≡◌};
ghost use Rattle.smsc_server.specs.serving.NoRoom.{no_room_for};

use smsc_arrivals::PeerKind;
use smsc_endpoint::{CONGESTION, NO_ROOM};
use std::io::{Read, Write};
use std::net::OpenStream;

/// The octets by which this side learns that there is no room.
pub(crate) fn no_room(side: PeerKind) -> &'static [u8]
    ensures { result.now ≡ no_room_for side }
{
    match side {
        PeerKind::Application => &NO_ROOM,
        PeerKind::Handset => &CONGESTION,
    }
}

/// Sends the other side that there is no room, as far as it listens. What it sent is read first: a connection that is
/// closed over octets that nobody read loses what was sent to it.
pub(crate) fn refuse<S: OpenStream + Read + Write + Drop>(stream: S, side: PeerKind) {
    let mut stream = stream;
    if stream.set_nonblocking(true).is_err() {
        return;
    }
    let mut came = [0u8; 1024];
    let _ = stream.read(&mut came);
    let _ = stream.write(no_room(side));
}
