//! The ports, and the wire of a connection that was accepted.
ghost use Rattle.std.specs.Prelude.{◌≡◌, false, true, [], IfOk};
ghost use Rattle.std.specs.Option.{ForSome};
ghost use Rattle.smsc_server.specs.serving.Entering.{doors_of};
ghost use Rattle.smsc_arrivals.specs.PieceEnds.{left_at};
ghost use Rattle.smsc_arrivals.specs.Pieces.{octets_of};

use crate::serving::poller::Poller;
use crate::serving::refusing::refuse;
use crossbeam_channel::TryRecvError;
use mio::Waker;
use smsc_arrivals::{Doors, Duplicate, PeerKind, Piece, PieceReceiver, Reading, open_pieces};
use smsc_loop::{Found, LeaveReason, Wire};
use smsc_observer::is_later;
use std::alloc::Global;
use std::io::{self, Read, Write};
use std::net::{Net, OpenListener, OpenStream, Shutdown};
use std::os::fd::AsRawFd;
use std::sync::Wait;
use std::time::Duration;

/// The ports, at which connections are accepted.
#[derive(Drop)]
pub struct Ports<L> {
    pub(crate) doors: Doors<L>,
    // Rings where a connection waits at one of them.
    pub(crate) poller: Poller,
    // Wakes whoever waits for the poller.
    pub(crate) waker: Waker,
}

impl<L: OpenListener + AsRawFd + Drop> Ports<L> {
    /// The listener for applications and the one for handsets. From now on neither waits where it is asked for a connection.
    ///
    /// # Errors
    /// The system has no further file, or no memory.
    pub fn of<N: Net>(net: &N, alloc: Global, applications: L, links: L) -> io::Result<Ports<L>>
        ensures { IfOk result (λ ports. ((doors_of ports).applications ≡ applications) × ((doors_of ports).links ≡ links)) }
    {
        applications.set_nonblocking(true)?;
        links.set_nonblocking(true)?;
        let (poller, waker) = Poller::of(net, alloc, &applications, &links)?;
        let doors = Doors {
            applications,
            links,
        };
        Ok(Ports {
            doors,
            poller,
            waker,
        })
    }
}

// A write waits so many thousandths of a second for room.
const WRITE_WAIT: u64 = 20;

/// The wire of a connection. The reader of the seat reads the octets; they are only taken here.
#[derive(Drop)]
pub(crate) struct Socket<S> {
    stream: S,
    pieces: PieceReceiver,
    // The one that was taken last.
    piece: Piece,
    // The other side sends no more, or takes no more.
    has_ended: bool,
    is_closed: bool,
    ghost ended: { has_ended ≡ true → ForSome (left_at pieces) (λ rest. rest ≡ []) },
}

// Sets what the connection is to do, and gives it a second time, for its reader.
fn prepare<S: OpenStream + Duplicate>(stream: &S) -> io::Result<S>
    ensures { IfOk result (λ again. S.remaining again ≡ S.remaining stream.now) }
{
    stream.set_write_timeout(Some(Duration::from_millis(WRITE_WAIT)))?;
    stream.set_nodelay(true)?;
    stream.duplicate()
}

// What a connection is read by, and where what arrived is taken.
fn open_reading<S: OpenStream + Duplicate + Drop>(
    alloc: Global,
    stream: &S,
) -> Result<(Reading<S>, PieceReceiver), LeaveReason>
    ensures { IfOk result (λ r. left_at r.1 ≡ S.remaining stream.now) }
{
    let Ok(stream) = prepare(stream) else {
        return Err(LeaveReason::Closed);
    };
    match open_pieces(alloc, &stream) {
        Ok((pieces, taken)) => Ok((Reading { stream, pieces }, taken)),
        Err(_) => Err(LeaveReason::NoMemory),
    }
}

impl<S: OpenStream + Duplicate + Read + Write + Drop> Socket<S> {
    /// The wire of a connection, and what its reader needs. Where they can't be had, the other side gets the answer
    /// that there is no room. The system then refused a second handle, since the connection has ended or too many files
    /// are open, or there was no memory.
    pub(crate) fn open(
        alloc: Global,
        stream: S,
        side: PeerKind,
    ) -> Result<(Socket<S>, Reading<S>), LeaveReason>
        ensures remaining { IfOk result (λ r. left_at r.0.pieces ≡ S.remaining stream) }
        ensures written { IfOk result (λ r. S.contents r.0.stream ≡ S.contents stream) }
        ensures open { IfOk result (λ r. (r.0.has_ended ≡ false) × (r.0.is_closed ≡ false)) }
    {
        match open_reading(alloc, &stream) {
            Ok((reading, pieces)) => {
                let piece = Piece::none();
                let socket = Socket {
                    stream,
                    pieces,
                    piece,
                    has_ended: false,
                    is_closed: false,
                };
                Ok((socket, reading))
            }
            Err(why) => {
                refuse(stream, side);
                Err(why)
            }
        }
    }

    /// Ends the connection both ways, behind all that was written. Its reader sees the end too.
    pub(crate) fn close(&self) {
        let _ = self.stream.shutdown(Shutdown::Both);
    }
}

impl<S: OpenStream + Read + Write + Drop> Wire for Socket<S> {
    // What its stream was to give when it was opened, behind what was taken.
    ghost remaining = { λ s. left_at s.pieces };

    ghost written = { λ s. S.contents s.stream };

    ghost last = { λ s. octets_of s.piece };

    ghost ended = { λ s. s.has_ended };

    ghost closed = { λ s. s.is_closed };

    #[tactic(auto, using(crate::proofs::serving::StreamEnds::so_end))]
    fn read_now<R: Wait>(&mut self, rt: &R) -> Found {
        if self.has_ended {
            return Found::Ended;
        }
        match self.pieces.take(rt) {
            Ok(piece) => {
                let is_mark = piece.is_mark();
                self.piece = piece;
                if is_mark {
                    self.has_ended = true;
                    return Found::Ended;
                }
                Found::Some
            }
            Err(TryRecvError::Empty) => Found::Nothing,
            Err(TryRecvError::Disconnected) => {
                self.is_closed = true;
                Found::Lost
            }
        }
    }

    fn piece(&self) -> &[u8] {
        self.piece.as_slice()
    }

    #[tactic(auto, using(crate::proofs::serving::StreamEnds::end_so))]
    fn has_ended(&self) -> bool {
        self.has_ended
    }

    fn is_closed(&self) -> bool {
        self.is_closed
    }

    fn write_soon(&mut self, octets: &[u8]) -> Option<usize> {
        match self.stream.write(octets) {
            Ok(count) => Some(count),
            Err(error) if is_later(&error) => Some(0),
            Err(_) => {
                self.is_closed = true;
                None
            }
        }
    }
}
