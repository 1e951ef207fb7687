//! What the thread of a seat reads: one connection after another.
ghost use Rattle.std.proofs.Props.{props};
ghost use Rattle.smsc_arrivals.specs.PieceEnds.{given_by, source_of};
ghost use Rattle.smsc_arrivals.specs.Pieces.{IsReadSo};
ghost use Rattle.smsc_arrivals.specs.Reading.{HasRead};

use crate::pieces::{PIECE, Piece, PieceSender};
use crossbeam_channel::Receiver;
use sms_seats::Bell;
use std::io::{self, Read};
use std::sync::Wait;

/// A connection to be read, and where its octets are put. What was put is what the stream gave since the queue was opened, each octet once and
/// in order.
#[derive(Drop)]
pub struct Reading<S: Read> {
    pub stream: S,
    pub pieces: PieceSender,
    ghost given: { IsReadSo (source_of pieces) (given_by pieces) (S.remaining stream) } by { Prim.hlevel props },
}

/// What the thread that reads for a seat has.
#[derive(Drop)]
pub struct Reader<R, S: Read> {
    pub rt: R,
    /// The bell of the seat.
    pub bell: Bell,
    pub readings: Receiver<Reading<S>>,
}

/// What a read gave.
pub enum ReadOutcome {
    Octets(Piece),
    Nothing,
    /// The other side sends no more.
    Ended,
    /// Its connection can't be read any more.
    Lost,
}

// Waits until octets arrive, or the end.
fn read_piece<S: Read>(stream: &mut S) -> ReadOutcome
    ensures { HasRead (S.remaining stream.old) (S.remaining stream.new) result }
{
    let mut octets = [0u8; PIECE];
    match stream.read(&mut octets) {
        Ok(0) => ReadOutcome::Ended,
        Ok(count) => ReadOutcome::Octets(Piece { octets, count }),
        Err(error) if error.kind() == io::ErrorKind::Interrupted => ReadOutcome::Nothing,
        Err(_) => ReadOutcome::Lost,
    }
}

impl<R: Wait, S: Read + Drop> Reader<R, S> {
    // Reads a connection until it ends or is lost, or the seat has left it.
    fn read(&self, reading: Reading<S>) {
        let Reading {
            mut stream,
            mut pieces,
        } = reading;
        for _ in self.rt.forever() {
            match read_piece(&mut stream) {
                ReadOutcome::Octets(piece) => {
                    if !pieces.give(&self.rt, piece) {
                        return;
                    }
                    self.bell.ring();
                }
                ReadOutcome::Nothing => (),
                ReadOutcome::Ended => {
                    let _ = pieces.give(&self.rt, Piece::none());
                    return;
                }
                ReadOutcome::Lost => return,
            }
        }
    }

    /// Reads one connection after another, until there will be none any more.
    pub fn read_all(&self) {
        for _ in self.rt.forever() {
            let Ok(reading) = self.readings.recv(&self.rt) else {
                return;
            };
            self.read(reading);
            // The end is known by its mark, and a lost connection by the queue, whose sender was dropped.
            self.bell.ring();
        }
    }
}
