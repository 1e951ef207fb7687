//! What both ends of the queue of a connection's pieces do.
ghost use Rattle.std.specs.Prelude.{◌≡◌, ◌++◌, [], true, IfOk, MatchBool, MatchResult};
ghost use Rattle.std.specs.Io.KnownBytes.{Consumes, IsAtEnd};
ghost use Rattle.smsc_arrivals.specs.Pieces.{is_mark, octets_of, AreAll, IsGivenOf};
ghost use Rattle.smsc_arrivals.specs.PieceEnds.{given_by, left_at, source_of};

use crate::pieces::ends::{PieceReceiver, PieceSender};
use crate::pieces::{Gives, Piece, Roles, Source, Takes};
use crossbeam_channel::{TryRecvError, bounded_with};
use std::alloc::{AllocError, Global};
use std::io::Read;
use std::marker::Brand;
use std::sync::Wait;

// So many pieces of what arrived wait for the seat. Then no more is read, and the other side is held back.
const PIECES: usize = 4;

// The ends of a new queue for what the stream gives from now on.
fn open_from<J: Source, S: Read>(
    alloc: Global,
    stream: &S,
) -> Result<(PieceSender, PieceReceiver), AllocError>
    requires { S.remaining stream.now ≡ J.octets }
    ensures sender { IfOk result (λ ends. (source_of ends.0 ≡ S.remaining stream.now) × (given_by ends.0 ≡ [])) }
    ensures receiver { IfOk result (λ ends. left_at ends.1 ≡ S.remaining stream.now) }
{
    let (sender, receiver, mut pass) = bounded_with(alloc, PIECES)?;
    let other = sender.another::<Roles<J>>(&mut pass);
    Ok((
        PieceSender { sender, pass },
        PieceReceiver {
            receiver,
            pass: other,
        },
    ))
}

/// The ends of a new queue for what the stream gives from now on.
pub fn open_pieces<S: Read>(
    alloc: Global,
    stream: &S,
) -> Result<(PieceSender, PieceReceiver), AllocError>
    ensures sender { IfOk result (λ ends. (source_of ends.0 ≡ S.remaining stream.now) × (given_by ends.0 ≡ [])) }
    ensures receiver { IfOk result (λ ends. left_at ends.1 ≡ S.remaining stream.now) }
{
    open_from::<Brand, S>(alloc, stream)
}

impl PieceSender {
    /// Gives the seat a piece, behind those that were given, and waits where there is no room. The end mark is given behind all that the
    /// stream was to give. False where the seat has left.
    pub fn give<R: Wait>(&mut self, rt: &R, piece: Piece) -> bool
        requires given { IsGivenOf (source_of self.old) (given_by self.old ++ octets_of piece) }
        requires all { is_mark piece ≡ true → AreAll (source_of self.old) (given_by self.old ++ octets_of piece) }
        ensures source { source_of self.new ≡ source_of self.old }
        ensures given { MatchBool result
            (given_by self.new ≡ given_by self.old ++ octets_of piece)
            (given_by self.new ≡ given_by self.old) }
    {
        self.sender
            .send_as::<Gives, R>(rt, &mut self.pass, piece)
            .is_ok()
    }
}

impl PieceReceiver {
    /// Takes the next piece of what the stream was to give. Behind the end mark nothing is left. An error only if there was none at one moment
    /// of the call.
    pub fn take<R: Wait>(&mut self, rt: &R) -> Result<Piece, TryRecvError>
        ensures { MatchResult result
            (λ piece. Consumes (left_at self.old) (left_at self.new) (octets_of piece) × (is_mark piece ≡ true → IsAtEnd (left_at self.new)))
            (λ _. left_at self.new ≡ left_at self.old) }
    {
        self.receiver.try_recv_as::<Takes, R>(rt, &mut self.pass)
    }
}
