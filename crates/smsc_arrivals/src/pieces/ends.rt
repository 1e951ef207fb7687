//! The two ends of the queue of a connection's pieces.
ghost use Rattle.std.specs.Prelude.{◌≡◌};
ghost use Rattle.crossbeam_channel.specs.Claims.{view, IsSeatAt};
ghost use Rattle.crossbeam_channel.specs.Ends.{receives_on, sends_on};
ghost use Rattle.smsc_arrivals.specs.Pieces.{giver_view, taker_view, IsGivenOf};

use crate::pieces::{Crossing, Piece, PiecePass, PiecesView};
use crossbeam_channel::{RuledReceiver, RuledSender};

/// The reader's end.
#[derive(Drop)]
pub struct PieceSender {
    pub(crate) sender: RuledSender<Piece, PiecesView, Crossing>,
    pub(crate) pass: PiecePass,
    ghost seated: { IsSeatAt (sends_on sender) pass },
    ghost gives: { view pass ≡ giver_view (view pass).source (view pass).given },
}

/// The seat's end.
#[derive(Drop)]
pub struct PieceReceiver {
    pub(crate) receiver: RuledReceiver<Piece, PiecesView, Crossing>,
    pub(crate) pass: PiecePass,
    ghost seated: { IsSeatAt (receives_on receiver) pass },
    ghost takes: { view pass ≡ taker_view (view pass).source (view pass).taken },
    ghost first: { IsGivenOf (view pass).source (view pass).taken },
}
