//! The pieces that cross from the reader of a connection to its seat.
//!
//! The reader gives pieces and the seat takes them, by a queue of their own. What the seat took is the first of what the reader gave, and
//! that the first of what the stream was to give: octets, in order, each once. Behind the last there is an end mark, where the stream has ended.
//!
//! - `calls`: what both ends of the queue do
//! - `ends`: the two ends
ghost use Rattle.std.specs.Prelude.{◌≡◌, ◌==◌, ◌≤◌, ℕ, List, [], None, Option, take};

use crossbeam_channel::Pass;
use crossbeam_channel::protocol::{Lesson, Outcome, Protocol, Split};
use std::collections::LinkedList;
use std::marker::{Brand, PhantomData};

mod calls;
mod ends;

pub use calls::open_pieces;
pub use ends::{PieceReceiver, PieceSender};

/// So many octets are read at once.
pub const PIECE: usize = 1024;

/// Octets that a connection received.
#[derive(Drop)]
pub struct Piece {
    pub octets: [u8; PIECE],
    pub count: usize,
    ghost fits: { count ≤ 1024 },
}

impl Piece {
    /// No octets. So the reader says that its stream has ended.
    pub fn none() -> Piece
        ensures none { take result.count result.octets ≡ [] }
        ensures mark { result.count ≡ 0 }
    {
        Piece {
            octets: [0; PIECE],
            count: 0,
        }
    }

    /// Whether it is the end mark.
    pub fn is_mark(&self) -> bool
        ensures { result ≡ (self.now.count == 0) }
    {
        self.count == 0
    }

    /// The octets.
    pub fn as_slice(&self) -> &[u8]
        ensures { result.now ≡ take self.now.count self.now.octets }
    {
        &self.octets[..self.count]
    }
}

/// What an end of the queue may do and what it knows. No value of it is made.
pub struct PiecesView {
    /// The end is the reader's.
    pub gives: bool,
    /// The end is the seat's.
    pub takes: bool,
    /// What the stream was to give when the queue was opened, where it states that.
    pub source: Option<LinkedList<u8>>,
    /// The octets that the reader gave.
    pub given: LinkedList<u8>,
    /// The octets that the seat took.
    pub taken: LinkedList<u8>,
}

/// What the reader gave is what the seat took, and then the queue. It is the first of what the stream was to give.
pub struct Crossing;

impl Protocol<Piece, PiecesView> for Crossing {
    ghost use Rattle.smsc_arrivals.specs.Pieces.{Crosses, joined_view};

    ghost holds = { Crosses };

    ghost first = { joined_view };
}

/// What the stream of a queue is to give, where it states that.
pub trait Source {
    ghost octets: { Option (List ℕ) };
}

impl Source for Brand {
    ghost octets = { None };
}

/// The pass of a new queue is cut into the reader's and the seat's. Both know what the stream is to give.
pub struct Roles<J> {
    source: PhantomData<J>,
}

impl<J: Source> Split<PiecesView> for Roles<J> {
    ghost use Rattle.std.specs.Prelude.{[]};
    ghost use Rattle.smsc_arrivals.specs.Pieces.{giver_view, taker_view};

    ghost left = { λ v. giver_view J.octets [] };

    ghost right = { λ v. taker_view J.octets [] };
}

/// A piece adds to what the reader gave.
pub struct Gives;

impl Outcome<Piece, PiecesView> for Gives {
    ghost use Rattle.std.specs.Prelude.{◌≡◌, ◌++◌};
    ghost use Rattle.smsc_arrivals.specs.Pieces.{giver_view, octets_of};

    ghost then = { λ v x w. w ≡ giver_view v.source (v.given ++ octets_of x) };
}

impl Lesson<Piece, PiecesView> for Gives {
    ghost use Rattle.std.specs.Prelude.{⊤};

    ghost fact = { λ v items. ⊤ };
}

/// A piece adds to what the seat took. That is the first of what the stream was to give, and behind the end mark all of it.
pub struct Takes;

impl Outcome<Piece, PiecesView> for Takes {
    ghost use Rattle.std.specs.Prelude.{◌≡◌, ◌++◌, true};
    ghost use Rattle.smsc_arrivals.specs.Pieces.{taker_view, is_mark, octets_of, AreAll, IsGivenOf};

    ghost then = { λ v x w. (w ≡ taker_view v.source (v.taken ++ octets_of x)) × IsGivenOf v.source (v.taken ++ octets_of x)
        × (is_mark x ≡ true → AreAll v.source (v.taken ++ octets_of x)) };
}

impl Lesson<Piece, PiecesView> for Takes {
    ghost use Rattle.std.specs.Prelude.{⊤};

    ghost fact = { λ v items. ⊤ };
}

pub type PiecePass = Pass<Piece, PiecesView>;
