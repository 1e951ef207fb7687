//! A wire that replaces a socket.
ghost use Rattle.std.specs.Prelude.{◌≡◌, ◌≤◌, ◌||◌, None, length};
ghost use Rattle.smsc_loop.specs.Reading.{is_end, is_loss};

use sms_keeper::Bell;
use smsc_loop::{Found, Wire};
use std::sync::Wait;

// So many octets are read at once, and so many written.
const PIECE: usize = 20;

/// Gives these octets, takes as many as are wanted, and ends then. Refuses reads from one of them on, or writes from one of them on.
#[derive(Drop)]
pub(crate) struct Script<'a> {
    pub(crate) octets: &'a [u8],
    /// So many octets are to come before the other side hangs up.
    pub(crate) wanted: usize,
    pub(crate) given: usize,
    pub(crate) taken: usize,
    /// Calls that will be made well.
    pub(crate) reads: u32,
    pub(crate) writes: u32,
    /// A call was refused.
    pub(crate) has_failed: bool,
    /// The wire takes octets.
    pub(crate) has_room: bool,
    pub(crate) piece: &'a [u8],
    pub(crate) has_ended: bool,
    pub(crate) is_closed: bool,
    /// Rung where there is nothing to read, so that nobody waits.
    pub(crate) bell: Option<Bell>,
}

impl<'a> Script<'a> {
    /// A wire that refuses no call.
    pub(crate) fn well(octets: &'a [u8], wanted: usize) -> Script<'a> {
        Script {
            octets,
            wanted,
            given: 0,
            taken: 0,
            reads: u32::MAX,
            writes: u32::MAX,
            has_failed: false,
            has_room: true,
            piece: &[],
            has_ended: false,
            is_closed: false,
            bell: None,
        }
    }

    // The next octets, at most a piece of them.
    fn next(&self) -> &'a [u8] {
        let left = self.octets.get(self.given..).unwrap_or(&[]);
        left.get(..PIECE).unwrap_or(left)
    }

    fn give(&mut self) -> Found
        ensures ended { self.new.has_ended ≡ (self.old.has_ended || is_end result) }
        ensures closed { self.new.is_closed ≡ (self.old.is_closed || is_loss result) }
    {
        let piece = self.next();
        if !piece.is_empty() {
            self.given = self.given.saturating_add(piece.len());
            self.piece = piece;
            Found::Some
        } else if self.taken >= self.wanted {
            self.has_ended = true;
            Found::Ended
        } else {
            if let Some(bell) = &self.bell {
                bell.ring();
            }
            Found::Nothing
        }
    }

    // Takes so many of the octets, if there is room.
    fn count_of(&self, octets: &[u8]) -> usize
        ensures { result ≤ length octets.now }
    {
        if self.has_room {
            octets.len().min(PIECE)
        } else {
            0
        }
    }
}

impl Wire for Script<'_> {
    // It states nothing: tests count its octets.
    ghost remaining = { λ _. None };

    ghost written = { λ _. None };

    ghost last = { λ s. s.piece.now };

    ghost ended = { λ s. s.has_ended };

    ghost closed = { λ s. s.is_closed };

    fn read_now<R: Wait>(&mut self, _rt: &R) -> Found {
        if self.reads == 0 {
            self.has_failed = true;
            self.is_closed = true;
            return Found::Lost;
        }
        // A wire that refuses none is read as often as it may be.
        self.reads = self.reads.saturating_sub(1);
        self.give()
    }

    fn piece(&self) -> &[u8] {
        self.piece
    }

    fn has_ended(&self) -> bool {
        self.has_ended
    }

    fn is_closed(&self) -> bool {
        self.is_closed
    }

    fn write_soon(&mut self, octets: &[u8]) -> Option<usize> {
        if self.writes == 0 {
            self.has_failed = true;
            self.is_closed = true;
            return None;
        }
        self.writes = self.writes.saturating_sub(1);
        let count = self.count_of(octets);
        self.taken = self.taken.saturating_add(count);
        Some(count)
    }
}
