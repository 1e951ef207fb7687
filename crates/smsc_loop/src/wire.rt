//! Where octets are received and sent.
ghost use Rattle.std.specs.Prelude.{◌≡◌, ◌≤◌, ◌||◌, ℕ, Bool, true, List, Option, take, length, is_none, MatchOption};
ghost use Rattle.std.specs.Io.KnownBytes.{Appends, Consumes, IsAtEnd, Keeps};
ghost use Rattle.smsc_loop.specs.Reading.{octets_found, is_end, is_loss};

use std::sync::Wait;

/// What a look at a connection found.
#[derive(Clone, Copy, PartialEq, Eq)]
pub enum Found {
    /// Octets arrived: the piece.
    Some,
    /// None yet.
    Nothing,
    /// There will be none any more: the other side sends no more.
    Ended,
    /// The connection can't be read any more, and takes no octets.
    Lost,
}

/// A connection of a seat. Where octets arrive, or it ends, the bell of the seat rings.
pub trait Wire {
    /// The octets that it has still to give, where it states them.
    ghost remaining: { Self → Option (List ℕ) };

    /// The octets that were written to it so far, where it states them.
    ghost written: { Self → Option (List ℕ) };

    /// The octets that it gave last.
    ghost last: { Self → List ℕ };

    /// The wire gives no more octets.
    ghost ended: { Self → Bool };

    /// The wire takes no more octets.
    ghost closed: { Self → Bool };

    /// Takes what has arrived, and does not wait for more.
    fn read_now<R: Wait>(&mut self, rt: &R) -> Found
        ensures read { Consumes (remaining self.old) (remaining self.new) (octets_found result (last self.new)) }
        ensures written { written self.new ≡ written self.old }
        ensures ended { ended self.new ≡ (ended self.old || is_end result) }
        ensures closed { closed self.new ≡ (closed self.old || is_loss result) };

    /// The octets that it gave last.
    fn piece(&self) -> &[u8]
        ensures last { result.now ≡ last self.now };

    /// Whether it gives no more octets: the other side sends none any more. So each octet that it had to give was given.
    fn has_ended(&self) -> bool
        ensures ended { result ≡ ended self.now }
        ensures all { result ≡ true → IsAtEnd (remaining self.now) };

    /// Whether it takes no more octets.
    fn is_closed(&self) -> bool
        ensures closed { result ≡ closed self.now };

    /// Sends the first of these octets, and answers how many. Where the connection has no room for any, it waits some
    /// hundredths of a second at most. None where the connection takes no octets any more.
    fn write_soon(&mut self, octets: &[u8]) -> Option<usize>
        ensures wrote { MatchOption result
            (Keeps (written self.old) (written self.new))
            (λ count. (count ≤ length octets.now) × Appends (written self.old) (written self.new) (take count octets.now)) }
        ensures remaining { remaining self.new ≡ remaining self.old }
        ensures ended { ended self.new ≡ ended self.old }
        ensures closed { closed self.new ≡ (closed self.old || is_none result) };
}
