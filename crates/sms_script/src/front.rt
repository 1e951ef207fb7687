//! The text of a script, read as far as it is wanted.
ghost use Rattle.std.specs.Prelude.{◌≡◌, ◌<◌, ◌⊎◌, true, false, length, IfOk, IfSome, MatchOption};
ghost use Rattle.sms_script.specs.Limits.{IsEnoughOf, passes_limit, passes_limits};

use crate::cutting::Lines;
use crate::line::LONGEST_LINE;
use crate::progress::MOST_LINES;
use sms_base::Octets;
use std::alloc::{AllocError, Global};
use std::io::{self, Read};

// Whether the line of that number is one too many, or too long.
fn passes_limit(number: u64, line: &[u8]) -> bool
    ensures { result ≡ passes_limit number line.now }
{
    number > MOST_LINES || line.len() > LONGEST_LINE
}

// Whether a line of the text passes a limit.
#[tactic(auto, unfolding(crate::specs::Limits::passes_limits))]
fn passes_limits(text: &[u8]) -> bool
    ensures { result ≡ passes_limits text.now }
{
    let mut lines = Lines::of(text);
    let mut number = 1u64;
    while let Some(line) = lines.next() {
        if passes_limit(number, line) {
            return true;
        }
        number += 1;
    }
    false
}

// At which length the front is looked at next, unless it is enough to judge the text. It has doubled then. A front that is long enough
// to be looked at is read on only where no line of it passes a limit.
fn next_look(front: &[u8], look: usize) -> Option<usize>
    ensures { MatchOption result (passes_limits front.now ≡ true)
        (λ next. ((length front.now < look) × (next ≡ look)) ⊎ (passes_limits front.now ≡ false)) }
{
    if front.len() < look {
        return Some(look);
    }
    if passes_limits(front) {
        return None;
    }
    Some(front.len().saturating_mul(2))
}

// Octets of a read.
const PIECE: usize = 4096;

// So many octets are read before they are first judged.
const FIRST_LOOK: usize = 65_536;

/// Reads the text of a script to its end, or only a front of it that is known to have a bad line. Such a line is longer
/// than 16,384 octets, or the 20,001st. So an input without an end is read to a bad line. What was read is looked at
/// each time that it has doubled, from 64 KiB on.
///
/// A read that fails ends it, also one that was interrupted. Want of memory is an error of the kind OutOfMemory.
#[tactic(auto, using(crate::proofs::PiecesRead::read_none, crate::proofs::PiecesRead::read_more, crate::proofs::PiecesRead::read_whole, crate::proofs::PiecesRead::read_enough))]
pub fn read_front<R: Read>(alloc: Global, reader: &mut R) -> io::Result<Octets>
    // Where what the reader holds is known, what was read is enough to judge it.
    ensures { IfOk result (λ front. IfSome (R.remaining reader.old) (λ text. IsEnoughOf text front)) }
{
    let mut front = Octets::new(alloc);
    let mut room = [0; PIECE];
    let mut look = FIRST_LOOK;
    for _ in 0..u64::MAX {
        let count = reader.read(&mut room)?;
        if count == 0 {
            return Ok(front);
        }
        front.append(&room[..count])?;
        match next_look(front.as_slice(), look) {
            Some(next) => look = next,
            None => return Ok(front),
        }
    }
    Err(io::Error::from(AllocError))
}
