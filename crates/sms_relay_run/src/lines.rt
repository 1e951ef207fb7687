//! Lines of hexadecimal digits.
ghost use Rattle.std.specs.Prelude.{◌≡◌, ◌++◌, ◌==◌, ◌<◌, ℕ, length, position, OnOk, IfSome};
ghost use Rattle.sms_relay_run.specs.LineReading.{ReadsLine};
ghost use Rattle.sms_relay_run.specs.Lines.{first_line, behind_line, frame_in, line_of};

use sms_base::{Octets, put_characters};
use std::alloc::{AllocError, Global};

/// Octets in a line of input, its end not counted.
pub(crate) const LONGEST_LINE: usize = 16_384;

// Where the first line ends, if it has an end.
fn line_end(input: &[u8]) -> Option<usize>
    ensures value { result ≡ position (λ octet. octet == 10) input.now }
    ensures within { IfSome result (λ end. end < length input.now) }
{
    input.iter().position(|octet| *octet == b'\n')
}

// The first line without its end, and what is behind its end.
fn cut_line(input: &[u8]) -> (&[u8], &[u8])
    ensures line { result.0.now ≡ first_line input.now }
    ensures behind { result.1.now ≡ behind_line input.now }
{
    match line_end(input) {
        Some(end) => (&input[..end], &input[end + 1..]),
        None => (input, &[]),
    }
}

/// Octets that a line spells at most.
pub(crate) const MOST_OCTETS: usize = LONGEST_LINE / 2;

/// Puts the octets that the one line of an input spells to the front of a room of 8,192. It answers how many they are,
/// or the number of the bad line, from 1. Takes no memory.
pub(crate) fn read_frame(input: &[u8], room: &mut [u8]) -> Result<usize, u64>
    requires { length room.old ≡ MOST_OCTETS }
    ensures { ReadsLine (frame_in input.now) result room.new }
{
    if input.is_empty() {
        return Err(1);
    }
    let (line, behind) = cut_line(input);
    if line.len() > LONGEST_LINE {
        return Err(1);
    }
    let count = line.len() / 2;
    match hex::decode_to_slice(line, &mut room[..count]) {
        Ok(()) if behind.is_empty() => Ok(count),
        Ok(()) => Err(2),
        Err(_) => Err(1),
    }
}

/// Puts a line at the end: a number as its characters, and a frame in hexadecimal digits.
pub(crate) fn push_line(
    alloc: Global,
    out: &mut Octets,
    number: &[char],
    frame: &[u8],
) -> Result<(), AllocError>
    ensures { OnOk result (out.new ≡ out.old ++ line_of number.now frame.now) }
{
    put_characters(out, number)?;
    out.push(b' ')?;
    let digits = hex::encode_upper(alloc, frame)?;
    out.append(digits.as_bytes())?;
    out.push(b'\n')
}
