//! A relay run: a line of hexadecimal in, a line for each frame out.
ghost use Rattle.std.specs.Prelude.{◌≡◌, ◌≤◌, ℕ, List, length, take, IfOk, IfSome, OnOk};
ghost use Rattle.std.specs.Io.KnownBytes.{Appends};
ghost use Rattle.sms_base.specs.OwnAddress.{IsOwnAddress};
ghost use Rattle.sms_relay_run.specs.Run.{IsOutput, IsTextFor, Outputs, text_of};
ghost use Rattle.sms_relay_run.specs.Fronts.{IsFront};
ghost use Rattle.sms_relay_run.specs.Lines.{frame_in};
ghost use Rattle.sms_relay_run.specs.RunEnd.{EndsFor};

use crate::lines::{LONGEST_LINE, MOST_OCTETS, push_line, read_frame};
use crate::once::relay_once;
use crate::relay_laws::Relayed;
use sms_base::{Address, Moment, Octets};
use std::alloc::{AllocError, Global};
use std::io::{self, Read, Write};
use thiserror::Error;

/// Why a run ended before its work was done.
#[derive(Debug, Drop, Error)]
pub enum RunError {
    /// The line of that number, from 1, is a bad line. Nothing was written.
    #[error("line {0}: bad line")]
    BadLine(u64),
    /// There was no memory.
    #[error("out of memory")]
    NoMemory,
    /// The input couldn't be read or the output not written.
    #[error(transparent)]
    Io(io::Error),
}

// What is wrong with an input.
#[derive(Clone, Copy, Debug, PartialEq, Eq, Error)]
enum LineFault {
    // The line of that number, from 1, is no line of hexadecimal digits or one too many.
    #[error("line {0}: bad line")]
    BadLine(u64),
    // There was no memory for what is sent.
    #[error("out of memory")]
    NoMemory,
}

// The lines of what is sent, the answer first.
fn lines_of(alloc: Global, from: &Address, relayed: &Relayed) -> Result<Octets, AllocError>
    ensures { IfOk result (λ text. text ≡ text_of from.now relayed.now) }
{
    let mut out = Octets::new(alloc);
    if let Some(answer) = &relayed.answer {
        push_line(alloc, &mut out, from.digits.as_slice(), answer.as_slice())?;
    }
    if let Some((to, frame)) = &relayed.down {
        push_line(alloc, &mut out, to.digits.as_slice(), frame.as_slice())?;
    }
    Ok(out)
}

// What is written for an input, or the number of its bad line.
fn output(
    alloc: Global,
    centre: Address,
    from: Address,
    now: Moment,
    input: &[u8],
) -> Result<Octets, LineFault>
    requires centre { IsOwnAddress centre }
    requires from { IsOwnAddress from }
    ensures { Outputs centre from now input.now result }
{
    let mut room = [0; MOST_OCTETS];
    match read_frame(input, &mut room) {
        Ok(count) => match relayed_text(alloc, centre, from, now, &room[..count]) {
            Ok(text) => Ok(text),
            Err(_) => Err(LineFault::NoMemory),
        },
        Err(line) => Err(LineFault::BadLine(line)),
    }
}

fn relayed_text(
    alloc: Global,
    centre: Address,
    from: Address,
    now: Moment,
    frame: &[u8],
) -> Result<Octets, AllocError>
    requires centre { IsOwnAddress centre }
    requires from { IsOwnAddress from }
    ensures { IfOk result (λ text. IsTextFor centre from now frame.now text) }
{
    let relayed = relay_once(alloc, centre, from, now, frame)?;
    let text = lines_of(alloc, &from, &relayed)?;
    Ok(text)
}

// As many octets of an input as decide whether it is more than a line.
const ENOUGH: usize = LONGEST_LINE + 2;

// The whole input, or its first octets where they are enough, into the front of a buffer; how many they are.
fn read_front<R: Read>(reader: &mut R, buffer: &mut [u8]) -> io::Result<usize>
    requires { length buffer.old ≡ ENOUGH }
    ensures within { IfOk result (λ count. count ≤ length buffer.new) }
    ensures front { IfOk result (λ count. IfSome (R.remaining reader.old) (λ input. IsFront input (take count buffer.new))) }
{
    let mut filled = 0;
    while filled < buffer.len() {
        let count = reader.read(&mut buffer[filled..])?;
        if count == 0 {
            return Ok(filled);
        }
        filled += count;
    }
    Ok(filled)
}

// The text for an input, written.
fn write_output<W: Write>(
    alloc: Global,
    writer: &mut W,
    centre: Address,
    from: Address,
    now: Moment,
    input: &[u8],
) -> Result<(), RunError>
    requires centre { IsOwnAddress centre }
    requires from { IsOwnAddress from }
    ensures written { OnOk result ((text : List ℕ) × IsOutput centre from now input.now text
        × Appends (W.contents writer.old) (W.contents writer.new) text) }
    ensures ends { EndsFor result (writer.new ≡ writer.old) (frame_in input.now) }
{
    match output(alloc, centre, from, now, input) {
        Ok(text) => match writer.write_all(text.as_slice()) {
            Ok(()) => Ok(()),
            Err(error) => Err(RunError::Io(error)),
        },
        Err(LineFault::BadLine(line)) => Err(RunError::BadLine(line)),
        Err(LineFault::NoMemory) => Err(RunError::NoMemory),
    }
}

/// Reads one line of hexadecimal digits, an RP unit of the handset `from`. It writes a line for each frame that a
/// centre without rows sends for it at the moment `now`, the answer first. A line has the number of the handset, a
/// space, and the frame in capital hexadecimal digits.
///
/// A bad line is reported by its number. Nothing is written for it, nor where memory is wanting, which is reported of a
/// good line alone. A read or write that fails ends the run.
pub fn run_relay<R: Read, W: Write>(
    alloc: Global,
    reader: &mut R,
    writer: &mut W,
    centre: Address,
    from: Address,
    now: Moment,
) -> Result<(), RunError>
    requires centre { IsOwnAddress centre }
    requires from { IsOwnAddress from }
    // Where what the reader and the writer hold is known, the text for the input is written and nothing else.
    ensures written { OnOk result (IfSome (R.remaining reader.old) (λ input. (text : List ℕ)
        × IsOutput centre from now input text
        × Appends (W.contents writer.old) (W.contents writer.new) text)) }
    ensures ends { IfSome (R.remaining reader.old) (λ input. EndsFor result (writer.new ≡ writer.old) (frame_in input)) }
{
    let mut buffer = [0; ENOUGH];
    match read_front(reader, &mut buffer) {
        Ok(count) => write_output(alloc, writer, centre, from, now, &buffer[..count]),
        Err(error) => Err(RunError::Io(error)),
    }
}
