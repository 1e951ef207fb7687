//! Relay and play runs over readers and writers that fail at one of their calls, and over inputs without an end.
use crate::rows::holds;
use sms_base::Moment;
use sms_relay_run::{RunError, run_relay};
use sms_world::{SimError, run_sim};
use smsc_cli::words::own_address;
use std::alloc::{AllocError, Global};
use std::io::{self, ErrorKind, Read, Write};
use std::test::Fail;

/// Gives an octet a call, and fails at one of its calls.
#[derive(Drop)]
pub(crate) struct FailingReader<'a> {
    pub(crate) octets: &'a [u8],
    pub(crate) calls: usize,
    pub(crate) fails_at: usize,
    pub(crate) kind: ErrorKind,
}

impl Read for FailingReader<'_> {
    fn read(&mut self, buf: &mut [u8]) -> io::Result<usize> {
        self.calls = self.calls.saturating_add(1);
        if self.calls == self.fails_at {
            return Err(io::Error::from(self.kind));
        }
        if self.octets.is_empty() || buf.is_empty() {
            return Ok(0);
        }
        buf[0] = self.octets[0];
        self.octets = &self.octets[1..];
        Ok(1)
    }
}

/// Takes an octet a call, and fails at one of its calls.
#[derive(Drop)]
pub(crate) struct FailingWriter {
    pub(crate) taken: Vec<u8>,
    pub(crate) calls: usize,
    pub(crate) fails_at: usize,
}

impl Write for FailingWriter {
    fn write(&mut self, buf: &[u8]) -> io::Result<usize> {
        self.calls = self.calls.saturating_add(1);
        if self.calls == self.fails_at {
            return Err(io::Error::from(ErrorKind::BrokenPipe));
        }
        if buf.is_empty() {
            return Ok(0);
        }
        self.taken.push(buf[0])?;
        Ok(1)
    }

    fn flush(&mut self) -> io::Result<()> {
        Ok(())
    }
}

// How a run ended.
#[derive(Clone, Copy, PartialEq, Eq)]
enum Ended {
    Well,
    BadLine(u64),
    NoMemory,
    Failed(ErrorKind),
    Otherwise,
}

// ---- runs

// A relay run, or the run of a script.
#[derive(Clone, Copy)]
enum Program {
    Relay,
    Script,
}

const UNIT: &[u8] = b"0605";

const ANSWER: &[u8] = b"447700900123 0305\n";

const SCRIPT: &[u8] = b"start 1709251198\ncentre 447700900000\naccount shop pass 447700900000\n\
    handset 447700900123 3\ntick centre 1709251199\n";

// A relay run at Thursday 29 February 2024, 23:59:58 at UTC.
fn relay<R: Read, W: Write>(alloc: Global, reader: &mut R, writer: &mut W) -> Option<Ended> {
    let centre = own_address("447700900000")?;
    let from = own_address("447700900123")?;
    let now = Moment::from_seconds(1_709_251_198).ok()?;
    match run_relay(alloc, reader, writer, centre, from, now) {
        Ok(()) => Some(Ended::Well),
        Err(RunError::BadLine(line)) => Some(Ended::BadLine(line)),
        Err(RunError::NoMemory) => Some(Ended::NoMemory),
        Err(RunError::Io(error)) => Some(Ended::Failed(error.kind())),
    }
}

fn play<R: Read, W: Write>(alloc: Global, reader: &mut R, writer: &mut W) -> Ended {
    match run_sim(alloc, reader, writer) {
        Ok(()) => Ended::Well,
        Err(SimError::BadLine(line)) => Ended::BadLine(line),
        Err(SimError::NoMemory) => Ended::NoMemory,
        Err(SimError::Io(error)) => Ended::Failed(error.kind()),
        Err(_) => Ended::Otherwise,
    }
}

fn end_of<R: Read, W: Write>(
    alloc: Global,
    program: Program,
    reader: &mut R,
    writer: &mut W,
) -> Option<Ended> {
    match program {
        Program::Relay => relay(alloc, reader, writer),
        Program::Script => Some(play(alloc, reader, writer)),
    }
}

// A program, its input, and how reads of it fail.
const READS: &[(Program, &[u8], ErrorKind)] = &[
    (Program::Relay, UNIT, ErrorKind::Interrupted),
    (Program::Relay, UNIT, ErrorKind::ConnectionReset),
    (Program::Script, SCRIPT, ErrorKind::Interrupted),
    (Program::Script, SCRIPT, ErrorKind::ConnectionReset),
    (Program::Script, SCRIPT, ErrorKind::OutOfMemory),
];

// How the run ends whose reader fails at that call, and whether nothing was written.
fn reads(
    alloc: Global,
    row: &(Program, &[u8], ErrorKind),
    fails_at: usize,
) -> Option<(Ended, bool)> {
    let (program, octets, kind) = row;
    let mut reader = FailingReader {
        octets,
        calls: 0,
        fails_at,
        kind: *kind,
    };
    let mut written: Vec<u8> = Vec::new(alloc);
    let ended = end_of(alloc, *program, &mut reader, &mut written)?;
    Some((ended, written.is_empty()))
}

// An octet a call, and one call more for the end.
fn each_read_fails(alloc: Global, row: &(Program, &[u8], ErrorKind)) -> bool {
    let (_, input, kind) = row;
    for call in 1..input.len().saturating_add(2) {
        if reads(alloc, row, call) != Some((Ended::Failed(*kind), true)) {
            return false;
        }
    }
    reads(alloc, row, input.len().saturating_add(2)) == Some((Ended::Well, false))
}

#[test]
fn a_run_ends_at_a_read_that_fails(rt: HostRuntime) -> Result<(), Fail> {
    for row in READS {
        holds(each_read_fails(rt.alloc(), row), "a read that fails")?;
    }
    Ok(())
}

// How the run ends whose writer fails at that call, and whether it took the octets of the output before.
fn writes(
    alloc: Global,
    program: Program,
    input: &[u8],
    output: &[u8],
    fails_at: usize,
) -> Option<(Ended, bool)> {
    let mut reader = input;
    let mut writer = FailingWriter {
        taken: Vec::new(alloc),
        calls: 0,
        fails_at,
    };
    let ended = end_of(alloc, program, &mut reader, &mut writer)?;
    let before = output.get(..fails_at.saturating_sub(1));
    Some((ended, before == Some(writer.taken.as_slice())))
}

// The output has some octets. An octet a call.
fn each_write_fails(alloc: Global, program: Program, input: &[u8], output: &[u8]) -> bool {
    let length = output.len();
    if length == 0 || length >= 10_000 {
        return false;
    }
    for call in 1..length.saturating_add(1) {
        let ended = writes(alloc, program, input, output, call);
        if ended != Some((Ended::Failed(ErrorKind::BrokenPipe), true)) {
            return false;
        }
    }
    writes(alloc, program, input, output, length.saturating_add(1)) == Some((Ended::Well, true))
}

fn each_write_of_a_script_fails(alloc: Global) -> bool {
    let mut reader = SCRIPT;
    let mut report: Vec<u8> = Vec::new(alloc);
    play(alloc, &mut reader, &mut report) == Ended::Well
        && each_write_fails(alloc, Program::Script, SCRIPT, report.as_slice())
}

#[test]
fn a_run_ends_at_a_write_that_fails(rt: HostRuntime) -> Result<(), Fail> {
    holds(
        each_write_fails(rt.alloc(), Program::Relay, UNIT, ANSWER),
        "a relay run",
    )?;
    holds(each_write_of_a_script_fails(rt.alloc()), "a script")
}

// ---- inputs without an end

// Gives a text, and then one octet again and again. It counts the octets.
#[derive(Drop)]
struct Endless<'a> {
    text: &'a [u8],
    octet: u8,
    given: usize,
}

impl Read for Endless<'_> {
    fn read(&mut self, buf: &mut [u8]) -> io::Result<usize> {
        for place in 0..buf.len() {
            if self.text.is_empty() {
                buf[place] = self.octet;
            } else {
                buf[place] = self.text[0];
                self.text = &self.text[1..];
            }
        }
        self.given = self.given.saturating_add(buf.len());
        Ok(buf.len())
    }
}

// Whether the run of a script with that octet again and again behind it ends with that bad line, before a million octets were read.
fn is_bad(alloc: Global, text: &[u8], octet: u8, line: u64) -> bool {
    let mut reader = Endless {
        text,
        octet,
        given: 0,
    };
    let mut written: Vec<u8> = Vec::new(alloc);
    let ended = play(alloc, &mut reader, &mut written);
    ended == Ended::BadLine(line) && reader.given < 1_000_000 && written.is_empty()
}

// 20,000 lines, each a tick of the centre, behind a head of three.
fn many_ticks(alloc: Global) -> Result<Vec<u8>, AllocError> {
    let mut text = Vec::new(alloc);
    text.extend_from_slice(b"start 1709251198\ncentre 447700900000\nhandset 447700900123 3\n")?;
    for _ in 0..20_000 {
        text.extend_from_slice(b"tick centre 1709251199\n")?;
    }
    Ok(text)
}

fn many_ticks_are_bad(alloc: Global) -> bool {
    match many_ticks(alloc) {
        Ok(ticks) => is_bad(alloc, ticks.as_slice(), 10, 10_004),
        Err(_) => false,
    }
}

const ENDLESS: &[(&[u8], u8, u64, &str)] = &[
    (&[], b'a', 1, "a line"),
    (&[], 10, 1, "empty lines"),
    (SCRIPT, b'a', 6, "a line behind a script"),
];

#[test]
fn an_input_without_an_end_is_a_bad_line(rt: HostRuntime) -> Result<(), Fail> {
    for (text, octet, line, name) in ENDLESS {
        holds(is_bad(rt.alloc(), text, *octet, *line), name)?;
    }
    holds(many_ticks_are_bad(rt.alloc()), "ticks")
}
