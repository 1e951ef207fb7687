//! A run over a script.
ghost use Rattle.std.specs.Prelude.{◌≡◌, IfOk, IfSome, Ok};
ghost use Rattle.std.specs.Io.KnownBytes.{Appends};
ghost use Rattle.sms_play.specs.Playing.{play_of, premises_of};
ghost use Rattle.sms_play.specs.Running.{Ran, Wrote, ran as ran_of, run_of};
ghost use Rattle.sms_world.specs.running.Reporting.{Reports};
ghost use Rattle.sms_world.specs.running.RunEnd.{EndsFor, HasHeadline, Outputs, error_in, error_of, text_of_report};
ghost use Rattle.sms_world.specs.declared.running.run.Form.TheVariants.{Report as ReportForm};

use crate::running::opening::play_before;
use crate::running::verdict::Finder;
use crate::running::whole::judge;
use sms_base::{Moment, Octets};
use sms_player::playing::or_no_memory;
use sms_script::report::report_text;
use sms_script::{PlayFault, Script, ScriptFault, read_front, read_script};
use sms_trace::watching::{Capture, Ladder, LadderForm};
use std::alloc::Global;
use std::io::{self, Read, Write};
use thiserror::Error;

/// Why a run ended before its work was done. Nothing was written, unless a write failed.
#[derive(Debug, Drop, Error)]
pub enum SimError {
    /// The line of that number, from 1, is a bad line.
    #[error("line {0}: bad line")]
    BadLine(u64),
    /// The event of that number names a frame that was not sent.
    #[error("event {0}: no such frame")]
    NoSuchFrame(u64),
    /// The event of that number names a handset that the script does not have.
    #[error("event {0}: no such side")]
    NoSuchSide(u64),
    /// The event of that number names an account that the script does not have.
    #[error("event {0}: no such account")]
    NoSuchAccount(u64),
    /// The head is none that can be played.
    #[error("event 0: bad setup")]
    BadSetup,
    /// There was no memory.
    #[error("out of memory")]
    NoMemory,
    /// The input couldn't be read or the output not written.
    #[error(transparent)]
    Io(io::Error),
}

// What is written of a run.
#[derive(Clone, Copy)]
enum Form {
    Report,
    Ladder,
    Picture,
    Capture,
}

// The error that a fault is.
fn of_fault(fault: PlayFault) -> SimError
    ensures { result ≡ error_of fault }
{
    match fault {
        PlayFault::NoSuchFrame { event } => SimError::NoSuchFrame(event),
        PlayFault::NoSuchSide { event } => SimError::NoSuchSide(event),
        PlayFault::NoSuchAccount { event } => SimError::NoSuchAccount(event),
        PlayFault::NoMemory { .. } => SimError::NoMemory,
        PlayFault::BadSetup => SimError::BadSetup,
    }
}

// The error that a text is which is no script.
fn of_script_fault(fault: ScriptFault) -> SimError
    ensures { result ≡ error_in fault }
{
    match fault {
        ScriptFault::BadLine(line) => SimError::BadLine(line),
        ScriptFault::NoMemory => SimError::NoMemory,
    }
}

// The text of the script's report.
fn report(alloc: Global, script: &Script<'_>) -> Result<Octets, PlayFault>
    ensures { Reports result (text_of_report (play_of script.now.setup script.now.events) (premises_of script.now.setup script.now.events)) }
{
    let events = script.events.as_slice();
    match judge(alloc, &script.setup, events) {
        Ok(judged) => or_no_memory(
            events.len() as u64,
            report_text(alloc, &judged.report, judged.broken),
        ),
        Err(fault) => Err(fault),
    }
}

// The script is played, and somebody looks on. Gives how many frames were sent.
fn count_frames<W: Finder>(
    alloc: Global,
    script: &Script<'_>,
    watcher: &mut W,
) -> Result<usize, PlayFault> {
    let judged = play_before(alloc, &script.setup, script.events.as_slice(), watcher)?;
    Ok(judged.report.bag.len())
}

// The script's ladder.
fn ladder(
    alloc: Global,
    form: LadderForm,
    input: &[u8],
    script: &Script<'_>,
) -> Result<Octets, PlayFault> {
    let mut ladder = or_no_memory(0, Ladder::new(alloc, form, input, &script.setup))?;
    let frames = count_frames(alloc, script, &mut ladder)?;
    or_no_memory(script.events.len() as u64, ladder.finish(frames))
}

fn capture_from(alloc: Global, script: &Script<'_>, start: Moment) -> Result<Octets, PlayFault> {
    let mut capture = or_no_memory(0, Capture::new(alloc, &script.setup, start))?;
    count_frames(alloc, script, &mut capture)?;
    Ok(capture.finish())
}

// The script's capture.
fn capture(alloc: Global, script: &Script<'_>) -> Result<Octets, PlayFault> {
    match Moment::from_seconds(script.setup.start) {
        Ok(start) => capture_from(alloc, script, start),
        Err(_) => Err(PlayFault::BadSetup),
    }
}

// What is written of a script.
fn output_for(
    alloc: Global,
    wanted: Form,
    input: &[u8],
    script: &Script<'_>,
) -> Result<Octets, PlayFault>
    ensures { wanted ≡ ReportForm
        → Reports result (text_of_report (play_of script.now.setup script.now.events) (premises_of script.now.setup script.now.events)) }
{
    match wanted {
        Form::Report => report(alloc, script),
        Form::Ladder => ladder(alloc, LadderForm::Text, input, script),
        Form::Picture => ladder(alloc, LadderForm::Picture, input, script),
        Form::Capture => capture(alloc, script),
    }
}

fn text_of(
    alloc: Global,
    wanted: Form,
    input: &[u8],
    script: &Script<'_>,
) -> Result<Octets, SimError>
    ensures { wanted ≡ ReportForm → Outputs result (ran_of (Ok script.now)) }
{
    match output_for(alloc, wanted, input, script) {
        Ok(text) => Ok(text),
        Err(fault) => Err(of_fault(fault)),
    }
}

// What is written for an input.
fn output(alloc: Global, wanted: Form, input: &[u8]) -> Result<Octets, SimError>
    ensures { wanted ≡ ReportForm → Outputs result (run_of input.now) }
{
    match read_script(alloc, input) {
        Ok(script) => text_of(alloc, wanted, input, &script),
        Err(fault) => Err(of_script_fault(fault)),
    }
}

/// The text of the report of a script: from octets to octets. Nothing is read or written, so its clauses have no condition.
///
/// # Errors
/// The number of the first line that is none of a script, or of the first event that can't be played. It is `NoMemory` where
/// a growth was refused. It is never `Io`.
pub fn report_of(alloc: Global, script: &[u8]) -> Result<Octets, SimError>
    // It is the definition's text, or the fault that stands in its place.
    ensures text { Outputs result (run_of script.now) }
    // It is that of a report that has the headline, and of what breaks a premise.
    ensures headline { IfOk result (λ text. HasHeadline script.now (λ written. written ≡ text)) }
{
    output(alloc, Form::Report, script)
}

// That text, written.
fn write_text<W: Write>(writer: &mut W, text: &[u8]) -> Result<(), SimError>
    ensures { (ran : Ran) → ran ≡ Wrote text.now → EndsFor result (λ text. Appends (W.contents writer.old) (W.contents writer.new) text)
        (writer.new ≡ writer.old) ran }
{
    match writer.write_all(text) {
        Ok(()) => Ok(()),
        Err(error) => Err(SimError::Io(error)),
    }
}

// What is written for an input, written.
fn write_output<W: Write>(
    alloc: Global,
    wanted: Form,
    input: &[u8],
    writer: &mut W,
) -> Result<(), SimError>
    ensures { wanted ≡ ReportForm → EndsFor result (λ text. Appends (W.contents writer.old) (W.contents writer.new) text) (writer.new ≡ writer.old)
        (run_of input.now) }
{
    match output(alloc, wanted, input) {
        Ok(text) => write_text(writer, text.as_slice()),
        Err(error) => Err(error),
    }
}

fn run<R: Read, W: Write>(
    alloc: Global,
    wanted: Form,
    reader: &mut R,
    writer: &mut W,
) -> Result<(), SimError>
    ensures { wanted ≡ ReportForm → IfSome (R.remaining reader.old)
        (λ input. EndsFor result (λ text. Appends (W.contents writer.old) (W.contents writer.new) text) (writer.new ≡ writer.old) (run_of input)) }
{
    match read_front(alloc, reader) {
        Ok(front) => write_output(alloc, wanted, front.as_slice(), writer),
        Err(error) => Err(SimError::Io(error)),
    }
}

/// Reads the text of a script, and writes the text of its report. It reads to the end, or as far as `read_front` does where a
/// line passes a limit. A read that fails ends the run, also one that was interrupted.
///
/// # Errors
/// The number of the first line that is none of a script, or of the first event that can't be played. It is `NoMemory` where
/// a growth was refused, and else what reading or writing answered.
pub fn run_sim<R: Read, W: Write>(
    alloc: Global,
    reader: &mut R,
    writer: &mut W,
) -> Result<(), SimError>
    // Where it is known what is read, the text that is written is that of a report that has the headline.
    ensures headline { IfSome (R.remaining reader.old) (λ input. IfOk result
        (λ _. HasHeadline input (λ text. Appends (W.contents writer.old) (W.contents writer.new) text))) }
    // Where what the reader and the writer hold is known, the definition's text is written and nothing else.
    ensures ends { IfSome (R.remaining reader.old) (λ input. EndsFor result (λ text. Appends (W.contents writer.old) (W.contents writer.new) text)
        (writer.new ≡ writer.old) (run_of input)) }
{
    run(alloc, Form::Report, reader, writer)
}

/// Reads the text of a script as `run_sim` does, and writes the run as a ladder. It has a lane for each application, for the
/// centre and for each handset. An unbroken arrow is what arrives, and a broken one what is sent. `o` is a tick, `*` an act
/// of an owner, and `X` a side that starts again.
pub fn run_ladder<R: Read, W: Write>(
    alloc: Global,
    reader: &mut R,
    writer: &mut W,
) -> Result<(), SimError> {
    run(alloc, Form::Ladder, reader, writer)
}

/// Reads the text of a script as `run_sim` does, and writes the run as a picture in SVG. It has the lanes and rows of
/// `run_ladder`. Each frame that arrives is one arrow, from the row in which it is sent to the row in which it arrives. A
/// frame that never arrives is half a broken arrow. What is sent or handed over again has another colour. A legend is below.
///
/// # Errors
/// Those of `run_sim`.
pub fn run_picture<R: Read, W: Write>(
    alloc: Global,
    reader: &mut R,
    writer: &mut W,
) -> Result<(), SimError> {
    run(alloc, Form::Picture, reader, writer)
}

/// Reads the text of a script as `run_sim` does, and writes what crosses the links of the centre as a capture file. The file
/// has what reaches the centre and what leaves it.
pub fn run_capture<R: Read, W: Write>(
    alloc: Global,
    reader: &mut R,
    writer: &mut W,
) -> Result<(), SimError> {
    run(alloc, Form::Capture, reader, writer)
}
