//! What is said beside the rows of a ladder.
ghost use Rattle.std.specs.Prelude.{◌≡◌, ◌++◌, IfOk, IsUtf8, OnOk, codes};
ghost use Rattle.sms_control.specs.ControlReading.{cp_at};
ghost use Rattle.sms_trace.specs.drawing.Causes.{cause_of_frame};
ghost use Rattle.sms_trace.specs.drawing.Notes.{again_note, asked_note, bare_word as word_of_bare, behind_note, carried_note, cause_name, cause_note};
ghost use Rattle.sms_trace.specs.drawing.Notes.{content_note, event_note, frame_note, hex_pair, holder_note, kind_word as word_of_kind, numbered, part_note};
ghost use Rattle.sms_trace.specs.drawing.Notes.{pdu_note as note_of_pdu, reason_note, receipt_answer_note, receipt_note, reported_word};
ghost use Rattle.sms_trace.specs.drawing.Notes.{request_note, response_note};
ghost use Rattle.sms_trace.specs.drawing.Shown.{shown_octets};

use crate::drawing::causes::Cause;
use crate::drawing::shown::{hex_digit, put_shown};
use sms_base::{Carried, FinalState, Holder, Kind, MessageId, Octets, put_decimal};
use sms_control::Cp;
use sms_script::report::{Answered, Direction, FrameRow, state_text};
use std::alloc::{AllocError, Global};
use std::str::from_utf8;

// ---- a frame

#[tactic(auto, unfolding(crate::specs::drawing::Notes::hex_pair))]
fn put_hex(out: &mut Octets, octet: u8) -> Result<(), AllocError>
    ensures { OnOk result (out.new ≡ out.old ++ hex_pair octet) }
{
    out.append(&[hex_digit(octet / 16), hex_digit(octet % 16)])
}

#[tactic(auto, unfolding(crate::specs::drawing::Notes::numbered))]
fn put_numbered(out: &mut Octets, what: &str, number: u64) -> Result<(), AllocError>
    ensures { OnOk result (out.new ≡ out.old ++ numbered what.now number) }
{
    out.append(what.as_bytes())?;
    put_decimal(out, number)
}

#[tactic(auto, unfolding(crate::specs::drawing::Notes::part_note))]
fn put_part(out: &mut Octets, id: MessageId, number: u8) -> Result<(), AllocError>
    ensures { OnOk result (out.new ≡ out.old ++ part_note id number) }
{
    put_numbered(out, "part ", u64::from(number))?;
    put_numbered(out, " of message ", id.number())
}

fn put_holder(out: &mut Octets, holder: Holder) -> Result<(), AllocError>
    ensures { OnOk result (out.new ≡ out.old ++ holder_note holder) }
{
    match holder {
        Holder::Part(id, number) => put_part(out, id, number),
        Holder::Report(id) => put_numbered(out, "the status report of message ", id.number()),
        Holder::Entry(number) => put_numbered(out, "entry ", u64::from(number)),
        Holder::Memory(number) => put_numbered(out, "memory available, ", u64::from(number)),
    }
}

fn kind_word(kind: Kind) -> &'static str
    ensures { result.now ≡ word_of_kind kind }
{
    match kind {
        Kind::Data => "data",
        Kind::Ack => "acknowledgement",
        Kind::Error => "error",
    }
}

#[tactic(auto, unfolding(crate::specs::drawing::Notes::carried_note))]
fn put_carried(out: &mut Octets, carried: &Carried) -> Result<(), AllocError>
    ensures { OnOk result (out.new ≡ out.old ++ carried_note carried.now) }
{
    out.append(kind_word(carried.kind).as_bytes())?;
    out.append(b" ")?;
    put_hex(out, carried.reference)?;
    out.append(b", ")?;
    put_holder(out, carried.tag)
}

// A frame that carries nothing (3GPP TS 24.011 7.2).
fn bare_word(octets: &[u8]) -> &'static str
    ensures { result.now ≡ word_of_bare (cp_at octets.now) }
{
    match Cp::read(octets) {
        Ok(Cp::AckUnit { .. }) => "CP-ACK",
        _ => "CP-ERROR",
    }
}

// What the frame carries, or what it is.
fn put_content(out: &mut Octets, carried: &Option<Carried>, octets: &[u8]) -> Result<(), AllocError>
    ensures { OnOk result (out.new ≡ out.old ++ content_note carried.now octets.now) }
{
    match carried {
        Some(carried) => put_carried(out, carried),
        None => out.append(bare_word(octets).as_bytes()),
    }
}

fn put_cause_name(out: &mut Octets, words: &str, number: u8) -> Result<(), AllocError>
    ensures { OnOk result (out.new ≡ out.old ++ cause_name words.now number) }
{
    if words.is_empty() {
        put_numbered(out, "cause ", u64::from(number))
    } else {
        out.append(words.as_bytes())
    }
}

// Its words, or its number where the standard has none.
#[tactic(auto, unfolding(crate::specs::drawing::Notes::cause_note))]
fn put_cause(out: &mut Octets, cause: Cause) -> Result<(), AllocError>
    ensures { OnOk result (out.new ≡ out.old ++ cause_note cause) }
{
    out.append(b": ")?;
    put_cause_name(out, cause.words(), cause.number())
}

// The cause that a frame names, if it names one.
fn put_reason(out: &mut Octets, direction: Direction, octets: &[u8]) -> Result<(), AllocError>
    ensures { OnOk result (out.new ≡ out.old ++ reason_note (cause_of_frame direction octets.now)) }
{
    match Cause::of_frame(direction, octets) {
        Some(cause) => put_cause(out, cause),
        None => Ok(()),
    }
}

fn again_word(is_again: bool) -> &'static str
    ensures { result.now ≡ again_note is_again }
{
    if is_again { ", again" } else { "" }
}

#[tactic(auto, unfolding(crate::specs::drawing::Notes::frame_note))]
fn put_frame(out: &mut Octets, frame: &FrameRow, is_again: bool) -> Result<(), AllocError>
    ensures { OnOk result (out.new ≡ out.old ++ frame_note frame.now is_again) }
{
    out.append(b"frame ")?;
    put_decimal(out, frame.number)?;
    out.append(again_word(is_again).as_bytes())?;
    out.append(b": ")?;
    put_content(out, &frame.carried, frame.octets.as_slice())?;
    put_reason(out, frame.direction, frame.octets.as_slice())
}

/// What a frame carries, whether it is sent again, and the cause that it names.
pub fn frame_text(alloc: Global, frame: &FrameRow, is_again: bool) -> Result<Octets, AllocError>
    ensures { IfOk result (λ text. text ≡ frame_note frame.now is_again) }
{
    let mut out = Octets::new(alloc);
    put_frame(&mut out, frame, is_again)?;
    Ok(out)
}

// ---- an event, and what it is answered

// A request that no PDU has is in no capture, and its answer neither.
fn pdu_note(has_pdu: bool) -> &'static str
    ensures { result.now ≡ note_of_pdu has_pdu }
{
    if has_pdu { "" } else { ", in no PDU" }
}

/// A request of an application.
#[derive(Clone, Copy)]
pub struct RequestNote {
    /// The name of its command.
    pub command: &'static str,
    /// The request's sequence number, which its answer bears, too.
    pub sequence: u32,
    /// Whether there is a PDU of it.
    pub has_pdu: bool,
}

/// What is said of an event beside its line.
#[derive(Clone, Copy)]
pub enum Heading {
    None,
    /// The frame arrived before.
    Again,
    /// The PDU is a request.
    Request(RequestNote),
}

#[tactic(auto, unfolding(crate::specs::drawing::Notes::request_note))]
fn put_request(out: &mut Octets, kind: &str, asked: &RequestNote) -> Result<(), AllocError>
    ensures { OnOk result (out.new ≡ out.old ++ request_note kind.now asked.now) }
{
    out.append(asked.command.as_bytes())?;
    out.append(kind.as_bytes())?;
    put_decimal(out, u64::from(asked.sequence))?;
    out.append(pdu_note(asked.has_pdu).as_bytes())?;
    out.append(b": ")
}

fn put_asked(out: &mut Octets, heading: &Heading) -> Result<(), AllocError>
    ensures { OnOk result (out.new ≡ out.old ++ asked_note heading.now) }
{
    match heading {
        Heading::Request(asked) => put_request(out, " ", asked),
        Heading::Again => Ok(()),
        Heading::None => Ok(()),
    }
}

fn put_behind(out: &mut Octets, heading: &Heading) -> Result<(), AllocError>
    ensures { OnOk result (out.new ≡ out.old ++ behind_note heading.now) }
{
    match heading {
        Heading::Again => out.append(b", again"),
        Heading::Request(_) => Ok(()),
        Heading::None => Ok(()),
    }
}

#[tactic(auto, unfolding(crate::specs::drawing::Notes::event_note))]
fn put_event(
    out: &mut Octets,
    number: u64,
    heading: &Heading,
    line: &[u8],
) -> Result<(), AllocError>
    ensures text { IsUtf8 line.now → OnOk result (out.new ≡ out.old ++ event_note number heading.now line.now) }
    ensures octets { (IsUtf8 line.now → ⊥) → OnOk result (out.new ≡ out.old ++ event_note number heading.now (shown_octets line.now)) }
{
    put_decimal(out, number)?;
    out.append(b". ")?;
    put_asked(out, heading)?;
    put_shown(out, line)?;
    put_behind(out, heading)
}

/// The event of that number. A line that is no UTF-8 is shown by its octets.
pub fn event_text(
    alloc: Global,
    number: u64,
    heading: &Heading,
    line: &[u8],
) -> Result<Octets, AllocError>
    ensures text { IsUtf8 line.now → IfOk result (λ text. text ≡ event_note number heading.now line.now) }
    ensures octets { (IsUtf8 line.now → ⊥) → IfOk result (λ text. text ≡ event_note number heading.now (shown_octets line.now)) }
{
    let mut out = Octets::new(alloc);
    put_event(&mut out, number, heading, line)?;
    Ok(out)
}

/// What is answered is added to the note of an act.
pub fn put_answered(note: &mut Octets, answered: &str) -> Result<(), AllocError>
    ensures { OnOk result (note.new ≡ note.old ++ (codes ": " ++ answered.now)) }
{
    note.append(b": ")?;
    note.append(answered.as_bytes())
}

#[tactic(auto, unfolding(crate::specs::drawing::Notes::response_note))]
fn put_response(out: &mut Octets, asked: &RequestNote, answered: &str) -> Result<(), AllocError>
    ensures { OnOk result (out.new ≡ out.old ++ response_note asked.now answered.now) }
{
    put_request(out, "_resp ", asked)?;
    out.append(answered.as_bytes())
}

/// The answer to a request.
pub fn response_text(
    alloc: Global,
    asked: &RequestNote,
    answered: &str,
) -> Result<Octets, AllocError>
    ensures { IfOk result (λ text. text ≡ response_note asked.now answered.now) }
{
    let mut out = Octets::new(alloc);
    put_response(&mut out, asked, answered)?;
    Ok(out)
}

/// What a request or an act of an owner is answered.
pub fn answered_text(alloc: Global, answered: &Answered) -> Result<String, AllocError> {
    match answered {
        Answered::Accepted(id) => {
            let id = id.number();
            format!(in alloc; "accepted as message {id}")
        }
        Answered::Found(state) => {
            let state = state_text(*state);
            format!(in alloc; "{state}")
        }
        Answered::Status(status) => format!(in alloc; "{status:?}"),
        Answered::Done => format!(in alloc; "done"),
        Answered::Refused(code) => {
            let code = from_utf8(code.as_slice()).unwrap_or("");
            format!(in alloc; "refused, {code}")
        }
        Answered::Stopped => format!(in alloc; "stopped, and it starts again"),
    }
}

// ---- a receipt

fn put_state(out: &mut Octets, state: Option<FinalState>) -> Result<(), AllocError>
    ensures { OnOk result (out.new ≡ out.old ++ reported_word state) }
{
    match state {
        Some(state) => out.append(state.word().as_bytes()),
        None => out.append(b"ENROUTE"),
    }
}

#[tactic(auto, unfolding(crate::specs::drawing::Notes::receipt_note))]
fn put_receipt(
    out: &mut Octets,
    sequence: u64,
    message: u64,
    state: Option<FinalState>,
) -> Result<(), AllocError>
    ensures { OnOk result (out.new ≡ out.old ++ receipt_note sequence message state) }
{
    put_numbered(out, "deliver_sm ", sequence)?;
    put_numbered(out, ": receipt of message ", message)?;
    out.append(b", ")?;
    put_state(out, state)?;
    Ok(())
}

/// What a receipt says, in a deliver_sm of that sequence number.
pub fn receipt_text(
    alloc: Global,
    sequence: u32,
    id: MessageId,
    state: Option<FinalState>,
) -> Result<Octets, AllocError>
    ensures { IfOk result (λ text. text ≡ receipt_note sequence id state) }
{
    let mut out = Octets::new(alloc);
    put_receipt(&mut out, u64::from(sequence), id.number(), state)?;
    Ok(out)
}

/// The application accepts the deliver_sm of that sequence number.
#[tactic(auto, unfolding(crate::specs::drawing::Notes::receipt_answer_note))]
pub fn receipt_answer_text(alloc: Global, sequence: u32) -> Result<Octets, AllocError>
    ensures { IfOk result (λ text. text ≡ receipt_answer_note sequence) }
{
    let mut out = Octets::new(alloc);
    put_numbered(&mut out, "deliver_sm_resp ", u64::from(sequence))?;
    Ok(out)
}
