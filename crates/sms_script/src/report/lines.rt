//! The lines of a report.
ghost use Rattle.std.specs.Prelude.{◌≡◌, ◌++◌, OnOk};
ghost use Rattle.sms_script.specs.report.ReportText.{status_text, state_text, coding_text, entry_text, direction_text, answered_text, answer_line};
ghost use Rattle.sms_script.specs.report.ReportText.{message_line, accepted_line, joined_line, receipt_line, outbox_line, frame_line};

use crate::report::answers::{Answer, Answered};
use crate::report::rows::{
    AcceptedRow, Direction, EntryState, FrameRow, JoinedCoding, JoinedRow, OutboxRow,
};
use crate::report::writing::{put_body, put_id, put_octets};
use smpp_pdu::CommandStatus;
use sms_base::{Octets, put_characters, put_decimal};
use sms_centre_rows::report_lines::{MessageState, ReceiptRow, ReportedMessage};
use std::alloc::{AllocError, Global};

fn status_text(status: CommandStatus) -> &'static str
    ensures { result.now ≡ status_text status }
{
    match status {
        CommandStatus::ESME_ROK => "ROK",
        CommandStatus::ESME_RINVMSGLEN => "RINVMSGLEN",
        CommandStatus::ESME_RINVCMDLEN => "RINVCMDLEN",
        CommandStatus::ESME_RINVCMDID => "RINVCMDID",
        CommandStatus::ESME_RINVBNDSTS => "RINVBNDSTS",
        CommandStatus::ESME_RALYBND => "RALYBND",
        CommandStatus::ESME_RSYSERR => "RSYSERR",
        CommandStatus::ESME_RINVSRCADR => "RINVSRCADR",
        CommandStatus::ESME_RINVDSTADR => "RINVDSTADR",
        CommandStatus::ESME_RINVMSGID => "RINVMSGID",
        CommandStatus::ESME_RBINDFAIL => "RBINDFAIL",
        CommandStatus::ESME_RINVPASWD => "RINVPASWD",
        CommandStatus::ESME_RINVSYSID => "RINVSYSID",
        CommandStatus::ESME_RCANCELFAIL => "RCANCELFAIL",
        CommandStatus::ESME_RMSGQFUL => "RMSGQFUL",
        CommandStatus::ESME_RINVESMCLASS => "RINVESMCLASS",
        CommandStatus::ESME_RSUBMITFAIL => "RSUBMITFAIL",
        CommandStatus::ESME_RTHROTTLED => "RTHROTTLED",
        CommandStatus::ESME_RINVSCHED => "RINVSCHED",
        CommandStatus::ESME_RINVEXPIRY => "RINVEXPIRY",
        CommandStatus::ESME_RINVOPTPARSTREAM => "RINVOPTPARSTREAM",
        CommandStatus::ESME_ROPTPARNOTALLWD => "ROPTPARNOTALLWD",
        CommandStatus::ESME_RINVPARLEN => "RINVPARLEN",
    }
}

/// The word of a message's state: that of a receipt where it ended (SMPP v3.4 appendix B).
pub fn state_text(state: MessageState) -> &'static str
    ensures { result.now ≡ state_text state }
{
    match state {
        MessageState::Enroute => "ENROUTE",
        MessageState::Final(state) => state.word(),
    }
}

fn coding_text(coding: JoinedCoding) -> &'static str
    ensures { result.now ≡ coding_text coding }
{
    match coding {
        JoinedCoding::Septets => "7",
        JoinedCoding::Octets => "8",
        JoinedCoding::Ucs2 => "16",
    }
}

fn entry_text(state: EntryState) -> &'static str
    ensures { result.now ≡ entry_text state }
{
    match state {
        EntryState::Queued => "QUEUED",
        EntryState::Sending => "SENDING",
        EntryState::Sent => "SENT",
        EntryState::Failed => "FAILED",
        EntryState::Unsure => "UNSURE",
    }
}

fn direction_text(direction: Direction) -> &'static str
    ensures { result.now ≡ direction_text direction }
{
    match direction {
        Direction::Up => "up",
        Direction::Down => "down",
    }
}

fn put_answered(out: &mut Octets, answered: &Answered) -> Result<(), AllocError>
    ensures { OnOk result (out.new ≡ out.old ++ answered_text answered.now) }
{
    match answered {
        Answered::Accepted(id) => {
            out.append(b"ROK ")?;
            put_id(out, *id)
        }
        Answered::Found(state) => {
            out.append(b"ROK ")?;
            out.append(state_text(*state).as_bytes())
        }
        Answered::Status(status) => out.append(status_text(*status).as_bytes()),
        Answered::Done => out.append(b"OK"),
        Answered::Refused(code) => out.append(code.as_slice()),
        Answered::Stopped => out.append(b"STOPPED"),
    }
}

pub(crate) fn put_answer(out: &mut Octets, answer: &Answer) -> Result<(), AllocError>
    ensures { OnOk result (out.new ≡ out.old ++ answer_line answer.now) }
{
    out.append(b"answer ")?;
    put_decimal(out, answer.event)?;
    out.append(b" ")?;
    put_answered(out, &answer.answered)?;
    out.append(b"\n")
}

pub(crate) fn put_message(out: &mut Octets, message: &ReportedMessage) -> Result<(), AllocError>
    ensures { OnOk result (out.new ≡ out.old ++ message_line message.now) }
{
    out.append(b"message ")?;
    put_id(out, message.id)?;
    out.append(b" ")?;
    put_characters(out, message.from.as_slice())?;
    out.append(b" ")?;
    put_characters(out, message.to.as_slice())?;
    out.append(b" ")?;
    out.append(state_text(message.state).as_bytes())?;
    out.append(b"\n")
}

pub(crate) fn put_accepted(
    alloc: Global,
    out: &mut Octets,
    accepted: &AcceptedRow,
) -> Result<(), AllocError>
    ensures { OnOk result (out.new ≡ out.old ++ accepted_line accepted.now) }
{
    out.append(b"accepted ")?;
    put_characters(out, accepted.handset.as_slice())?;
    out.append(b" ")?;
    put_octets(alloc, out, &[accepted.reference])?;
    out.append(b" ")?;
    put_octets(alloc, out, accepted.tpdu.as_slice())?;
    out.append(b"\n")
}

pub(crate) fn put_joined(
    alloc: Global,
    out: &mut Octets,
    joined: &JoinedRow,
) -> Result<(), AllocError>
    ensures { OnOk result (out.new ≡ out.old ++ joined_line joined.now) }
{
    out.append(b"joined ")?;
    put_characters(out, joined.handset.as_slice())?;
    out.append(b" ")?;
    put_characters(out, joined.from.as_slice())?;
    out.append(b" ")?;
    out.append(coding_text(joined.coding).as_bytes())?;
    out.append(b" ")?;
    put_body(alloc, out, joined.units.as_slice())?;
    out.append(b"\n")
}

pub(crate) fn put_receipt(out: &mut Octets, receipt: &ReceiptRow) -> Result<(), AllocError>
    ensures { OnOk result (out.new ≡ out.old ++ receipt_line receipt.now) }
{
    out.append(b"receipt ")?;
    put_id(out, receipt.id)?;
    out.append(b" ")?;
    out.append(receipt.state.word().as_bytes())?;
    out.append(b"\n")
}

pub(crate) fn put_outbox(out: &mut Octets, entry: &OutboxRow) -> Result<(), AllocError>
    ensures { OnOk result (out.new ≡ out.old ++ outbox_line entry.now) }
{
    out.append(b"outbox ")?;
    put_characters(out, entry.handset.as_slice())?;
    out.append(b" ")?;
    put_decimal(out, u64::from(entry.entry))?;
    out.append(b" ")?;
    out.append(entry_text(entry.state).as_bytes())?;
    out.append(b"\n")
}

pub(crate) fn put_frame(alloc: Global, out: &mut Octets, frame: &FrameRow) -> Result<(), AllocError>
    ensures { OnOk result (out.new ≡ out.old ++ frame_line frame.now) }
{
    out.append(b"frame ")?;
    put_decimal(out, frame.number)?;
    out.append(b" ")?;
    out.append(direction_text(frame.direction).as_bytes())?;
    out.append(b" ")?;
    put_characters(out, frame.handset.as_slice())?;
    out.append(b" ")?;
    put_octets(alloc, out, frame.octets.as_slice())?;
    out.append(b"\n")
}
