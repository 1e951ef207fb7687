//! What a script led to, and its text.
//!
//! A `Report` has the answer of each request and of each act of an owner, and every message. It has what the handsets
//! accepted, joined and have in their outboxes, every receipt, every reference that was given, and every frame that was
//! sent. Each list is in the order in which it is printed. `report_text` writes a line for each, except for the
//! references, and last whether the premises of the claims held. The text is that of the definition, for every report.
ghost use Rattle.std.specs.Prelude.{◌≡◌, ◌++◌, OnOk, IfOk};
ghost use Rattle.sms_script.specs.report.ReportText.{lines, answer_line, message_line, accepted_line, joined_line, receipt_line, outbox_line, frame_line};
ghost use Rattle.sms_script.specs.report.ReportText.{premises_line, report_text};

mod answers;
mod lines;
mod rows;
mod writing;

use crate::report::lines::{
    put_accepted, put_answer, put_frame, put_joined, put_message, put_outbox, put_receipt,
};
pub use answers::{Answer, Answered};
pub use lines::state_text;
pub use rows::{
    AcceptedRow, Direction, EntryState, FrameRow, GivenRow, JoinedCoding, JoinedRow, OutboxRow,
};
use sms_base::{Listed, Octets, put_decimal};
pub use sms_centre_rows::report_lines::{MessageState, ReceiptRow, ReportedMessage};
use std::alloc::{AllocError, Global};

/// The first event that breaks a premise of the claims.
#[derive(Clone, Copy, PartialEq, Eq)]
pub enum Broken {
    /// A frame is handed over whose reference is no longer its holder's.
    Timely(u64),
    /// A source begins a round of a key whose last round is not accepted yet.
    Reused(u64),
}

/// What a script led to. Each list is in the order in which it is printed.
#[derive(Drop)]
pub struct Report {
    /// By event.
    pub answers: Listed<Answer>,
    /// By id.
    pub table: Listed<ReportedMessage>,
    /// By handset in the order of the script's head, then in the order of their arrival.
    pub accepted: Listed<AcceptedRow>,
    /// Likewise.
    pub joined: Listed<JoinedRow>,
    /// In the order in which they were made.
    pub receipts: Listed<ReceiptRow>,
    /// By handset in the order of the script's head, then by number.
    pub outboxes: Listed<OutboxRow>,
    /// In the order in which they were given. They are not printed.
    pub given: Listed<GivenRow>,
    /// By number.
    pub bag: Listed<FrameRow>,
}

fn put_answers(out: &mut Octets, answers: &[Answer]) -> Result<(), AllocError>
    ensures { OnOk result (out.new ≡ out.old ++ lines answer_line answers.now) }
{
    for answer in answers {
        put_answer(out, answer)?;
    }
    Ok(())
}

fn put_table(out: &mut Octets, table: &[ReportedMessage]) -> Result<(), AllocError>
    ensures { OnOk result (out.new ≡ out.old ++ lines message_line table.now) }
{
    for message in table {
        put_message(out, message)?;
    }
    Ok(())
}

fn put_all_accepted(
    alloc: Global,
    out: &mut Octets,
    accepted: &[AcceptedRow],
) -> Result<(), AllocError>
    ensures { OnOk result (out.new ≡ out.old ++ lines accepted_line accepted.now) }
{
    for row in accepted {
        put_accepted(alloc, out, row)?;
    }
    Ok(())
}

fn put_all_joined(alloc: Global, out: &mut Octets, joined: &[JoinedRow]) -> Result<(), AllocError>
    ensures { OnOk result (out.new ≡ out.old ++ lines joined_line joined.now) }
{
    for row in joined {
        put_joined(alloc, out, row)?;
    }
    Ok(())
}

fn put_receipts(out: &mut Octets, receipts: &[ReceiptRow]) -> Result<(), AllocError>
    ensures { OnOk result (out.new ≡ out.old ++ lines receipt_line receipts.now) }
{
    for receipt in receipts {
        put_receipt(out, receipt)?;
    }
    Ok(())
}

fn put_outboxes(out: &mut Octets, entries: &[OutboxRow]) -> Result<(), AllocError>
    ensures { OnOk result (out.new ≡ out.old ++ lines outbox_line entries.now) }
{
    for entry in entries {
        put_outbox(out, entry)?;
    }
    Ok(())
}

fn put_bag(alloc: Global, out: &mut Octets, frames: &[FrameRow]) -> Result<(), AllocError>
    ensures { OnOk result (out.new ≡ out.old ++ lines frame_line frames.now) }
{
    for frame in frames {
        put_frame(alloc, out, frame)?;
    }
    Ok(())
}

fn put_premises(out: &mut Octets, broken: Option<Broken>) -> Result<(), AllocError>
    ensures { OnOk result (out.new ≡ out.old ++ premises_line broken) }
{
    match broken {
        None => out.append(b"premises hold\n"),
        Some(Broken::Timely(event)) => {
            out.append(b"premises broken at event ")?;
            put_decimal(out, event)?;
            out.append(b": timely\n")
        }
        Some(Broken::Reused(event)) => {
            out.append(b"premises broken at event ")?;
            put_decimal(out, event)?;
            out.append(b": reused\n")
        }
    }
}

/// The text of a report and of the first broken premise, if there is one.
#[tactic(auto, unfolding(crate::specs::report::ReportText::report_text))]
pub fn report_text(
    alloc: Global,
    report: &Report,
    broken: Option<Broken>,
) -> Result<Octets, AllocError>
    ensures { IfOk result (λ text. text ≡ report_text report.now broken) }
{
    let mut out = Octets::new(alloc);
    put_answers(&mut out, report.answers.as_slice())?;
    put_table(&mut out, report.table.as_slice())?;
    put_all_accepted(alloc, &mut out, report.accepted.as_slice())?;
    put_all_joined(alloc, &mut out, report.joined.as_slice())?;
    put_receipts(&mut out, report.receipts.as_slice())?;
    put_outboxes(&mut out, report.outboxes.as_slice())?;
    put_bag(alloc, &mut out, report.bag.as_slice())?;
    put_premises(&mut out, broken)?;
    Ok(out)
}
