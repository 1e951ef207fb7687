//! The tables of a centre's messages and of their ends.
ghost use Rattle.std.specs.Prelude.{◌≡◌, ◌++◌, ◌∷◌, [], List, slice_get, IfOk, OnOk};
ghost use Rattle.sms_centre_messages.specs.message_index.MessageIndex.{Represents as MessagesRepresent};
ghost use Rattle.sms_centre_messages.specs.message_index.Summaries.{summary_of};
ghost use Rattle.sms_centre_rows.specs.messages.Messages.{message_at};
ghost use Rattle.sms_centre_rows.specs.declared.messages.message.MessageRow.{MessageRow as MessageRowOf};
ghost use Rattle.sms_centre_rows.specs.declared.messages.part.PartRow.{PartRow as PartRowOf};
ghost use Rattle.sms_centre_reports.specs.report_log.ReportLog.{Represents as LogRepresents};
ghost use Rattle.sms_centre_reports.specs.report_log.Reporting.{message_line as message_line_of, message_lines as message_lines_of, receipt_line};
ghost use Rattle.sms_centre_reports.specs.report_log.Reporting.{receipt_lines as receipt_lines_of, state_of as state_of_end};
ghost use Rattle.sms_centre_rows.specs.declared.reports.report.ReportRow.{ReportRow as ReportRowOf};
ghost use Rattle.sms_centre_spec.specs.Draft.{Core};
ghost use Rattle.sms_centre.specs.state.CentreState.{Represents as StateRepresents};
ghost use Rattle.sms_centre.specs.state.MessageLines.{line_at, receipt_at};

use crate::state::centre_state::CentreState;
use sms_base::{FinalState, Listed, MessageId};
use sms_centre_messages::message_index::{MessageIndex, MessageSummary};
use sms_centre_reports::report_log::ReportLog;
use sms_centre_rows::report_lines::{MessageState, ReceiptRow, ReportedMessage};
use std::alloc::{AllocError, Global};

fn state_of(state: Option<FinalState>) -> MessageState
    ensures { result ≡ state_of_end state }
{
    match state {
        Some(state) => MessageState::Final(state),
        None => MessageState::Enroute,
    }
}

fn message_line(summary: &MessageSummary) -> ReportedMessage
    ensures { (m : MessageRowOf) → summary_of m ≡ summary.now → result ≡ message_line_of m }
{
    ReportedMessage {
        id: summary.id,
        from: summary.source.digits,
        to: summary.handset.digits(),
        state: state_of(summary.state),
    }
}

// The line of the message at that place is added, if there is one.
fn push_message(
    messages: &MessageIndex,
    place: usize,
    lines: &mut Listed<ReportedMessage>,
) -> Result<(), AllocError>
    ensures { (ms : List MessageRowOf) (ps : List PartRowOf) → MessagesRepresent messages.now ms ps
        → OnOk result (lines.new ≡ lines.old ++ line_at (slice_get ms place)) }
{
    match messages.summary(place) {
        Some(summary) => lines.push(message_line(&summary)),
        None => Ok(()),
    }
}

fn message_lines(
    alloc: Global,
    messages: &MessageIndex,
) -> Result<Listed<ReportedMessage>, AllocError>
    ensures { (ms : List MessageRowOf) (ps : List PartRowOf) → MessagesRepresent messages.now ms ps → IfOk result (λ lines. lines ≡ message_lines_of ms) }
{
    let mut lines = Listed::new(alloc);
    for place in 0..messages.len() {
        push_message(messages, place, &mut lines)?;
    }
    Ok(lines)
}

// The line of the report of that message is added, if it ended.
fn push_receipt(
    alloc: Global,
    messages: &MessageIndex,
    id: MessageId,
    lines: &mut Listed<ReceiptRow>,
) -> Result<(), AllocError>
    ensures { (ms : List MessageRowOf) (ps : List PartRowOf) → MessagesRepresent messages.now ms ps
        → OnOk result (lines.new ≡ lines.old ++ receipt_line (message_at id ms)) }
{
    let Some(message) = messages.find(alloc, id)? else {
        return Ok(());
    };
    match message.state {
        Some(state) => lines.push(ReceiptRow {
            id: message.id,
            state,
        }),
        None => Ok(()),
    }
}

// The line of the report at that place in the order made is added, if there is one and its message ended.
fn push_report(
    alloc: Global,
    messages: &MessageIndex,
    log: &ReportLog,
    place: usize,
    lines: &mut Listed<ReceiptRow>,
) -> Result<(), AllocError>
    ensures { (ms : List MessageRowOf) (ps : List PartRowOf) (rows : List ReportRowOf) → MessagesRepresent messages.now ms ps → LogRepresents log.now rows
        → OnOk result (lines.new ≡ lines.old ++ receipt_at ms (slice_get rows place)) }
{
    match log.message_at(place) {
        Some(id) => push_receipt(alloc, messages, id, lines),
        None => Ok(()),
    }
}

fn receipt_lines(
    alloc: Global,
    messages: &MessageIndex,
    log: &ReportLog,
) -> Result<Listed<ReceiptRow>, AllocError>
    ensures { (ms : List MessageRowOf) (ps : List PartRowOf) (rows : List ReportRowOf) → MessagesRepresent messages.now ms ps → LogRepresents log.now rows
        → IfOk result (λ lines. lines ≡ receipt_lines_of ms rows) }
{
    let mut lines = Listed::new(alloc);
    for place in 0..log.len() {
        push_report(alloc, messages, log, place, &mut lines)?;
    }
    Ok(lines)
}

impl CentreState {
    /// Every message with its state, by number. It takes time linear in the messages.
    pub fn table(&self, alloc: Global) -> Result<Listed<ReportedMessage>, AllocError>
        ensures { (c : Core) → StateRepresents c self.now → IfOk result (λ table. table ≡ message_lines_of c.rows.messages) }
    {
        let table = message_lines(alloc, &self.messages)?;
        Ok(table)
    }

    /// Every receipt and status report that was made, in the order made, with the final state of its message. Each costs a look-up.
    pub fn receipts(&self, alloc: Global) -> Result<Listed<ReceiptRow>, AllocError>
        ensures { (c : Core) → StateRepresents c self.now → IfOk result (λ receipts. receipts ≡ receipt_lines_of c.rows.messages c.rows.reports) }
    {
        let receipts = receipt_lines(alloc, &self.messages, &self.log)?;
        Ok(receipts)
    }
}
