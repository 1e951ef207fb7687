//! What waits for handsets, by rows.
ghost use Rattle.std.specs.Prelude.{◌≡◌, ℕ, List, [], ◌∷◌, Some, OnOk};
ghost use Rattle.sms_centre_rows.specs.messages.Messages.{part_key, priority_of as priority_of_rows};
ghost use Rattle.sms_centre_rows.specs.messages.OpenParts.{is_open_part, part_queued as part_queued_of, parts_waiting};
ghost use Rattle.sms_centre_rows.specs.declared.messages.part.PartRow.{PartRow as PartRowOf};
ghost use Rattle.sms_centre_rows.specs.reports.Reports.{is_open_status as is_open_status_of};
ghost use Rattle.sms_centre_rows.specs.reports.Waiting.{report_queued as report_queued_of, with_reports};
ghost use Rattle.sms_centre_rows.specs.declared.reports.report.ReportRow.{ReportRow as ReportRowOf};
ghost use Rattle.sms_centre_queue.specs.queues.Representing.{DraftRepresents, Waits};
ghost use Rattle.sms_rows.specs.table.Table.{Rises, put as put_in};
ghost use Rattle.sms_centre_rows.specs.waiting.Keys.{queued_key};
ghost use Rattle.sms_centre_rows.specs.waiting.Links.{Links};
ghost use Rattle.sms_centre_rows.specs.waiting.References.{Allocations};
ghost use Rattle.sms_centre_rows.specs.declared.waiting.queued_part.QueuedPart.{QueuedPart as QueuedOf};

use crate::soundness::RowTables;
use sms_base::{Digits, MessageId, Msisdn};
use sms_centre_queue::queues::DeliveryQueuesDraft;
use sms_centre_rows::conditions::status_reference;
use sms_centre_rows::messages::{MessageRow, PartRow};
use sms_centre_rows::reports::{ReportKind, ReportRow};
use sms_centre_rows::waiting::QueuedPart;
use sms_rows::table::Key;
use std::alloc::AllocError;

// ---- parts

fn waits(part: &PartRow, message: &MessageRow) -> bool
    ensures { result ≡ is_open_part part.now (Some message.now) }
{
    !part.progress.is_done && message.state.is_none()
}

fn priority_of(tables: &RowTables, id: MessageId) -> u8
    ensures { result ≡ priority_of_rows id tables.now.priorities.rows }
{
    match tables.priorities.find(Key::of(id.number())) {
        Some(row) => row.priority,
        None => 0,
    }
}

fn part_queued(tables: &RowTables, part: &PartRow) -> QueuedPart
    ensures { result ≡ part_queued_of part.now tables.now.priorities.rows }
{
    QueuedPart {
        id: part.id,
        number: part.number,
        reference: part.reference,
        priority: priority_of(tables, part.id),
        due: part.progress.due,
    }
}

// The part waits, if it does, before those of greater keys.
fn put_part(
    tables: &RowTables,
    part: &PartRow,
    queues: &mut DeliveryQueuesDraft,
) -> Result<(), AllocError>
    ensures { OnOk result ((g : Allocations) (links : Links) (ps : List PartRowOf) → Rises part_key (part.now ∷ ps)
        → DraftRepresents g links (λ number. parts_waiting number tables.now.messages.rows tables.now.priorities.rows ps) queues.old
        → DraftRepresents g links (λ number. parts_waiting number tables.now.messages.rows tables.now.priorities.rows (part.now ∷ ps)) queues.new) }
{
    if part.progress.is_done {
        return Ok(());
    }
    let Some(message) = tables.messages.find(Key::of(part.id.number())) else {
        return Ok(());
    };
    if !waits(part, message) {
        return Ok(());
    }
    queues.put(message.handset, part_queued(tables, part))
}

/// Adds all of these parts that wait, where nothing does. The last is added first, so that each next one is in front of
/// the others.
pub fn put_parts(
    tables: &RowTables,
    parts: &[PartRow],
    queues: &mut DeliveryQueuesDraft,
) -> Result<(), AllocError>
    requires { Rises part_key parts.now }
    ensures { OnOk result ((g : Allocations) (links : Links) → DraftRepresents g links (λ number. []) queues.old
        → DraftRepresents g links (λ number. parts_waiting number tables.now.messages.rows tables.now.priorities.rows parts.now) queues.new) }
{
    for i in 0..parts.len() {
        let part = &parts[parts.len() - 1 - i];
        put_part(tables, part, queues)?;
    }
    Ok(())
}

// ---- status reports

fn is_open_status(report: &ReportRow) -> bool
    ensures { result ≡ is_open_status_of report.now }
{
    matches!(&report.kind, ReportKind::Status { .. }) && !report.progress.is_done
}

fn report_queued(report: &ReportRow) -> QueuedPart
    ensures { result ≡ report_queued_of report.now }
{
    QueuedPart {
        id: report.id,
        number: 0,
        reference: status_reference(report),
        priority: 0,
        due: report.progress.due,
    }
}

// A status report waits for a source. What is no number has no queue.
fn put_for(
    queues: &mut DeliveryQueuesDraft,
    source: &Digits,
    queued: QueuedPart,
) -> Result<(), AllocError>
    ensures { OnOk result ((g : Allocations) (links : Links) (waiting after : List ℕ → List QueuedOf) → DraftRepresents g links waiting queues.old
        → Waits source.now (put_in queued_key queued) waiting after → DraftRepresents g links after queues.new) }
{
    match Msisdn::of_digits(source) {
        Some(number) => queues.put(number, queued),
        None => Ok(()),
    }
}

// The status report waits, if it does.
fn put_report(
    tables: &RowTables,
    report: &ReportRow,
    queues: &mut DeliveryQueuesDraft,
) -> Result<(), AllocError>
    ensures { OnOk result ((g : Allocations) (links : Links) (rs : List ReportRowOf) (waiting : List ℕ → List QueuedOf)
        → DraftRepresents g links (λ number. with_reports number tables.now.messages.rows rs (waiting number)) queues.old
        → DraftRepresents g links (λ number. with_reports number tables.now.messages.rows (report.now ∷ rs) (waiting number)) queues.new) }
{
    if !is_open_status(report) {
        return Ok(());
    }
    let Some(message) = tables.messages.find(Key::of(report.id.number())) else {
        return Ok(());
    };
    put_for(queues, &message.source.digits, report_queued(report))
}

/// Adds all of these status reports that wait, beside what waits already. The last is added first.
pub fn put_reports(
    tables: &RowTables,
    reports: &[ReportRow],
    queues: &mut DeliveryQueuesDraft,
) -> Result<(), AllocError>
    ensures { OnOk result ((g : Allocations) (links : Links) (waiting : List ℕ → List QueuedOf) → DraftRepresents g links waiting queues.old
        → DraftRepresents g links (λ number. with_reports number tables.now.messages.rows reports.now (waiting number)) queues.new) }
{
    for i in 0..reports.len() {
        let report = &reports[reports.len() - 1 - i];
        put_report(tables, report, queues)?;
    }
    Ok(())
}
