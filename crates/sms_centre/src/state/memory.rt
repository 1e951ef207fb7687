//! What a centre that starts on rows keeps of them in memory.
ghost use Rattle.std.specs.Prelude.{IfOk};
ghost use Rattle.sms_centre_messages.specs.references.ReferenceIndex.{Represents as ReferencesRepresent};
ghost use Rattle.sms_centre_reports.specs.open_reports.OpenReports.{Represents as RepresentsReports};
ghost use Rattle.sms_centre_messages.specs.message_index.MessageIndex.{Represents as MessagesRepresent};
ghost use Rattle.sms_centre_reports.specs.report_log.ReportLog.{Represents as LogRepresents};
ghost use Rattle.sms_centre_queue.specs.queues.Representing.{Represents};
ghost use Rattle.sms_centre_recovery.specs.soundness.RowsOf.{rows_of};
ghost use Rattle.sms_centre_recovery.specs.starting.Starting.{links_of};
ghost use Rattle.sms_centre_spec.specs.SoundCore.{AreDifferent};
ghost use Rattle.sms_centre_spec.specs.SoundRows.{IsSound, all_for};

use crate::state::queues::queues_of;
use sms_base::{Moment, Msisdn};
use sms_centre_messages::message_index::MessageIndex;
use sms_centre_messages::references::ReferenceIndex;
use sms_centre_queue::queues::DeliveryQueues;
use sms_centre_recovery::soundness::RowTables;
use sms_centre_reports::open_reports::OpenReports;
use sms_centre_reports::report_log::ReportLog;
use std::alloc::{AllocError, Global};

#[derive(Drop)]
struct MessageMemory {
    messages: MessageIndex,
    reference_index: ReferenceIndex,
}

#[derive(Drop)]
struct ReportMemory {
    reports: OpenReports,
    log: ReportLog,
}

// All that is in memory of rows but messages.
#[derive(Drop)]
struct OtherMemory {
    queues: DeliveryQueues,
    reports: OpenReports,
    log: ReportLog,
}

/// What is in memory of rows.
#[derive(Drop)]
pub(crate) struct Memory {
    pub messages: MessageIndex,
    pub reference_index: ReferenceIndex,
    pub queues: DeliveryQueues,
    pub reports: OpenReports,
    pub log: ReportLog,
}

fn message_memory(alloc: Global, tables: &RowTables) -> Result<MessageMemory, AllocError>
    ensures messages { IfOk result (λ memory. MessagesRepresent memory.messages tables.now.messages.rows tables.now.parts.rows) }
    ensures reference_index { IfOk result
        (λ memory. ReferencesRepresent memory.reference_index tables.now.bars.rows tables.now.messages.rows tables.now.parts.rows) }
{
    let rows = tables.messages.as_slice();
    let parts = tables.parts.as_slice();
    let messages = MessageIndex::recover(alloc, rows, parts)?;
    let bars = tables.bars.as_slice();
    match ReferenceIndex::recover(alloc, &tables.messages, parts, bars) {
        Ok(reference_index) => Ok(MessageMemory {
            messages,
            reference_index,
        }),
        Err(error) => {
            drop(messages);
            Err(error)
        }
    }
}

fn report_memory(alloc: Global, tables: &RowTables) -> Result<ReportMemory, AllocError>
    requires { IsSound (rows_of tables.now) }
    ensures reports { IfOk result (λ memory. RepresentsReports tables.now.messages.rows memory.reports tables.now.reports.rows) }
    ensures log { IfOk result (λ memory. LogRepresents memory.log tables.now.reports.rows) }
{
    let messages = tables.messages.as_slice();
    let rows = tables.reports.as_slice();
    let reports = OpenReports::recover(alloc, messages, rows)?;
    match ReportLog::recover(alloc, rows) {
        Ok(log) => Ok(ReportMemory { reports, log }),
        Err(error) => {
            drop(reports);
            Err(error)
        }
    }
}

fn other_memory(
    alloc: Global,
    tables: &RowTables,
    handsets: &[Msisdn],
    are_up: bool,
    now: Moment,
) -> Result<OtherMemory, AllocError>
    requires sound { IsSound (rows_of tables.now) }
    requires apart { AreDifferent handsets.now }
    ensures queues { IfOk result (λ memory. Represents tables.now.handsets.rows tables.now.references.rows (links_of are_up handsets.now)
        (λ number. all_for number (rows_of tables.now)) memory.queues) }
    ensures reports { IfOk result (λ memory. RepresentsReports tables.now.messages.rows memory.reports tables.now.reports.rows) }
    ensures log { IfOk result (λ memory. LogRepresents memory.log tables.now.reports.rows) }
{
    let of_reports = report_memory(alloc, tables)?;
    match queues_of(alloc, tables, handsets, are_up, now) {
        Ok(queues) => Ok(OtherMemory {
            queues,
            reports: of_reports.reports,
            log: of_reports.log,
        }),
        Err(error) => {
            drop(of_reports);
            Err(error)
        }
    }
}

/// What a centre keeps of sound rows that starts on them at that moment, with links to these handsets.
pub(crate) fn memory_of(
    alloc: Global,
    tables: &RowTables,
    handsets: &[Msisdn],
    are_up: bool,
    now: Moment,
) -> Result<Memory, AllocError>
    requires sound { IsSound (rows_of tables.now) }
    requires apart { AreDifferent handsets.now }
    ensures messages { IfOk result (λ memory. MessagesRepresent memory.messages tables.now.messages.rows tables.now.parts.rows) }
    ensures reference_index { IfOk result
        (λ memory. ReferencesRepresent memory.reference_index tables.now.bars.rows tables.now.messages.rows tables.now.parts.rows) }
    ensures queues { IfOk result (λ memory. Represents tables.now.handsets.rows tables.now.references.rows (links_of are_up handsets.now)
        (λ number. all_for number (rows_of tables.now)) memory.queues) }
    ensures reports { IfOk result (λ memory. RepresentsReports tables.now.messages.rows memory.reports tables.now.reports.rows) }
    ensures log { IfOk result (λ memory. LogRepresents memory.log tables.now.reports.rows) }
{
    let of_messages = message_memory(alloc, tables)?;
    match other_memory(alloc, tables, handsets, are_up, now) {
        Ok(other) => Ok(Memory {
            messages: of_messages.messages,
            reference_index: of_messages.reference_index,
            queues: other.queues,
            reports: other.reports,
            log: other.log,
        }),
        Err(error) => {
            drop(of_messages);
            Err(error)
        }
    }
}
