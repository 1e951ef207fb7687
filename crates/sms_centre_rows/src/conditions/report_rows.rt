//! Whether rows of reports are sound.
ghost use Rattle.std.specs.Prelude.{◌≡◌, IfOk, Some, map};
ghost use Rattle.std.specs.List.{list_all};
ghost use Rattle.sms_tpdu.specs.TpduReading.{down_at};
ghost use Rattle.sms_tpdu.specs.declared.carrier.Carrier.TheVariants.{InData as Data};
ghost use Rattle.sms_centre_rows.specs.conditions.Differing.{differ as differ_of};
ghost use Rattle.sms_centre_rows.specs.conditions.ReportTest.{fits_originator as fits_originator_of, id_of, is_report as is_report_of};
ghost use Rattle.sms_centre_rows.specs.conditions.ReportTest.{is_status_of as is_status_of_message};

use crate::conditions::differ::differ;
use crate::conditions::message_rows::is_octet;
use crate::messages::MessageRow;
use crate::reports::{ReportKind, ReportRow};
use sms_base::{Moment, Originator};
use sms_rows::table::{Key, Table};
use sms_tpdu::{Carrier, Down, read_down};
use std::alloc::{AllocError, Global};

fn is_status_of(message_reference: u8, message: &MessageRow, made: Moment, tpdu: &[u8]) -> bool
    ensures { result ≡ is_status_of_message message_reference message.now made (down_at Data tpdu.now) }
{
    match read_down(tpdu, Carrier::InData) {
        Ok(Down::StatusReport(report)) => {
            (report.message_reference == message_reference
                && message
                    .handset
                    .is_spelled(report.recipient_address.digits.as_slice()))
                && ((report.service_centre_time_stamp.seconds() == message.submitted.seconds()
                    && report.discharge_time.seconds() == made.seconds())
                    && report.no_more_messages_to_send)
        }
        _ => false,
    }
}

fn fits_originator(report: &ReportRow, message: &MessageRow) -> bool
    ensures { result ≡ fits_originator_of report.now.kind message.now.originator message.now report.now }
{
    match (&report.kind, &message.originator) {
        (ReportKind::Receipt, Originator::Application { .. }) => true,
        (ReportKind::Status { reference, tpdu }, Originator::Handset { message_reference }) => {
            is_octet(*reference)
                && (tpdu.as_slice().len() <= 200
                    && is_status_of(*message_reference, message, report.made, tpdu.as_slice()))
        }
        (ReportKind::Unsent, Originator::Handset { .. }) => report.progress.is_done,
        _ => false,
    }
}

fn is_report(messages: &Table<MessageRow>, report: &ReportRow) -> bool
    ensures { result ≡ is_report_of messages.now.rows report.now }
{
    match messages.find(Key::of(report.id.number())) {
        Some(message) => {
            (message.state.is_some() && fits_originator(report, message)) && 0 < report.place
        }
        None => false,
    }
}

/// Whether each report is of a message that has ended, and is of the kind that its originator can get.
pub fn are_reports(reports: &[ReportRow], messages: &Table<MessageRow>) -> bool
    ensures { result ≡ list_all (λ r. is_report_of messages.now.rows r) reports.now }
{
    reports.iter().all(|report| is_report(messages, report))
}

/// Whether no message has two reports.
pub fn are_once(alloc: Global, reports: &[ReportRow]) -> Result<bool, AllocError>
    ensures { IfOk result (λ b. b ≡ differ_of (map id_of reports.now)) }
{
    let keys = ids(alloc, reports)?;
    differ(alloc, &keys)
}

fn ids(alloc: Global, reports: &[ReportRow]) -> Result<Vec<u128>, AllocError>
    ensures { IfOk result (λ keys. keys.items ≡ map id_of reports.now) }
{
    reports
        .iter()
        .map(|report| u128::from(report.id.number()))
        .collect(alloc)
}
