//! Receipts and status reports.
ghost use Rattle.std.specs.Prelude.{◌≡◌};
ghost use Rattle.sms_centre_rows.specs.reports.Reports.{report_key};

use crate::waiting::Progress;
use sms_base::{MessageId, Moment, Octets};
use sms_rows::table::{Key, Row};

/// How the end of a message is reported.
#[derive(Drop)]
pub enum ReportKind {
    /// To an application, by deliver_sm (SMPP v3.4 4.6).
    Receipt,
    /// To a handset, by the STATUS-REPORT as made when this reference was given, with TP-MMS 1.
    Status { reference: u8, tpdu: Octets },
    /// To a handset at which no reference was free: it is not sent.
    Unsent,
}

/// A report to an originator of how a message ended.
#[derive(Drop)]
pub struct ReportRow {
    /// The report's place in the order in which reports were made, from 1.
    pub place: u64,
    /// The message; no other report is of it.
    pub id: MessageId,
    pub kind: ReportKind,
    pub made: Moment,
    /// Whether it was answered or dropped, how often it was tried, and when it is sent next.
    pub progress: Progress,
}

impl Row for ReportRow {
    ghost key = { report_key };

    fn key(&self) -> Key {
        Key::of(self.place)
    }
}
