//! The entry that a status report is about.
ghost use Rattle.std.specs.Prelude.{◌≡◌, option_copied};
ghost use Rattle.sms_handset_rows.specs.outbox.Reports.{is_reported as is_reported_of, reported as reported_of};

use crate::outbox::out_entry::OutEntry;
use sms_tpdu::StatusReport;

fn is_reported(report: &StatusReport<'_>, entry: &OutEntry) -> bool
    ensures { result ≡ is_reported_of report.now entry.now }
{
    entry.message_reference == report.message_reference
        && entry.destination.digits.as_slice() == report.recipient_address.digits.as_slice()
}

/// The newest entry that the report is about.
pub fn reported<'e>(report: &StatusReport<'_>, outbox: &'e [OutEntry]) -> Option<&'e OutEntry>
    ensures { option_copied result ≡ reported_of report.now outbox.now }
{
    let mut newest = None;
    for entry in outbox {
        if is_reported(report, entry) {
            newest = Some(entry);
        }
    }
    newest
}
