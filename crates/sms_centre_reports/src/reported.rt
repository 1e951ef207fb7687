//! Whether the end of a message was reported, which a centre asks before it forgets the message.
ghost use Rattle.std.specs.Prelude.{◌≡◌, List};
ghost use Rattle.sms_centre_rows.specs.declared.messages.message.MessageRow.{MessageRow as MessageRowOf};
ghost use Rattle.sms_centre_rows.specs.declared.reports.report.ReportRow.{ReportRow as ReportRowOf};
ghost use Rattle.sms_centre_rows.specs.reports.Reports.{report_of};
ghost use Rattle.sms_centre_rows.specs.reports.SoundReports.{SoundReports};
ghost use Rattle.sms_centre_reports.specs.open_reports.OpenReports.{Represents};
ghost use Rattle.sms_centre_reports.specs.report_log.ReportLog.{Represents as LogRepresents};
ghost use Rattle.sms_centre_spec.specs.forgetting.Forgetting.{is_reported as is_reported_of};

use crate::open_reports::OpenReports;
use crate::report_log::ReportLog;
use sms_base::MessageId;

/// Whether the report of the message is closed, and a later one gives the next place; or the message has none.
pub fn is_reported(reports: &OpenReports, log: &ReportLog, id: MessageId) -> bool
    ensures { (messages : List MessageRowOf) (rows : List ReportRowOf) → Represents messages reports.now rows → LogRepresents log.now rows
        → SoundReports messages rows → result ≡ is_reported_of rows (report_of id rows) }
{
    if reports.find(id).is_some() {
        return false;
    }
    !log.is_of_last(id)
}
