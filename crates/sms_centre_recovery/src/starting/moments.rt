//! The moment at which a centre starts.
ghost use Rattle.std.specs.Prelude.{◌≡◌};
ghost use Rattle.sms_centre_spec.specs.CentreEvent.{after_messages as after_messages_of, after_references as after_references_of};
ghost use Rattle.sms_centre_spec.specs.CentreEvent.{after_reports as after_reports_of, moment_of as moment_of_rows};
ghost use Rattle.sms_centre_recovery.specs.soundness.RowsOf.{rows_of};

use crate::soundness::RowTables;
use sms_base::{Moment, later};
use sms_centre_rows::messages::MessageRow;
use sms_centre_rows::reports::ReportRow;
use sms_centre_rows::waiting::ReferenceRow;

fn after_messages(start: Moment, rows: &[MessageRow]) -> Moment
    ensures { result ≡ after_messages_of start rows.now }
{
    let mut moment = start;
    for row in rows {
        moment = later(moment, row.submitted);
    }
    moment
}

fn after_references(start: Moment, rows: &[ReferenceRow]) -> Moment
    ensures { result ≡ after_references_of start rows.now }
{
    let mut moment = start;
    for row in rows {
        moment = later(moment, row.last);
    }
    moment
}

fn after_reports(start: Moment, rows: &[ReportRow]) -> Moment
    ensures { result ≡ after_reports_of start rows.now }
{
    let mut moment = start;
    for row in rows {
        moment = later(moment, row.made);
    }
    moment
}

/// The greatest of `start` and the moments that these rows have seen. It looks at each row once.
pub fn moment_among(
    start: Moment,
    messages: &[MessageRow],
    references: &[ReferenceRow],
    reports: &[ReportRow],
) -> Moment
    ensures { result ≡ after_reports_of (after_references_of (after_messages_of start messages.now) references.now) reports.now }
{
    let submitted = after_messages(start, messages);
    let given = after_references(submitted, references);
    after_reports(given, reports)
}

/// The greatest moment that the rows have seen, or the start of the setup.
pub fn moment_of(tables: &RowTables) -> Moment
    ensures { result ≡ moment_of_rows (rows_of tables.now) }
{
    moment_among(
        tables.setup.start,
        tables.messages.as_slice(),
        tables.references.as_slice(),
        tables.reports.as_slice(),
    )
}
