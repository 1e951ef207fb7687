//! Laws of what memory has of reports, over its definition alone.
ghost use Rattle.std.specs.Prelude.{◌≡◌, ◌+◌, ℕ, List, None, Some};
ghost use Rattle.sms_base.specs.Among.{Among};
ghost use Rattle.sms_centre_reports.specs.open_reports.Dropping.{drop_old};
ghost use Rattle.sms_centre_reports.specs.open_reports.Entries.{account_in, status_entry, status_key, status_until};
ghost use Rattle.sms_centre_reports.specs.open_reports.OpenReports.{OpenReportsOf, Represents};
ghost use Rattle.sms_centre_reports.specs.open_reports.OpenReportsDraft.{OpenReportsDraftOf, DraftRepresents};
ghost use Rattle.sms_centre_reports.specs.open_reports.Serving.{Next, next_among};
ghost use Rattle.sms_centre_reports.specs.declared.open_reports.entry.StatusEntry.{StatusEntry};
ghost use Rattle.sms_rows.specs.index.First.{first_such, is_past_from};
ghost use Rattle.sms_centre_rows.specs.messages.Messages.{message_at};
ghost use Rattle.sms_centre_rows.specs.declared.messages.message.MessageRow.{MessageRow};
ghost use Rattle.sms_centre_rows.specs.reports.Receipts.{Bindings, send_all, send_in, session_key};
ghost use Rattle.sms_centre_rows.specs.reports.Reports.{amend_report, report_key, report_of, reports_of};
ghost use Rattle.sms_centre_rows.specs.declared.reports.report.ReportRow.{ReportRow};
ghost use Rattle.sms_rows.specs.table.Table.{Rises, rows_from};
ghost use Rattle.sms_centre_rows.specs.waiting.Revisions.{Revised};
ghost use Rattle.sms_centre_rows.specs.waiting.Trying.{finished};

/// Messages may change in all but who submitted those that have a report.
pub fn messages_may_change()
    ensures { (messages others : List MessageRow) (current : OpenReportsOf) (rows : List ReportRow) → Represents messages current rows
        → ((r : ReportRow) → report_of r.id rows ≡ Some r → account_in (message_at r.id others) ≡ account_in (message_at r.id messages))
        → Represents others current rows }
{}

/// So they may in the middle of an event.
pub fn messages_may_change_in_an_event()
    ensures { (messages others : List MessageRow) (p : OpenReportsDraftOf) (t : Revised ReportRow) → DraftRepresents messages p t
        → ((r : ReportRow) → report_of r.id (reports_of t) ≡ Some r → account_in (message_at r.id others) ≡ account_in (message_at r.id messages))
        → DraftRepresents others p t }
{}

/// The receipts that are sent from a place on: first the one that memory finds, in its session, then those
/// behind it. Where none is found, none is sent any more.
pub fn the_open_reports_find_due_receipts()
    ensures next { (first moment : ℕ) (messages : List MessageRow) (current : OpenReportsOf) (rows : List ReportRow) (bindings : Bindings) (n : Next)
        → Represents messages current rows → Rises session_key bindings.sessions
        → next_among first moment bindings.sessions current.accounts bindings.sessions ≡ Some n
        → send_all moment messages (rows_from report_key first rows) bindings ≡ send_all moment messages (rows_from report_key (n.receipt.place + 1) rows)
        (send_in n.receipt.id n.session bindings) }
    ensures none { (first moment : ℕ) (messages : List MessageRow) (current : OpenReportsOf) (rows : List ReportRow) (bindings : Bindings)
        → Represents messages current rows
        → next_among first moment bindings.sessions current.accounts bindings.sessions ≡ None → send_all moment messages
        (rows_from report_key first rows) bindings ≡ bindings }
{}

/// The status reports that are dropped from a place on: first the one that memory finds, then those behind
/// it. Where none is found, none is dropped any more.
pub fn the_open_reports_find_old_ones()
    ensures next { (first moment : ℕ) (messages : List MessageRow) (current : OpenReportsOf) (rows : List ReportRow) (t : Revised ReportRow) (e : StatusEntry)
        → Represents messages current rows
        → first_such (is_past_from status_key status_until first moment) current.statuses ≡ Some e
        → (r : ReportRow) × ((Among r rows × (status_entry r ≡ Some e)) ×
        (drop_old moment (rows_from report_key first rows) t ≡ drop_old moment (rows_from report_key (e.place + 1) rows)
        (amend_report r (finished r.progress) t))) }
    ensures none { (first moment : ℕ) (messages : List MessageRow) (current : OpenReportsOf) (rows : List ReportRow) (t : Revised ReportRow)
        → Represents messages current rows
        → first_such (is_past_from status_key status_until first moment) current.statuses ≡ None → drop_old moment (rows_from report_key first rows) t ≡ t }
{}
