//! Laws of what sessions wait for, over definitions alone.
ghost use Rattle.std.specs.Prelude.{◌≡◌, ℕ, Bool, List, [], None, Some, true, if◌then◌else◌};
ghost use Rattle.sms_base.specs.Among.{Among};
ghost use Rattle.sms_intake.specs.declared.submission.CentreAccount.{CentreAccount};
ghost use Rattle.sms_centre_rows.specs.declared.messages.message.MessageRow.{MessageRow};
ghost use Rattle.sms_centre_rows.specs.reports.Receipts.{Bindings, Session, send_all};
ghost use Rattle.sms_centre_rows.specs.reports.Reports.{is_open_receipt, report_key, report_of, reports_of};
ghost use Rattle.sms_centre_rows.specs.reports.Waiting.{Alone};
ghost use Rattle.sms_centre_rows.specs.declared.reports.report.ReportRow.{ReportRow};
ghost use Rattle.sms_rows.specs.table.Table.{Rises};
ghost use Rattle.sms_centre_rows.specs.waiting.Revisions.{Revised};
ghost use Rattle.sms_centre_reports.specs.open_reports.OpenReportsDraft.{tpdu_made};
ghost use Rattle.sms_centre_reports.specs.sessions.Answering.{bindings_answered, bindings_bound, bindings_unbound, reports_answered, reports_bound};
ghost use Rattle.sms_centre_reports.specs.sessions.Answering.{reports_unbound};
ghost use Rattle.sms_centre_reports.specs.sessions.Awaited.{AreAwaited};
ghost use Rattle.sms_centre_spec.specs.declared.event.CentreEvent.{CentreEvent};
ghost use Rattle.sms_centre_spec.specs.CentreEvent.{happened};
ghost use Rattle.sms_centre_spec.specs.Draft.{Core, Draft, core_of, messages_in};
ghost use Rattle.sms_centre_spec.specs.Offering.{puts_report, report_tpdu};
ghost use Rattle.sms_centre_spec.specs.Requests.{account_at};
ghost use Rattle.sms_centre_spec.specs.Sessions.{bind, deliver_answered, unbind};
ghost use Rattle.sms_centre_spec.specs.SoundCore.{IsEvent, IsSoundCore};
ghost use Rattle.sms_centre_reports.specs.awaited.Events.{IsNoAnswer};
ghost use Rattle.sms_centre_reports.specs.awaited.Moving.{moved_to};

/// An answer to a receipt, the end of a session and its binding touch only the reports and the sessions. They do so as
/// the calls of the sessions say.
pub fn sessions_touch_reports_and_sessions()
    ensures answered { (session id : ℕ) (is_accepted : Bool) (d : Draft)
        → deliver_answered session id is_accepted d ≡ moved_to (reports_answered session id is_accepted d.store.moment d.bindings.sessions d.store.reports)
        (bindings_answered session id d.bindings) d }
    ensures unbound { (session : ℕ) (d : Draft) → unbind session d ≡ moved_to (reports_unbound session d.store.moment d.bindings.sessions d.store.reports)
        (bindings_unbound session d.bindings) d }
    ensures bound { (session place : ℕ) (receives : Bool) (account : CentreAccount) (d : Draft) → account_at place d.store.setup.accounts ≡ Some account
        → bind session place receives d ≡ moved_to (reports_bound session account.name receives d.store.moment d.bindings.sessions
        (messages_in d.store) d.store.reports) (bindings_bound session account.name receives d.bindings) d }
    ensures no_account { (session place : ℕ) (receives : Bool) (d : Draft) → account_at place d.store.setup.accounts ≡ None
        → bind session place receives d ≡ unbind session d }
{}

/// A report that the event made isn't read from the store: its octets are those of its row.
pub fn what_is_made_is_not_read()
    ensures { (id : ℕ) (t : Revised ReportRow) → tpdu_made id t ≡ (if puts_report id t.news then Some (report_tpdu (report_of id (reports_of t))) else None) }
{}

/// What was sent and not answered is an open receipt of its session's account, and was sent in that session alone. It
/// stays so once receipts were sent, one was answered, or a session ended or was bound.
pub fn what_is_awaited_stays_so()
    ensures sent { (moment : ℕ) (messages : List MessageRow) (rows : List ReportRow) (bindings : Bindings) → Alone rows
        → AreAwaited messages rows bindings.sessions → AreAwaited messages rows (send_all moment messages rows bindings).sessions }
    ensures answered { (messages : List MessageRow) (session id moment : ℕ) (is_accepted : Bool) (t : Revised ReportRow) (bindings : Bindings)
        → Rises report_key (reports_of t) → AreAwaited messages (reports_of t) bindings.sessions
        → AreAwaited messages (reports_of (reports_answered session id is_accepted moment bindings.sessions t))
        (bindings_answered session id bindings).sessions }
    ensures unbound { (messages : List MessageRow) (session moment : ℕ) (t : Revised ReportRow) (bindings : Bindings)
        → AreAwaited messages (reports_of t) bindings.sessions
        → AreAwaited messages (reports_of (reports_unbound session moment bindings.sessions t)) (bindings_unbound session bindings).sessions }
    ensures bound { (messages : List MessageRow) (session moment : ℕ) (account : List ℕ) (receives : Bool) (t : Revised ReportRow) (bindings : Bindings)
        → AreAwaited messages (reports_of t) bindings.sessions
        → AreAwaited messages (reports_of (reports_bound session account receives moment bindings.sessions messages t))
        (bindings_bound session account receives bindings).sessions }
{}

/// Sessions in which nothing was sent yet, as they are when a centre starts, wait for nothing.
pub fn new_sessions_wait_for_nothing()
    ensures { (messages : List MessageRow) (rows : List ReportRow) (sessions : List Session) → ((s : Session) → Among s sessions → s.unanswered ≡ [])
        → AreAwaited messages rows sessions }
{}

/// No event but an answer to a receipt closes a receipt. After every event of a sound centre what was sent and not
/// answered is an open receipt of its session's account. It was sent in that session alone, if it was so before.
pub fn every_event_keeps_what_is_awaited()
    ensures still_open { (event : CentreEvent) (c : Core) → IsSoundCore c → IsEvent event → IsNoAnswer event → (id : ℕ) (r : ReportRow)
        → report_of id c.rows.reports ≡ Some r → is_open_receipt r ≡ true
        → (x : ReportRow) × ((report_of id (core_of (happened event c)).rows.reports ≡ Some x) × (is_open_receipt x ≡ true)) }
    ensures awaited { (event : CentreEvent) (c : Core) → IsSoundCore c → IsEvent event → AreAwaited c.rows.messages c.rows.reports c.sessions
        → AreAwaited (core_of (happened event c)).rows.messages (core_of (happened event c)).rows.reports (core_of (happened event c)).sessions }
{}
