//! Laws of what waits for a handset, over their definitions alone: how it changes with a part, a report and a message.
ghost use Rattle.std.specs.Prelude.{◌≡◌, ◌<◌, ◌≤◌, ℕ, List, Some, None, length, true};
ghost use Rattle.sms_base.specs.Among.{Among};
ghost use Rattle.sms_base.specs.declared.final_state.FinalState.{FinalState};
ghost use Rattle.sms_centre_rows.specs.messages.Messages.{ended, message_at, message_key, part_at, part_key, part_reaching, priority_key};
ghost use Rattle.sms_centre_rows.specs.messages.OpenParts.{Numbered, part_wait};
ghost use Rattle.sms_centre_rows.specs.declared.messages.message.MessageRow.{MessageRow};
ghost use Rattle.sms_centre_rows.specs.declared.messages.part.PartRow.{PartRow};
ghost use Rattle.sms_centre_rows.specs.declared.messages.priority.PriorityRow.{PriorityRow};
ghost use Rattle.sms_centre_rows.specs.reports.Receipts.{AreWindowed, Bindings, Session, receives_for, send, send_all, send_in, waits, window};
ghost use Rattle.sms_centre_rows.specs.reports.Reports.{report_key, report_of, report_reaching};
ghost use Rattle.sms_centre_rows.specs.reports.Waiting.{Alone, IsReportApart, report_wait, waiting_as, waiting_for};
ghost use Rattle.sms_centre_rows.specs.declared.reports.report.ReportRow.{ReportRow};
ghost use Rattle.sms_rows.specs.table.Keys.{pair_key};
ghost use Rattle.sms_rows.specs.table.Table.{Rises, put, row_at};
ghost use Rattle.sms_centre_rows.specs.waiting.Revisions.{amended};
ghost use Rattle.sms_centre_rows.specs.waiting.Waiting.{withdrawn};
ghost use Rattle.sms_centre_rows.specs.declared.waiting.progress.Progress.{Progress};

/// A part that is new, or is so far, waits for its handset exactly where it is undone and its message is pending. All
/// else waits as before.
pub fn a_part_waits_while_it_is_undone()
    ensures put { (handset : List ℕ) (messages : List MessageRow) (priorities : List PriorityRow) (parts : List PartRow) (reports : List ReportRow)
        (p : PartRow)
        → Numbered parts → Alone reports → 0 < p.number → p.number < 256
        → waiting_for handset messages priorities (put part_key p parts) reports ≡ waiting_as (part_key p) (part_wait handset messages priorities (Some p))
        (waiting_for handset messages priorities parts reports) }
    ensures amended { (handset : List ℕ) (messages : List MessageRow) (priorities : List PriorityRow) (parts : List PartRow) (reports : List ReportRow)
        (p : PartRow) (progress : Progress)
        → Numbered parts → Alone reports → row_at part_key (part_key p) parts ≡ Some p
        → waiting_for handset messages priorities (amended part_key part_reaching (part_key p) progress parts) reports
        ≡ waiting_as (part_key p) (part_wait handset messages priorities (Some (part_reaching progress p)))
        (waiting_for handset messages priorities parts reports) }
{}

/// A report that is new, or is so far, waits for its handset exactly where it is an open status report. All else waits
/// as before.
pub fn a_report_waits_while_it_is_open()
    ensures put { (handset : List ℕ) (messages : List MessageRow) (priorities : List PriorityRow) (parts : List PartRow) (reports : List ReportRow)
        (r : ReportRow)
        → Numbered parts → Alone reports → IsReportApart reports r
        → waiting_for handset messages priorities parts (put report_key r reports) ≡ waiting_as (pair_key r.id 0) (report_wait handset messages (Some r))
        (waiting_for handset messages priorities parts reports) }
    ensures amended { (handset : List ℕ) (messages : List MessageRow) (priorities : List PriorityRow) (parts : List PartRow) (reports : List ReportRow)
        (r : ReportRow) (progress : Progress)
        → Numbered parts → Alone reports → Rises report_key reports → report_of r.id reports ≡ Some r
        → waiting_for handset messages priorities parts (amended report_key report_reaching (report_key r) progress reports)
        ≡ waiting_as (pair_key r.id 0) (report_wait handset messages (Some (report_reaching progress r)))
        (waiting_for handset messages priorities parts reports) }
{}

/// The parts of a message that ends wait no more, and all else waits as before.
pub fn an_end_withdraws_the_parts()
    ensures { (handset : List ℕ) (messages : List MessageRow) (priorities : List PriorityRow) (parts : List PartRow) (reports : List ReportRow) (m : MessageRow)
        (state : FinalState) (moment : ℕ)
        → Numbered parts → Alone reports → message_at m.id messages ≡ Some m
        → waiting_for handset (put message_key (ended state moment m) messages) priorities parts reports ≡ withdrawn m.id
        (waiting_for handset messages priorities parts reports) }
{}

/// A message that is new, without parts, leaves all that waits.
pub fn a_new_message_leaves_what_waits()
    ensures { (handset : List ℕ) (messages : List MessageRow) (priorities : List PriorityRow) (parts : List PartRow) (reports : List ReportRow) (m : MessageRow)
        (q : PriorityRow)
        → Numbered parts → Alone reports → q.id ≡ m.id → ((n : ℕ) → part_at m.id n parts ≡ None) → report_of m.id reports ≡ None
        → waiting_for handset (put message_key m messages) (put priority_key q priorities) parts reports
        ≡ waiting_for handset messages priorities parts reports }
{}

/// Receipts that are sent never pass the window of a session.
pub fn windows_are_never_passed()
    ensures { (moment : ℕ) (messages : List MessageRow) (reports : List ReportRow) (bindings : Bindings) → AreWindowed bindings
        → AreWindowed (send_all moment messages reports bindings) }
{}

/// A receipt that waits is sent while one session of its account that receives has room, whatever is unanswered in the others. No
/// such session has fewer unanswered than the one in which it is sent.
pub fn a_slow_session_holds_up_no_other()
    ensures { (moment : ℕ) (messages : List MessageRow) (r : ReportRow) (m : MessageRow) (s : Session) (bindings : Bindings)
        → waits moment r bindings.sessions ≡ true → message_at r.id messages ≡ Some m → Among s bindings.sessions → receives_for m s ≡ true
        → length s.unanswered < window
        → (t : Session) × ((Among t bindings.sessions × (receives_for m t ≡ true)) × ((length t.unanswered ≤ length s.unanswered)
        × (send moment messages r bindings ≡ send_in r.id t bindings))) }
{}
