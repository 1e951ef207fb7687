//! Laws of the centre, over its definitions alone.
ghost use Rattle.std.specs.Prelude.{◌≡◌, ◌<◌, ℕ, List, true, false, None, Some};
ghost use Rattle.sms_base.specs.Among.{Among};
ghost use Rattle.sms_base.specs.declared.final_state.FinalState.{FinalState};
ghost use Rattle.sms_base.specs.declared.final_state.FinalState.TheVariants.{Deleted};
ghost use Rattle.sms_centre_rows.specs.messages.Messages.{ended, is_pending, message_at, part_at, part_key};
ghost use Rattle.sms_centre_rows.specs.declared.messages.message.MessageRow.{MessageRow};
ghost use Rattle.sms_centre_rows.specs.declared.messages.part.PartRow.{PartRow};
ghost use Rattle.sms_centre_rows.specs.declared.messages.priority.PriorityRow.{PriorityRow};
ghost use Rattle.sms_centre_rows.specs.reports.Receipts.{Session, session_key};
ghost use Rattle.sms_centre_rows.specs.reports.Reports.{is_open_status, put_report, report_of, status_reference};
ghost use Rattle.sms_centre_rows.specs.reports.Waiting.{IsReportApart};
ghost use Rattle.sms_centre_rows.specs.declared.reports.delivery.Delivery.{Delivery};
ghost use Rattle.sms_centre_rows.specs.declared.reports.report.ReportRow.{ReportRow};
ghost use Rattle.sms_rows.specs.table.Table.{Rises, row_at};
ghost use Rattle.sms_centre_rows.specs.waiting.References.{handset_of};
ghost use Rattle.sms_centre_rows.specs.waiting.SoundAllocations.{IsNumber};
ghost use Rattle.sms_centre_rows.specs.declared.waiting.handset_link.Sent.{Sent};
ghost use Rattle.sms_centre_rows.specs.declared.waiting.progress.Progress.{Progress};
ghost use Rattle.sms_centre_rows.specs.declared.waiting.queued_part.QueuedPart.{QueuedPart};
ghost use Rattle.sms_centre_rows.specs.waiting.Keys.{queued_key};
ghost use Rattle.sms_centre_rows.specs.waiting.Trying.{due_at};
ghost use Rattle.smpp_pdu.specs.declared.cancel.CancelSm.{CancelSm};
ghost use Rattle.smpp_pdu.specs.declared.message.Message.{Message};
ghost use Rattle.smpp_pdu.specs.declared.query.QuerySm.{QuerySm};
ghost use Rattle.smpp_pdu.specs.declared.status.CommandStatus.{CommandStatus};
ghost use Rattle.smpp_pdu.specs.declared.status.CommandStatus.TheVariants.{ESME_RCANCELFAIL, ESME_RINVMSGID};
ghost use Rattle.sms_centre_spec.specs.declared.answer.CentreAnswer.TheVariants.{Cancelled, Queried, Refused, Submitted};
ghost use Rattle.sms_centre_spec.specs.declared.event.CentreEvent.{CentreEvent};
ghost use Rattle.sms_centre_spec.specs.declared.event.CentreEvent.TheVariants.{Ordered, Submit};
ghost use Rattle.sms_centre_spec.specs.declared.order.Order.{Order};
ghost use Rattle.sms_centre_spec.specs.declared.order.Order.TheVariants.{Delete, Retry};
ghost use Rattle.sms_centre_spec.specs.declared.rows.Rows.{Rows};
ghost use Rattle.sms_centre_spec.specs.declared.setup.Setup.{Setup};
ghost use Rattle.sms_centre_spec.specs.CentreEvent.{happened, recovered, started};
ghost use Rattle.sms_centre_spec.specs.Requests.{cancel, cancel_refusal, octets_refusal, query, query_refusal, refused, submit};
ghost use Rattle.sms_centre_spec.specs.Ends.{end};
ghost use Rattle.sms_centre_spec.specs.Orders.{message_due, parts_among};
ghost use Rattle.sms_centre_spec.specs.Draft.{Core, Store, core_of, draft_of, handsets_in, messages_in, parts_in, reports_in, waiting_in, with_given};
ghost use Rattle.sms_centre_spec.specs.Draft.{with_message, with_part, with_part_at, with_priority, with_report_at, with_reports};
ghost use Rattle.sms_centre_spec.specs.Held.{SoundHeld};
ghost use Rattle.sms_centre_spec.specs.Keeping.{Keeps};
ghost use Rattle.sms_centre_spec.specs.MessageNumbers.{WasGiven, next_number};
ghost use Rattle.sms_centre_spec.specs.Planning.{adopted, outcome_of};
ghost use Rattle.sms_centre_spec.specs.SoundCore.{AreDifferent, Brings, IsEvent, IsReceiptRow, IsSession, IsSoundCore};
ghost use Rattle.sms_centre_spec.specs.SoundRows.{IsSetup, IsSound, first_rows};
ghost use Rattle.sms_centre_spec.specs.Submitting.{reference_for};

/// A centre that adopts what an event leads to is the centre after that event: the changes say all that became of the rows.
pub fn what_is_adopted_is_what_happened()
    ensures { (event : CentreEvent) (c : Core) → adopted (outcome_of (happened event c)) c ≡ core_of (happened event c) }
{}

/// A sound centre is sound after every event. Its rows are, and no reference was given later than now. What is under
/// way on each link is a part of a message to that handset or the status report of one of its own. It is under the
/// reference that its row keeps. A handset that the event names has a number.
pub fn a_sound_centre_stays_sound()
    ensures { (event : CentreEvent) (c : Core) → IsSoundCore c → IsEvent event → IsSoundCore (core_of (happened event c)) }
{}

/// A centre that recovers or starts with sound rows is sound, and the first rows of a new store are.
pub fn a_centre_begins_sound()
    ensures recovered { (rows : Rows) (handsets : List (List ℕ)) (sessions : List Session) → IsSound rows
        → ((number : List ℕ) → Among number handsets → IsNumber number) → AreDifferent handsets
        → Rises session_key sessions → ((session : Session) → Among session sessions → IsSession rows session) → IsSoundCore
        (recovered rows handsets sessions) }
    ensures started { (rows : Rows) (handsets : List (List ℕ)) (sessions : List Session) → IsSound rows
        → ((number : List ℕ) → Among number handsets → IsNumber number) → AreDifferent handsets
        → Rises session_key sessions → ((session : Session) → Among session sessions → IsSession rows session) → IsSoundCore (started rows handsets sessions) }
    ensures first { (setup : Setup) → IsSetup setup → IsSound (first_rows setup) }
{}

/// After every event no message, part or report is lost, and a message that had ended is unchanged. Each part and
/// report is sent under its reference and keeps its octets. All that waits for a handset holds references apart. Each
/// receipt that is sent is one of the rows. Each sent frame was made for a part of one of the handset's
/// messages, or for the status report of one of its own. Any other was made for an answer, or for nothing. For a part
/// or report its reference is the row's.
pub fn an_event_keeps_its_promises()
    ensures nothing_lost { (event : CentreEvent) (c : Core) → IsSoundCore c → IsEvent event → Keeps c.rows (core_of (happened event c)).rows }
    ensures apart { (event : CentreEvent) (c : Core) → IsSoundCore c → IsEvent event → SoundHeld (happened event c).store }
    ensures receipts { (event : CentreEvent) (c : Core) → IsSoundCore c → IsEvent event
        → (delivery : Delivery) → Among delivery (happened event c).bindings.deliveries → IsReceiptRow (core_of (happened event c)).rows delivery.id }
    ensures frames { (event : CentreEvent) (c : Core) → IsSoundCore c → IsEvent event
        → (sent : Sent) → Among sent (happened event c).links.frames → Brings sent.handset sent.frame.carried (core_of (happened event c)).rows }
{}

/// The number that a submission is answered with is that of a message in the rows.
pub fn an_answered_submission_is_stored()
    ensures { (account : ℕ) (message : Message) (c : Core) (id : ℕ) → (happened (Submit account message) c).answer ≡ Some (Submitted id)
        → (row : MessageRow) × (message_at id (core_of (happened (Submit account message) c)).rows.messages ≡ Some row) }
{}

/// No number is given twice. The next number is above all that were given before: in an earlier run, or to a message
/// in the rows. A message that an event adds has the next number, and a submission is answered with it.
pub fn no_number_is_given_twice()
    ensures new { (rows : Rows) (n : ℕ) → IsSound rows → WasGiven rows n → n < next_number rows }
    ensures added { (event : CentreEvent) (c : Core) → IsSoundCore c → IsEvent event
        → (m : MessageRow) → Among m (core_of (happened event c)).rows.messages → message_at m.id c.rows.messages ≡ None → m.id ≡ next_number c.rows }
    ensures answered { (account : ℕ) (message : Message) (c : Core) (id : ℕ) → (happened (Submit account message) c).answer ≡ Some (Submitted id)
        → id ≡ next_number c.rows }
{}

/// An operator's order is of the message of that number, whoever sent it. A retry makes what waits of it due, and is
/// answered with its state. An order to delete ends a pending message as deleted, and reports that as its sender wished.
/// It is refused with ESME_RCANCELFAIL where the message has ended. Where there is none both are refused with
/// ESME_RINVMSGID. A refused order changes no row.
pub fn an_order_is_done_or_refused()
    ensures retried { (id : ℕ) (c : Core) (m : MessageRow) → message_at id c.rows.messages ≡ Some m
        → ((happened (Ordered Retry id) c).store ≡ message_due m (draft_of c).store)
        × ((happened (Ordered Retry id) c).answer ≡ Some (Queried m.id m.state m.done)) }
    ensures deleted { (id : ℕ) (c : Core) (m : MessageRow) → message_at id c.rows.messages ≡ Some m → is_pending m ≡ true
        → ((happened (Ordered Delete id) c).store ≡ end Deleted m (draft_of c).store) × ((happened (Ordered Delete id) c).answer ≡ Some Cancelled) }
    ensures too_late { (id : ℕ) (c : Core) (m : MessageRow) → message_at id c.rows.messages ≡ Some m → is_pending m ≡ false
        → ((happened (Ordered Delete id) c).store ≡ (draft_of c).store) × ((happened (Ordered Delete id) c).answer ≡ Some (Refused ESME_RCANCELFAIL)) }
    ensures of_none { (order : Order) (id : ℕ) (c : Core) → message_at id c.rows.messages ≡ None
        → ((happened (Ordered order id) c).store ≡ (draft_of c).store) × ((happened (Ordered order id) c).answer ≡ Some (Refused ESME_RINVMSGID)) }
{}

/// What is due by a retry is each part of the message that waits for its handset. The part stays as it was but for that
/// moment. No other part changes, no message and no report.
pub fn a_retry_makes_its_message_due()
    ensures parts { (m : MessageRow) (s : Store) (l : QueuedPart) (p : PartRow) → Among l (parts_among m.id (waiting_in m.handset s))
        → part_at l.id l.number (parts_in s) ≡ Some p
        → part_at l.id l.number (parts_in (message_due m s)) ≡ Some (record p { progress = due_at s.moment p.progress }) }
    ensures others { (m : MessageRow) (s : Store) (key : ℕ) → ((l : QueuedPart) → Among l (parts_among m.id (waiting_in m.handset s)) → ¬ (queued_key l ≡ key))
        → row_at part_key key (parts_in (message_due m s)) ≡ row_at part_key key (parts_in s) }
    ensures messages { (m : MessageRow) (s : Store) → messages_in (message_due m s) ≡ messages_in s }
    ensures reports { (m : MessageRow) (s : Store) → reports_in (message_due m s) ≡ reports_in s }
{}

/// All that waits for a handset holds references that were given there, all different. It stays so once a message was
/// entered, or the next reference was given for a part or a status report. It stays so once a report was made that
/// waits for no handset. It stays so once a part or a report is so far, or a message has ended.
pub fn references_stay_apart()
    ensures entered { (s : Store) (m : MessageRow) (q : PriorityRow) → SoundHeld s → q.id ≡ m.id → ((n : ℕ) → part_at m.id n (parts_in s) ≡ None)
        → report_of m.id (reports_in s) ≡ None → IsNumber m.handset
        → SoundHeld (with_priority q (with_message m s)) }
    ensures part_given { (s : Store) (m : MessageRow) (p : PartRow) → SoundHeld s → message_at p.id (messages_in s) ≡ Some m → is_pending m ≡ true
        → p.progress.is_done ≡ false → 0 < p.number → p.number < 256
        → reference_for (handset_of m.handset (handsets_in s)) s ≡ Some p.reference → SoundHeld
        (with_part p (with_given (handset_of m.handset (handsets_in s)) p.reference s)) }
    ensures report_made { (s : Store) (r : ReportRow) → SoundHeld s → IsReportApart (reports_in s) r → is_open_status r ≡ false
        → SoundHeld (with_reports (put_report r s.reports) s) }
    ensures status_given { (s : Store) (m : MessageRow) (r : ReportRow) → SoundHeld s → IsReportApart (reports_in s) r
        → message_at r.id (messages_in s) ≡ Some m
        → IsNumber m.source.digits → is_open_status r ≡ true
        → reference_for (handset_of m.source.digits (handsets_in s)) s ≡ Some (status_reference r.kind)
        → SoundHeld (with_reports (put_report r s.reports) (with_given (handset_of m.source.digits (handsets_in s)) (status_reference r.kind) s)) }
    ensures part_far { (s : Store) (p : PartRow) (progress : Progress) → SoundHeld s → row_at part_key (part_key p) (parts_in s) ≡ Some p
        → (progress.is_done ≡ false → p.progress.is_done ≡ false)
        → SoundHeld (with_part_at p progress s) }
    ensures report_far { (s : Store) (r : ReportRow) (progress : Progress) → SoundHeld s → report_of r.id (reports_in s) ≡ Some r
        → (progress.is_done ≡ false → r.progress.is_done ≡ false)
        → SoundHeld (with_report_at r progress s) }
    ensures ended { (s : Store) (m : MessageRow) (state : FinalState) (moment : ℕ) → SoundHeld s → message_at m.id (messages_in s) ≡ Some m
        → SoundHeld (with_message (ended state moment m) s) }
{}

/// A query_sm or a cancel_sm that is refused with a status leads to that answer, and changes nothing.
pub fn a_refused_question_changes_nothing()
    ensures query { (account : ℕ) (asked : QuerySm) (c : Core) (status : CommandStatus) → query_refusal account asked c ≡ Some status
        → query account asked (draft_of c) ≡ refused status (draft_of c) }
    ensures cancel { (account : ℕ) (asked : CancelSm) (c : Core) (status : CommandStatus) → cancel_refusal account asked c ≡ Some status
        → cancel account asked (draft_of c) ≡ refused status (draft_of c) }
{}

/// A submit_sm that its octets refuse is refused with that status, and changes nothing.
pub fn octets_refuse_a_submission()
    ensures { (account : ℕ) (message : Message) (c : Core) (status : CommandStatus) → octets_refusal account message c ≡ Some status
        → submit account message (draft_of c) ≡ refused status (draft_of c) }
{}
