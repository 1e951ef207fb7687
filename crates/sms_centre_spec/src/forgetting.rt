//! Laws of forgetting, over definitions alone: messages that ended long ago and were reported leave the rows.
//!
//! No event of `CentreEvent` forgets: a centre plans it by a call of its own. These laws say what it takes out, and that nobody
//! can tell but who asks for what went. A reference to which a message lays claim stays barred: it is kept as a `BarRow`, in the
//! commit in which the message goes.
ghost use Rattle.std.specs.Prelude.{◌≡◌, ◌<◌, ◌≤◌, ℕ, List, [], map, Bool, Option, None, false, true, length};
ghost use Rattle.sms_base.specs.Among.{Among};
ghost use Rattle.sms_base.specs.declared.address.Address.{Address};
ghost use Rattle.sms_rows.specs.declared.table.change.Change.TheVariants.{Remove};
ghost use Rattle.sms_rows.specs.table.Table.{Rises};
ghost use Rattle.sms_centre_rows.specs.declared.messages.bar.BarRow.{BarRow};
ghost use Rattle.sms_centre_rows.specs.declared.messages.message.MessageRow.{MessageRow};
ghost use Rattle.sms_centre_rows.specs.declared.messages.part.PartRow.{PartRow};
ghost use Rattle.sms_centre_rows.specs.declared.messages.priority.PriorityRow.{PriorityRow};
ghost use Rattle.sms_centre_rows.specs.declared.waiting.handset.HandsetRow.{HandsetRow};
ghost use Rattle.sms_centre_rows.specs.messages.Messages.{message_at};
ghost use Rattle.sms_centre_rows.specs.messages.SplitReferences.{is_taken, own_bars};
ghost use Rattle.sms_centre_rows.specs.reports.Receipts.{Bindings, Session, send_all, session_key};
ghost use Rattle.sms_centre_rows.specs.reports.Reports.{next_place, report_of};
ghost use Rattle.sms_centre_rows.specs.waiting.SoundAllocations.{IsNumber};
ghost use Rattle.sms_centre_spec.specs.CentreEvent.{happened, moment_of, recovered};
ghost use Rattle.sms_centre_spec.specs.Draft.{Core, changes_in, core_of, store_of};
ghost use Rattle.sms_centre_spec.specs.MessageNumbers.{next_number};
ghost use Rattle.sms_centre_spec.specs.Planning.{adopted, outcome_of};
ghost use Rattle.sms_centre_spec.specs.SoundCore.{AreDifferent, IsEvent, IsSession, IsSoundCore};
ghost use Rattle.sms_centre_spec.specs.SoundRows.{IsSound, all_for};
ghost use Rattle.sms_centre_spec.specs.Submitting.{reference_for};
ghost use Rattle.sms_centre_spec.specs.declared.event.CentreEvent.{CentreEvent};
ghost use Rattle.sms_centre_spec.specs.declared.rows.Rows.{Rows};
ghost use Rattle.sms_centre_spec.specs.forgetting.Forget.{bars_put, claims_by, forget, going_now, is_going_now, may_go_now};
ghost use Rattle.sms_centre_spec.specs.forgetting.Forgetting.{AreNoLater, MayGo, NoneTwice, going_from, held_in, is_going, last_submitted, may_go, next_split_in, rows_without};
ghost use Rattle.sms_centre_spec.specs.forgetting.Forgot.{AreAway, AsksOther, CanForget, Forgot, InStep, Same, core_without};

/// Sound rows are sound without the messages that may go.
pub fn what_stays_is_sound()
    ensures { (goes : ℕ → Bool) (rows : Rows) → IsSound rows → MayGo goes rows → IsSound (rows_without goes rows) }
{}

/// What waits for each handset is the same without the messages that go, and so are the receipts that are sent.
pub fn what_waits_is_unchanged()
    ensures parts { (goes : ℕ → Bool) (rows : Rows) (number : List ℕ) → MayGo goes rows → all_for number (rows_without goes rows) ≡ all_for number rows }
    ensures receipts { (goes : ℕ → Bool) (rows : Rows) (moment : ℕ) (bindings : Bindings) → MayGo goes rows
        → send_all moment (rows_without goes rows).messages (rows_without goes rows).reports bindings ≡ send_all moment rows.messages rows.reports bindings }
{}

/// So are the next number of a message, the next place of a report and the next reference of a handset. The moment at
/// which a centre recovers is never later, and the same where no moment that goes is later than ones that stay.
///
/// The bars that messages leave stand for them: the next reference to split under is the same, and so are those that are taken.
pub fn what_is_next_is_unchanged()
    ensures number { (goes : ℕ → Bool) (rows : Rows) → MayGo goes rows → next_number (rows_without goes rows) ≡ next_number rows }
    ensures place { (goes : ℕ → Bool) (rows : Rows) → MayGo goes rows → next_place (rows_without goes rows).reports ≡ next_place rows.reports }
    ensures reference { (goes : ℕ → Bool) (rows : Rows) (moment : ℕ) (handset : HandsetRow) → MayGo goes rows
        → reference_for handset (store_of (rows_without goes rows) moment) ≡ reference_for handset (store_of rows moment) }
    ensures never_later { (goes : ℕ → Bool) (rows : Rows) → moment_of (rows_without goes rows) ≤ moment_of rows }
    ensures moment { (goes : ℕ → Bool) (rows : Rows) → MayGo goes rows → AreNoLater goes rows → moment_of (rows_without goes rows) ≡ moment_of rows }
    ensures split { (goes : ℕ → Bool) (rows : Rows) (source : Address) (handset : List ℕ) → IsSound rows → MayGo goes rows
        → next_split_in source handset (rows_without goes rows) ≡ next_split_in source handset rows }
    ensures taken { (goes : ℕ → Bool) (rows : Rows) (source : Address) (handset : List ℕ) (own : Option ℕ) → IsSound rows
        → is_taken own (held_in source handset (rows_without goes rows)) ≡ is_taken own (held_in source handset rows) }
{}

/// Of the headers of a source and a handset each reference leaves one bar, however many messages go. So as many stay as there
/// are references, 65,536 at most.
pub fn headers_leave_a_reference_once()
    ensures once { (goes : ℕ → Bool) (rows : Rows) (source : Address) (handset : List ℕ) → IsSound rows → NoneTwice (own_bars source handset rows.bars)
        → NoneTwice (own_bars source handset (rows_without goes rows).bars) }
    ensures few { (rows : Rows) (source : Address) (handset : List ℕ) → ((b : BarRow) → Among b rows.bars → b.reference < 65536)
        → NoneTwice (own_bars source handset rows.bars) → length (own_bars source handset rows.bars) ≤ 65536 }
{}

/// What is forgotten are messages that may go, of numbers from that one on, and no more than so many.
pub fn what_is_forgotten_may_go()
    ensures may { (before from most : ℕ) (rows : Rows) → IsSound rows → MayGo (is_going before from most rows) rows }
    ensures submitted { (before from most : ℕ) (rows : Rows) (m : MessageRow) → IsSound rows → Among m rows.messages
        → is_going before from most rows m.id ≡ true
        → m.submitted ≤ last_submitted 0 rows.messages }
    ensures each { (before from most : ℕ) (rows : Rows) (m : MessageRow) → IsSound rows → Among m rows.messages → is_going before from most rows m.id ≡ true
        → may_go before rows m ≡ true }
    ensures few { (before from most : ℕ) (rows : Rows) → length (going_from (may_go before rows) from most rows.messages) ≤ most }
{}

/// Nothing else goes.
pub fn only_what_may_go_goes()
    ensures message { (goes : ℕ → Bool) (rows : Rows) (id : ℕ) → goes id ≡ false
        → message_at id (rows_without goes rows).messages ≡ message_at id rows.messages }
    ensures report { (goes : ℕ → Bool) (rows : Rows) (id : ℕ) → goes id ≡ false
        → report_of id (rows_without goes rows).reports ≡ report_of id rows.reports }
    ensures part { (goes : ℕ → Bool) (rows : Rows) (p : PartRow) → Among p rows.parts → goes p.id ≡ false → Among p (rows_without goes rows).parts }
    ensures priority { (goes : ℕ → Bool) (rows : Rows) (p : PriorityRow) → Among p rows.priorities → goes p.id ≡ false
        → Among p (rows_without goes rows).priorities }
{}

/// Every event does the same without the messages that go, but a query_sm or cancel_sm of one of them. It has the same
/// frames, receipts, answer and changes. Behind it is the same centre without those messages.
pub fn forgetting_is_invisible()
    ensures { (goes : ℕ → Bool) (event : CentreEvent) (c : Core) → IsSound c.rows → CanForget goes c → AsksOther goes event
        → Same goes (happened event (core_without goes c)) (happened event c) }
{}

/// A centre without messages that may go keeps in step with the one that has them, whatever happens but a query_sm or
/// cancel_sm of one of them. It sends the same frames and receipts, and answers the same. It is still the other one
/// without those messages.
pub fn it_keeps_in_step()
    ensures { (goes : ℕ → Bool) (event : CentreEvent) (small large : Core) → Forgot goes small large → IsEvent event → AsksOther goes event
        → InStep goes (happened event small) (happened event large) }
{}

/// A sound centre without messages that may go is sound, and begins in step, where none of them is under way on a link.
/// So does one that recovers with the rows without them, beside one that recovers with all.
pub fn it_begins_in_step()
    ensures there { (goes : ℕ → Bool) (c : Core) → IsSoundCore c → CanForget goes c → AreAway goes c → Forgot goes (core_without goes c) c }
    ensures recovered { (goes : ℕ → Bool) (rows : Rows) (handsets : List (List ℕ)) (sessions : List Session) → IsSound rows
        → ((number : List ℕ) → Among number handsets → IsNumber number) → AreDifferent handsets
        → Rises session_key sessions → ((session : Session) → Among session sessions → IsSession rows session)
        → AreNoLater goes rows → CanForget goes (recovered rows handsets sessions)
        → Forgot goes (recovered (rows_without goes rows) handsets sessions) (recovered rows handsets sessions) }
{}

/// To forget takes out the messages that may go now, keeps what they lay claim to as bars, and changes nothing else of the
/// centre. What it takes out was reported, is neither unanswered nor under way, and the centre is in step with the one that
/// keeps it.
pub fn a_centre_forgets_what_may_go()
    ensures left { (before from most : ℕ) (c : Core) → IsSound c.rows → core_of (forget before from most c) ≡ core_without (is_going_now before from most c) c }
    ensures in_step { (before from most : ℕ) (c : Core) → IsSoundCore c → Forgot (is_going_now before from most c) (core_of (forget before from most c)) c }
    ensures each { (before from most : ℕ) (c : Core) (m : MessageRow) → IsSoundCore c → Among m c.rows.messages → is_going_now before from most c m.id ≡ true
        → may_go_now before c m ≡ true }
    ensures few { (before from most : ℕ) (c : Core) → length (going_now before from most c) ≤ most }
{}

/// Forgetting commits what it takes out: of messages and of priorities one removal each, and nothing of handsets or references.
/// With them it commits the bars of what they lay claim to. It sends nothing and answers nobody.
pub fn what_is_forgotten_is_committed()
    ensures adopted { (before from most : ℕ) (c : Core) → adopted (outcome_of (forget before from most c)) c ≡ core_of (forget before from most c) }
    ensures messages { (before from most : ℕ) (c : Core)
        → (changes_in (forget before from most c).store).messages ≡ map (λ (id : ℕ). Remove id) (going_now before from most c) }
    ensures priorities { (before from most : ℕ) (c : Core)
        → (changes_in (forget before from most c).store).priorities ≡ map (λ (id : ℕ). Remove id) (going_now before from most c) }
    ensures references { (before from most : ℕ) (c : Core) → (changes_in (forget before from most c).store).references ≡ [] }
    ensures handsets { (before from most : ℕ) (c : Core) → (changes_in (forget before from most c).store).handsets ≡ [] }
    ensures bars { (before from most : ℕ) (c : Core) → (changes_in (forget before from most c).store).bars
        ≡ bars_put (claims_by (going_now before from most c) c.rows.messages c.rows.parts) c.rows.bars }
    ensures frames { (before from most : ℕ) (c : Core) → (forget before from most c).links.frames ≡ [] }
    ensures deliveries { (before from most : ℕ) (c : Core) → (forget before from most c).bindings.deliveries ≡ [] }
    ensures answer { (before from most : ℕ) (c : Core) → (forget before from most c).answer ≡ None }
{}
