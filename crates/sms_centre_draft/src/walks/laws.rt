//! Laws of the centre's walks, over its definition alone.
ghost use Rattle.std.specs.Prelude.{◌≡◌, ◌+◌, ◌++◌, ◌∷◌, [], ℕ, List, None, Some, true};
ghost use Rattle.std.specs.List.Sorted.{IsNonDecreasing};
ghost use Rattle.sms_centre_reports.specs.open_reports.Entries.{status_key, status_until};
ghost use Rattle.sms_centre_reports.specs.open_reports.OpenReports.{OpenReportsOf, Represents};
ghost use Rattle.sms_centre_reports.specs.declared.open_reports.entry.StatusEntry.{StatusEntry};
ghost use Rattle.sms_rows.specs.index.First.{first_such, is_past_from};
ghost use Rattle.sms_centre_rows.specs.messages.Messages.{message_key};
ghost use Rattle.sms_centre_rows.specs.reports.Reports.{is_open_status, report_of};
ghost use Rattle.sms_centre_rows.specs.declared.reports.report.ReportRow.{ReportRow};
ghost use Rattle.sms_rows.specs.table.Table.{Rises};
ghost use Rattle.sms_centre_rows.specs.waiting.SoundAllocations.{SoundAllocations};
ghost use Rattle.sms_centre_queue.specs.queues.LinkOrder.{AreLinks};
ghost use Rattle.sms_centre_queue.specs.queues.Walks.{walk};
ghost use Rattle.sms_centre_queue.specs.declared.queues.concern.ConcernedHandset.{ConcernedHandset};
ghost use Rattle.sms_centre_queue.specs.declared.queues.concern.Concern.TheVariants.{Awaited, Fire, FireUnmentioned, Offer};
ghost use Rattle.sms_centre_spec.specs.CentreEvent.{dropped, expired, fired, raise, raised};
ghost use Rattle.sms_centre_spec.specs.Draft.{Draft, Store, handsets_in, messages_in, references_in, reports_in};
ghost use Rattle.sms_centre_spec.specs.Offering.{offer};
ghost use Rattle.sms_centre_spec.specs.Transfers.{report_closed};
ghost use Rattle.sms_centre_draft.specs.walks.Expiring.{CoversOver, expire_numbers};
ghost use Rattle.sms_centre_draft.specs.walks.OldReports.{drop_from};
ghost use Rattle.sms_centre_draft.specs.walks.Stepping.{fire_on, offer_at, stops_in};

use sms_centre_reports::open_reports::laws::the_open_reports_find_old_ones;

/// A walk over one more stop is the walk before it, then a step at that stop.
pub fn a_walk_takes_one_more_step<D: Drop>()
    ensures { (step : List ℕ → D → D) (stops : List ConcernedHandset) (stop : ConcernedHandset) (d : D)
        → walk step (stops ++ stop ∷ []) d ≡ step stop.number (walk step stops d) }
{}

/// Offers concern only those handsets whose link is ready and for which something is due as the offers begin.
pub fn offers_concern_those_found()
    ensures { (d : Draft) → SoundAllocations (handsets_in d.store) (references_in d.store) → offer d ≡ walk offer_at (stops_in (Offer d.store.moment) d) d }
{}

/// Timers fire only at those links at which one is due as the walk begins. The links of handsets that had been given a
/// reference are first, then the others. Both are found before the first timer fires. One that fires may end a message,
/// or make a status report for another handset, which then has been given a reference. It makes no other timer due, and
/// moves no handset.
pub fn timers_fire_at_those_found()
    ensures { (d : Draft) → SoundAllocations (handsets_in d.store) (references_in d.store) → AreLinks d.links.all
        → fired d ≡ walk fire_on (stops_in (FireUnmentioned d.store.moment) d) (walk fire_on (stops_in (Fire d.store.moment) d) d) }
{}

/// The links that were up before a recovery are up again: those that are found as the walk begins.
pub fn links_rise_where_found()
    ensures { (d : Draft) → AreLinks d.links.all → raised d ≡ walk raise (stops_in Awaited d) d }
{}

/// Messages expire by their numbers. Any numbers in order serve among which are those of all messages whose time is
/// over. A number may be there twice, and so may that of a message that has ended.
pub fn messages_expire_by_numbers()
    ensures { (s : Store) (ids : List ℕ) → Rises message_key (messages_in s) → IsNonDecreasing ids → CoversOver ids s → expired s ≡ expire_numbers ids s }
{}

/// Old status reports are dropped from place 0 on. From a place on, the first that memory finds is dropped,
/// and then those behind it. Where none is found, none is dropped any more.
pub fn old_reports_are_dropped_where_found()
    ensures begins { (s : Store) → dropped s ≡ drop_from 0 s }
    ensures next { (s : Store) (current : OpenReportsOf) (first : ℕ) (e : StatusEntry) → Represents (messages_in s) current (reports_in s)
        → first_such (is_past_from status_key status_until first s.moment) current.statuses ≡ Some e
        → (r : ReportRow) × ((report_of e.id (reports_in s) ≡ Some r) × (is_open_status r ≡ true) ×
        (drop_from first s ≡ drop_from (e.place + 1) (report_closed r s))) }
    ensures none { (s : Store) (current : OpenReportsOf) (first : ℕ) → Represents (messages_in s) current (reports_in s)
        → first_such (is_past_from status_key status_until first s.moment) current.statuses ≡ None → drop_from first s ≡ s }
{
    the_open_reports_find_old_ones();
}
