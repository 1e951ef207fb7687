//! How a transfer to a handset ends (3GPP TS 24.011 8.2.5.4), and what the centre makes of it.
ghost use Rattle.std.specs.Prelude.{◌≡◌, ℕ, Some, true, IfOk, OnOk};
ghost use Rattle.sms_centre_rows.specs.messages.Messages.{all_done as all_done_of, message_at};
ghost use Rattle.sms_centre_rows.specs.waiting.Links.{filled, link_of, put_link};
ghost use Rattle.sms_centre_rows.specs.waiting.Trying.{finished as finished_of, one_more as one_more_of, tried as tried_of};
ghost use Rattle.sms_centre_reports.specs.open_reports.Entries.{open_entry, report_entry};
ghost use Rattle.sms_rows.specs.index.Picked.{pick_of};
ghost use Rattle.sms_centre_rows.specs.reports.Reports.{is_open_status, report_of};
ghost use Rattle.sms_centre_rows.specs.declared.reports.report.ReportRow.{ReportRow as ReportRowOf};
ghost use Rattle.sms_centre_spec.specs.Draft.{Draft, in_store, messages_in, on_links, parts_in, reports_in};
ghost use Rattle.sms_centre_spec.specs.declared.verdict.Verdict.TheVariants.{Settled};
ghost use Rattle.sms_centre_spec.specs.Transfers.{report_ended as report_ended_of};
ghost use Rattle.sms_centre_draft.specs.Transfers.{IsOpenPart, IsOpenStatus, waiting_part as waiting_part_of, waiting_status as waiting_status_of};
ghost use Rattle.sms_centre_draft.specs.CentreDraft.{Represents};

use crate::centre_draft::CentreDraft;
use sms_base::{MessageId, Moment, Msisdn};
use sms_centre_reports::open_reports::ReportEntry;
use sms_centre_rows::messages::{MessageRow, PartEntry};
use sms_centre_rows::waiting::Progress;
use sms_centre_spec::Verdict;
use sms_schedule::retry_after;
use std::alloc::AllocError;

// Attempts are counted to 255.
fn one_more(attempts: u8) -> u8
    ensures { result ≡ one_more_of attempts }
{
    attempts.saturating_add(1)
}

/// How far what was answered for good is.
pub fn finished(progress: &Progress) -> Progress
    ensures { result ≡ finished_of progress.now }
{
    Progress {
        is_done: true,
        attempts: progress.attempts,
        due: progress.due,
    }
}

/// How far it is where one more attempt failed now: it is due again after the delay of its attempts.
pub fn tried(now: Moment, progress: &Progress) -> Progress
    ensures { result ≡ tried_of now progress.now }
{
    let attempts = one_more(progress.attempts);
    Progress {
        is_done: progress.is_done,
        attempts,
        due: retry_after(attempts, now),
    }
}

// The part with its message, where it waits.
fn waiting_part(entry: PartEntry, message: Option<MessageRow>) -> Option<(PartEntry, MessageRow)>
    ensures { result ≡ waiting_part_of entry message }
{
    match message {
        Some(message) if !entry.progress.is_done && message.state.is_none() => {
            Some((entry, message))
        }
        _ => None,
    }
}

// The report with its message, where it is a status report.
fn waiting_status(
    entry: ReportEntry,
    message: Option<MessageRow>,
) -> Option<(ReportEntry, MessageRow)>
    ensures { result ≡ waiting_status_of entry message }
{
    match message {
        Some(message) if entry.reference.is_some() => Some((entry, message)),
        _ => None,
    }
}

impl<'a> CentreDraft<'a> {
    /// Whether all parts of the message are done.
    pub fn all_done(&self, id: MessageId) -> bool
        ensures { (d : Draft) → Represents d self.now → result ≡ all_done_of id (parts_in d.store) }
    {
        self.messages.all_done(id)
    }

    /// The part of a pending message, with the message, if it waits there still.
    pub fn open_part(
        &self,
        id: MessageId,
        number: u8,
    ) -> Result<Option<(PartEntry, MessageRow)>, AllocError>
        ensures { (d : Draft) → Represents d self.now → IfOk result (IsOpenPart id number d.store) }
    {
        let Some(entry) = self.messages.find_part(id, number) else {
            return Ok(None);
        };
        let message = self.messages.find(entry.id)?;
        Ok(waiting_part(entry, message))
    }

    // The report of that entry with its message, where it is a status report.
    fn status_of(&self, entry: ReportEntry) -> Result<Option<(ReportEntry, MessageRow)>, AllocError>
        ensures { (d : Draft) (id : ℕ) → Represents d self.now → Some entry ≡ pick_of open_entry (report_of id (reports_in d.store))
            → IfOk result (IsOpenStatus id d.store) }
    {
        let message = self.messages.find(entry.id)?;
        Ok(waiting_status(entry, message))
    }

    /// The open status report of a message, with the message.
    pub fn open_status(
        &self,
        id: MessageId,
    ) -> Result<Option<(ReportEntry, MessageRow)>, AllocError>
        ensures { (d : Draft) → Represents d self.now → IfOk result (IsOpenStatus id d.store) }
    {
        match self.reports.find(id) {
            Some(entry) => self.status_of(entry),
            None => Ok(None),
        }
    }

    /// The status report, which waits, is closed.
    pub(crate) fn close_status(
        &mut self,
        entry: &ReportEntry,
        message: &MessageRow,
    ) -> Result<(), AllocError>
        ensures { (d : Draft) (r : ReportRowOf) → Represents d self.old → report_of r.id (reports_in d.store) ≡ Some r → entry.now ≡ report_entry r
            → is_open_status r ≡ true
            → message_at r.id (messages_in d.store) ≡ Some message.now
            → OnOk result (Represents (in_store (report_ended_of Settled r d.store) d) self.new) }
    {
        self.status_ended(Verdict::Settled, entry, message)
    }

    /// A transfer of the status report, which waits, has ended.
    pub fn status_ended(
        &mut self,
        verdict: Verdict,
        entry: &ReportEntry,
        message: &MessageRow,
    ) -> Result<(), AllocError>
        ensures { (d : Draft) (r : ReportRowOf) → Represents d self.old → report_of r.id (reports_in d.store) ≡ Some r → entry.now ≡ report_entry r
            → is_open_status r ≡ true
            → message_at r.id (messages_in d.store) ≡ Some message.now
            → OnOk result (Represents (in_store (report_ended_of verdict r d.store) d) self.new) }
    {
        match verdict {
            Verdict::Settled | Verdict::Refused => {
                self.status_done(entry, message, &finished(&entry.progress))
            }
            Verdict::Again => self.status_off(entry, message, &tried(self.moment, &entry.progress)),
            Verdict::HandsetFull | Verdict::Late => Ok(()),
        }
    }

    /// The handset has no memory.
    pub fn fill(&mut self, handset: Msisdn) -> Result<(), AllocError>
        ensures { (d : Draft) → Represents d self.old → OnOk result
            (Represents (on_links (put_link (filled (link_of handset d.links.all)) d.links) d) self.new) }
    {
        self.queues.fill(handset)?;
        Ok(())
    }
}
