//! The reports in the middle of an event.
ghost use Rattle.std.specs.Prelude.{◌≡◌, ◌+◌, ◌<◌, List, None, OnOk, IfOk, Some, true, false, option_copied};
ghost use Rattle.sms_rows.specs.index.Picked.{pick_of};
ghost use Rattle.sms_centre_reports.specs.open_reports.Entries.{account_in, open_entry, receipt_due, receipt_key, report_entry, status_key, status_until};
ghost use Rattle.sms_centre_reports.specs.open_reports.OpenReports.{Represents, receipts_at};
ghost use Rattle.sms_centre_reports.specs.open_reports.OpenReportsDraft.{DraftRepresents, made_in, made_row as made_row_of, noting, put_at, tpdu_made};
ghost use Rattle.sms_centre_spec.specs.forgetting.Forget.{remove_in};
ghost use Rattle.sms_rows.specs.index.First.{first_such, is_ahead_from, is_past_from};
ghost use Rattle.sms_centre_reports.specs.open_reports.Updates.{entry_reaching};
ghost use Rattle.sms_centre_rows.specs.messages.Messages.{message_at};
ghost use Rattle.sms_centre_rows.specs.declared.messages.message.MessageRow.{MessageRow as MessageRowOf};
ghost use Rattle.sms_centre_rows.specs.reports.Reports.{amend_report, is_receipt, is_status, next_place, report_made, report_of, reports_of, status_tpdu};
ghost use Rattle.sms_centre_rows.specs.declared.reports.report.ReportKind.TheVariants.{Receipt, Status, Unsent};
ghost use Rattle.sms_centre_rows.specs.declared.reports.report.ReportRow.{ReportRow as ReportRowOf};
ghost use Rattle.sms_centre_rows.specs.waiting.Revisions.{Revised, unrevised};

use crate::open_reports::entry::{ReceiptEntry, ReportEntry, StatusEntry};
use crate::open_reports::made::MadeEntry;
use crate::open_reports::reports::{OpenReports, entry_of};
use sms_base::{MessageId, Moment, Octets};
use sms_centre_rows::reports::{ReportKind, ReportRow};
use sms_centre_rows::waiting::{Progress, Revision};
use sms_rows::table::{Key, Table};
use std::alloc::{AllocError, Global};
use std::marker::Model;

impl ReportEntry {
    // The report, so far.
    fn reaching(&self, progress: &Progress) -> ReportEntry
        ensures { result ≡ entry_reaching progress.now self.now }
    {
        ReportEntry {
            id: self.id,
            place: self.place,
            reference: self.reference,
            made: self.made,
            progress: *progress,
        }
    }
}

/// The reports in the middle of an event, and what it changed of them.
#[derive(Drop)]
pub struct OpenReportsDraft {
    reports: OpenReports,
    changes: Vec<Revision<ReportRow>>,
    made: Table<MadeEntry>,
}

impl Model for OpenReportsDraft {
    ghost use Rattle.sms_centre_reports.specs.open_reports.OpenReportsDraft.{OpenReportsDraftOf};

    ghost Value = { OpenReportsDraftOf };

    ghost view = { λ p. record { current = p.reports; changes = p.changes.items; made = p.made.rows } };
}

/// What an event leaves of the reports.
#[derive(Drop)]
pub struct OpenReportsPlan {
    pub reports: OpenReports,
    pub changes: Vec<Revision<ReportRow>>,
}

impl OpenReportsDraft {
    /// The reports as an event begins.
    pub fn of(alloc: Global, reports: &OpenReports) -> Result<OpenReportsDraft, AllocError>
        ensures { (messages : List MessageRowOf) (rows : List ReportRowOf) → Represents messages reports.now rows
            → IfOk result (λ p. DraftRepresents messages p (unrevised rows)) }
    {
        let reports = reports.share()?;
        Ok(OpenReportsDraft {
            reports,
            changes: Vec::new(alloc),
            made: Table::new(alloc),
        })
    }

    /// The report of the message, if it is open.
    pub fn find(&self, id: MessageId) -> Option<ReportEntry>
        ensures { (messages : List MessageRowOf) (t : Revised ReportRowOf) → DraftRepresents messages self.now t
            → result ≡ pick_of open_entry (report_of id (reports_of t)) }
    {
        self.reports.find(id)
    }

    /// The first receipt of the account from that place on that is due.
    pub fn first_due(&self, account: &[u8], first: u64, now: Moment) -> Option<ReceiptEntry>
        ensures { result ≡ first_such (is_past_from receipt_key receipt_due first now) (receipts_at account.now self.now.current.accounts) }
    {
        self.reports.first_due(account, first, now)
    }

    /// The first receipt of the account from that place on that isn't due yet.
    pub fn first_put_off(&self, account: &[u8], first: u64, now: Moment) -> Option<ReceiptEntry>
        ensures { result ≡ first_such (is_ahead_from receipt_key receipt_due first now) (receipts_at account.now self.now.current.accounts) }
    {
        self.reports.first_put_off(account, first, now)
    }

    /// The first open status report from that place on that is dropped at that moment.
    pub fn first_old(&self, first: u64, now: Moment) -> Option<StatusEntry>
        ensures { result ≡ first_such (is_past_from status_key status_until first now) self.now.current.statuses }
    {
        self.reports.first_old(first, now)
    }

    /// The STATUS-REPORT of the message, if the event made it: else the store has it. A receipt has no octets.
    pub fn tpdu_made(&self, id: MessageId) -> Option<&[u8]>
        ensures { (messages : List MessageRowOf) (t : Revised ReportRowOf) → DraftRepresents messages self.now t → option_copied result ≡ tpdu_made id t }
    {
        let Some(made) = self.made.find(Key::of(id.number())) else {
            return None;
        };
        let Some(row) = put_at(self.changes.as_slice(), made.at) else {
            return None;
        };
        Some(tpdu_of(&row.kind))
    }

    // The report is put among the changes.
    fn note(&mut self, row: ReportRow) -> Result<(), AllocError>
        ensures { OnOk result (self.new ≡ noting row self.old) }
    {
        let at = self.changes.len();
        self.made.put(MadeEntry { id: row.id, at })?;
        self.changes.push(Revision::Put(row))?;
        Ok(())
    }

    /// A receipt is made of an application's message that has no report yet.
    pub fn make_receipt(
        &mut self,
        id: MessageId,
        made: Moment,
        account: &[u8],
    ) -> Result<(), AllocError>
        ensures { (messages : List MessageRowOf) (t : Revised ReportRowOf) → DraftRepresents messages self.old t → report_of id (reports_of t) ≡ None
            → account_in (message_at id messages) ≡ Some account.now
            → OnOk result (DraftRepresents messages self.new (report_made id Receipt false made t)) }
    {
        let place = self.reports.give_place()?;
        let row = made_row(place, id, ReportKind::Receipt, false, made);
        let entry = entry_of(&row, None);
        self.reports.keep_receipt(account, &entry)?;
        self.note(row)?;
        Ok(())
    }

    /// A status report is made of a message that has no report yet, by the STATUS-REPORT as made at the giving of its reference.
    pub fn make_status(
        &mut self,
        id: MessageId,
        made: Moment,
        reference: u8,
        tpdu: Octets,
    ) -> Result<(), AllocError>
        ensures { (messages : List MessageRowOf) (t : Revised ReportRowOf) → DraftRepresents messages self.old t → report_of id (reports_of t) ≡ None
            → OnOk result (DraftRepresents messages self.new (report_made id (Status reference tpdu) false made t)) }
    {
        let place = self.reports.give_place()?;
        let row = made_row(
            place,
            id,
            ReportKind::Status { reference, tpdu },
            false,
            made,
        );
        let entry = entry_of(&row, Some(reference));
        self.reports.keep_status(&entry)?;
        self.note(row)?;
        Ok(())
    }

    /// Makes a report that nobody gets, of a message that has none yet, since no reference was free.
    pub fn make_unsent(&mut self, id: MessageId, made: Moment) -> Result<(), AllocError>
        ensures { (messages : List MessageRowOf) (t : Revised ReportRowOf) → DraftRepresents messages self.old t → report_of id (reports_of t) ≡ None
            → OnOk result (DraftRepresents messages self.new (report_made id Unsent true made t)) }
    {
        let place = self.reports.give_place()?;
        let row = made_row(place, id, ReportKind::Unsent, true, made);
        self.note(row)?;
        Ok(())
    }

    /// The receipt of the account's message is so far.
    pub fn amend_receipt(
        &mut self,
        account: &[u8],
        entry: &ReportEntry,
        progress: &Progress,
    ) -> Result<(), AllocError>
        ensures { (messages : List MessageRowOf) (t : Revised ReportRowOf) (r : ReportRowOf) → DraftRepresents messages self.old t
            → report_of r.id (reports_of t) ≡ Some r → entry.now ≡ report_entry r
            → is_receipt r.kind ≡ true → account_in (message_at r.id messages) ≡ Some account.now → OnOk result
            (DraftRepresents messages self.new (amend_report r progress.now t)) }
    {
        let reached = entry.reaching(progress);
        let key = Key::of(entry.place);
        self.reports.keep_receipt(account, &reached)?;
        self.changes.push(Revision::Amend {
            key,
            progress: *progress,
        })?;
        Ok(())
    }

    /// The status report is so far.
    pub fn amend_status(
        &mut self,
        entry: &ReportEntry,
        progress: &Progress,
    ) -> Result<(), AllocError>
        ensures { (messages : List MessageRowOf) (t : Revised ReportRowOf) (r : ReportRowOf) → DraftRepresents messages self.old t
            → report_of r.id (reports_of t) ≡ Some r → entry.now ≡ report_entry r
            → is_status r.kind ≡ true → OnOk result (DraftRepresents messages self.new (amend_report r progress.now t)) }
    {
        let reached = entry.reaching(progress);
        let key = Key::of(entry.place);
        self.reports.keep_status(&reached)?;
        self.changes.push(Revision::Amend {
            key,
            progress: *progress,
        })?;
        Ok(())
    }

    /// Takes out a report that is closed and is not the last. The event did not make it.
    pub fn remove(&mut self, place: u64) -> Result<(), AllocError>
        ensures { (messages : List MessageRowOf) (t : Revised ReportRowOf) (r : ReportRowOf) → DraftRepresents messages self.old t
            → report_of r.id (reports_of t) ≡ Some r → place ≡ r.place → r.progress.is_done ≡ true → r.place + 1 < next_place (reports_of t)
            → made_in r.id t.news ≡ None → OnOk result (DraftRepresents messages self.new (remove_in place t)) }
    {
        self.changes.push(Revision::Remove(Key::of(place)))?;
        Ok(())
    }

    /// What the event leaves. Adopting it is to put its reports in the place of those that the event began with.
    pub fn settle(self) -> OpenReportsPlan
        ensures reports { result.reports ≡ self.current }
        ensures changes { result.changes.items ≡ self.changes }
    {
        OpenReportsPlan {
            reports: self.reports,
            changes: self.changes,
        }
    }
}

// A report that is made.
fn made_row(place: u64, id: MessageId, kind: ReportKind, is_closed: bool, made: Moment) -> ReportRow
    ensures { result ≡ made_row_of place id kind is_closed made }
{
    let progress = Progress {
        is_done: is_closed,
        attempts: 0,
        due: made,
    };
    ReportRow {
        place,
        id,
        kind,
        made,
        progress,
    }
}

// The row that the change at a place puts.
fn put_at(changes: &[Revision<ReportRow>], place: usize) -> Option<&ReportRow>
    ensures { option_copied result ≡ put_at place changes.now }
{
    if place >= changes.len() {
        return None;
    }
    match &changes[place] {
        Revision::Put(row) => Some(row),
        Revision::Amend { .. } => None,
        Revision::Remove(_) => None,
    }
}

// The octets of a status report.
fn tpdu_of(kind: &ReportKind) -> &[u8]
    ensures { result.now ≡ status_tpdu kind.now }
{
    match kind {
        ReportKind::Status { tpdu, .. } => tpdu.as_slice(),
        ReportKind::Receipt | ReportKind::Unsent => &[],
    }
}
