//! The open reports, between events.
ghost use Rattle.std.specs.Prelude.{◌≡◌, ◌+◌, ◌<◌, ◌++◌, ◌∷◌, [], List, OnOk, IfOk, None, Some, true};
ghost use Rattle.sms_rows.specs.index.First.{first_such, is_ahead_from, is_past_from};
ghost use Rattle.sms_rows.specs.index.Picked.{pick_of};
ghost use Rattle.sms_base.specs.Among.{Among};
ghost use Rattle.sms_centre_reports.specs.open_reports.Entries.{account_in, entry_key, open_entry, receipt_due, receipt_key, report_entry, status_key};
ghost use Rattle.sms_centre_reports.specs.open_reports.Entries.{status_until};
ghost use Rattle.sms_centre_reports.specs.open_reports.OpenReports.{Represents, receipts_at};
ghost use Rattle.sms_centre_reports.specs.open_reports.Updates.{keeping, keeping_receipt, keeping_status, receipt_of, status_of, unless_done};
ghost use Rattle.sms_centre_rows.specs.declared.messages.message.MessageRow.{MessageRow as MessageRowOf};
ghost use Rattle.sms_centre_rows.specs.messages.Messages.{message_at};
ghost use Rattle.sms_centre_rows.specs.reports.Reports.{is_receipt, report_of};
ghost use Rattle.sms_centre_rows.specs.declared.reports.report.ReportRow.{ReportRow as ReportRowOf};
ghost use Rattle.sms_rows.specs.table.Table.{row_at};

use crate::open_reports::accounts::ReceiptsByAccount;
use crate::open_reports::entry::{ReceiptEntry, ReportEntry, StatusEntry};
use sms_base::{MessageId, Moment};
use sms_centre_rows::reports::{ReportKind, ReportRow};
use sms_rows::index::Index;
use sms_rows::table::Key;
use std::alloc::{AllocError, Global};
use std::marker::Model;

// Seconds until a status report is dropped.
const STATUS_LIMIT: u64 = 172_800;

impl ReportEntry {
    // What memory has of it as an open report.
    fn unless_done(&self) -> Option<ReportEntry>
        ensures { result ≡ unless_done self.now }
    {
        if self.progress.is_done {
            None
        } else {
            Some(*self)
        }
    }

    // What memory has of it as a receipt.
    fn receipt(&self) -> Option<ReceiptEntry>
        ensures { result ≡ receipt_of self.now }
    {
        if self.progress.is_done {
            return None;
        }
        Some(ReceiptEntry {
            place: self.place,
            id: self.id,
            due: self.progress.due,
        })
    }

    // What memory has of it as a status report.
    fn status(&self) -> Option<StatusEntry>
        ensures { result ≡ status_of self.now }
    {
        if self.progress.is_done {
            return None;
        }
        Some(StatusEntry {
            place: self.place,
            id: self.id,
            until: self.made.plus(STATUS_LIMIT),
        })
    }
}

/// The open reports, without their TPDUs. They are found by their messages, by their accounts and by the moment at
/// which they are dropped. Copies share them, so that an event changes a copy at the cost of what it touches.
#[derive(Drop)]
pub struct OpenReports {
    alloc: Global,
    open_reports: Index<ReportEntry>,
    statuses: Index<StatusEntry>,
    accounts: ReceiptsByAccount,
    next: u64,
}

impl Model for OpenReports {
    ghost use Rattle.sms_centre_reports.specs.open_reports.OpenReports.{OpenReportsOf};

    ghost Value = { OpenReportsOf };

    ghost view = { λ r. record { open_reports = r.open_reports; statuses = r.statuses; accounts = r.accounts; next = r.next } };
}

impl OpenReports {
    /// No reports.
    pub fn new(alloc: Global) -> OpenReports
        ensures { (messages : List MessageRowOf) → Represents messages result [] }
    {
        OpenReports {
            alloc,
            open_reports: Index::new(alloc),
            statuses: Index::new(alloc),
            accounts: ReceiptsByAccount::new(),
            next: 1,
        }
    }

    /// A copy that shares all reports. It costs equally much however many there are.
    pub fn share(&self) -> Result<OpenReports, AllocError>
        ensures { IfOk result (λ copy. copy ≡ self.now) }
    {
        let open_reports = self.open_reports.share()?;
        let statuses = self.statuses.share()?;
        let accounts = self.accounts.share()?;
        Ok(OpenReports {
            alloc: self.alloc,
            open_reports,
            statuses,
            accounts,
            next: self.next,
        })
    }

    /// The report of the message, if it is open.
    pub fn find(&self, id: MessageId) -> Option<ReportEntry>
        ensures looked_up { result ≡ row_at entry_key id self.now.open_reports }
        ensures found { (messages : List MessageRowOf) (rows : List ReportRowOf) → Represents messages self.now rows
            → result ≡ pick_of open_entry (report_of id rows) }
    {
        self.open_reports.find(Key::of(id.number()))
    }

    /// The first receipt of the account from that place on that is due.
    pub fn first_due(&self, account: &[u8], first: u64, now: Moment) -> Option<ReceiptEntry>
        ensures { result ≡ first_such (is_past_from receipt_key receipt_due first now) (receipts_at account.now self.now.accounts) }
    {
        self.accounts.first_past(account, Key::of(first), now)
    }

    /// The first receipt of the account from that place on that isn't due yet.
    pub fn first_put_off(&self, account: &[u8], first: u64, now: Moment) -> Option<ReceiptEntry>
        ensures { result ≡ first_such (is_ahead_from receipt_key receipt_due first now) (receipts_at account.now self.now.accounts) }
    {
        self.accounts.first_ahead(account, Key::of(first), now)
    }

    /// The first open status report from that place on that is dropped at that moment.
    pub fn first_old(&self, first: u64, now: Moment) -> Option<StatusEntry>
        ensures { result ≡ first_such (is_past_from status_key status_until first now) self.now.statuses }
    {
        self.statuses.first_past(Key::of(first), now)
    }

    // The place of the next report, which is given away. More than 2^64 - 1 reports have no memory.
    pub(crate) fn give_place(&mut self) -> Result<u64, AllocError>
        ensures place { IfOk result (λ place. place ≡ self.old.next) }
        ensures next { OnOk result (self.new ≡ record self.old { next = self.old.next + 1 }) }
    {
        let place = self.next;
        match place.checked_add(1) {
            Some(next) => self.next = next,
            None => return Err(AllocError),
        }
        Ok(place)
    }

    // The receipt of the account is so.
    pub(crate) fn keep_receipt(
        &mut self,
        account: &[u8],
        entry: &ReportEntry,
    ) -> Result<(), AllocError>
        ensures { OnOk result (self.new ≡ keeping_receipt account.now entry.now self.old) }
    {
        let key = Key::of(entry.id.number());
        self.open_reports.set(key, entry.unless_done())?;
        self.accounts = self
            .accounts
            .with(self.alloc, account, entry.place, entry.receipt())?;
        Ok(())
    }

    // The status report is so.
    pub(crate) fn keep_status(&mut self, entry: &ReportEntry) -> Result<(), AllocError>
        ensures { OnOk result (self.new ≡ keeping_status entry.now self.old) }
    {
        let key = Key::of(entry.id.number());
        self.open_reports.set(key, entry.unless_done())?;
        self.statuses.set(Key::of(entry.place), entry.status())?;
        Ok(())
    }

    // What is open of the row.
    fn keep(&mut self, row: &ReportRow, account: &[u8]) -> Result<(), AllocError>
        ensures { OnOk result (self.new ≡ keeping account.now row.now self.old) }
    {
        if row.progress.is_done {
            return Ok(());
        }
        match &row.kind {
            ReportKind::Receipt => self.keep_receipt(account, &entry_of(row, None)),
            ReportKind::Status { reference, .. } => {
                self.keep_status(&entry_of(row, Some(*reference)))
            }
            ReportKind::Unsent => Ok(()),
        }
    }

    /// Adds a row behind all others; a receipt is of a message of that account.
    pub fn add(&mut self, row: &ReportRow, account: &[u8]) -> Result<(), AllocError>
        ensures { (messages : List MessageRowOf) (rows : List ReportRowOf) → Represents messages self.old rows
            → ((s : ReportRowOf) → Among s rows → s.place < row.now.place) → report_of row.now.id rows ≡ None
            → (is_receipt row.now.kind ≡ true → account_in (message_at row.now.id messages) ≡ Some account.now) → OnOk result
            (Represents messages self.new (rows ++ row.now ∷ [])) }
    {
        self.keep(row, account)?;
        self.set_next_after(row.place)?;
        Ok(())
    }

    // The place of the next report is behind that place.
    fn set_next_after(&mut self, place: u64) -> Result<(), AllocError>
        ensures { OnOk result (self.new ≡ record self.old { next = place + 1 }) }
    {
        match place.checked_add(1) {
            Some(next) => {
                self.next = next;
                Ok(())
            }
            None => Err(AllocError),
        }
    }
}

// The row without its TPDU.
pub(crate) fn entry_of(row: &ReportRow, reference: Option<u8>) -> ReportEntry
    ensures { result ≡ record (report_entry row.now) { reference = reference } }
{
    ReportEntry {
        id: row.id,
        place: row.place,
        reference,
        made: row.made,
        progress: row.progress,
    }
}
