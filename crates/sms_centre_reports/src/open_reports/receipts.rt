//! What becomes of receipts in the middle of an event: they are answered, put off, and due again.
ghost use Rattle.std.specs.Prelude.{◌≡◌, ℕ, List, Some, OnOk, true};
ghost use Rattle.sms_base.specs.Among.{Among};
ghost use Rattle.sms_centre_reports.specs.open_reports.Awaited.{IsAwaited};
ghost use Rattle.sms_centre_reports.specs.open_reports.Entries.{account_in};
ghost use Rattle.sms_centre_reports.specs.open_reports.OpenReportsDraft.{DraftRepresents};
ghost use Rattle.sms_centre_reports.specs.open_reports.ReceiptMoves.{moved};
ghost use Rattle.sms_centre_rows.specs.messages.Messages.{message_at};
ghost use Rattle.sms_centre_rows.specs.declared.messages.message.MessageRow.{MessageRow as MessageRowOf};
ghost use Rattle.sms_centre_rows.specs.reports.Receipts.{all_tried, receipt_ended, receipts_due};
ghost use Rattle.sms_centre_rows.specs.reports.Reports.{amend_report, is_open_receipt, report_of, reports_of};
ghost use Rattle.sms_centre_rows.specs.declared.reports.report.ReportRow.{ReportRow as ReportRowOf};
ghost use Rattle.sms_centre_rows.specs.waiting.Revisions.{Revised};

use crate::open_reports::draft::OpenReportsDraft;
use crate::open_reports::receipt_move::ReceiptMove;
use sms_base::{MessageId, Moment};
use std::alloc::AllocError;

impl OpenReportsDraft {
    // That becomes of the receipt of the account's message.
    fn move_receipt(
        &mut self,
        account: &[u8],
        id: MessageId,
        becomes: ReceiptMove,
    ) -> Result<(), AllocError>
        ensures { (messages : List MessageRowOf) (t : Revised ReportRowOf) (r : ReportRowOf) → DraftRepresents messages self.old t
            → report_of id (reports_of t) ≡ Some r → is_open_receipt r ≡ true
            → account_in (message_at id messages) ≡ Some account.now → OnOk result
            (DraftRepresents messages self.new (amend_report r (moved becomes r.progress) t)) }
    {
        let Some(entry) = self.find(id) else {
            return Ok(());
        };
        let progress = becomes.progress(&entry.progress);
        self.amend_receipt(account, &entry, &progress)?;
        Ok(())
    }

    /// The receipt of the account's message, which was sent and not answered yet, was accepted, or is sent again after
    /// a minute.
    pub fn end_receipt(
        &mut self,
        account: &[u8],
        id: MessageId,
        is_accepted: bool,
        now: Moment,
    ) -> Result<(), AllocError>
        ensures { (messages : List MessageRowOf) (t : Revised ReportRowOf) → DraftRepresents messages self.old t
            → IsAwaited messages (reports_of t) account.now id
            → OnOk result (DraftRepresents messages self.new (receipt_ended is_accepted now (report_of id (reports_of t)) t)) }
    {
        if is_accepted {
            self.move_receipt(account, id, ReceiptMove::Accepted)?;
        } else {
            self.move_receipt(account, id, ReceiptMove::PutOff(now))?;
        }
        Ok(())
    }

    /// The receipts of the account's messages, which were sent and not answered yet, are sent again after a minute.
    pub fn put_off_receipts(
        &mut self,
        account: &[u8],
        ids: &[MessageId],
        now: Moment,
    ) -> Result<(), AllocError>
        ensures { (messages : List MessageRowOf) (t : Revised ReportRowOf) → DraftRepresents messages self.old t
            → ((id : ℕ) → Among id ids.now → IsAwaited messages (reports_of t) account.now id)
            → OnOk result (DraftRepresents messages self.new (all_tried now ids.now t)) }
    {
        for id in ids {
            self.end_receipt(account, *id, false, now)?;
        }
        Ok(())
    }

    /// The receipts of the account that wait for their minute are due now.
    pub fn hasten_receipts(&mut self, account: &[u8], now: Moment) -> Result<(), AllocError>
        ensures { (messages : List MessageRowOf) (t : Revised ReportRowOf) → DraftRepresents messages self.old t
            → OnOk result (DraftRepresents messages self.new (receipts_due now account.now messages (reports_of t) t)) }
    {
        let mut first = 0;
        'coming: loop {
            let Some(receipt) = self.first_put_off(account, first, now) else {
                return Ok(());
            };
            self.move_receipt(account, receipt.id, ReceiptMove::Due(now))?;
            first = receipt.place_behind()?;
        }
    }
}
