//! Receipts are sent: the oldest first, each in the session that serves its account.
ghost use Rattle.std.specs.Prelude.{◌≡◌, ◌≤◌, List, Some, IfOk, IfSome, OnOk, option_map};
ghost use Rattle.sms_centre_reports.specs.open_reports.Entries.{receipt_key};
ghost use Rattle.sms_centre_reports.specs.open_reports.OpenReports.{receipts_at};
ghost use Rattle.sms_centre_reports.specs.open_reports.OpenReportsDraft.{DraftRepresents};
ghost use Rattle.sms_centre_reports.specs.open_reports.Serving.{is_ready, is_session, next_among, next_from, next_in, serving};
ghost use Rattle.sms_rows.specs.index.First.{first_such};
ghost use Rattle.sms_centre_rows.specs.declared.messages.message.MessageRow.{MessageRow as MessageRowOf};
ghost use Rattle.sms_centre_rows.specs.reports.Receipts.{Session, send_all, send_in, session_key};
ghost use Rattle.sms_centre_rows.specs.reports.Reports.{reports_of};
ghost use Rattle.sms_centre_rows.specs.declared.reports.report.ReportRow.{ReportRow as ReportRowOf};
ghost use Rattle.sms_centre_reports.specs.sessions.SessionReceipts.{earlier_to_send, receipt_to_send};
ghost use Rattle.sms_rows.specs.table.Table.{Rises, row_at};
ghost use Rattle.sms_centre_rows.specs.waiting.Revisions.{Revised};

use crate::open_reports::{OpenReportsDraft, ReceiptEntry};
use crate::sessions::bindings_draft::BindingsDraft;
use crate::sessions::session::ReceiptSession;
use sms_base::{MessageId, Moment};
use sms_centre_rows::reports::Delivery;
use std::alloc::AllocError;

// How many receipts may be unanswered in a session.
const WINDOW: usize = 10;

/// A receipt to send, in the session of that number.
#[derive(Clone, Copy)]
pub(crate) struct ReceiptToSend {
    pub(crate) session: u32,
    pub(crate) receipt: ReceiptEntry,
}

impl BindingsDraft {
    /// Sends the receipts that are due, the oldest first, each in the session that receives for its account and has the
    /// fewest unanswered, if that has room. It costs what it sends, and for each of them a look at each two sessions.
    pub fn send(&mut self, reports: &OpenReportsDraft, now: Moment) -> Result<(), AllocError>
        ensures { (messages : List MessageRowOf) (t : Revised ReportRowOf) → DraftRepresents messages reports.now t
            → OnOk result (self.new ≡ send_all now messages (reports_of t) self.old) }
    {
        let mut first = 0;
        'sending: loop {
            let next = self.next(reports, first, now)?;
            let Some(going) = next else {
                return Ok(());
            };
            let ReceiptToSend { session, receipt } = going;
            self.send_in(session, receipt.id)?;
            first = receipt.place_behind()?;
        }
    }

    // The receipt of the message is sent in the session.
    fn send_in(&mut self, number: u32, id: MessageId) -> Result<(), AllocError>
        ensures { (s : Session) → row_at session_key number self.old.sessions ≡ Some s → OnOk result (self.new ≡ send_in id s self.old) }
    {
        let Some(seat) = self.session(number) else {
            return Ok(());
        };
        let sent = seat.with(self.alloc, id)?;
        self.put(sent)?;
        self.deliveries.push(Delivery {
            session: number,
            id,
        })?;
        Ok(())
    }

    // The receipt from that place on that is sent first, and its session.
    fn next(
        &self,
        reports: &OpenReportsDraft,
        first: u64,
        now: Moment,
    ) -> Result<Option<ReceiptToSend>, AllocError>
        ensures next { (messages : List MessageRowOf) (t : Revised ReportRowOf) → DraftRepresents messages reports.now t
            → IfOk result (λ going. going ≡ option_map receipt_to_send
            (next_among first now self.now.sessions reports.now.current.accounts self.now.sessions)) }
        ensures behind { IfOk result (λ going. IfSome going (λ g. first ≤ g.receipt.place)) }
        ensures order { Rises session_key self.now.sessions }
    {
        let seats = self.sessions.as_slice();
        let mut best = None;
        for seat in seats {
            let going = self.next_in(reports, seat, first, now)?;
            best = earlier(best, going);
        }
        Ok(best)
    }

    // The receipt from that place on that is sent first in the session.
    fn next_in(
        &self,
        reports: &OpenReportsDraft,
        seat: &ReceiptSession,
        first: u64,
        now: Moment,
    ) -> Result<Option<ReceiptToSend>, AllocError>
        ensures behind { IfOk result (λ going. IfSome going (λ g. first ≤ g.receipt.place)) }
        ensures next { (messages : List MessageRowOf) (t : Revised ReportRowOf) → DraftRepresents messages reports.now t
            → IfOk result (λ going. going ≡ option_map receipt_to_send
            (next_from seat.now (next_in first now self.now.sessions reports.now.current.accounts seat.now))) }
    {
        if !self.serves(seat) || seat.unanswered().len() >= WINDOW {
            return Ok(None);
        }
        match self.first_ready(reports, seat.account(), first, now)? {
            Some(receipt) => Ok(Some(ReceiptToSend {
                session: seat.number(),
                receipt,
            })),
            None => Ok(None),
        }
    }

    // Whether it is the session that receives for its account and has the fewest unanswered.
    fn serves(&self, seat: &ReceiptSession) -> bool
        ensures { result ≡ is_session seat.now (serving seat.now.account self.now.sessions) }
    {
        match self.serving(seat.account()) {
            Some(number) => number == seat.number(),
            None => false,
        }
    }

    // The first receipt of the account from that place on that is due and was not sent yet.
    fn first_ready(
        &self,
        reports: &OpenReportsDraft,
        account: &[u8],
        first: u64,
        now: Moment,
    ) -> Result<Option<ReceiptEntry>, AllocError>
        ensures behind { IfOk result (λ receipt. IfSome receipt (λ r. first ≤ r.place)) }
        ensures next { (messages : List MessageRowOf) (t : Revised ReportRowOf) → DraftRepresents messages reports.now t
            → IfOk result (λ receipt. receipt ≡ first_such (is_ready first now self.now.sessions) (receipts_at account.now reports.now.current.accounts)) }
    {
        let mut from = first;
        'passing: loop {
            let Some(receipt) = reports.first_due(account, from, now) else {
                return Ok(None);
            };
            if !self.is_unanswered(receipt.id) {
                return Ok(Some(receipt));
            }
            from = receipt.place_behind()?;
        }
    }
}

// The one of the two whose receipt was made earlier.
fn earlier(one: Option<ReceiptToSend>, other: Option<ReceiptToSend>) -> Option<ReceiptToSend>
    ensures { result ≡ earlier_to_send one other }
{
    let Some(first) = one else {
        return other;
    };
    let Some(second) = other else {
        return Some(first);
    };
    if first.receipt.place <= second.receipt.place {
        Some(first)
    } else {
        Some(second)
    }
}
