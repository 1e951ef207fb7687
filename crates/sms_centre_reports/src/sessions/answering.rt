//! Receipts are answered, and sessions end and are bound.
ghost use Rattle.std.specs.Prelude.{◌≡◌, List, OnOk};
ghost use Rattle.sms_centre_reports.specs.open_reports.OpenReportsDraft.{DraftRepresents};
ghost use Rattle.sms_centre_rows.specs.declared.messages.message.MessageRow.{MessageRow as MessageRowOf};
ghost use Rattle.sms_centre_rows.specs.reports.Reports.{reports_of};
ghost use Rattle.sms_centre_rows.specs.declared.reports.report.ReportRow.{ReportRow as ReportRowOf};
ghost use Rattle.sms_centre_reports.specs.sessions.Answering.{bindings_answered, bindings_bound, bindings_unbound, reports_answered, reports_bound};
ghost use Rattle.sms_centre_reports.specs.sessions.Answering.{reports_unbound};
ghost use Rattle.sms_centre_reports.specs.sessions.Awaited.{AreAwaited};
ghost use Rattle.sms_centre_rows.specs.waiting.Revisions.{Revised};

use crate::open_reports::OpenReportsDraft;
use crate::sessions::bindings_draft::BindingsDraft;
use crate::sessions::session::ReceiptSession;
use sms_base::{MessageId, Moment};
use std::alloc::AllocError;

impl BindingsDraft {
    /// The receipt of the message was accepted in the session, or was refused and is sent again after a minute. What
    /// wasn't sent in the session isn't answered there.
    pub fn deliver_answered(
        &mut self,
        reports: &mut OpenReportsDraft,
        session: u32,
        id: MessageId,
        is_accepted: bool,
        now: Moment,
    ) -> Result<(), AllocError>
        ensures bindings { OnOk result (self.new ≡ bindings_answered session id self.old) }
        ensures reports { (messages : List MessageRowOf) (t : Revised ReportRowOf) → DraftRepresents messages reports.old t
            → AreAwaited messages (reports_of t) self.old.sessions
            → OnOk result (DraftRepresents messages reports.new (reports_answered session id is_accepted now self.old.sessions t)) }
    {
        let Some(seat) = self.session(session) else {
            return Ok(());
        };
        if !seat.awaits(id) {
            return Ok(());
        }
        let answered = seat.without(self.alloc, id)?;
        reports.end_receipt(seat.account(), id, is_accepted, now)?;
        self.put(answered)?;
        Ok(())
    }

    /// The session ends, if it is bound: the receipts that were sent in it and not answered are sent again after a
    /// minute.
    pub fn unbind(
        &mut self,
        reports: &mut OpenReportsDraft,
        session: u32,
        now: Moment,
    ) -> Result<(), AllocError>
        ensures bindings { OnOk result (self.new ≡ bindings_unbound session self.old) }
        ensures reports { (messages : List MessageRowOf) (t : Revised ReportRowOf) → DraftRepresents messages reports.old t
            → AreAwaited messages (reports_of t) self.old.sessions
            → OnOk result (DraftRepresents messages reports.new (reports_unbound session now self.old.sessions t)) }
    {
        let Some(seat) = self.session(session) else {
            return Ok(());
        };
        reports.put_off_receipts(seat.account(), seat.unanswered(), now)?;
        self.remove(session);
        Ok(())
    }

    /// A session of the account is bound; one of its number that was bound before is bound no longer. If it takes receipts, those of
    /// the account that wait for their minute are due now.
    pub fn bind(
        &mut self,
        reports: &mut OpenReportsDraft,
        session: u32,
        account: &[u8],
        receives: bool,
        now: Moment,
    ) -> Result<(), AllocError>
        ensures bindings { OnOk result (self.new ≡ bindings_bound session account.now receives self.old) }
        ensures reports { (messages : List MessageRowOf) (t : Revised ReportRowOf) → DraftRepresents messages reports.old t
            → AreAwaited messages (reports_of t) self.old.sessions
            → OnOk result (DraftRepresents messages reports.new (reports_bound session account.now receives now self.old.sessions messages t)) }
    {
        self.unbind(reports, session, now)?;
        if receives {
            reports.hasten_receipts(account, now)?;
        }
        let seat = ReceiptSession::new(self.alloc, session, account, receives)?;
        self.put(seat)?;
        Ok(())
    }
}
