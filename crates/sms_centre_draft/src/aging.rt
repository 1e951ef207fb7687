//! Messages that expire, and status reports that are dropped.
ghost use Rattle.std.specs.Prelude.{◌≡◌, ◌&&◌, Some, nat_le, true, IfOk, OnOk};
ghost use Rattle.sms_centre_rows.specs.messages.Messages.{is_pending, message_at};
ghost use Rattle.sms_centre_rows.specs.reports.Reports.{is_open_status, report_of};
ghost use Rattle.sms_centre_rows.specs.declared.reports.report.ReportRow.{ReportRow as ReportRowOf};
ghost use Rattle.sms_centre_spec.specs.Draft.{Draft, in_store, messages_in, reports_in};
ghost use Rattle.sms_centre_spec.specs.Transfers.{report_closed};
ghost use Rattle.sms_centre_draft.specs.Aging.{expired_one};
ghost use Rattle.sms_centre_draft.specs.CentreDraft.{Represents};

use crate::centre_draft::CentreDraft;
use sms_base::{FinalState, MessageId, Moment};
use sms_centre_rows::messages::MessageRow;
use std::alloc::AllocError;

// It is pending, and its time has ended.
fn is_past(message: &MessageRow, now: Moment) -> bool
    ensures { result ≡ (is_pending message.now && nat_le message.now.limit now) }
{
    message.state.is_none() && message.limit.seconds() <= now.seconds()
}

impl<'a> CentreDraft<'a> {
    /// The message expires, if it is pending and its time has ended.
    pub fn expire(&mut self, message: &MessageRow) -> Result<(), AllocError>
        ensures { (d : Draft) → Represents d self.old → message_at message.now.id (messages_in d.store) ≡ Some message.now
            → OnOk result (Represents (in_store (expired_one message.now d.store) d) self.new) }
    {
        let now = self.now();
        if is_past(message, now) {
            return self.end(FinalState::Expired, message);
        }
        Ok(())
    }

    /// The message of that number, in memory of its own.
    pub fn find(&self, id: MessageId) -> Result<Option<MessageRow>, AllocError>
        ensures { (d : Draft) → Represents d self.now → IfOk result (λ row. row ≡ message_at id (messages_in d.store)) }
    {
        let row = self.messages.find(id)?;
        Ok(row)
    }

    /// The status report of the message, which is open, is dropped.
    pub fn drop_status(&mut self, id: MessageId) -> Result<(), AllocError>
        ensures { (d : Draft) (r : ReportRowOf) → Represents d self.old → report_of id (reports_in d.store) ≡ Some r → is_open_status r ≡ true
            → OnOk result (Represents (in_store (report_closed r d.store) d) self.new) }
    {
        let found = self.open_status(id)?;
        match found {
            Some((entry, message)) => self.close_status(&entry, &message),
            None => Ok(()),
        }
    }
}
