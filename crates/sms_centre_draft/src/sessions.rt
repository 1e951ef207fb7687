//! What sessions of applications do with receipts.
ghost use Rattle.std.specs.Prelude.{OnOk};
ghost use Rattle.sms_centre_reports.specs.sessions.Awaited.{AreAwaited};
ghost use Rattle.sms_centre_spec.specs.Draft.{Draft, messages_in, reports_in};
ghost use Rattle.sms_centre_spec.specs.Sessions.{deliver_answered as deliver_answered_of, unbind as unbind_of};
ghost use Rattle.sms_centre_draft.specs.CentreDraft.{Represents};

use crate::centre_draft::CentreDraft;
use sms_base::MessageId;
use std::alloc::AllocError;

impl<'a> CentreDraft<'a> {
    /// The receipt of the message was accepted in the session, or was refused and is sent again after a minute. What
    /// wasn't sent in the session isn't answered there.
    pub fn deliver_answered(
        &mut self,
        session: u32,
        id: MessageId,
        is_accepted: bool,
    ) -> Result<(), AllocError>
        ensures { (d : Draft) → Represents d self.old → AreAwaited (messages_in d.store) (reports_in d.store) d.bindings.sessions
            → OnOk result (Represents (deliver_answered_of session id is_accepted d) self.new) }
    {
        self.bindings
            .deliver_answered(&mut self.reports, session, id, is_accepted, self.moment)?;
        Ok(())
    }

    /// The session ends, if it is bound: the receipts that were sent in it and not answered are sent again after a
    /// minute.
    pub fn unbind(&mut self, session: u32) -> Result<(), AllocError>
        ensures { (d : Draft) → Represents d self.old → AreAwaited (messages_in d.store) (reports_in d.store) d.bindings.sessions
            → OnOk result (Represents (unbind_of session d) self.new) }
    {
        self.bindings
            .unbind(&mut self.reports, session, self.moment)?;
        Ok(())
    }
}
