//! Messages that a centre forgets, each with its parts, its priority and its report.
ghost use Rattle.std.specs.Prelude.{◌≡◌, ℕ, List, OnOk};
ghost use Rattle.sms_centre_rows.specs.messages.Messages.{Messages};
ghost use Rattle.sms_centre_rows.specs.declared.messages.message.MessageRow.{MessageRow as MessageRowOf};
ghost use Rattle.sms_centre_rows.specs.declared.reports.report.ReportRow.{ReportRow as ReportRowOf};
ghost use Rattle.sms_centre_rows.specs.reports.Reports.{report_of, reports_of};
ghost use Rattle.sms_centre_rows.specs.waiting.Revisions.{Revised};
ghost use Rattle.sms_centre_messages.specs.message_index.MessageIndex.{DraftRepresents as RepresentsMessages};
ghost use Rattle.sms_centre_reports.specs.open_reports.OpenReportsDraft.{DraftRepresents};
ghost use Rattle.sms_centre_reports.specs.report_log.ReportLog.{Represents as LogRepresents};
ghost use Rattle.sms_centre_spec.specs.Draft.{Core, draft_of};
ghost use Rattle.sms_centre_spec.specs.SoundCore.{IsSoundCore};
ghost use Rattle.sms_centre_spec.specs.forgetting.Forget.{forget, going_now, message_out, report_out};
ghost use Rattle.sms_centre_draft.specs.CentreDraft.{Represents};
ghost use Rattle.sms_centre_draft.specs.Forgetting.{CanRemove, place_of};

use crate::centre_draft::CentreDraft;
use sms_base::MessageId;
use sms_centre_reports::open_reports::OpenReportsDraft;
use sms_centre_reports::report_log::ReportLog;
use std::alloc::AllocError;

// The report of the message goes, which is at that place, if it has one.
fn remove_report(
    reports: &mut OpenReportsDraft,
    id: MessageId,
    place: Option<u64>,
) -> Result<(), AllocError>
    ensures { (messages : List MessageRowOf) (t : Revised ReportRowOf) → DraftRepresents messages reports.old t → place ≡ place_of (report_of id (reports_of t))
        → CanRemove id t → OnOk result (DraftRepresents messages reports.new (report_out id t)) }
{
    match place {
        Some(place) => reports.remove(place),
        None => Ok(()),
    }
}

impl<'a> CentreDraft<'a> {
    /// The messages of these numbers go, which the centre may forget as the event begins, each with its parts, its priority and its
    /// report. The log is that of the centre's reports.
    pub fn forget(&mut self, ids: &[MessageId], log: &ReportLog) -> Result<(), AllocError>
        ensures { (before from most : ℕ) (c : Core) → IsSoundCore c → Represents (draft_of c) self.old → ids.now ≡ going_now before from most c
            → LogRepresents log.now c.rows.reports → OnOk result (Represents (forget before from most c) self.new) }
    {
        for id in ids {
            self.forget_one(*id, log.place_of(*id))?;
        }
        Ok(())
    }

    // Its report is at that place, if it has one.
    fn forget_one(&mut self, id: MessageId, place: Option<u64>) -> Result<(), AllocError>
        ensures messages { (m : Messages) → RepresentsMessages self.old.messages m → OnOk result (RepresentsMessages self.new.messages (message_out id m)) }
        ensures reports { (messages : List MessageRowOf) (t : Revised ReportRowOf) → DraftRepresents messages self.old.reports t
            → place ≡ place_of (report_of id (reports_of t)) → CanRemove id t
            → OnOk result (DraftRepresents messages self.new.reports (report_out id t)) }
        ensures rest { OnOk result (self.new ≡ record self.old { messages = self.new.messages; reports = self.new.reports }) }
    {
        self.messages.take_out(id)?;
        remove_report(&mut self.reports, id, place)?;
        Ok(())
    }
}
