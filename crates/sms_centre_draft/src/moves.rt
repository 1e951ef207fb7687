//! Moves of the centre: one change of what it keeps each.
ghost use Rattle.std.specs.Prelude.{◌≡◌, Some, true, false, OnOk};
ghost use Rattle.sms_centre_rows.specs.messages.Messages.{ended as ended_of, is_pending, message_at, part_at};
ghost use Rattle.sms_centre_rows.specs.messages.PartEntries.{part_entry};
ghost use Rattle.sms_centre_rows.specs.declared.messages.part.PartRow.{PartRow as PartRowOf};
ghost use Rattle.sms_centre_reports.specs.open_reports.Entries.{report_entry};
ghost use Rattle.sms_centre_rows.specs.reports.Reports.{is_open_status, is_status, report_of};
ghost use Rattle.sms_centre_rows.specs.declared.reports.report.ReportRow.{ReportRow as ReportRowOf};
ghost use Rattle.sms_centre_spec.specs.Draft.{Draft, in_store, messages_in, parts_in, reports_in, with_message, with_part_at, with_report_at};
ghost use Rattle.sms_centre_draft.specs.CentreDraft.{Represents};

use crate::centre_draft::CentreDraft;
use crate::queues::{put_off, put_report_off, remove_report};
use crate::rows::ended;
use sms_base::FinalState;
use sms_centre_reports::open_reports::ReportEntry;
use sms_centre_rows::messages::{MessageRow, PartEntry};
use sms_centre_rows::waiting::Progress;
use std::alloc::AllocError;

impl<'a> CentreDraft<'a> {
    /// The message, which is pending, has ended so: no part of it waits any more.
    pub(crate) fn put_ended(
        &mut self,
        state: FinalState,
        message: &MessageRow,
    ) -> Result<(), AllocError>
        ensures { (d : Draft) → Represents d self.old → message_at message.now.id (messages_in d.store) ≡ Some message.now → is_pending message.now ≡ true
            → OnOk result (Represents (in_store (with_message (ended_of state d.store.moment message.now) d.store) d) self.new) }
    {
        let row = ended(self.alloc, state, self.moment, message)?;
        self.messages.put_message(row)?;
        self.queues.withdraw(message.handset, message.id)?;
        Ok(())
    }

    /// The part of that message is done with: it waits no more.
    pub fn part_done(
        &mut self,
        entry: &PartEntry,
        message: &MessageRow,
        progress: &Progress,
    ) -> Result<(), AllocError>
        ensures { (d : Draft) (p : PartRowOf) → Represents d self.old → part_at p.id p.number (parts_in d.store) ≡ Some p → part_entry p ≡ entry.now
            → message_at p.id (messages_in d.store) ≡ Some message.now → progress.now.is_done ≡ true
            → OnOk result (Represents (in_store (with_part_at p progress.now d.store) d) self.new) }
    {
        self.messages.amend_part(entry, progress)?;
        self.queues.remove(message.handset, entry.id, entry.number)?;
        Ok(())
    }

    /// The part of that message, which is pending, waits until another moment.
    pub fn part_off(
        &mut self,
        entry: &PartEntry,
        message: &MessageRow,
        progress: &Progress,
    ) -> Result<(), AllocError>
        ensures { (d : Draft) (p : PartRowOf) → Represents d self.old → part_at p.id p.number (parts_in d.store) ≡ Some p → part_entry p ≡ entry.now
            → message_at p.id (messages_in d.store) ≡ Some message.now → is_pending message.now ≡ true → p.progress.is_done ≡ false
            → progress.now.is_done ≡ false
            → OnOk result (Represents (in_store (with_part_at p progress.now d.store) d) self.new) }
    {
        self.messages.amend_part(entry, progress)?;
        put_off(
            &mut self.queues,
            message.handset,
            entry.id,
            entry.number,
            progress.due,
        )?;
        Ok(())
    }

    /// The status report of that message is done with: it waits no more.
    pub(crate) fn status_done(
        &mut self,
        entry: &ReportEntry,
        message: &MessageRow,
        progress: &Progress,
    ) -> Result<(), AllocError>
        ensures { (d : Draft) (r : ReportRowOf) → Represents d self.old → report_of r.id (reports_in d.store) ≡ Some r → entry.now ≡ report_entry r
            → is_status r.kind ≡ true
            → message_at r.id (messages_in d.store) ≡ Some message.now → progress.now.is_done ≡ true
            → OnOk result (Represents (in_store (with_report_at r progress.now d.store) d) self.new) }
    {
        self.reports.amend_status(entry, progress)?;
        remove_report(&mut self.queues, &message.source.digits, entry.id)?;
        Ok(())
    }

    /// The status report of that message waits until another moment.
    pub(crate) fn status_off(
        &mut self,
        entry: &ReportEntry,
        message: &MessageRow,
        progress: &Progress,
    ) -> Result<(), AllocError>
        ensures { (d : Draft) (r : ReportRowOf) → Represents d self.old → report_of r.id (reports_in d.store) ≡ Some r → entry.now ≡ report_entry r
            → is_open_status r ≡ true
            → message_at r.id (messages_in d.store) ≡ Some message.now → progress.now.is_done ≡ false
            → OnOk result (Represents (in_store (with_report_at r progress.now d.store) d) self.new) }
    {
        self.reports.amend_status(entry, progress)?;
        put_report_off(
            &mut self.queues,
            &message.source.digits,
            entry.id,
            progress.due,
        )?;
        Ok(())
    }
}
