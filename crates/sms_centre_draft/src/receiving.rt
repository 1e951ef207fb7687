//! All that waits for a handset becomes due: it has memory (3GPP TS 24.011 7.3.2), or it can be reached.
ghost use Rattle.std.specs.Prelude.{◌≡◌, ℕ, true, false, OnOk, IfOk};
ghost use Rattle.sms_base.specs.Among.{Among};
ghost use Rattle.sms_centre_rows.specs.waiting.Links.{emptied, link_of, put_link, raised};
ghost use Rattle.sms_centre_rows.specs.waiting.Trying.{due_at as due_at_of};
ghost use Rattle.sms_centre_rows.specs.declared.waiting.queued_part.QueuedPart.{QueuedPart as QueuedOf};
ghost use Rattle.sms_centre_rows.specs.messages.Messages.{part_at};
ghost use Rattle.sms_centre_rows.specs.reports.Reports.{report_of};
ghost use Rattle.sms_centre_spec.specs.CentreEvent.{raise as raise_of};
ghost use Rattle.sms_centre_spec.specs.Draft.{Draft, in_store, on_links, parts_in, reports_in, waiting_in};
ghost use Rattle.sms_centre_spec.specs.Receiving.{all_due as all_due_of, due_now as due_now_of, empty_link, has_memory as has_memory_of};
ghost use Rattle.sms_centre_spec.specs.Receiving.{queued_due as queued_due_of, part_due as part_due_of, report_due as report_due_of};
ghost use Rattle.sms_centre_spec.specs.Transfers.{is_open_part_at, is_open_status_at};
ghost use Rattle.sms_centre_draft.specs.DueNow.{IsOpenQueued};
ghost use Rattle.sms_centre_draft.specs.CentreDraft.{Represents};

use crate::centre_draft::CentreDraft;
use sms_base::{MessageId, Moment, Msisdn};
use sms_centre_rows::waiting::{Progress, QueuedPart};
use sms_intake::CentreAccount;
use std::alloc::AllocError;

// It is tried at that moment.
fn due_at(moment: Moment, progress: &Progress) -> Progress
    ensures { result ≡ due_at_of moment progress.now }
{
    Progress {
        is_done: progress.is_done,
        attempts: progress.attempts,
        due: moment,
    }
}

impl<'a> CentreDraft<'a> {
    /// The moment of the event.
    pub fn now(&self) -> Moment
        ensures { (d : Draft) → Represents d self.now → result ≡ d.store.moment }
    {
        self.moment
    }

    /// The accounts of the centre.
    pub fn accounts(&self) -> &[CentreAccount]
        ensures { (d : Draft) → Represents d self.now → result.now ≡ d.store.setup.accounts }
    {
        self.setup.accounts.as_slice()
    }

    // The part, which waits, is due now.
    fn part_due(&mut self, id: MessageId, number: u8) -> Result<(), AllocError>
        ensures { (d : Draft) → Represents d self.old → is_open_part_at (part_at id number (parts_in d.store)) d.store ≡ true
            → OnOk result (Represents (in_store (part_due_of (part_at id number (parts_in d.store)) d.store) d) self.new) }
    {
        let found = self.open_part(id, number)?;
        match found {
            Some((entry, message)) => {
                let progress = due_at(self.now(), &entry.progress);
                self.part_off(&entry, &message, &progress)
            }
            None => Ok(()),
        }
    }

    // The status report, which waits, is due now.
    fn status_due(&mut self, id: MessageId) -> Result<(), AllocError>
        ensures { (d : Draft) → Represents d self.old → is_open_status_at (report_of id (reports_in d.store)) ≡ true
            → OnOk result (Represents (in_store (report_due_of (report_of id (reports_in d.store)) d.store) d) self.new) }
    {
        let found = self.open_status(id)?;
        match found {
            Some((entry, message)) => {
                let progress = due_at(self.now(), &entry.progress);
                self.status_off(&entry, &message, &progress)
            }
            None => Ok(()),
        }
    }

    // That one of what waits is due now.
    fn queued_due(&mut self, queued: &QueuedPart) -> Result<(), AllocError>
        ensures { (d : Draft) → Represents d self.old → IsOpenQueued queued.now d.store
            → OnOk result (Represents (in_store (queued_due_of queued.now d.store) d) self.new) }
    {
        if queued.number == 0 {
            return self.status_due(queued.id);
        }
        self.part_due(queued.id, queued.number)
    }

    // All of them are due now.
    pub(crate) fn all_due(&mut self, all_queued: &[QueuedPart]) -> Result<(), AllocError>
        ensures { (d : Draft) → Represents d self.old → ((l : QueuedOf) → Among l all_queued.now → IsOpenQueued l d.store)
            → OnOk result (Represents (in_store (all_due_of all_queued.now d.store) d) self.new) }
    {
        for queued in all_queued {
            self.queued_due(queued)?;
        }
        Ok(())
    }

    // What waits for the handset, in memory of its own.
    pub(crate) fn waiting(&self, handset: Msisdn) -> Result<Vec<QueuedPart>, AllocError>
        ensures { (d : Draft) → Represents d self.now → IfOk result (λ all_queued. all_queued.items ≡ waiting_in handset d.store) }
    {
        let all_queued = self.queues.waiting(&handset)?;
        Ok(all_queued)
    }

    /// All that waits for the handset is due now.
    pub fn due_now(&mut self, handset: Msisdn) -> Result<(), AllocError>
        ensures { (d : Draft) → Represents d self.old → OnOk result (Represents (in_store (due_now_of handset d.store) d) self.new) }
    {
        let all_queued = self.waiting(handset)?;
        self.all_due(all_queued.as_slice())
    }

    // The handset has memory again.
    fn empty(&mut self, handset: Msisdn) -> Result<(), AllocError>
        ensures { (d : Draft) → Represents d self.old → OnOk result (Represents (on_links (empty_link handset d.links) d) self.new) }
    {
        self.queues.empty(handset)?;
        Ok(())
    }

    /// The handset has memory, and all that waits for it is due now.
    pub fn has_memory(&mut self, handset: Msisdn) -> Result<(), AllocError>
        ensures { (d : Draft) → Represents d self.old → OnOk result (Represents (has_memory_of handset d) self.new) }
    {
        self.due_now(handset)?;
        self.empty(handset)
    }

    // The link of the handset is up.
    fn raise_link(&mut self, handset: Msisdn) -> Result<(), AllocError>
        ensures { (d : Draft) → Represents d self.old → OnOk result
            (Represents (on_links (put_link (raised (link_of handset d.links.all)) d.links) d) self.new) }
    {
        self.queues.raise(handset)?;
        Ok(())
    }

    /// The handset can be reached: it has memory, and all that waits for it is due now.
    pub fn raise(&mut self, handset: Msisdn) -> Result<(), AllocError>
        ensures { (d : Draft) → Represents d self.old → OnOk result (Represents (raise_of handset d) self.new) }
    {
        self.due_now(handset)?;
        self.raise_link(handset)
    }
}
