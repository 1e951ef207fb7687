//! Questions of an event over many handsets or reports, and the receipts that it sends.
ghost use Rattle.std.specs.Prelude.{◌≡◌, IfOk, OnOk};
ghost use Rattle.sms_centre_reports.specs.open_reports.Entries.{status_key, status_until};
ghost use Rattle.sms_rows.specs.index.First.{first_such, is_past_from};
ghost use Rattle.sms_centre_queue.specs.queues.Stops.{found};
ghost use Rattle.sms_centre_spec.specs.Draft.{Draft, handsets_in};
ghost use Rattle.sms_centre_spec.specs.Sessions.{send as send_of};
ghost use Rattle.sms_centre_draft.specs.CentreDraft.{Represents, all_waiting};

use crate::centre_draft::CentreDraft;
use sms_centre_queue::queues::{Concern, ConcernedHandset};
use sms_centre_reports::open_reports::StatusEntry;
use std::alloc::AllocError;

impl<'a> CentreDraft<'a> {
    /// The handsets that such a walk concerns in the present draft, in the order in which it walks over them.
    pub fn stops(&self, purpose: &Concern) -> Result<Vec<ConcernedHandset>, AllocError>
        ensures { (d : Draft) → Represents d self.now → IfOk result
            (λ stops. stops.items ≡ found purpose.now (handsets_in d.store) d.links.all (all_waiting d.store)) }
    {
        let stops = self.queues.stops(purpose)?;
        Ok(stops)
    }

    /// The first open status report from that place on that is dropped by now.
    pub fn first_old(&self, first: u64) -> Option<StatusEntry>
        ensures { result ≡ first_such (is_past_from status_key status_until first self.now.moment) self.now.reports.current.statuses }
    {
        self.reports.first_old(first, self.moment)
    }

    /// Sends the receipts that are due, the oldest first, each in the session that receives for its account and has the fewest
    /// unanswered, if that has room.
    pub fn send(&mut self) -> Result<(), AllocError>
        ensures { (d : Draft) → Represents d self.old → OnOk result (Represents (send_of d) self.new) }
    {
        self.bindings.send(&self.reports, self.moment)?;
        Ok(())
    }
}
