//! A centre that starts again on its rows.
ghost use Rattle.std.specs.Prelude.{◌≡◌, ℕ, List, false, OnErr, OnOk};
ghost use Rattle.sms_centre_queue.specs.queues.Representing.{Represents as QueuesRepresent};
ghost use Rattle.sms_centre.specs.state.Recovering.{AreNew};
ghost use Rattle.sms_centre.specs.state.CentreState.{Represents as StateRepresents};
ghost use Rattle.sms_centre_recovery.specs.starting.Starting.{links_of};
ghost use Rattle.sms_centre_rows.specs.declared.waiting.handset.HandsetRow.{HandsetRow};
ghost use Rattle.sms_centre_rows.specs.declared.waiting.handset_link.HandsetLink.{HandsetLink};
ghost use Rattle.sms_centre_rows.specs.declared.waiting.queued_part.QueuedPart.{QueuedPart};
ghost use Rattle.sms_centre_rows.specs.declared.waiting.reference.ReferenceRow.{ReferenceRow};
ghost use Rattle.sms_centre_spec.specs.CentreEvent.{moment_of, recovered};
ghost use Rattle.sms_centre_spec.specs.Draft.{Core};
ghost use Rattle.sms_centre_spec.specs.SoundCore.{AreDifferent};

use crate::state::centre_state::CentreState;
use crate::state::queues::settled_anew;
use sms_base::{Moment, Msisdn, are_numbers};
use sms_centre_queue::queues::DeliveryQueues;
use sms_centre_reports::sessions::ReceiptSession;
use sms_rows::table::Table;
use std::alloc::{AllocError, Global};

impl CentreState {
    /// The centre starts again on its rows, as `recover` would make it of them anew. `moment` is the greatest that they
    /// have seen. What it keeps of messages and reports follows from rows alone and stays. So the cost is that of
    /// handsets and of what waits for them. Where it can't, it stays unchanged.
    ///
    /// # Errors
    /// A growth was refused.
    pub fn start_again(
        &mut self,
        alloc: Global,
        moment: Moment,
        handsets: &[Msisdn],
        sessions: Table<ReceiptSession>,
    ) -> Result<(), AllocError>
        requires apart { AreDifferent handsets.now }
        requires sessions { AreNew sessions.rows }
        ensures centre_state { OnOk result ((c : Core) → StateRepresents c self.old → moment ≡ moment_of c.rows
            → StateRepresents (recovered c.rows handsets.now sessions.rows) self.new) }
        ensures setup { self.new.setup ≡ self.old.setup }
        ensures same { OnErr result (self.new ≡ self.old) }
    {
        are_numbers(handsets);
        // By the clause of the call the sessions are in order.
        let _seats = sessions.as_slice();
        renew(alloc, handsets, moment, &mut self.queues)?;
        self.moment = moment;
        self.sessions = sessions;
        Ok(())
    }
}

// What waits for handsets stays, and all links are new.
fn renew(
    alloc: Global,
    handsets: &[Msisdn],
    now: Moment,
    queues: &mut DeliveryQueues,
) -> Result<(), AllocError>
    requires apart { AreDifferent handsets.now }
    ensures consistent { OnOk result ((rows : List HandsetRow) (references : List ReferenceRow) (links : List HandsetLink) (waiting : List ℕ → List QueuedPart)
        → QueuesRepresent rows references links waiting queues.old
        → QueuesRepresent rows references (links_of false handsets.now) waiting queues.new) }
    ensures same { OnErr result (queues.new ≡ queues.old) }
{
    let settled = settled_anew(alloc, handsets, now, queues)?;
    queues.adopt(settled);
    Ok(())
}
