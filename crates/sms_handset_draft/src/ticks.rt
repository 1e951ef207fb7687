//! Time that passes, and the timers of the link.
ghost use Rattle.std.specs.Prelude.{◌≡◌, OnOk};
ghost use Rattle.sms_link.specs.LinkTurn.{fired};
ghost use Rattle.sms_handset_draft.specs.Draft.{link_of};
ghost use Rattle.sms_handset_draft.specs.FramesAndTicks.{at_moment, timed_out as timed_out_of, timers_fired};

use crate::draft::Draft;
use crate::no_memory::NoMemory;
use sms_base::Moment;
use sms_link::Upward;

impl<'a> Draft<'a> {
    // A transfer of this side that a timer ended.
    fn timed_out(&mut self, up: &Option<Upward>) -> Result<(), NoMemory>
        ensures { OnOk result (self.new ≡ timed_out_of up.now self.old) }
    {
        match up {
            Some(Upward::Ended { transfer, ending }) => self.transfer_ended(transfer, ending),
            _ => Ok(()),
        }
    }

    /// Time went on.
    pub fn tick(&mut self, now: Moment) -> Result<(), NoMemory>
        ensures { OnOk result (self.new ≡ timers_fired (fired (at_moment now self.old).moment (link_of (at_moment now self.old))) (at_moment now self.old)) }
    {
        if self.moment < now {
            self.moment = now;
        }
        let up = self.fire()?;
        self.timed_out(&up)
    }
}
