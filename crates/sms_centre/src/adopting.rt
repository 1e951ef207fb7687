//! Putting a plan in.
ghost use Rattle.std.specs.Prelude.{◌≡◌, ℕ};
ghost use Rattle.sms_centre_spec.specs.CentreEvent.{happened};
ghost use Rattle.sms_centre_spec.specs.Draft.{Core, core_of};
ghost use Rattle.sms_centre_spec.specs.SoundCore.{IsEvent};
ghost use Rattle.sms_centre_spec.specs.forgetting.Forget.{forget};
ghost use Rattle.sms_centre_spec.specs.declared.event.CentreEvent.{CentreEvent as CentreEventOf};
ghost use Rattle.sms_centre.specs.Planning.{FitsTheCentre};
ghost use Rattle.sms_centre.specs.plans.EventOutcome.{IsOutcome};
ghost use Rattle.sms_centre.specs.state.CentreState.{Represents};

use crate::plan::Plan;
use crate::plans::Outputs;
use crate::state::CentreState;
use sms_base::Listed;
use sms_centre_reports::awaited::laws::every_event_keeps_what_is_awaited;
use sms_centre_rows::messages::MessageRow;
use sms_centre_spec::Changes;
use sms_rows::table::Change;

/// Puts the plan into what the centre keeps, without taking memory. It gives the changes back, with these in the place of those of
/// messages, which it uses up, and what leaves.
pub(crate) fn put_in(
    centre_state: &mut CentreState,
    planned: Plan,
    kept: Listed<Change<MessageRow>>,
) -> (Changes, Outputs)
    requires { FitsTheCentre centre_state.old planned }
    ensures changes { result.0 ≡ record planned.plan.changes { messages = kept } }
    ensures outputs { result.1 ≡ planned.plan.outputs }
    ensures setup { centre_state.new.setup ≡ centre_state.old.setup }
    ensures centre_state { (event : CentreEventOf) (c : Core) → Represents c centre_state.old → IsEvent event → IsOutcome (happened event c) planned.plan
        → Represents (core_of (happened event c)) centre_state.new }
    ensures forgotten { (before from most : ℕ) (c : Core) → Represents c centre_state.old → IsOutcome (forget before from most c) planned.plan
        → Represents (core_of (forget before from most c)) centre_state.new }
{
    every_event_keeps_what_is_awaited();
    let Plan { plan, log } = planned;
    centre_state.log.adopt(log, plan.changes.reports.as_slice());
    plan.adopt(
        kept,
        &mut centre_state.moment,
        &mut centre_state.messages,
        &mut centre_state.reference_index,
        &mut centre_state.queues,
        &mut centre_state.reports,
        &mut centre_state.sessions,
    )
}
