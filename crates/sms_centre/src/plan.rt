//! A plan.
ghost use Rattle.std.specs.Prelude.{◌≡◌};

use crate::plans::{EventOutcome, Outputs};
use sms_base::Moment;
use sms_centre_reports::report_log::ReportLogReserve;
use sms_centre_spec::Changes;
use std::marker::Model;

/// What an event leads to, with the memory to put it in. Its changes are to be committed before it is adopted.
#[derive(Drop)]
pub struct Plan {
    pub(crate) plan: EventOutcome,
    pub(crate) log: ReportLogReserve,
}

impl Model for Plan {
    ghost use Rattle.sms_centre.specs.Planning.{PlanOf};

    ghost Value = { PlanOf };

    ghost view = { λ p. record { plan = p.plan; log = p.log } };
}

impl Plan {
    /// What is to be committed.
    pub fn changes(&self) -> &Changes
        ensures { result.now ≡ self.now.plan.changes }
    {
        &self.plan.changes
    }

    /// What leaves once it is committed.
    pub fn outputs(&self) -> &Outputs
        ensures { result.now ≡ self.now.plan.outputs }
    {
        &self.plan.outputs
    }

    /// The centre's moment after the event.
    pub fn moment(&self) -> Moment
        ensures { result ≡ self.now.plan.next_state.moment }
    {
        self.plan.next_state.moment
    }
}
