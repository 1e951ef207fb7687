//! A plan, ready made.
ghost use Rattle.std.specs.Prelude.{◌≡◌};
ghost use Rattle.sms_handset_draft.specs.Outcome.{changes_in};

use sms_handset_draft::{Changes, Finished};
use sms_handset_rows::inbox::{OpenGroupsReserve, Regrouping};
use std::marker::Model;

/// What an event changes and sends, and the handset's state after it, ready made.
#[derive(Drop)]
pub struct Plan {
    pub(crate) finished: Finished,
    pub(crate) regrouping: Regrouping,
    pub(crate) reserve_groups: OpenGroupsReserve,
}

impl Model for Plan {
    ghost use Rattle.sms_handset.specs.Planning.{PlanOf};
    ghost use Rattle.sms_handset_draft.specs.Outcome.{outcome_in, reserve_in};
    ghost use Rattle.sms_link.specs.declared.ending.Side.TheVariants.{Handset as HandsetSide};
    ghost use Rattle.std.specs.Prelude.{◌≡◌};

    ghost Value = { PlanOf };

    ghost view = { λ p. record {
      outcome = outcome_in p.finished;
      regrouping = p.regrouping;
      taken = p.finished.taken;
      reserve = reserve_in p.finished.changes;
      reserve_groups = p.reserve_groups;
    } };

    ghost invariant = { λ p. p.finished.link.side ≡ HandsetSide };
}

impl Plan {
    /// What to commit before the plan is adopted.
    pub fn changes(&self) -> &Changes
        ensures { changes_in result.now ≡ self.now.outcome.changes }
    {
        &self.finished.changes
    }
}
