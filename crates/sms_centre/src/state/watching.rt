//! What an operator may want to know of a handset.
ghost use Rattle.std.specs.Prelude.{◌≡◌};
ghost use Rattle.sms_centre_rows.specs.waiting.Links.{link_of};
ghost use Rattle.sms_centre_queue.specs.queue.Watching.{figures_of};
ghost use Rattle.sms_centre_spec.specs.Draft.{Core};
ghost use Rattle.sms_centre_spec.specs.SoundRows.{all_for};
ghost use Rattle.sms_centre.specs.state.CentreState.{Represents};

use crate::state::centre_state::CentreState;
use sms_base::{Carried, Msisdn};
use sms_centre_queue::queue::LinkFigures;

impl CentreState {
    /// How many parts and status reports wait for the handset, and how its link is.
    pub fn figures(&self, handset: &Msisdn) -> LinkFigures
        ensures { (c : Core) → Represents c self.now → result ≡ figures_of (all_for handset.now c.rows) (link_of handset.now c.links) }
    {
        self.queues.figures(handset)
    }

    /// What the transaction to the handset carries that is under way.
    pub fn under_way(&self, handset: &Msisdn) -> Option<Carried>
        ensures { (c : Core) → Represents c self.now → result ≡ (link_of handset.now c.links).near_end.under_way }
    {
        self.queues.under_way(handset)
    }
}
