//! Links to handsets that are lost, and timers that fire.
ghost use Rattle.std.specs.Prelude.{◌≡◌, OnOk, IfOk};
ghost use Rattle.sms_link.specs.LinkTurn.{fired as fired_link};
ghost use Rattle.sms_centre_rows.specs.waiting.Links.{link_of, lowered, put_link, turn_link};
ghost use Rattle.sms_centre_spec.specs.CentreEvent.{at_moment as at_moment_of};
ghost use Rattle.sms_centre_spec.specs.Draft.{Draft, on_links};
ghost use Rattle.sms_centre_draft.specs.CentreDraft.{Represents};

use crate::centre_draft::CentreDraft;
use sms_base::{Carried, Moment, Msisdn, later};
use sms_link::Upward;
use std::alloc::AllocError;

impl<'a> CentreDraft<'a> {
    /// What is under way to the handset.
    pub fn under_way(&self, handset: Msisdn) -> Option<Carried>
        ensures { (d : Draft) → Represents d self.now → result ≡ (link_of handset d.links.all).near_end.under_way }
    {
        self.queues.under_way(&handset)
    }

    /// The link of the handset is down, and new once it is up again.
    pub fn lower_link(&mut self, handset: Msisdn) -> Result<(), AllocError>
        ensures { (d : Draft) → Represents d self.old → OnOk result
            (Represents (on_links (put_link (lowered (link_of handset d.links.all)) d.links) d) self.new) }
    {
        self.queues.lower(handset)?;
        Ok(())
    }

    /// The timers of the handset's link fire that are due: gives what the link passes up.
    pub fn fire_timers(&mut self, handset: Msisdn) -> Result<Option<Upward>, AllocError>
        ensures up { (d : Draft) → Represents d self.old → IfOk result (λ up. up ≡ (fired_link d.store.moment (link_of handset d.links.all).near_end).out.up) }
        ensures state { (d : Draft) → Represents d self.old
            → OnOk result (Represents (on_links (turn_link (link_of handset d.links.all)
            (fired_link d.store.moment (link_of handset d.links.all).near_end) d.links) d) self.new) }
    {
        let up = self.queues.fire(handset, self.moment)?;
        Ok(up)
    }

    /// Moves the moment forward, never back.
    pub fn at_moment(&mut self, now: Moment)
        ensures { (d : Draft) → Represents d self.old → Represents (at_moment_of now d) self.new }
    {
        let moment = later(self.moment, now);
        self.moment = moment;
    }
}
