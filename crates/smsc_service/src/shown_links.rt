//! How the links at the seats are, as a status page shows them.
ghost use Rattle.std.specs.Prelude.{◌≡◌, ◌||◌};
ghost use Rattle.sms_centre.specs.state.CentreState.{Represents};
ghost use Rattle.sms_centre_spec.specs.Draft.{Core};
ghost use Rattle.smsc_service.specs.Seats.{seats_in};
ghost use Rattle.smsc_service.specs.ShownLinks.{AreShown, figures_at as figures_at_of, figures_for as figures_for_of, is_shown_after as is_shown_after_of};

use crate::number::is_number;
use crate::seat_map::SeatMap;
use sms_base::Msisdn;
use sms_centre::{Centre, LinkFigures};
use sms_centre_spec::jobs::Job;
use sms_keeper::Stimulus;

// A hub has so many seats.
pub(crate) const SEATS: usize = 32;

/// How the link at each seat is, if one is there.
pub(crate) type ShownLinks = [Option<LinkFigures>; SEATS];

// How many wait for the handset, and how its link is.
fn figures_for(centre: &Centre, handset: &Msisdn) -> Option<LinkFigures>
    ensures { (c : Core) → Represents c centre.now → result ≡ figures_for_of c (Some handset.now) }
{
    is_number(handset);
    Some(centre.figures(handset))
}

// How the link at the seat is, if one is there.
fn figures_at(centre: &Centre, seat_map: &SeatMap, seat: u32) -> Option<LinkFigures>
    ensures { (c : Core) → Represents c centre.now → result ≡ figures_at_of c (seats_in seat_map.now).links seat }
{
    match seat_map.handset_at(seat) {
        Some(handset) => figures_for(centre, &handset),
        None => None,
    }
}

/// How the links at all seats are.
pub(crate) fn shown_links(centre: &Centre, seat_map: &SeatMap) -> ShownLinks
    ensures { (c : Core) → Represents c centre.now → AreShown c (seats_in seat_map.now).links result }
{
    let mut shown = [None; SEATS];
    for seat in 0..SEATS {
        shown[seat] = figures_at(centre, seat_map, seat as u32);
    }
    shown
}

/// Whether they are shown after a group of which these steps were made: they were to be shown, or are after this step.
pub(crate) fn are_shown_after(shows: bool, stimulus: &Stimulus<Job>) -> bool
    ensures { result ≡ (shows || is_shown_after_of stimulus.now) }
{
    shows || is_shown_after(stimulus)
}

// Whether they are shown after a step: once a second, and when a link is up.
fn is_shown_after(stimulus: &Stimulus<Job>) -> bool
    ensures { result ≡ is_shown_after_of stimulus.now }
{
    matches!(
        stimulus,
        Stimulus::Tick(_) | Stimulus::Job(_, Job::LinkUp { .. })
    )
}
