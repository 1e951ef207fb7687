//! What names its handset by a number is an event.
ghost use Rattle.sms_base.specs.Reading.{AreOctets};
ghost use Rattle.sms_centre_spec.specs.SoundCore.{IsEvent};

use crate::event::CentreEvent;

// Octets are below 256.
fn are_octets(octets: &[u8])
    ensures { AreOctets octets.now }
{}

/// A handset that an event names has a number. Its octets are octets, and its moment is one that time stamps can
/// write.
pub fn is_event(event: &CentreEvent<'_>)
    ensures { IsEvent event.now }
{
    match event {
        CentreEvent::Frame {
            handset,
            octets,
            ..
        } => {
            handset.spells_a_number();
            are_octets(octets.as_slice());
        }
        CentreEvent::LinkUp { handset } | CentreEvent::LinkDown { handset } => {
            handset.spells_a_number();
        }
        CentreEvent::Tick(now) => {
            // By the clause of the call it is in range.
            let _seconds = now.seconds();
        }
        _ => (),
    }
}
