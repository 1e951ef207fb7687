//! By which causes handsets refused what was delivered to them, as a status page shows it.
ghost use Rattle.std.specs.Prelude.{◌≡◌};
ghost use Rattle.sms_control.specs.ControlReading.{cp_at};
ghost use Rattle.sms_relay.specs.RelayReading.{up_at};
ghost use Rattle.smsc_service.specs.Causes.{cause_of_frame, cause_of_unit, cause_told_by as cause_told_by_of};

use sms_centre_spec::jobs::Job;
use sms_control::Cp;
use sms_keeper::Stimulus;
use sms_relay::{Rp, read_up};

// The cause of a unit that is an RP-ERROR.
fn cause_in(unit: &[u8]) -> Option<u8>
    ensures { result ≡ cause_of_unit (up_at unit.now) }
{
    match read_up(unit) {
        Ok(Rp::ErrorUnit { cause, .. }) => Some(cause.number()),
        Ok(Rp::DataUnit { .. } | Rp::AckUnit { .. } | Rp::Smma { .. }) | Err(_) => None,
    }
}

// The cause of an RP-ERROR that the frame brings.
fn cause_brought(frame: &[u8]) -> Option<u8>
    ensures { result ≡ cause_of_frame (cp_at frame.now) }
{
    match Cp::read(frame) {
        Ok(Cp::DataUnit { unit, .. }) => cause_in(unit.as_slice()),
        Ok(Cp::AckUnit { .. } | Cp::ErrorUnit { .. }) | Err(_) => None,
    }
}

/// The cause by which a handset refuses something, where the stimulus is such a frame.
pub(crate) fn cause_told_by(stimulus: &Stimulus<Job>) -> Option<u8>
    ensures { result ≡ cause_told_by_of stimulus.now }
{
    match stimulus {
        Stimulus::Job(_, Job::Frame { octets }) => cause_brought(octets.as_slice()),
        _ => None,
    }
}
