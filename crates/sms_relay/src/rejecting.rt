//! What answers a unit that cannot be read (3GPP TS 24.011 9.3).
ghost use Rattle.std.specs.Prelude.{◌≡◌};
ghost use Rattle.sms_relay.specs.Cause.{IsRpCause};
ghost use Rattle.sms_relay.specs.Rejecting.{fault_cause, reference_octet};

use crate::cause::RpCause;
use crate::fault::RelayFault;

/// The cause that answers a unit of an unknown type, else one that cannot be read.
pub fn fault_cause(fault: RelayFault) -> RpCause
    ensures value { result ≡ fault_cause fault }
    ensures named { IsRpCause result }
{
    match fault {
        RelayFault::Unknown => RpCause::MessageTypeNonExistent,
        _ => RpCause::InvalidMandatoryInformation,
    }
}

/// The octet in the place of the reference, or 0.
pub fn reference_octet(unit: &[u8]) -> u8
    ensures { result ≡ reference_octet unit.now }
{
    match unit {
        [_, reference, ..] => *reference,
        _ => 0,
    }
}
