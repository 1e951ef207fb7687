//! Time stamp fields (3GPP TS 23.040 9.2.3.11).
ghost use Rattle.std.specs.Prelude.{◌≡◌, ℕ, List, get_or, ok_or};
ghost use Rattle.sms_base.specs.Reading.{Takes};
ghost use Rattle.sms_base.specs.TimeStamp.{scts_in};
ghost use Rattle.sms_tpdu.specs.TimeReading.{completed, time_in};
ghost use Rattle.sms_tpdu.specs.declared.fault.TpduFault.TheVariants.{BadTime};

use crate::fault::TpduFault;
use sms_base::{Cursor, Moment};

// The octet at the place, or the other one past the end.
fn octet_or(octets: &[u8], place: usize, other: u8) -> u8
    ensures { result ≡ get_or octets.now place other }
{
    match octets.get(place) {
        Some(octet) => *octet,
        None => other,
    }
}

// The moment of a stamp, completed by the first second of January where octets are missing.
fn moment_of(octets: &[u8]) -> Result<Moment, TpduFault>
    ensures { result ≡ ok_or (scts_in (completed octets.now)) BadTime }
{
    match Moment::from_scts([
        octet_or(octets, 0, 0x00),
        octet_or(octets, 1, 0x10),
        octet_or(octets, 2, 0x10),
        octet_or(octets, 3, 0x00),
        octet_or(octets, 4, 0x00),
        octet_or(octets, 5, 0x00),
        octet_or(octets, 6, 0x00),
    ]) {
        Ok(moment) => Ok(moment),
        Err(_) => Err(TpduFault::BadTime),
    }
}

/// Takes a time stamp.
#[tactic(auto, unfolding(crate::specs::TimeReading::time_in))]
pub(crate) fn take_time(cursor: &mut Cursor<'_>) -> Result<Moment, TpduFault>
    ensures { Takes (λ x. x) result cursor.new (time_in cursor.old) }
{
    let moment = moment_of(cursor.rest())?;
    cursor.run(7, TpduFault::Truncated)?;
    Ok(moment)
}
