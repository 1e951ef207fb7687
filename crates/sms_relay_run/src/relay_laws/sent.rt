//! What a centre sent, without the control layer.
ghost use Rattle.std.specs.Prelude.{◌≡◌, ℕ, List, IfOk};
ghost use Rattle.sms_base.specs.HandsetNumber.{own_address};
ghost use Rattle.sms_base.specs.declared.address.Address.{Address as AddressOf};
ghost use Rattle.sms_relay.specs.RelayReading.{up_at};
ghost use Rattle.sms_relay_run.specs.relay_laws.Relay.{IsRelayed};
ghost use Rattle.sms_relay_run.specs.relay_laws.Relaying.{addressed, destination_of, frames_of, outputs, unit_at, unit_behind};
ghost use Rattle.sms_relay_run.specs.declared.relay_laws.relayed.Relayed.{Relayed as RelayedOf};

use crate::relay_laws::relayed::Relayed;
use sms_base::{Address, Octets};
use sms_centre_rows::waiting::Sent;
use std::alloc::{AllocError, Global};

// CP-DATA carries its unit behind its head, its type and its length (3GPP TS 24.011 7.2.1).
fn unit_behind(alloc: Global, frame: &[u8]) -> Result<Option<Octets>, AllocError>
    ensures { IfOk result (λ unit. unit ≡ unit_behind frame.now) }
{
    if frame.len() < 3 {
        return Ok(None);
    }
    let unit = Octets::copy_of(alloc, &frame[3..])?;
    Ok(Some(unit))
}

fn unit_at(alloc: Global, frames: &[Sent], place: usize) -> Result<Option<Octets>, AllocError>
    ensures { IfOk result (λ unit. unit ≡ unit_at place (outputs frames.now)) }
{
    if place >= frames.len() {
        return Ok(None);
    }
    unit_behind(alloc, frames[place].frame.octets.as_slice())
}

fn addressed(to: Option<Address>, unit: Option<Octets>) -> Option<(Address, Octets)>
    ensures { result ≡ addressed to unit }
{
    match (to, unit) {
        (Some(to), Some(unit)) => Some((to, unit)),
        _ => None,
    }
}

/// The units in the frames that a centre sent for a unit, which are CP-ACK, the answer, and the unit for the
/// destination.
pub fn units_in(alloc: Global, to: Option<Address>, frames: &[Sent]) -> Result<Relayed, AllocError>
    ensures { (centre : AddressOf) (from : List ℕ) (now : ℕ) (unit : List ℕ) (sent : RelayedOf)
        → IsRelayed centre (own_address from) now unit sent → outputs frames.now ≡ frames_of from sent → to ≡ destination_of (up_at unit)
        → IfOk result (λ relayed. relayed ≡ sent) }
{
    let answer = unit_at(alloc, frames, 1)?;
    let down = unit_at(alloc, frames, 2)?;
    Ok(Relayed {
        answer,
        down: addressed(to, down),
    })
}
