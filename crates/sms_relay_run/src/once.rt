//! One unit of a handset, relayed by a centre that holds nothing.
ghost use Rattle.std.specs.Prelude.{◌≡◌, ◌<◌, ◌≤◌, ℕ, List, IfOk, IfSome, IsOk, length};
ghost use Rattle.sms_base.specs.Address.{IsAddress};
ghost use Rattle.sms_base.specs.HandsetNumber.{own_address};
ghost use Rattle.sms_base.specs.Msisdn.{IsMsisdn};
ghost use Rattle.sms_base.specs.OwnAddress.{IsOwnAddress};
ghost use Rattle.sms_base.specs.Reading.{AreOctets};
ghost use Rattle.sms_base.specs.TimeStamp.{IsMoment};
ghost use Rattle.sms_relay.specs.RelayReading.{up_at};
ghost use Rattle.sms_relay_run.specs.relay_laws.Relay.{IsAnswerUnit, IsRelayed};
ghost use Rattle.sms_relay_run.specs.relay_laws.Relaying.{Relays, destination_of, frame_for, handsets_for};

use crate::centre::relay_started;
use crate::relay_laws::laws::{an_empty_centre_relays_a_unit, handsets_can_have_links};
use crate::relay_laws::{
    LONGEST_UNIT, Relayed, destination_of, frame_for, handsets_for, nothing, relay_uncarried,
};
use sms_base::{Address, Moment, Msisdn};
use sms_relay::{Rp, read_up};
use std::alloc::{AllocError, Global};

// A moment is of the years that time stamps write.
fn is_moment(now: Moment)
    ensures { IsMoment now }
{
    // The call says its range.
    let _seconds = now.seconds();
}

// Octets are below 256.
fn are_octets(octets: &[u8])
    ensures { AreOctets octets.now }
{}

fn handsets_between(
    alloc: Global,
    from: &Msisdn,
    to: &Option<Address>,
) -> Result<Vec<Msisdn>, AllocError>
    requires { IfSome to.now (λ address. IsMsisdn address.digits) }
    ensures { IfOk result (λ handsets. handsets.items ≡ handsets_for from.now to.now) }
{
    handsets_for(alloc, *from, *to)
}

// The frame reaches a centre with links to the sender and to the destination.
fn relay_between(
    alloc: Global,
    centre: Address,
    from: Msisdn,
    now: Moment,
    frame: &[u8],
    to: Option<Address>,
) -> Result<Relayed, AllocError>
    requires centre { IsAddress centre }
    requires now { IsMoment now }
    requires to { IfSome to (λ address. IsMsisdn address.digits) }
    ensures { (unit : List ℕ) → frame.now ≡ frame_for unit → to ≡ destination_of (up_at unit) → Relays centre from now unit
        → IfOk result (λ r. IsRelayed centre (own_address from) now unit r) }
{
    handsets_can_have_links();
    let handsets = handsets_between(alloc, &from, &to)?;
    relay_started(alloc, centre, now, handsets.as_slice(), from, frame, to)
}

// The unit is in CP-DATA.
fn relay_carried(
    alloc: Global,
    centre: Address,
    from: Address,
    now: Moment,
    unit: &[u8],
) -> Result<Relayed, AllocError>
    requires centre { IsOwnAddress centre }
    requires from { IsOwnAddress from }
    requires some { 0 < length unit.now }
    requires fits { length unit.now ≤ 248 }
    ensures { IfOk result (λ r. IsRelayed centre from now unit.now r) }
{
    an_empty_centre_relays_a_unit();
    handsets_can_have_links();
    is_moment(now);
    are_octets(unit);
    let to = destination_of(unit);
    let frame = frame_for(alloc, unit)?;
    let number = Msisdn::spelled_by(&from.digits);
    relay_between(alloc, centre, number, now, frame.as_slice(), to)
}

// The unit is none that nothing answers.
fn relay(
    alloc: Global,
    centre: Address,
    from: Address,
    now: Moment,
    unit: &[u8],
) -> Result<Relayed, AllocError>
    requires centre { IsOwnAddress centre }
    requires from { IsOwnAddress from }
    ensures { IfOk result (λ r. IsRelayed centre from now unit.now r) }
{
    let count = unit.len();
    if count == 0 {
        return relay_uncarried(alloc, now, unit);
    }
    if count > LONGEST_UNIT {
        return relay_uncarried(alloc, now, unit);
    }
    relay_carried(alloc, centre, from, now, unit)
}

/// The frames that a centre without rows sends for one frame of a handset.
///
/// `centre` and `from` are the numbers of the centre and of the sender. `now` is the moment of the centre, and `frame`
/// is one unit of the relay layer. An accepted SUBMIT is answered RP-ACK, and its destination gets a DELIVER. A refused
/// one, RP-SMMA and an unreadable unit have an answer alone. Nothing is sent for an answer to nothing.
///
/// The centre starts with links to the sender and to the destination. The frame arrives in CP-DATA, and what the centre
/// sends is taken out of CP-DATA again.
pub fn relay_once(
    alloc: Global,
    centre: Address,
    from: Address,
    now: Moment,
    frame: &[u8],
) -> Result<Relayed, AllocError>
    requires centre { IsOwnAddress centre }
    requires from { IsOwnAddress from }
    ensures relayed { IfOk result (λ r. IsRelayed centre from now frame.now r) }
    // What is answered by nothing takes no memory.
    ensures quiet { IsAnswerUnit (up_at frame.now) → IsOk result }
{
    match read_up(frame) {
        Ok(Rp::AckUnit { .. }) | Ok(Rp::ErrorUnit { .. }) => Ok(nothing()),
        Ok(Rp::DataUnit { .. }) | Ok(Rp::Smma { .. }) | Err(_) => {
            relay(alloc, centre, from, now, frame)
        }
    }
}
