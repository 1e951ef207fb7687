//! The octets of units, each in one growth: behind `with_capacity` there is room, so each `unwrap` is proved.
ghost use Rattle.std.specs.Prelude.{◌≡◌, ◌≤◌, ◌<◌, ◌++◌, length, IfOk, Ok};
ghost use Rattle.sms_relay.specs.RelayGrammar.{IsUp, IsUpValue, up_octets, IsDown, IsDownValue, down_octets};
ghost use Rattle.sms_relay.specs.RelayGrammar.{IsValue, unit_octets, IsCentre, IsTpdu, data_octets, IsUserData, user_data};
ghost use Rattle.sms_relay.specs.RelayReading.{up_at, down_at};

use crate::fields::USER_DATA;
use crate::frame::Rp;
use crate::message_type::{Direction, MessageType};
use sms_base::{OctetView, Octets};
use std::alloc::{AllocError, Global};

/// The octets of a unit from the handset, in one growth. An error is returned only where that was refused.
pub fn write_up(alloc: Global, rp: &Rp<'_>) -> Result<Octets, AllocError>
    requires { IsUpValue rp.now }
    // The one written list.
    ensures written { IfOk result (λ octets. octets ≡ up_octets rp.now) }
    // It is in the grammar.
    ensures in_grammar { IfOk result (λ octets. IsUp octets rp.now) }
    // It is read as the same unit.
    ensures again { IfOk result (λ octets. up_at octets ≡ Ok rp.now) }
{
    octets_of(alloc, Direction::Up, rp)
}

/// The octets of a unit to the handset, in one growth. An error is returned only where that was refused.
pub fn write_down(alloc: Global, rp: &Rp<'_>) -> Result<Octets, AllocError>
    requires { IsDownValue rp.now }
    // The one written list.
    ensures written { IfOk result (λ octets. octets ≡ down_octets rp.now) }
    // It is in the grammar.
    ensures in_grammar { IfOk result (λ octets. IsDown octets rp.now) }
    // It is read as the same unit.
    ensures again { IfOk result (λ octets. down_at octets ≡ Ok rp.now) }
{
    octets_of(alloc, Direction::Down, rp)
}

fn octets_of(alloc: Global, direction: Direction, rp: &Rp<'_>) -> Result<Octets, AllocError>
    requires { IsValue direction rp.now }
    ensures { IfOk result (λ octets. octets ≡ unit_octets direction rp.now) }
{
    match rp {
        Rp::DataUnit {
            reference,
            centre,
            unit,
        } => data(
            alloc,
            direction,
            *reference,
            centre.as_slice(),
            unit.as_slice(),
        ),
        Rp::AckUnit { reference, unit } => {
            with_user_data(
                alloc,
                &[MessageType::Ack.octet(direction), *reference],
                unit,
            )
        }
        Rp::ErrorUnit {
            reference,
            cause,
            unit,
        } => with_user_data(
            alloc,
            &[
                MessageType::Error.octet(direction),
                *reference,
                1,
                cause.number(),
            ],
            unit,
        ),
        Rp::Smma { reference } => match direction {
            Direction::Up => with_user_data(
                alloc,
                &[MessageType::Smma.octet(Direction::Up), *reference],
                &None,
            ),
            Direction::Down => unreachable!(),
        },
    }
}

fn data(
    alloc: Global,
    direction: Direction,
    reference: u8,
    centre: &[u8],
    unit: &[u8],
) -> Result<Octets, AllocError>
    requires centre { IsCentre centre.now }
    requires unit { IsTpdu unit.now }
    ensures { IfOk result (λ octets. octets ≡ data_octets direction reference centre.now unit.now) }
{
    let kind = MessageType::Data.octet(direction);
    let count = centre.len() as u8;
    let behind = unit.len() as u8;
    match direction {
        Direction::Up => joined(alloc, &[kind, reference, 0, count], centre, &[behind], unit),
        Direction::Down => joined(alloc, &[kind, reference, count], centre, &[0, behind], unit),
    }
}

/// The octets, and behind them the user data where there is one.
fn with_user_data(
    alloc: Global,
    head: &[u8],
    unit: &Option<OctetView<'_>>,
) -> Result<Octets, AllocError>
    requires head { length head.now ≤ 4 }
    requires unit { IsUserData unit.now }
    ensures { IfOk result (λ octets. octets ≡ head.now ++ user_data unit.now) }
{
    match unit {
        Some(unit) => {
            let unit = unit.as_slice();
            joined(alloc, head, &[], &[USER_DATA, unit.len() as u8], unit)
        }
        None => joined(alloc, head, &[], &[], &[]),
    }
}

/// The octets behind one another: those in front of an address, the address, those in front of a TPDU, the TPDU.
fn joined(
    alloc: Global,
    head: &[u8],
    centre: &[u8],
    middle: &[u8],
    unit: &[u8],
) -> Result<Octets, AllocError>
    requires head { length head.now ≤ 4 }
    requires centre { length centre.now ≤ 11 }
    requires middle { length middle.now ≤ 2 }
    requires unit { length unit.now < 256 }
    ensures { IfOk result (λ octets. octets ≡ head.now ++ (centre.now ++ (middle.now ++ unit.now))) }
{
    let mut out = Vec::with_capacity(alloc, head.len() + centre.len() + middle.len() + unit.len())?;
    out.extend_from_slice(head).unwrap();
    out.extend_from_slice(centre).unwrap();
    out.extend_from_slice(middle).unwrap();
    out.extend_from_slice(unit).unwrap();
    Ok(Octets::from_vec(out))
}
