//! What a link passes up.
ghost use Rattle.std.specs.Prelude.{◌≡◌, IfOk, Ok};
ghost use Rattle.sms_link.specs.Ending.{ended_by, unit_at, unit_ending as unit_ending_of};

use sms_base::{Carried, OctetView, Octets};
use sms_relay::{RelayFault, Rp, RpCause, read_down, read_up};
use std::alloc::{AllocError, Global};

/// Whose end of a link it is.
#[derive(Clone, Copy, PartialEq, Eq)]
pub enum Side {
    /// The side receives the units that are sent down.
    Handset,
    /// The side receives the units that are sent up.
    Centre,
}

/// How a transfer that this side began ended.
#[derive(Drop)]
pub enum Ending {
    /// RP-ACK under its reference.
    Acknowledged,
    /// RP-ERROR under its reference, with its TPDU or none.
    Refused {
        cause: RpCause,
        tpdu: Option<Octets>,
    },
    /// An answer that is none to it: of another reference, of another kind, or one that can't be read.
    Wrong,
    /// No answer.
    Lost,
}

/// What is passed up to the core.
#[derive(Drop)]
pub enum Upward {
    /// A unit that opens a transaction of the other side's. It waits for a reply.
    Opened(Octets),
    /// The transfer that this side began has ended.
    Ended { transfer: Carried, ending: Ending },
}

/// How the unit ends the transfer of that reference.
pub(crate) fn ending_of(
    alloc: Global,
    side: Side,
    reference: u8,
    unit: &[u8],
) -> Result<Ending, AllocError>
    ensures { IfOk result (λ ending. ending ≡ ended_by reference (unit_at side unit.now)) }
{
    match side {
        Side::Handset => answer_ending(alloc, reference, &read_down(unit)),
        Side::Centre => answer_ending(alloc, reference, &read_up(unit)),
    }
}

fn answer_ending(
    alloc: Global,
    reference: u8,
    unit: &Result<Rp<'_>, RelayFault>,
) -> Result<Ending, AllocError>
    ensures { IfOk result (λ ending. ending ≡ ended_by reference unit.now) }
{
    match unit {
        Ok(rp) => unit_ending(alloc, reference, rp),
        Err(_) => Ok(Ending::Wrong),
    }
}

fn unit_ending(alloc: Global, reference: u8, rp: &Rp<'_>) -> Result<Ending, AllocError>
    ensures { IfOk result (λ ending. ending ≡ unit_ending_of reference rp.now) }
{
    match rp {
        Rp::AckUnit {
            reference: answered,
            ..
        } if *answered == reference => Ok(Ending::Acknowledged),
        Rp::ErrorUnit {
            reference: answered,
            cause,
            unit,
        } if *answered == reference => {
            let tpdu = tpdu_copy(alloc, unit)?;
            Ok(Ending::Refused {
                cause: *cause,
                tpdu,
            })
        }
        _ => Ok(Ending::Wrong),
    }
}

fn tpdu_copy(alloc: Global, tpdu: &Option<OctetView<'_>>) -> Result<Option<Octets>, AllocError>
    ensures { IfOk result (λ copy. copy ≡ tpdu.now) }
{
    match tpdu {
        Some(octets) => Ok(Some(Octets::copy_of(alloc, octets.as_slice())?)),
        None => Ok(None),
    }
}
