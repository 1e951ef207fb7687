//! The parts of a message joined.
ghost use Rattle.std.specs.Prelude.{◌≡◌, ◌+◌, ◌++◌, ◌<◌, ◌-◌, ◌^◌, IfOk, OnErr, OnOk, Some, length, min};
ghost use Rattle.sms_concat.specs.declared.content.Content.{Content as ContentOf};
ghost use Rattle.sms_concat.specs.Joining.{key_or_alone, is_same_reference, bears, bear_from, is_whole, units_of, content_joined};

use crate::content::{Content, Part};
use sms_alphabet::{ConcatKey, ConcatReference};
use sms_base::Octets;
use std::alloc::{AllocError, Global};

/// The key of a part; without one it counts as part 1 of 1.
pub fn key_or_alone(key: Option<ConcatKey>) -> ConcatKey
    ensures { result ≡ key_or_alone key }
{
    match key {
        Some(key) => key,
        None => ConcatKey {
            reference: ConcatReference::EightBit(0),
            total: 1,
            number: 1,
        },
    }
}

/// Whether references are one: in width and in number.
pub fn is_same_reference(one: ConcatReference, other: ConcatReference) -> bool
    ensures { result ≡ is_same_reference one other }
{
    match (one, other) {
        (ConcatReference::EightBit(a), ConcatReference::EightBit(b)) => a == b,
        (ConcatReference::SixteenBit(a), ConcatReference::SixteenBit(b)) => a == b,
        _ => false,
    }
}

/// Whether the part bears the number under the reference and the total, in the data coding scheme.
pub fn bears(reference: ConcatReference, total: u8, dcs: u8, number: usize, part: &Part) -> bool
    ensures { result ≡ bears reference total dcs number part.now }
{
    let key = key_or_alone(part.key);
    is_same_reference(key.reference, reference)
        && key.total == total
        && usize::from(key.number) == number
        && part.content.dcs == dcs
}

/// Whether the parts have the numbers above `below`, in order.
pub fn bear_all(
    reference: ConcatReference,
    total: u8,
    dcs: u8,
    below: usize,
    parts: &[Part],
) -> bool
    requires { below + length parts.now < 2 ^ 64 }
    ensures { result ≡ bear_from reference total dcs (below + 1) parts.now }
{
    let mut number = below;
    for part in parts {
        number += 1;
        if !bears(reference, total, dcs, number, part) {
            return false;
        }
    }
    true
}

// Whether the parts are all those of one message, in order.
fn is_whole(parts: &[Part]) -> bool
    ensures { result ≡ is_whole parts.now }
{
    match parts {
        [] => false,
        [first, ..] => {
            let key = key_or_alone(first.key);
            usize::from(key.total) == parts.len()
                && bear_all(key.reference, key.total, first.content.dcs, 0, parts)
        }
    }
}

/// How many units the parts have; past all memory, the greatest number.
pub fn count_units(parts: &[Part]) -> usize
    ensures { result ≡ min (2 ^ 64 - 1) (length (units_of parts.now)) }
{
    let mut count: usize = 0;
    for part in parts {
        count = count.saturating_add(part.content.units.len());
    }
    count
}

/// Puts the units of the parts, in order, behind others.
pub fn add_units(units: &mut Octets, parts: &[Part]) -> Result<(), AllocError>
    ensures { OnOk result (units.new ≡ units.old ++ units_of parts.now) }
{
    for part in parts {
        units.append(part.content.units.as_slice())?;
    }
    Ok(())
}

// The units of the parts, in order.
fn units_of(alloc: Global, parts: &[Part]) -> Result<Octets, AllocError>
    ensures { IfOk result (λ units. units ≡ units_of parts.now) }
{
    let mut units = Octets::with_capacity(alloc, count_units(parts))?;
    add_units(&mut units, parts)?;
    Ok(units)
}

/// The content that the parts join to. There is none unless their numbers are 1 to the total, in order, under one key
/// and one data coding scheme.
///
/// A lone part without a key counts as part 1 of 1. Takes memory once, and only where the parts join.
pub fn join(alloc: Global, parts: &[Part]) -> Result<Option<Content>, AllocError>
    ensures ok { IfOk result (λ content. content ≡ content_joined parts.now) }
    ensures err { OnErr result ((content : ContentOf) × (content_joined parts.now ≡ Some content)) }
{
    if !is_whole(parts) {
        return Ok(None);
    }
    match parts {
        [] => Ok(None),
        [first, ..] => Ok(Some(Content {
            coding: first.content.coding,
            dcs: first.content.dcs,
            units: units_of(alloc, parts)?,
        })),
    }
}
