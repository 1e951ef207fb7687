//! A content split into parts.
ghost use Rattle.std.specs.Prelude.{◌≡◌, ℕ, All, ◌+◌, ◌<◌, ◌≤◌, ◌↔◌, ◌++◌, ◌∷◌, List, [], length, take, drop, Some, None, Ok, Err, IfOk, nat_lt, if◌then◌else◌};
ghost use Rattle.sms_concat.specs.UserData.{capacity, AreUnits, HasRoom};
ghost use Rattle.sms_concat.specs.WholeUnits.{whole_units};
ghost use Rattle.sms_concat.specs.Splitting.{room, is_compressed, pieces_of, numbered, alone, split_of, Splits, IsSplit, IsUncut};
ghost use Rattle.sms_concat.specs.declared.content.Content.{Content as ContentOf};
ghost use Rattle.sms_concat.specs.declared.content.Part.{Part as PartOf};

use crate::content::{Content, Part, owned};
use crate::parts::Parts;
use crate::split_error::SplitError;
use crate::whole_unit::first_unit;
use sms_alphabet::{Coding, ConcatKey, ConcatReference, greatest_length};
use std::alloc::{AllocError, Global};

// How many parts a message has at most.
pub(crate) const MOST_PARTS: u8 = 20;

pub(crate) fn is_compressed(coding: Coding) -> bool
    ensures { result ≡ is_compressed coding }
{
    matches!(coding, Coding::Compressed)
}

// The room behind the header of a 16-bit reference.
pub(crate) fn room(coding: Coding) -> usize
    ensures { result ≡ room coding }
{
    match coding {
        Coding::Septets => 152,
        Coding::Ucs2 => 132,
        _ => 133,
    }
}

// How many of the units the first piece has.
fn first_piece(coding: Coding, units: &[u8]) -> usize
    requires { 0 < length units.now }
    ensures first { pieces_of coding units.now ≡ take result units.now ∷ pieces_of coding (drop result units.now) }
    ensures within { (0 < result) × (result ≤ length units.now) }
{
    let room = room(coding);
    let mut end = first_unit(coding, units);
    while end < units.len() {
        let (_, behind) = units.split_at(end);
        let next = end + first_unit(coding, behind);
        if room < next {
            return end;
        }
        end = next;
    }
    end
}

// How many pieces there are, if at most 20.
pub(crate) fn count_pieces(coding: Coding, units: &[u8]) -> Option<u8>
    ensures { result ≡ (if nat_lt 20 (length (pieces_of coding units.now)) then None else Some (length (pieces_of coding units.now))) }
{
    let mut rest = units;
    let mut count: u8 = 0;
    while !rest.is_empty() {
        if count == MOST_PARTS {
            return None;
        }
        let (_, behind) = rest.split_at(first_piece(coding, rest));
        rest = behind;
        count += 1;
    }
    Some(count)
}

// Some units of a content.
fn content_with(alloc: Global, content: &Content, units: &[u8]) -> Result<Content, AllocError>
    ensures { IfOk result (λ some. some ≡ record { coding = content.now.coding; dcs = content.now.dcs; units = units.now }) }
{
    Ok(Content {
        coding: content.coding,
        dcs: content.dcs,
        units: owned(alloc, units)?,
    })
}

// The parts of a content that takes so many.
fn numbered_parts(
    alloc: Global,
    content: &Content,
    reference: u16,
    total: u8,
) -> Result<Parts, AllocError>
    requires { total ≡ length (pieces_of content.now.coding content.now.units) }
    ensures { IfOk result (λ parts. parts ≡ numbered content.now reference total 1 (pieces_of content.now.coding content.now.units)) }
{
    let mut numbered = Parts::with_capacity(alloc, usize::from(total))?;
    let mut rest = content.units.as_slice();
    let mut number: u8 = 0;
    while !rest.is_empty() {
        let (piece, behind) = rest.split_at(first_piece(content.coding, rest));
        number += 1;
        let key = ConcatKey {
            reference: ConcatReference::SixteenBit(reference),
            total,
            number,
        };
        let part = Part {
            content: content_with(alloc, content, piece)?,
            key: Some(key),
        };
        numbered.push(part)?;
        rest = behind;
    }
    Ok(numbered)
}

// One part without a header.
fn alone(alloc: Global, content: &Content) -> Result<Parts, AllocError>
    ensures { IfOk result (λ parts. parts ≡ alone content.now) }
{
    let mut parts = Parts::with_capacity(alloc, 1)?;
    let part = Part {
        content: content_with(alloc, content, content.units.as_slice())?,
        key: None,
    };
    parts.push(part)?;
    Ok(parts)
}

fn parts_of(alloc: Global, content: &Content, reference: u16) -> Result<Parts, SplitError>
    ensures { Splits result (split_of content.now reference) }
{
    let capacity = usize::from(greatest_length(content.coding));
    if content.units.len() <= capacity {
        return Ok(alone(alloc, content)?);
    }
    if is_compressed(content.coding) {
        return Err(SplitError::DoesNotFit);
    }
    match count_pieces(content.coding, content.units.as_slice()) {
        Some(total) => Ok(numbered_parts(alloc, content, reference, total)?),
        None => Err(SplitError::TooManyParts),
    }
}

/// The parts of a content (3GPP TS 23.040 9.2.3.24.8).
///
/// A content of at most 160 septets, 140 octets or 70 UCS2 units is one part without a header. A longer one is cut
/// between whole units into parts under the 16-bit reference. A part has at most 152 septets, 133 octets or 66 UCS2
/// units, and is as full as the next one's first whole unit allows. Refused are a compressed content that does not fit
/// one part, and any other that takes more than 20. Linear in the content.
pub fn split(alloc: Global, content: &Content, reference: u16) -> Result<Parts, SplitError>
    ensures found { IfOk result (λ parts. IsSplit content.now reference parts × (length parts ≤ 20)) }
    ensures fit { AreUnits content.now.coding content.now.units → IfOk result (λ parts. All HasRoom parts) }
    ensures does_not_fit { (result ≡ Err SplitError.DoesNotFit) ↔ IsUncut content.now }
    ensures too_many { (result ≡ Err SplitError.TooManyParts) ↔ ((parts : List PartOf) × IsSplit content.now reference parts × (20 < length parts)) }
    ensures exact { Splits result (split_of content.now reference) }
{
    parts_of(alloc, content, reference)
}
