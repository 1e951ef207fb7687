//! Parts joined with one more part among them.
ghost use Rattle.std.specs.Prelude.{◌≡◌, ◌+◌, ◌<◌, ◌^◌, ◌++◌, ◌∷◌, ◌&&◌, ◌==◌, List, IfOk, OnErr, Some, length};
ghost use Rattle.sms_concat.specs.declared.content.Content.{Content as ContentOf};
ghost use Rattle.sms_concat.specs.declared.content.Part.{Part as PartOf};
ghost use Rattle.sms_concat.specs.Joining.{bear_from, content_joined, key_or_alone as key_or_alone_of, units_of};

use crate::{
    ConcatReference, Content, Part, add_units, bear_all, bears, count_units, key_or_alone,
};
use sms_base::Octets;
use std::alloc::{AllocError, Global};

// Whether that many parts are there.
fn is_total(total: u8, before: &[Part], after: &[Part]) -> bool
    ensures { (part : PartOf) → result ≡ (total == length (before.now ++ part ∷ after.now)) }
{
    before.len() + after.len() + 1 == usize::from(total)
}

// Whether the parts bear the numbers from 1 on.
#[tactic(auto, using(crate::proofs::joiner::Around::around_told))]
fn bear_around(
    reference: ConcatReference,
    total: u8,
    dcs: u8,
    before: &[Part],
    part: &Part,
    after: &[Part],
) -> bool
    ensures { result ≡ bear_from reference total dcs 1 (before.now ++ part.now ∷ after.now) }
{
    let number = before.len() + 1;
    let front = bear_all(reference, total, dcs, 0, before);
    let middle = bears(reference, total, dcs, number, part);
    let back = bear_all(reference, total, dcs, number, after);
    all_hold(front, middle, back)
}

fn all_hold(front: bool, middle: bool, back: bool) -> bool
    ensures { result ≡ (front && middle && back) }
{
    front && middle && back
}

// Whether the parts are all those of the first one's message, in order.
fn are_whole(first: &Part, before: &[Part], part: &Part, after: &[Part]) -> bool
    ensures { result ≡ ((key_or_alone_of first.now.key).total == length (before.now ++ part.now ∷ after.now) && bear_from
        (key_or_alone_of first.now.key).reference (key_or_alone_of first.now.key).total first.now.content.dcs 1 (before.now ++ part.now ∷ after.now)) }
{
    let key = key_or_alone(first.key);
    is_total(key.total, before, after)
        && bear_around(
            key.reference,
            key.total,
            first.content.dcs,
            before,
            part,
            after,
        )
}

// The units of the parts, in order.
#[tactic(auto, using(crate::proofs::joiner::Around::units_around))]
fn units_around(
    alloc: Global,
    before: &[Part],
    part: &Part,
    after: &[Part],
) -> Result<Octets, AllocError>
    ensures { IfOk result (λ units. units ≡ units_of (before.now ++ part.now ∷ after.now)) }
{
    let count = count_units(before)
        .saturating_add(part.content.units.len())
        .saturating_add(count_units(after));
    let mut units = Octets::with_capacity(alloc, count)?;
    add_units(&mut units, before)?;
    units.append(part.content.units.as_slice())?;
    add_units(&mut units, after)?;
    Ok(units)
}

// The content that the parts join to, where the first of them is known.
fn join_from(
    alloc: Global,
    first: &Part,
    before: &[Part],
    part: &Part,
    after: &[Part],
) -> Result<Option<Content>, AllocError>
    requires { (rest : List PartOf) × (before.now ++ part.now ∷ after.now ≡ first.now ∷ rest) }
    ensures ok { IfOk result (λ content. content ≡ content_joined (before.now ++ part.now ∷ after.now)) }
    ensures err { OnErr result ((content : ContentOf) × (content_joined (before.now ++ part.now ∷ after.now) ≡ Some content)) }
{
    if !are_whole(first, before, part, after) {
        return Ok(None);
    }
    Ok(Some(Content {
        coding: first.content.coding,
        dcs: first.content.dcs,
        units: units_around(alloc, before, part, after)?,
    }))
}

/// The content that the parts join to, one of them between the others. Takes memory once, and only where they join.
pub(crate) fn join_around(
    alloc: Global,
    before: &[Part],
    part: &Part,
    after: &[Part],
) -> Result<Option<Content>, AllocError>
    ensures ok { IfOk result (λ content. content ≡ content_joined (before.now ++ part.now ∷ after.now)) }
    ensures err { OnErr result ((content : ContentOf) × (content_joined (before.now ++ part.now ∷ after.now) ≡ Some content)) }
{
    match before {
        [] => join_from(alloc, part, before, part, after),
        [first, ..] => join_from(alloc, first, before, part, after),
    }
}
