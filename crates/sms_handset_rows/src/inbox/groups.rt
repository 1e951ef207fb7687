//! Parts of long messages.
ghost use Rattle.std.specs.Prelude.{◌≡◌, ◌++◌, ◌∷◌, [], ◌<◌, option_copied};
ghost use Rattle.sms_concat.specs.Joining.{is_same_reference as is_same_reference_of};
ghost use Rattle.sms_alphabet.specs.Concatenation.{header_key};
ghost use Rattle.sms_handset_rows.specs.inbox.Groups.{all_numbers, is_among as is_among_of, is_same_address as is_same_address_of};
ghost use Rattle.sms_handset_rows.specs.inbox.Groups.{is_same_group as is_same_group_of, mark_of, members, part_numbers};

use crate::inbox::discarded_group::DiscardedGroup;
use crate::inbox::entry::{Entry, Group};
use crate::inbox::members::Members;
use sms_base::Address;
use sms_concat::{ConcatKey, ConcatReference, Header, concat_info};

/// Whether addresses are one.
pub fn is_same_address(one: &Address, other: &Address) -> bool
    ensures { result ≡ is_same_address_of one.now other.now }
{
    one.ton.number() == other.ton.number()
        && one.npi == other.npi
        && one.digits.as_slice() == other.digits.as_slice()
}

fn is_same_reference(one: ConcatReference, other: ConcatReference) -> bool
    ensures { result ≡ is_same_reference_of one other }
{
    match (one, other) {
        (ConcatReference::EightBit(one), ConcatReference::EightBit(other)) => one == other,
        (ConcatReference::SixteenBit(one), ConcatReference::SixteenBit(other)) => one == other,
        _ => false,
    }
}

/// Whether groups are one.
pub(crate) fn is_same_group(one: &Group, other: &Group) -> bool
    ensures { result ≡ is_same_group_of one.now other.now }
{
    is_same_address(&one.source, &other.source)
        && is_same_reference(one.reference, other.reference)
        && one.total == other.total
}

/// Whether a number is one of these.
pub fn is_among(number: u8, numbers: &[u8]) -> bool
    ensures { result ≡ is_among_of number numbers.now }
{
    for other in numbers {
        if *other == number {
            return true;
        }
    }
    false
}

/// The discarded group that is this group.
pub fn find_mark<'a>(group: &Group, marks: &'a [DiscardedGroup]) -> Option<&'a DiscardedGroup>
    ensures { option_copied result ≡ mark_of group.now marks.now }
{
    for mark in marks {
        if is_same_group(&mark.group, group) {
            return Some(mark);
        }
    }
    None
}

/// The key of the header, if it has one.
pub fn key_of(header_indicator: bool, octets: &[u8]) -> Option<ConcatKey>
    ensures { result ≡ header_key header_indicator octets.now }
{
    if !header_indicator {
        return None;
    }
    match Header::read(octets) {
        Ok(header) => concat_info(&header),
        Err(_) => None,
    }
}

// Whether the part of that number is there, with one more part.
#[tactic(auto, using(crate::proofs::inbox::Numbers::among_more))]
fn has_number(members: &Members<'_>, part: &Entry, number: u8) -> bool
    ensures { result ≡ is_among_of number (part_numbers (members.now ++ part.now ∷ [])) }
{
    members.has(number) || part.message.part_number() == number
}

/// Whether the group is full with one more part, as it can't be where more than that is missing.
#[tactic(auto, using(crate::proofs::inbox::Numbers::lacks_number, crate::proofs::inbox::FewNumbers::too_few))]
pub fn is_full(total: u8, members: &Members<'_>, part: &Entry) -> bool
    ensures { result ≡ all_numbers total (part_numbers (members.now ++ part.now ∷ [])) }
{
    if usize::from(total).saturating_sub(members.len()) > 1 {
        return false;
    }
    for below in 0..total {
        if !has_number(members, part, below + 1) {
            return false;
        }
    }
    true
}

/// Whether the numbers from 1 to the total are all there.
#[tactic(auto, using(crate::proofs::inbox::Numbers::lacks_number))]
pub fn has_every(total: u8, numbers: &[u8]) -> bool
    ensures { result ≡ all_numbers total numbers.now }
{
    for below in 0..total {
        if !is_among(below + 1, numbers) {
            return false;
        }
    }
    true
}
