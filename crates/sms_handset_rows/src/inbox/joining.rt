//! Full groups.
ghost use Rattle.std.specs.Prelude.{◌≡◌, ◌++◌, ◌∷◌, [], Some, IfOk, option_copied};
ghost use Rattle.sms_handset_rows.specs.inbox.Groups.{entry_part as entry_part_of, joined_content as joined_content_of, part_with as part_with_of, parts_to};
ghost use Rattle.sms_handset_rows.specs.inbox.TakenParts.{carried_by as carried_by_of, taken_of};

use crate::inbox::entry::{Entry, Group};
use crate::inbox::members::Members;
use crate::inbox::taking::{carried_by, part_at};
use sms_concat::joiner::Joiner;
use sms_concat::{Content, Part, Parts, join};
use std::alloc::{AllocError, Global};

// The entry that holds the part of that number.
fn part_with<'e>(members: &Members<'e>, part: &'e Entry, number: u8) -> Option<&'e Entry>
    ensures { option_copied result ≡ part_with_of number (members.now ++ part.now ∷ []) }
{
    if let Some(entry) = members.part_with(number) {
        return Some(entry);
    }
    if part.message.part_number() == number {
        Some(part)
    } else {
        None
    }
}

fn entry_part(alloc: Global, entry: Option<&Entry>) -> Result<Option<Part>, AllocError>
    ensures { IfOk result (λ part. part ≡ entry_part_of (option_copied entry.entry)) }
{
    match entry {
        Some(entry) => part_at(alloc, entry.message.tpdu()),
        None => Ok(None),
    }
}

// The parts with the numbers 1 to the total, in order.
#[tactic(auto, using(crate::proofs::inbox::Numbers::stops_at))]
fn parts_in(
    alloc: Global,
    total: u8,
    members: &Members<'_>,
    part: &Entry,
) -> Result<Option<Parts>, AllocError>
    ensures { IfOk result (λ parts. parts ≡ parts_to total (members.now ++ part.now ∷ [])) }
{
    let mut parts = Parts::from_vec(Vec::with_capacity(alloc, usize::from(total))?);
    for below in 0..total {
        match entry_part(alloc, part_with(members, part, below + 1))? {
            Some(next) => parts.push(next)?,
            None => return Ok(None),
        }
    }
    Ok(Some(parts))
}

// The content that a group joins to, with one more part, where all are read again.
fn join_again(
    alloc: Global,
    group: &Group,
    members: &Members<'_>,
    part: &Entry,
) -> Result<Option<Content>, AllocError>
    ensures { IfOk result (λ content. content ≡ joined_content_of group.now (members.now ++ part.now ∷ [])) }
{
    match parts_in(alloc, group.total, members, part)? {
        Some(parts) => Ok(join(alloc, parts.as_slice())?),
        None => Ok(None),
    }
}

// The same, where what the parts carry was taken, and the last was read.
fn join_with(
    alloc: Global,
    group: &Group,
    joiner: &Joiner,
    members: &Members<'_>,
    part: &Entry,
    last: &Part,
) -> Result<Option<Content>, AllocError>
    requires taken { taken_of group.now members.now ≡ Some joiner.now }
    requires last { carried_by_of part.now ≡ Some last.now }
    ensures { IfOk result (λ content. content ≡ joined_content_of group.now (members.now ++ part.now ∷ [])) }
{
    if joiner.is_full_with(last) {
        joiner.finish_with(alloc, last)
    } else {
        join_again(alloc, group, members, part)
    }
}

// The same, where what the parts carry was taken: the new one alone is read, if the group is full with it.
fn join_taken(
    alloc: Global,
    group: &Group,
    joiner: &Joiner,
    members: &Members<'_>,
    part: &Entry,
) -> Result<Option<Content>, AllocError>
    requires { taken_of group.now members.now ≡ Some joiner.now }
    ensures { IfOk result (λ content. content ≡ joined_content_of group.now (members.now ++ part.now ∷ [])) }
{
    match carried_by(alloc, part)? {
        Some(last) => join_with(alloc, group, joiner, members, part, &last),
        None => join_again(alloc, group, members, part),
    }
}

/// The content that a group joins to, with one more part.
pub fn joined_content(
    alloc: Global,
    group: &Group,
    members: &Members<'_>,
    part: &Entry,
) -> Result<Option<Content>, AllocError>
    ensures { IfOk result (λ content. content ≡ joined_content_of group.now (members.now ++ part.now ∷ [])) }
{
    match members.joiner(group) {
        Some(joiner) => join_taken(alloc, group, joiner, members, part),
        None => join_again(alloc, group, members, part),
    }
}
