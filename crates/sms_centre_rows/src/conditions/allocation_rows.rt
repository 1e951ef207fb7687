//! Whether rows of handsets and references are sound.
ghost use Rattle.std.specs.Prelude.{◌≡◌, IfOk, map};
ghost use Rattle.std.specs.List.{list_all};
ghost use Rattle.sms_centre_rows.specs.conditions.Differing.{differ as differ_of};
ghost use Rattle.sms_centre_rows.specs.conditions.AllocationTest.{is_given as is_given_of, is_mentioned as is_mentioned_of, number_key};

use crate::conditions::differ::differ;
use crate::conditions::message_rows::{is_octet, passes};
use crate::waiting::{HandsetRow, ReferenceRow};
use sms_rows::table::{Key, Table};
use std::alloc::{AllocError, Global};

fn is_mentioned(references: &Table<ReferenceRow>, handset: &HandsetRow) -> bool
    ensures { result ≡ is_mentioned_of references.now.rows handset.now }
{
    let last = Key::pair(u64::from(handset.place), handset.last_reference);
    passes(&handset.number);
    0 < handset.place && (is_octet(handset.last_reference) && references.find(last).is_some())
}

/// Whether each handset has a place and a number that can be written, and its last reference was given.
pub fn are_mentioned(handsets: &[HandsetRow], references: &Table<ReferenceRow>) -> bool
    ensures { result ≡ list_all (λ h. is_mentioned_of references.now.rows h) handsets.now }
{
    handsets
        .iter()
        .all(|handset| is_mentioned(references, handset))
}

fn is_given(handsets: &Table<HandsetRow>, reference: &ReferenceRow) -> bool
    ensures { result ≡ is_given_of handsets.now.rows reference.now }
{
    is_octet(reference.reference) && handsets.find(Key::of(u64::from(reference.place))).is_some()
}

/// Whether each reference was given at a handset that is there.
pub fn are_given(references: &[ReferenceRow], handsets: &Table<HandsetRow>) -> bool
    ensures { result ≡ list_all (λ r. is_given_of handsets.now.rows r) references.now }
{
    references
        .iter()
        .all(|reference| is_given(handsets, reference))
}

/// Whether no two handsets have one number.
pub fn have_numbers_apart(alloc: Global, handsets: &[HandsetRow]) -> Result<bool, AllocError>
    ensures { IfOk result (λ b. b ≡ differ_of (map number_key handsets.now)) }
{
    let keys = number_keys(alloc, handsets)?;
    differ(alloc, &keys)
}

fn number_keys(alloc: Global, handsets: &[HandsetRow]) -> Result<Vec<u128>, AllocError>
    ensures { IfOk result (λ keys. keys.items ≡ map number_key handsets.now) }
{
    handsets
        .iter()
        .map(|handset| Key::handset(&handset.number).number())
        .collect(alloc)
}
