//! A long message joined part by part (3GPP TS 23.040 9.2.3.24.1).
//!
//! A `Joiner` takes the parts of one message in any order, and joins to what `join` joins them to at once. It has room
//! for all of them from the beginning. So a part is added without memory, and is handed back where it has no place.
//! What the joiner would join to with one part more is found without copying the parts that it has.
ghost use Rattle.std.specs.Prelude.{◌≡◌, ◌↔◌, ◌<◌, ◌≤◌, ◌&&◌, ℕ, true, IfOk, OnErr, Some, length, nat_lt, position, unwrap_or, vec_capacity};
ghost use Rattle.sms_concat.specs.declared.content.Content.{Content as ContentOf};
ghost use Rattle.sms_concat.specs.Joining.{content_joined};
ghost use Rattle.sms_concat.specs.joiner.StepwiseJoining.{Adds, IsTaken, belongs, has_number, inserted, is_full, none_taken, number_of, takes, with_part};

mod add_error;
mod joining_around;
pub mod laws;

use crate::joiner::joining_around::join_around;
use crate::{ConcatKey, ConcatReference, Content, Part, is_same_reference, join, key_or_alone};
pub use add_error::AddError;
use sms_base::Octets;
use std::alloc::{AllocError, Global};
use std::marker::Model;

/// The parts of one message that were taken so far, in any order, and room for the others.
///
/// Contracts see the reference and the total of the message, and the parts in the order of their numbers.
#[derive(Drop)]
pub struct Joiner {
    reference: ConcatReference,
    total: u8,
    parts: Vec<Part>,
}

impl Model for Joiner {
    ghost use Rattle.std.specs.Prelude.{◌≤◌, vec_capacity};
    ghost use Rattle.sms_concat.specs.joiner.StepwiseJoining.{Taken, IsTaken};

    ghost Value = { Taken };

    ghost view = { λ j. record { reference = j.reference; total = j.total; parts = j.parts.items } };

    ghost invariant = { λ j. IsTaken (record { reference = j.reference; total = j.total; parts = j.parts.items }) × (j.total ≤ vec_capacity j.parts) };
}

/// The number of a part; one without a key counts as part 1.
pub fn number_of(part: &Part) -> u8
    ensures { result ≡ number_of part.now }
{
    key_or_alone(part.key).number
}

// Whether the part is one of the message.
fn belongs(reference: ConcatReference, total: u8, part: &Part) -> bool
    ensures { result ≡ belongs reference total part.now }
{
    let key = key_or_alone(part.key);
    is_same_reference(key.reference, reference)
        && key.total == total
        && key.number > 0
        && key.number <= total
}

fn has_number(number: u8, parts: &[Part]) -> bool
    ensures { result ≡ has_number number parts.now }
{
    parts.iter().any(|part| number_of(part) == number)
}

// The place of the first part that has a greater number, if one has.
fn first_above(number: u8, parts: &[Part]) -> Option<usize>
    ensures { result ≡ position (λ part. nat_lt number (number_of part)) parts.now }
{
    parts.iter().position(|part| number < number_of(part))
}

fn place_of(number: u8, parts: &[Part]) -> usize
    ensures { result ≡ unwrap_or (position (λ part. nat_lt number (number_of part)) parts.now) (length parts.now) }
{
    match first_above(number, parts) {
        Some(place) => place,
        None => parts.len(),
    }
}

// Puts a part where its number belongs.
fn insert(parts: &mut Vec<Part>, part: Part)
    requires { length parts.old.items < vec_capacity parts.old }
    ensures items { parts.new.items ≡ inserted part parts.old.items }
    ensures room { vec_capacity parts.old ≤ vec_capacity parts.new }
{
    let place = place_of(number_of(&part), parts.as_slice());
    match parts.insert(place, part) {
        Ok(()) => (),
        Err(_) => (),
    }
}

fn copy_of(alloc: Global, part: &Part) -> Result<Part, AllocError>
    ensures { IfOk result (λ copy. copy ≡ part.now) }
{
    let content = Content {
        coding: part.content.coding,
        dcs: part.content.dcs,
        units: Octets::copy_of(alloc, part.content.units.as_slice())?,
    };
    Ok(Part {
        content,
        key: part.key,
    })
}

// Copies of the parts, with room for that many.
fn copies_of(alloc: Global, total: u8, parts: &[Part]) -> Result<Vec<Part>, AllocError>
    ensures items { IfOk result (λ copies. copies.items ≡ parts.now) }
    ensures room { IfOk result (λ copies. total ≤ vec_capacity copies) }
{
    let mut copies = Vec::with_capacity(alloc, usize::from(total))?;
    for part in parts {
        copies.push(copy_of(alloc, part)?)?;
    }
    Ok(copies)
}

impl Joiner {
    /// A joiner of the message that the key names by its reference and its total. It has no part and room for all; the
    /// key's number is not looked at.
    pub fn new(alloc: Global, key: ConcatKey) -> Result<Joiner, AllocError>
        ensures { IfOk result (λ joiner. joiner ≡ none_taken key) }
    {
        let parts = Vec::with_capacity(alloc, usize::from(key.total))?;
        Ok(Joiner {
            reference: key.reference,
            total: key.total,
            parts,
        })
    }

    /// The parts that were taken, in the order of their numbers.
    pub fn parts(&self) -> &[Part]
        ensures parts { result.now ≡ self.now.parts }
        ensures order { IsTaken self.now }
    {
        self.parts.as_slice()
    }

    /// Whether the part would be taken: it is one of the message, and none of its number is there. A part without a key
    /// counts as part 1 of 1.
    pub fn takes(&self, part: &Part) -> bool
        ensures { result ≡ takes self.now part.now }
    {
        belongs(self.reference, self.total, part)
            && !has_number(number_of(part), self.parts.as_slice())
    }

    /// Takes a part of the message, whatever its data coding scheme, or hands it back and stays unchanged. `NoPlace`: a
    /// part of its number is there, or its key is another. Takes no memory.
    pub fn add(&mut self, part: Part) -> Result<(), AddError>
        ensures { Adds result self.old self.new part }
    {
        if !self.takes(&part) {
            return Err(AddError::NoPlace(part));
        }
        insert(&mut self.parts, part);
        Ok(())
    }

    /// Whether each number from 1 to the total is there. Takes no memory.
    pub fn is_full(&self) -> bool
        ensures is { result ≡ is_full self.now }
        ensures each { (result ≡ true) ↔ ((number : ℕ) → 0 < number → number ≤ self.now.total → has_number number self.now.parts ≡ true) }
    {
        self.parts().len() == usize::from(self.total)
    }

    /// Whether the part would be taken, and each number from 1 to the total be there then. Takes no memory.
    #[tactic(auto, using(crate::proofs::joiner::Stepwise::full_with))]
    pub fn is_full_with(&self, part: &Part) -> bool
        ensures { result ≡ (takes self.now part.now && is_full (with_part self.now part.now)) }
    {
        self.takes(part) && self.parts().len() + 1 == usize::from(self.total)
    }

    /// A copy: a joiner that has taken these parts.
    pub fn copy(&self, alloc: Global) -> Result<Joiner, AllocError>
        ensures { IfOk result (λ copy. copy ≡ self.now) }
    {
        let parts = copies_of(alloc, self.total, self.parts.as_slice())?;
        Ok(Joiner {
            reference: self.reference,
            total: self.total,
            parts,
        })
    }

    /// What `join` answers for the parts that were taken, by number. Takes memory once, and only where they join.
    pub fn finish(&self, alloc: Global) -> Result<Option<Content>, AllocError>
        ensures ok { IfOk result (λ content. content ≡ content_joined self.now.parts) }
        ensures err { OnErr result ((content : ContentOf) × (content_joined self.now.parts ≡ Some content)) }
    {
        join(alloc, self.parts.as_slice())
    }
    /// What it would join to with that part more, where the part's number belongs; the joiner stays as it is. Takes memory
    /// once, and only where they join.
    pub fn finish_with(&self, alloc: Global, part: &Part) -> Result<Option<Content>, AllocError>
        ensures ok { IfOk result (λ content. content ≡ content_joined (with_part self.now part.now).parts) }
        ensures err { OnErr result ((content : ContentOf) × (content_joined (with_part self.now part.now).parts ≡ Some content)) }
    {
        let parts = self.parts();
        let (before, after) = parts.split_at(place_of(number_of(part), parts));
        join_around(alloc, before, part, after)
    }
}
