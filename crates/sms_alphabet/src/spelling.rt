//! Texts into septets.
ghost use Rattle.std.specs.Prelude.{◌≡◌, ◌++◌, ℕ, List, Ok, IfOk, OnOk, position, flat_map, length};
ghost use Rattle.std.specs.Str.{chars};
ghost use Rattle.sms_base.specs.Alphabet.{IsSpelling};
ghost use Rattle.sms_alphabet.specs.Packing.{AreSeptets};
ghost use Rattle.sms_alphabet.specs.Spelling.{AnswersSpelling, spelled, septets_for, lacks_code};
ghost use Rattle.sms_alphabet.specs.declared.spelling.SpellingError.TheVariants.{NoMemory};

use sms_base::{Code, ESCAPE, Octets, code_of};
use std::alloc::{AllocError, Global};
use thiserror::Error;

/// Why a text has no septets.
#[derive(Clone, Copy, Debug, PartialEq, Eq, Error)]
pub enum SpellingError {
    /// The character at this place, counted from 0, has no code in the default alphabet.
    #[error("the character at {0} has no code in the default alphabet")]
    NoCode(usize),
    /// There was no memory for the septets.
    #[error("out of memory")]
    NoMemory,
}

impl SpellingError {
    ghost use Rattle.std.specs.Prelude.{◌≡◌, option_map};
    ghost use Rattle.sms_alphabet.specs.FaultCodes.{spelling_code};

    /// The code of the fault in reports, S1. Want of memory has none.
    pub fn code(self) -> Option<&'static str>
        ensures { option_map (λ s. s.now) result ≡ spelling_code self }
    {
        match self {
            SpellingError::NoCode(_) => Some("S1"),
            SpellingError::NoMemory => None,
        }
    }
}

impl From<AllocError> for SpellingError {
    ghost from_gives = { λ _ e. e ≡ NoMemory };

    fn from(_error: AllocError) -> SpellingError {
        SpellingError::NoMemory
    }
}

#[tactic(auto, unfolding(crate::specs::Spelling::lacks_code))]
fn is_uncoded(character: char) -> bool
    ensures { result ≡ lacks_code character }
{
    match code_of(character) {
        Some(_) => false,
        None => true,
    }
}

// The place of the first character that has no code.
fn first_uncoded(text: &str) -> Option<usize>
    ensures { result ≡ position lacks_code (chars text.now) }
{
    text.chars().position(|character| is_uncoded(character))
}

// How many septets a character takes.
#[tactic(auto, unfolding(crate::specs::Spelling::septets_for))]
fn septets_wanted(character: char) -> usize
    ensures { result ≡ length (septets_for character) }
{
    match code_of(character) {
        Some(code) => usize::from(code.len()),
        None => 0,
    }
}

fn count_septets(text: &str) -> usize
    ensures { result ≡ length (flat_map septets_for (chars text.now)) }
{
    let mut count: usize = 0;
    for character in text.chars() {
        count += septets_wanted(character);
    }
    count
}

#[tactic(auto, unfolding(crate::specs::Spelling::septets_for))]
fn push_septets(out: &mut Octets, character: char) -> Result<(), AllocError>
    ensures { OnOk result (out.new ≡ out.old ++ septets_for character) }
{
    match code_of(character) {
        Some(Code::Main(septet)) => out.push(septet),
        Some(Code::Extended(septet)) => {
            out.push(ESCAPE)?;
            out.push(septet)
        }
        None => Ok(()),
    }
}

fn septets_in_text(alloc: Global, text: &str) -> Result<Octets, AllocError>
    ensures { IfOk result (λ septets. septets ≡ flat_map septets_for (chars text.now)) }
{
    let mut out = Octets::with_capacity(alloc, count_septets(text))?;
    for character in text.chars() {
        push_septets(&mut out, character)?;
    }
    Ok(out)
}

#[tactic(auto, unfolding(crate::specs::Spelling::spelled))]
fn spell(alloc: Global, text: &str) -> Result<Octets, SpellingError>
    ensures { AnswersSpelling result (spelled (chars text.now)) }
{
    match first_uncoded(text) {
        Some(place) => Err(SpellingError::NoCode(place)),
        None => Ok(septets_in_text(alloc, text)?),
    }
}

/// The septets of a text in the default alphabet, one an octet (3GPP TS 23.038 6.2.1).
///
/// Refuses the first character that has no code, by its place. Takes memory once.
pub fn septets_of(alloc: Global, text: &str) -> Result<Octets, SpellingError>
    ensures found { IfOk result (λ septets. IsSpelling septets (chars text.now)) }
    ensures only { (septets : List ℕ) → IsSpelling septets (chars text.now) → AnswersSpelling result (Ok septets) }
    ensures septets { IfOk result (λ septets. AreSeptets septets) }
    ensures exact { AnswersSpelling result (spelled (chars text.now)) }
{
    spell(alloc, text)
}
