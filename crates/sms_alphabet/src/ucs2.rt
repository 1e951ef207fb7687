//! Texts into UCS2 and back.
ghost use Rattle.std.specs.Prelude.{◌≡◌, ◌++◌, ◌+◌, ◌*◌, ◌<◌, ◌≤◌, ℕ, List, [], true, Ok, IfOk, OnOk, flat_map, length};
ghost use Rattle.std.specs.Str.{chars, all_scalars};
ghost use Rattle.std.specs.Char.{IsScalar};
ghost use Rattle.std.specs.Char.Utf16.{is_high_surrogate, is_low_surrogate};
ghost use Rattle.std.specs.String.{string_bytes};
ghost use Rattle.sms_base.specs.Reading.{Takes};
ghost use Rattle.sms_alphabet.specs.Ucs2.{unit_octets, octets_for, ucs2_for, ucs2_in, Tested, Refuses, AnswersUcs2};
ghost use Rattle.sms_alphabet.specs.Ucs2Reading.{unit_in, partner_in, character_at, character_in};
ghost use Rattle.sms_alphabet.specs.declared.ucs2.Ucs2Error.TheVariants.{NoMemory};

use sms_base::{Cursor, Octets};
use std::alloc::{AllocError, Global};
use thiserror::Error;

/// Why octets have no text.
#[derive(Clone, Copy, Debug, PartialEq, Eq, Error)]
pub enum Ucs2Error {
    /// The octets end in the middle of a unit.
    #[error("an octet is left over")]
    OddLength,
    /// Half a surrogate pair is alone.
    #[error("a surrogate stands alone")]
    LoneSurrogate,
    /// There was no memory for the text.
    #[error("out of memory")]
    NoMemory,
}

impl Ucs2Error {
    ghost use Rattle.std.specs.Prelude.{◌≡◌, option_map};
    ghost use Rattle.sms_alphabet.specs.FaultCodes.{ucs2_code};

    /// The code of the fault in reports, S4 and S5. Want of memory has none.
    pub fn code(self) -> Option<&'static str>
        ensures { option_map (λ s. s.now) result ≡ ucs2_code self }
    {
        match self {
            Ucs2Error::OddLength => Some("S4"),
            Ucs2Error::LoneSurrogate => Some("S5"),
            Ucs2Error::NoMemory => None,
        }
    }
}

impl From<AllocError> for Ucs2Error {
    ghost from_gives = { λ _ e. e ≡ NoMemory };

    fn from(_error: AllocError) -> Ucs2Error {
        Ucs2Error::NoMemory
    }
}

/// How many octets a character takes in UCS2: 2, or 4 above FFFF.
#[tactic(auto, unfolding(crate::specs::Ucs2::octets_for))]
pub fn ucs2_length(character: char) -> usize
    ensures { result ≡ length (octets_for character) }
{
    if (character as u32) < 0x1_0000 { 2 } else { 4 }
}

fn count_octets(text: &str) -> usize
    ensures { result ≡ length (ucs2_for (chars text.now)) }
{
    let mut count: usize = 0;
    for character in text.chars() {
        count += ucs2_length(character);
    }
    count
}

fn push_unit(out: &mut Octets, unit: u32) -> Result<(), AllocError>
    requires { unit < 65536 }
    ensures { OnOk result (out.new ≡ out.old ++ unit_octets unit) }
{
    out.push((unit / 256) as u8)?;
    out.push((unit % 256) as u8)
}

#[tactic(auto, unfolding(crate::specs::Ucs2::octets_for))]
fn push_octets(out: &mut Octets, character: char) -> Result<(), AllocError>
    ensures { OnOk result (out.new ≡ out.old ++ octets_for character) }
{
    let code = character as u32;
    if code < 0x1_0000 {
        return push_unit(out, code);
    }
    push_unit(out, 0xD800 + (code - 0x1_0000) / 0x400)?;
    push_unit(out, 0xDC00 + (code - 0x1_0000) % 0x400)
}

/// The octets of a text in UCS2 (3GPP TS 23.038 6.2.3): two or four a character, the high octet of a unit first.
///
/// Takes memory once.
pub fn ucs2_of(alloc: Global, text: &str) -> Result<Octets, AllocError>
    ensures { IfOk result (λ octets. octets ≡ ucs2_for (chars text.now)) }
{
    let mut out = Octets::with_capacity(alloc, count_octets(text))?;
    for character in text.chars() {
        push_octets(&mut out, character)?;
    }
    Ok(out)
}

// Whether a unit is the first half of a surrogate pair.
fn is_high(unit: u16) -> bool
    ensures { result ≡ is_high_surrogate unit }
{
    (0xD800..0xDC00).contains(&unit)
}

// Whether a unit is the second half of a surrogate pair.
fn is_low(unit: u16) -> bool
    ensures { result ≡ is_low_surrogate unit }
{
    (0xDC00..0xE000).contains(&unit)
}

// The character of a code.
fn character_with(code: u32) -> char
    requires { IsScalar code }
    ensures { result ≡ code }
{
    match char::from_u32(code) {
        Some(character) => character,
        None => unreachable!(),
    }
}

#[tactic(auto, unfolding(crate::specs::Ucs2Reading::unit_in))]
fn unit(octets: &mut Cursor<'_>) -> Result<u16, Ucs2Error>
    ensures { Takes (λ x. x) result octets.new (unit_in octets.old) }
{
    let high = octets.octet(Ucs2Error::OddLength)?;
    let low = octets.octet(Ucs2Error::OddLength)?;
    Ok(256 * u16::from(high) + u16::from(low))
}

// The unit behind a high surrogate.
#[tactic(auto, unfolding(crate::specs::Ucs2Reading::partner_in))]
fn partner(octets: &mut Cursor<'_>) -> Result<u16, Ucs2Error>
    ensures { Takes (λ x. x) result octets.new (partner_in octets.old) }
{
    if octets.is_empty() {
        return Err(Ucs2Error::LoneSurrogate);
    }
    unit(octets)
}

// The character of a unit, and of the one behind it where the first is a high surrogate.
#[tactic(auto, unfolding(crate::specs::Ucs2Reading::character_at))]
fn character_of(unit: u16, octets: &mut Cursor<'_>) -> Result<char, Ucs2Error>
    ensures { Takes (λ x. x) result octets.new (character_at unit octets.old) }
{
    if is_low(unit) {
        return Err(Ucs2Error::LoneSurrogate);
    }
    if !is_high(unit) {
        return Ok(character_with(u32::from(unit)));
    }
    let next = partner(octets)?;
    if !is_low(next) {
        return Err(Ucs2Error::LoneSurrogate);
    }
    let code = 0x1_0000 + (u32::from(unit) - 0xD800) * 0x400 + (u32::from(next) - 0xDC00);
    Ok(character_with(code))
}

#[tactic(auto, unfolding(crate::specs::Ucs2Reading::character_in))]
fn character(octets: &mut Cursor<'_>) -> Result<char, Ucs2Error>
    ensures { Takes (λ x. x) result octets.new (character_in octets.old) }
{
    let unit = unit(octets)?;
    character_of(unit, octets)
}

// Whether octets have a text.
fn test(octets: &[u8]) -> Result<(), Ucs2Error>
    ensures { Tested result (ucs2_in octets.now) }
{
    let mut rest = Cursor::of(octets);
    while !rest.is_empty() {
        character(&mut rest)?;
    }
    Ok(())
}

// What is answered where memory was refused: the first fault, or want of memory where there is none.
fn refusal(octets: &[u8]) -> Ucs2Error
    ensures { Refuses result (ucs2_in octets.now) }
{
    match test(octets) {
        Ok(()) => Ucs2Error::NoMemory,
        Err(fault) => fault,
    }
}

// The text of octets, put at the end of an empty one.
fn read(empty: String, octets: &[u8]) -> Result<String, Ucs2Error>
    requires { string_bytes empty ≡ [] }
    ensures { AnswersUcs2 (λ text. chars (string_bytes text)) result (ucs2_in octets.now) }
{
    let mut text = empty;
    let mut rest = Cursor::of(octets);
    while !rest.is_empty() {
        let character = character(&mut rest)?;
        match text.push(character) {
            Ok(()) => {}
            Err(_) => return Err(refusal(octets)),
        }
    }
    Ok(text)
}

fn decode(alloc: Global, octets: &[u8]) -> Result<String, Ucs2Error>
    ensures { AnswersUcs2 (λ text. chars (string_bytes text)) result (ucs2_in octets.now) }
{
    // No character takes more than three octets of UTF-8 for each of its units.
    match String::with_capacity(alloc, octets.len() / 2 * 3) {
        Ok(text) => read(text, octets),
        Err(_) => Err(refusal(octets)),
    }
}

/// The text of octets in UCS2, the high octet of a unit first (3GPP TS 23.038 6.2.3).
///
/// Refuses the first fault from the left: half a surrogate pair alone, or an octet left over. Takes memory once.
pub fn ucs2_text(alloc: Global, octets: &[u8]) -> Result<String, Ucs2Error>
    ensures found { IfOk result (λ text. octets.now ≡ ucs2_for (chars (string_bytes text))) }
    ensures only { (text : List ℕ) → all_scalars text ≡ true → octets.now ≡ ucs2_for text → AnswersUcs2 (λ read. chars (string_bytes read)) result (Ok text) }
    ensures exact { AnswersUcs2 (λ text. chars (string_bytes text)) result (ucs2_in octets.now) }
{
    decode(alloc, octets)
}
