//! Septets into texts.
ghost use Rattle.std.specs.Prelude.{◌≡◌, true, ℕ, List, Ok, IfOk, nat_lt};
ghost use Rattle.std.specs.List.{list_all};
ghost use Rattle.std.specs.Str.{chars, encode_utf8_all};
ghost use Rattle.std.specs.String.{string_bytes};
ghost use Rattle.sms_base.specs.Alphabet.{text_in};
ghost use Rattle.sms_alphabet.specs.TextReading.{AnswersText, IsReading, text_read};
ghost use Rattle.sms_alphabet.specs.declared.reading.ReadingError.TheVariants.{NoMemory};

use sms_base::{ESCAPE, character_after_escape, character_of};
use std::alloc::{AllocError, Global};
use thiserror::Error;

/// Why septets have no text.
#[derive(Clone, Copy, Debug, PartialEq, Eq, Error)]
pub enum ReadingError {
    /// A number is above 7F.
    #[error("a number is no septet")]
    NotSeptet,
    /// There was no memory for the text.
    #[error("out of memory")]
    NoMemory,
}

impl ReadingError {
    ghost use Rattle.std.specs.Prelude.{◌≡◌, option_map};
    ghost use Rattle.sms_alphabet.specs.FaultCodes.{reading_code};

    /// The code of the fault in reports, S2. Want of memory has none.
    pub fn code(self) -> Option<&'static str>
        ensures { option_map (λ s. s.now) result ≡ reading_code self }
    {
        match self {
            ReadingError::NotSeptet => Some("S2"),
            ReadingError::NoMemory => None,
        }
    }
}

impl From<AllocError> for ReadingError {
    ghost from_gives = { λ _ e. e ≡ NoMemory };

    fn from(_error: AllocError) -> ReadingError {
        ReadingError::NoMemory
    }
}

fn are_septets(octets: &[u8]) -> bool
    ensures { result ≡ list_all (λ septet. nat_lt septet 128) octets.now }
{
    let mut most: u8 = 0;
    for octet in octets {
        most = most.max(*octet);
    }
    most < 128
}

fn text_of_septets(alloc: Global, septets: &[u8]) -> Result<String, AllocError>
    requires { list_all (λ septet. nat_lt septet 128) septets.now ≡ true }
    ensures { IfOk result (λ text. string_bytes text ≡ encode_utf8_all (text_in septets.now)) }
{
    // No character takes more than two octets of UTF-8 for each of its septets.
    let mut text = String::with_capacity(alloc, 2 * septets.len())?;
    let mut escaped = false;
    for septet in septets {
        if escaped {
            text.push(character_after_escape(*septet))?;
            escaped = false;
        } else if *septet == ESCAPE {
            escaped = true;
        } else {
            text.push(character_of(*septet))?;
        }
    }
    if escaped {
        text.push(' ')?;
    }
    Ok(text)
}

#[tactic(auto, unfolding(crate::specs::TextReading::text_read))]
fn read(alloc: Global, septets: &[u8]) -> Result<String, ReadingError>
    ensures { AnswersText (λ text. chars (string_bytes text)) result (text_read septets.now) }
{
    if !are_septets(septets) {
        return Err(ReadingError::NotSeptet);
    }
    Ok(text_of_septets(alloc, septets)?)
}

/// The text that septets of the default alphabet, one an octet, are read as (3GPP TS 23.038 6.2.1).
///
/// ESC before a septet that the extension table lacks reads as the character of the main table. ESC ESC, and ESC as the
/// last septet, read as a space. Refuses an octet above 7F. Takes memory once.
pub fn text_of(alloc: Global, septets: &[u8]) -> Result<String, ReadingError>
    ensures found { IfOk result (λ text. IsReading septets.now (chars (string_bytes text))) }
    ensures only { (text : List ℕ) → IsReading septets.now text → AnswersText (λ read. chars (string_bytes read)) result (Ok text) }
    ensures exact { AnswersText (λ text. chars (string_bytes text)) result (text_read septets.now) }
{
    read(alloc, septets)
}
