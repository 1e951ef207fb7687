//! How many parts a content takes, counted before any memory is taken.
ghost use Rattle.std.specs.Prelude.{◌≡◌, ◌≤◌, ℕ, length, nat_le};
ghost use Rattle.std.specs.Str.{chars};
ghost use Rattle.sms_concat.specs.Counting.{content_with, counted, text_begun, text_outcome, with_text};
ghost use Rattle.sms_concat.specs.Splitting.{split_of};
ghost use Rattle.sms_concat.specs.TextContent.{content_of_text};
ghost use Rattle.sms_concat.specs.UserData.{capacity, data_length};

use crate::split_error::SplitError;
use crate::splitting::{count_pieces, is_compressed};
use crate::tally::TextTally;
use sms_alphabet::{Coding, greatest_length};

/// Into how many parts `split` cuts a content of these units, from 1 to 20, or why it does not.
///
/// Takes no memory. Linear in the units.
pub fn count_parts(coding: Coding, units: &[u8]) -> Result<u8, SplitError>
    ensures { (dcs reference : ℕ) → result ≡ counted (split_of (content_with coding dcs units.now) reference) }
{
    if units.len() <= usize::from(greatest_length(coding)) {
        return Ok(1);
    }
    if is_compressed(coding) {
        return Err(SplitError::DoesNotFit);
    }
    match count_pieces(coding, units) {
        Some(total) => Ok(total),
        None => Err(SplitError::TooManyParts),
    }
}

fn tally_text(text: &str) -> Result<u8, SplitError>
    ensures { result ≡ text_outcome (with_text text_begun (chars text.now)) }
{
    let mut tally = TextTally::new();
    for character in text.chars() {
        tally = tally.with(character);
    }
    tally.parts()
}

/// Into how many parts `split` cuts the content that `content_of_text` gives, or that they are more than 20.
///
/// Takes no memory. Linear in the text.
pub fn count_text_parts(text: &str) -> Result<u8, SplitError>
    ensures { (reference : ℕ) → result ≡ counted (split_of (content_of_text (chars text.now)) reference) }
{
    tally_text(text)
}

fn tally_latin(octets: &[u8]) -> TextTally
    ensures { result ≡ with_text text_begun octets.now }
{
    let mut tally = TextTally::new();
    for octet in octets {
        tally = tally.with(char::from(*octet));
    }
    tally
}

/// How many parts `split` makes of a text whose characters have these codes, from 00 to FF, or why it splits none.
///
/// Takes no memory. Linear in the octets.
pub fn count_latin_parts(octets: &[u8]) -> Result<u8, SplitError>
    ensures { (reference : ℕ) → result ≡ counted (split_of (content_of_text octets.now) reference) }
{
    tally_latin(octets).parts()
}

/// Whether that content fits one short message behind a header of so many octets.
///
/// Takes no memory. Linear in the octets.
pub fn latin_fits_behind(header: usize, octets: &[u8]) -> bool
    requires { header ≤ 256 }
    ensures { let content = content_of_text octets.now in result ≡ nat_le (data_length content.coding header (length content.units)) (capacity content.coding) }
{
    tally_latin(octets).fits_behind(header)
}
