//! Cells put at the end of a text.
ghost use Rattle.std.specs.Prelude.{◌≡◌, ◌++◌, OnOk, decimal, replicate};
ghost use Rattle.std.specs.Str.{chars};
ghost use Rattle.smsc_cli.specs.columns.Columns.{cell, name_cell, on_line, character_on_line};

use itoa::Buffer;
use sms_base::Octets;
use std::alloc::AllocError;

fn put_spaces(out: &mut Octets, count: usize) -> Result<(), AllocError>
    ensures { OnOk result (out.new ≡ out.old ++ replicate count 32) }
{
    for _ in 0..count {
        out.push(b' ')?;
    }
    Ok(())
}

#[tactic(auto, unfolding(crate::specs::columns::Columns::character_on_line))]
fn put_shown(out: &mut Octets, character: char) -> Result<(), AllocError>
    ensures { OnOk result (out.new ≡ out.old ++ character_on_line character) }
{
    let mut octets = [0; 4];
    if character.is_control() {
        out.append(b" ")
    } else {
        out.append(character.encode_utf8(&mut octets).as_bytes())
    }
}

fn put_characters(out: &mut Octets, characters: &[char]) -> Result<(), AllocError>
    ensures { OnOk result (out.new ≡ out.old ++ on_line characters.now) }
{
    for character in characters {
        put_shown(out, *character)?;
    }
    Ok(())
}

/// A word of ASCII, filled up with spaces to the width.
pub fn put_cell(out: &mut Octets, width: usize, word: &[u8]) -> Result<(), AllocError>
    ensures { OnOk result (out.new ≡ out.old ++ cell width word.now) }
{
    out.append(word)?;
    put_spaces(out, width.saturating_sub(word.len()))
}

/// A number in decimal digits, filled up with spaces to the width.
pub fn put_number(out: &mut Octets, width: usize, number: u64) -> Result<(), AllocError>
    ensures { OnOk result (out.new ≡ out.old ++ cell width (decimal number)) }
{
    let mut buffer = Buffer::new();
    put_cell(out, width, buffer.format(number).as_bytes())
}

/// Digits or a name on one line in UTF-8, filled up with spaces to the width, by characters.
pub fn put_name(out: &mut Octets, width: usize, characters: &[char]) -> Result<(), AllocError>
    ensures { OnOk result (out.new ≡ out.old ++ name_cell width characters.now) }
{
    put_characters(out, characters)?;
    put_spaces(out, width.saturating_sub(characters.len()))
}

/// A text on one line in UTF-8.
pub fn put_text(out: &mut Octets, text: &str) -> Result<(), AllocError>
    ensures { OnOk result (out.new ≡ out.old ++ on_line (chars text.now)) }
{
    for character in text.chars() {
        put_shown(out, character)?;
    }
    Ok(())
}
