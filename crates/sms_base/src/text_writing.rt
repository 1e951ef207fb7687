//! Text put at the end of octets.
ghost use Rattle.std.specs.Prelude.{◌≡◌, ◌++◌, OnOk, decimal};
ghost use Rattle.std.specs.Char.{encode_utf8};
ghost use Rattle.std.specs.Str.{encode_utf8_all};

use crate::octets::Octets;
use itoa::Buffer;
use std::alloc::AllocError;

/// A number in decimal digits.
pub fn put_decimal(out: &mut Octets, number: u64) -> Result<(), AllocError>
    ensures { OnOk result (out.new ≡ out.old ++ decimal number) }
{
    let mut buffer = Buffer::new();
    out.append(buffer.format(number).as_bytes())
}

fn put_character(out: &mut Octets, character: char) -> Result<(), AllocError>
    ensures { OnOk result (out.new ≡ out.old ++ encode_utf8 character) }
{
    let mut octets = [0; 4];
    out.append(character.encode_utf8(&mut octets).as_bytes())
}

/// Digits, or a name in UTF-8.
pub fn put_characters(out: &mut Octets, characters: &[char]) -> Result<(), AllocError>
    ensures { OnOk result (out.new ≡ out.old ++ encode_utf8_all characters.now) }
{
    for character in characters {
        put_character(out, *character)?;
    }
    Ok(())
}
