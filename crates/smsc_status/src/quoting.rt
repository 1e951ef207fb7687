//! Text between quotation marks, in JSON and in the labels of a metric.
ghost use Rattle.std.specs.Prelude.{◌≡◌, ◌++◌, OnOk};
ghost use Rattle.smsc_status.specs.Quoting.{quoted, quoted_octet, string};

use sms_base::Octets;
use std::alloc::AllocError;

#[tactic(auto, unfolding(crate::specs::Quoting::quoted_octet))]
fn put_quoted_octet(out: &mut Octets, octet: u8) -> Result<(), AllocError>
    ensures { OnOk result (out.new ≡ out.old ++ quoted_octet octet) }
{
    if octet == b'"' {
        out.append(b"\\\"")
    } else if octet == b'\\' {
        out.append(b"\\\\")
    } else if octet < 32 || 126 < octet {
        out.append(b"?")
    } else {
        out.push(octet)
    }
}

/// A text as it is between quotation marks. A backslash precedes each quotation mark and each backslash. `?` replaces each
/// octet that is no printable ASCII.
pub(crate) fn put_quoted(out: &mut Octets, text: &[u8]) -> Result<(), AllocError>
    ensures { OnOk result (out.new ≡ out.old ++ quoted text.now) }
{
    for octet in text {
        put_quoted_octet(out, *octet)?;
    }
    Ok(())
}

/// A text with its quotation marks.
#[tactic(auto, unfolding(crate::specs::Quoting::string))]
pub(crate) fn put_string(out: &mut Octets, text: &[u8]) -> Result<(), AllocError>
    ensures { OnOk result (out.new ≡ out.old ++ string text.now) }
{
    out.append(b"\"")?;
    put_quoted(out, text)?;
    out.append(b"\"")
}

#[tactic(auto, unfolding(crate::specs::Quoting::quoted_octet))]
fn put_quoted_character(out: &mut Octets, character: char) -> Result<(), AllocError>
    ensures { OnOk result (out.new ≡ out.old ++ quoted_octet character) }
{
    if character == '"' {
        out.append(b"\\\"")
    } else if character == '\\' {
        out.append(b"\\\\")
    } else if character < ' ' || '~' < character {
        out.append(b"?")
    } else {
        out.push(character as u8)
    }
}

fn put_quoted_name(out: &mut Octets, name: &[char]) -> Result<(), AllocError>
    ensures { OnOk result (out.new ≡ out.old ++ quoted name.now) }
{
    for character in name {
        put_quoted_character(out, *character)?;
    }
    Ok(())
}

/// The characters of a name, or digits, with their quotation marks.
#[tactic(auto, unfolding(crate::specs::Quoting::string))]
pub(crate) fn put_name(out: &mut Octets, name: &[char]) -> Result<(), AllocError>
    ensures { OnOk result (out.new ≡ out.old ++ string name.now) }
{
    out.append(b"\"")?;
    put_quoted_name(out, name)?;
    out.append(b"\"")
}
