//! Octets of a script as a note has them.
ghost use Rattle.std.specs.Prelude.{◌≡◌, ◌++◌, ◌<◌, IsUtf8, OnOk};
ghost use Rattle.sms_trace.specs.drawing.Shown.{hex_digit as digit_of, shown_octet, shown_octets};

use sms_base::Octets;
use std::alloc::AllocError;
use std::str::from_utf8;

/// A hexadecimal digit.
pub(crate) fn hex_digit(digit: u8) -> u8
    requires { digit < 16 }
    ensures { result ≡ digit_of digit }
{
    if digit < 10 { 48 + digit } else { 55 + digit }
}

#[tactic(auto, unfolding(crate::specs::drawing::Shown::shown_octet))]
fn put_octet(out: &mut Octets, octet: u8) -> Result<(), AllocError>
    ensures { OnOk result (out.new ≡ out.old ++ shown_octet octet) }
{
    if octet == b'\\' || octet < 32 || 126 < octet {
        out.append(&[b'\\', b'x', hex_digit(octet / 16), hex_digit(octet % 16)])
    } else {
        out.push(octet)
    }
}

/// Octets that are no text: `\` and two hexadecimal digits for each that is no printable ASCII.
pub(crate) fn put_octets(out: &mut Octets, octets: &[u8]) -> Result<(), AllocError>
    ensures { OnOk result (out.new ≡ out.old ++ shown_octets octets.now) }
{
    for octet in octets {
        put_octet(out, *octet)?;
    }
    Ok(())
}

/// Octets as a note has them: those of UTF-8 as they are, else each octet for itself.
pub fn put_shown(out: &mut Octets, octets: &[u8]) -> Result<(), AllocError>
    ensures text { IsUtf8 octets.now → OnOk result (out.new ≡ out.old ++ octets.now) }
    ensures octets { (IsUtf8 octets.now → ⊥) → OnOk result (out.new ≡ out.old ++ shown_octets octets.now) }
{
    match from_utf8(octets) {
        Ok(text) => out.append(text.as_bytes()),
        Err(_) => put_octets(out, octets),
    }
}
