//! Text in markup.
ghost use Rattle.std.specs.Prelude.{◌≡◌, ◌++◌, OnOk};
ghost use Rattle.sms_base.specs.Markup.{escaped, escaped_octet};

use crate::octets::Octets;
use std::alloc::AllocError;

#[tactic(auto, unfolding(crate::specs::Markup::escaped_octet))]
fn put_escaped_octet(out: &mut Octets, octet: u8) -> Result<(), AllocError>
    ensures { OnOk result (out.new ≡ out.old ++ escaped_octet octet) }
{
    if octet == b'&' {
        out.append(b"&amp;")
    } else if octet == b'<' {
        out.append(b"&lt;")
    } else if octet == b'>' {
        out.append(b"&gt;")
    } else if octet == b'"' {
        out.append(b"&quot;")
    } else if octet < 32 || 126 < octet {
        out.append(b"?")
    } else {
        out.push(octet)
    }
}

/// A text as character data, or as the value of an attribute. What has a meaning there is written as its reference, and `?`
/// replaces each octet that is no printable ASCII.
pub fn put_escaped(out: &mut Octets, text: &[u8]) -> Result<(), AllocError>
    ensures { OnOk result (out.new ≡ out.old ++ escaped text.now) }
{
    for octet in text {
        put_escaped_octet(out, *octet)?;
    }
    Ok(())
}
