//! Words put at the end of a text.
ghost use Rattle.std.specs.Prelude.{◌≡◌, ◌++◌, ◌∷◌, [], OnOk};
ghost use Rattle.hex.specs.Hex.{encode_upper};
ghost use Rattle.sms_script.specs.report.ReportText.{body_text, id_text};

use sms_base::{MessageId, Octets};
use std::alloc::{AllocError, Global};

/// The ten digits of an id.
pub(crate) fn put_id(out: &mut Octets, id: MessageId) -> Result<(), AllocError>
    ensures { OnOk result (out.new ≡ out.old ++ id_text id) }
{
    // An id is one to ten digits long.
    let _range = id.number();
    out.append(&id.digits())
}

/// Octets in hexadecimal digits, in capitals.
pub(crate) fn put_octets(alloc: Global, out: &mut Octets, octets: &[u8]) -> Result<(), AllocError>
    ensures { OnOk result (out.new ≡ out.old ++ encode_upper octets.now) }
{
    let digits = hex::encode_upper(alloc, octets)?;
    out.append(digits.as_bytes())
}

/// Octets in hexadecimal digits, or `-` where there is none.
pub(crate) fn put_body(alloc: Global, out: &mut Octets, octets: &[u8]) -> Result<(), AllocError>
    ensures { OnOk result (out.new ≡ out.old ++ body_text octets.now) }
{
    if octets.is_empty() {
        out.append(b"-")
    } else {
        put_octets(alloc, out, octets)
    }
}
