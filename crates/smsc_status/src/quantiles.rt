//! Quantiles in text.
ghost use Rattle.std.specs.Prelude.{◌≡◌, ◌++◌, OnOk};
ghost use Rattle.smsc_status.specs.Quantiles.{limit_text, quantile_text};

use crate::commits::Quantile;
use crate::numbers::put_milliseconds;
use sms_base::{Octets, put_decimal};
use std::alloc::AllocError;

/// A quantile in JSON, in millionths of a second: null where no limit is known.
pub(crate) fn put_limit(out: &mut Octets, quantile: Quantile) -> Result<(), AllocError>
    ensures { OnOk result (out.new ≡ out.old ++ limit_text quantile) }
{
    match quantile {
        Quantile::AtMost(micros) => put_decimal(out, micros),
        Quantile::Unknown | Quantile::Above(_) => out.append(b"null"),
    }
}

/// A quantile in a page, in thousandths of a second.
pub(crate) fn put_quantile(out: &mut Octets, quantile: Quantile) -> Result<(), AllocError>
    ensures { OnOk result (out.new ≡ out.old ++ quantile_text quantile) }
{
    match quantile {
        Quantile::Unknown => out.append(b"none"),
        Quantile::AtMost(micros) => {
            out.append(b"&le; ")?;
            put_milliseconds(out, micros)?;
            out.append(b" ms")
        }
        Quantile::Above(micros) => {
            out.append(b"&gt; ")?;
            put_milliseconds(out, micros)?;
            out.append(b" ms")
        }
    }
}
