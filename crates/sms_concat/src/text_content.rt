//! The content of a text.
ghost use Rattle.std.specs.Prelude.{◌≡◌, IfOk};
ghost use Rattle.std.specs.Str.{chars};
ghost use Rattle.sms_alphabet.specs.DataCodingScheme.{coding_of};
ghost use Rattle.sms_concat.specs.TextContent.{content_of_text};
ghost use Rattle.sms_concat.specs.UserData.{AreUnits};

use crate::content::Content;
use sms_alphabet::{Coding, SpellingError, septets_of, ucs2_of};
use std::alloc::{AllocError, Global};

/// The content of a text: in the default alphabet where each character has a code there, else in UCS2.
///
/// Takes memory once.
pub fn content_of_text(alloc: Global, text: &str) -> Result<Content, AllocError>
    ensures value { IfOk result (λ content. content ≡ content_of_text (chars text.now)) }
    ensures units { IfOk result (λ content. AreUnits content.coding content.units) }
    ensures coding { IfOk result (λ content. content.coding ≡ coding_of content.dcs) }
{
    match septets_of(alloc, text) {
        Ok(units) => Ok(Content {
            coding: Coding::Septets,
            dcs: 0x00,
            units,
        }),
        Err(SpellingError::NoCode(_)) => Ok(Content {
            coding: Coding::Ucs2,
            dcs: 0x08,
            units: ucs2_of(alloc, text)?,
        }),
        Err(SpellingError::NoMemory) => Err(AllocError),
    }
}
