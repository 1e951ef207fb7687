//! What the parts of a submission carry.
ghost use Rattle.std.specs.Prelude.{◌≡◌, ◌∷◌, [], All, IfOk};
ghost use Rattle.sms_concat.specs.Splitting.{split_of};
ghost use Rattle.sms_concat.specs.UserData.{AreUnits, HasRoom};
ghost use Rattle.sms_intake.specs.PartBodies.{HasUnits, bodies_of, bodies_under, body_of, parts_or_none, single_of};

use crate::submission::{SinglePart, Text};
use sms_base::Listed;
use sms_concat::{ConcatKey, Content, Part, SplitError, UserData, split, user_data};
use std::alloc::{AllocError, Global};

/// User data under a data coding scheme.
pub(crate) fn single_of(
    data_coding_scheme: u8,
    key: Option<ConcatKey>,
    user: UserData,
) -> SinglePart
    ensures { result ≡ single_of data_coding_scheme key user }
{
    SinglePart {
        header_indicator: user.header_indicator,
        data_coding_scheme,
        length: user.length,
        octets: user.octets,
        key,
    }
}

/// What a part of a content carries.
pub(crate) fn body_of(alloc: Global, part: &Part) -> Result<SinglePart, AllocError>
    requires { HasRoom part.now }
    ensures { IfOk result (λ body. body ≡ body_of part.now) }
{
    let user = user_data(alloc, part)?;
    Ok(single_of(part.content.dcs, part.key, user))
}

fn bodies_of(alloc: Global, parts: &[Part]) -> Result<Listed<SinglePart>, AllocError>
    requires { All HasRoom parts.now }
    ensures { IfOk result (λ bodies. bodies ≡ bodies_of parts.now) }
{
    let mut bodies = Listed::new(alloc);
    for part in parts {
        let body = body_of(alloc, part)?;
        bodies.push(body)?;
    }
    Ok(bodies)
}

// What the parts of a content carry, under that reference where it is split.
fn split_bodies(
    alloc: Global,
    content: &Content,
    reference: u16,
) -> Result<Listed<SinglePart>, AllocError>
    requires { AreUnits content.now.coding content.now.units }
    ensures { IfOk result (λ bodies. bodies ≡ bodies_of (parts_or_none (split_of content.now reference))) }
{
    match split(alloc, content, reference) {
        Ok(parts) => bodies_of(alloc, parts.as_slice()),
        Err(SplitError::NoMemory) => Err(AllocError),
        Err(_) => Ok(Listed::new(alloc)),
    }
}

fn one_body(alloc: Global, part: SinglePart) -> Result<Listed<SinglePart>, AllocError>
    ensures { IfOk result (λ bodies. bodies ≡ part ∷ []) }
{
    let mut bodies = Listed::new(alloc);
    bodies.push(part)?;
    Ok(bodies)
}

/// What the parts of a text carry, 1 to 20 of a text that was accepted, under that reference where it is split.
pub fn bodies_under(
    alloc: Global,
    reference: u16,
    text: Text,
) -> Result<Listed<SinglePart>, AllocError>
    requires { HasUnits text }
    ensures { IfOk result (λ bodies. bodies ≡ bodies_under reference text) }
{
    match text {
        Text::Whole(content) => split_bodies(alloc, &content, reference),
        Text::Single(part) => one_body(alloc, part),
    }
}
