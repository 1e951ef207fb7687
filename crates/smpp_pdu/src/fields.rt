//! The fields that PDUs share, read from left to right.
ghost use Rattle.std.specs.Prelude.{◌≡◌, ◌<◌};
ghost use Rattle.sms_base.specs.Reading.{Takes};
ghost use Rattle.smpp_pdu.specs.FieldReading.{two_in, four_in, c_string_in, time_in, short_message_in};

use crate::fault::PduFault;
use sms_base::{Cursor, OctetView};

// An integer of two octets, the high one first.
#[tactic(auto, unfolding(crate::specs::FieldReading::two_in))]
pub(crate) fn two(cursor: &mut Cursor<'_>, fault: PduFault) -> Result<u16, PduFault>
    ensures { Takes (λ x. x) result cursor.new (two_in fault cursor.old) }
{
    let high = cursor.octet(fault)?;
    let low = cursor.octet(fault)?;
    Ok(256 * u16::from(high) + u16::from(low))
}

// An integer of four octets, the high one first.
#[tactic(auto, unfolding(crate::specs::FieldReading::four_in))]
pub(crate) fn four(cursor: &mut Cursor<'_>) -> Result<u32, PduFault>
    ensures { Takes (λ x. x) result cursor.new (four_in cursor.old) }
{
    let high = two(cursor, PduFault::Truncated)?;
    let low = two(cursor, PduFault::Truncated)?;
    Ok(65_536 * u32::from(high) + u32::from(low))
}

// A C-octet string without its NUL, which stands among that many octets.
#[tactic(auto, unfolding(crate::specs::FieldReading::c_string_in))]
pub(crate) fn c_string<'a>(cursor: &mut Cursor<'a>, limit: usize) -> Result<OctetView<'a>, PduFault>
    ensures { Takes (λ x. x) result cursor.new (c_string_in limit cursor.old) }
{
    let octets = cursor.rest();
    if octets.is_empty() {
        return Err(PduFault::Truncated);
    }
    for len in 0..limit {
        if cursor.octet(PduFault::NoTerminator)? == 0 {
            return Ok(OctetView::of(&octets[..len]));
        }
    }
    Err(PduFault::FieldTooLong)
}

// A time, which has no octet or sixteen.
#[tactic(auto, unfolding(crate::specs::FieldReading::time_in))]
pub(crate) fn time<'a>(cursor: &mut Cursor<'a>) -> Result<OctetView<'a>, PduFault>
    ensures { Takes (λ x. x) result cursor.new (time_in cursor.old) }
{
    let text = c_string(cursor, 17)?;
    match text.as_slice().len() {
        0 | 16 => Ok(text),
        _ => Err(PduFault::FieldTooLong),
    }
}

// The octets of a message behind their number.
#[tactic(auto, unfolding(crate::specs::FieldReading::short_message_in))]
pub(crate) fn short_message<'a>(cursor: &mut Cursor<'a>) -> Result<OctetView<'a>, PduFault>
    ensures { Takes (λ x. x) result cursor.new (short_message_in cursor.old) }
{
    let sm_length = cursor.octet(PduFault::Truncated)?;
    if sm_length > 254 {
        return Err(PduFault::ShortMessageTooLong);
    }
    let octets = cursor.run(usize::from(sm_length), PduFault::Truncated)?;
    Ok(OctetView::of(octets))
}
