//! The fields that the units share, read at a cursor.
ghost use Rattle.std.specs.Prelude.{ℕ, List, Option, option_map};
ghost use Rattle.sms_base.specs.Reading.{Takes};
ghost use Rattle.sms_relay.specs.RelayReading.{centre_in, nobody_in, addresses_in, tpdu_in, user_data_in, cause_in, ack_in, error_in};

use crate::cause::RpCause;
use crate::fault::RelayFault;
use crate::frame::Rp;
use crate::message_type::Direction;
use sms_base::{Cursor, OctetView};

/// The identifier of the user data of an answer (3GPP TS 24.011 8.2.5.3).
pub(crate) const USER_DATA: u8 = 0x41;

/// The address of the centre, 2 to 11 octets. Its length is judged before its octets.
#[tactic(auto, unfolding(crate::specs::RelayReading::centre_in))]
fn centre<'a>(cursor: &mut Cursor<'a>) -> Result<OctetView<'a>, RelayFault>
    ensures { Takes (λ x. x) result cursor.new (centre_in cursor.old) }
{
    let count = cursor.octet(RelayFault::Truncated)?;
    if count < 2 || count > 11 {
        return Err(RelayFault::BadLength);
    }
    let centre = cursor.run(usize::from(count), RelayFault::Truncated)?;
    Ok(OctetView::of(centre))
}

/// The address of the other side, which is empty.
#[tactic(auto, unfolding(crate::specs::RelayReading::nobody_in))]
fn nobody(cursor: &mut Cursor<'_>) -> Result<(), RelayFault>
    ensures { Takes (λ x. x) result cursor.new (nobody_in cursor.old) }
{
    if cursor.octet(RelayFault::Truncated)? != 0 {
        return Err(RelayFault::BadLength);
    }
    Ok(())
}

/// The address of the centre, behind the empty one upwards and in front of it downwards.
#[tactic(auto, unfolding(crate::specs::RelayReading::addresses_in))]
pub(crate) fn addresses<'a>(
    direction: Direction,
    cursor: &mut Cursor<'a>,
) -> Result<OctetView<'a>, RelayFault>
    ensures { Takes (λ x. x) result cursor.new (addresses_in direction cursor.old) }
{
    match direction {
        Direction::Up => {
            nobody(cursor)?;
            centre(cursor)
        }
        Direction::Down => {
            let centre = centre(cursor)?;
            nobody(cursor)?;
            Ok(centre)
        }
    }
}

/// A length and a TPDU.
#[tactic(auto, unfolding(crate::specs::RelayReading::tpdu_in))]
pub(crate) fn tpdu<'a>(cursor: &mut Cursor<'a>) -> Result<OctetView<'a>, RelayFault>
    ensures { Takes (λ x. x) result cursor.new (tpdu_in cursor.old) }
{
    let count = cursor.octet(RelayFault::Truncated)?;
    let unit = cursor.run(usize::from(count), RelayFault::Truncated)?;
    Ok(OctetView::of(unit))
}

/// User data where its identifier is there, else none.
#[tactic(auto, unfolding(crate::specs::RelayReading::user_data_in))]
fn user_data<'a>(cursor: &mut Cursor<'a>) -> Result<Option<OctetView<'a>>, RelayFault>
    ensures { Takes (λ x. x) result cursor.new (user_data_in cursor.old) }
{
    match cursor.rest() {
        [USER_DATA, rest @ ..] => {
            *cursor = Cursor::of(rest);
            let unit = tpdu(cursor)?;
            Ok(Some(unit))
        }
        _ => Ok(None),
    }
}

/// A cause, judged before its diagnostic, which is passed over.
#[tactic(auto, unfolding(crate::specs::RelayReading::cause_in))]
fn cause(cursor: &mut Cursor<'_>) -> Result<RpCause, RelayFault>
    ensures { Takes (λ x. x) result cursor.new (cause_in cursor.old) }
{
    let count = cursor.octet(RelayFault::Truncated)?;
    if count != 1 && count != 2 {
        return Err(RelayFault::BadLength);
    }
    let number = cursor.octet(RelayFault::Truncated)?;
    if number > 127 {
        return Err(RelayFault::BadLength);
    }
    if count == 2 {
        cursor.octet(RelayFault::Truncated)?;
    }
    Ok(RpCause::of(number))
}

/// An RP-ACK behind its type.
#[tactic(auto, unfolding(crate::specs::RelayReading::ack_in))]
pub(crate) fn ack<'a>(cursor: &mut Cursor<'a>) -> Result<Rp<'a>, RelayFault>
    ensures { Takes (λ x. x) result cursor.new (ack_in cursor.old) }
{
    let reference = cursor.octet(RelayFault::Truncated)?;
    let unit = user_data(cursor)?;
    Ok(Rp::AckUnit { reference, unit })
}

/// An RP-ERROR behind its type.
#[tactic(auto, unfolding(crate::specs::RelayReading::error_in))]
pub(crate) fn error<'a>(cursor: &mut Cursor<'a>) -> Result<Rp<'a>, RelayFault>
    ensures { Takes (λ x. x) result cursor.new (error_in cursor.old) }
{
    let reference = cursor.octet(RelayFault::Truncated)?;
    let cause = cause(cursor)?;
    let unit = user_data(cursor)?;
    Ok(Rp::ErrorUnit {
        reference,
        cause,
        unit,
    })
}
