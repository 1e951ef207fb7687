//! Units of either direction, read.
ghost use Rattle.std.specs.Prelude.{◌≡◌, IfOk, Ok};
ghost use Rattle.sms_base.specs.Reading.{Takes};
ghost use Rattle.sms_relay.specs.RelayGrammar.{IsUp, IsDown};
ghost use Rattle.sms_relay.specs.RelayReading.{up_at, down_at, unit_at, unit_in, data_in, smma_in};
ghost use Rattle.sms_relay.specs.declared.frame.Rp.{Rp as RpOf};

use crate::fault::RelayFault;
use crate::fields::{ack, addresses, error, tpdu};
use crate::frame::Rp;
use crate::message_type::{Direction, MessageType};
use sms_base::Cursor;

/// The unit from the handset that the octets are, or the first fault from the left.
#[tactic(auto, unfolding(crate::specs::RelayReading::up_at))]
pub fn read_up(octets: &[u8]) -> Result<Rp<'_>, RelayFault>
    // What is read is in the grammar.
    ensures found { IfOk result (λ rp. IsUp octets.now rp) }
    // What is in the grammar is read.
    ensures only { (rp : RpOf) → IsUp octets.now rp → result ≡ Ok rp }
    // Which fault it is.
    ensures exact { result ≡ up_at octets.now }
{
    whole(Direction::Up, octets)
}

/// The unit to the handset that the octets are, or the first fault from the left.
#[tactic(auto, unfolding(crate::specs::RelayReading::down_at))]
pub fn read_down(octets: &[u8]) -> Result<Rp<'_>, RelayFault>
    // What is read is in the grammar.
    ensures found { IfOk result (λ rp. IsDown octets.now rp) }
    // What is in the grammar is read.
    ensures only { (rp : RpOf) → IsDown octets.now rp → result ≡ Ok rp }
    // Which fault it is.
    ensures exact { result ≡ down_at octets.now }
{
    whole(Direction::Down, octets)
}

#[tactic(auto, unfolding(crate::specs::RelayReading::unit_at))]
fn whole(direction: Direction, octets: &[u8]) -> Result<Rp<'_>, RelayFault>
    ensures { result ≡ unit_at direction octets.now }
{
    let mut cursor = Cursor::of(octets);
    let rp = unit(direction, &mut cursor)?;
    cursor.end(RelayFault::Trailing)?;
    Ok(rp)
}

#[tactic(auto, unfolding(crate::specs::RelayReading::unit_in))]
fn unit<'a>(direction: Direction, cursor: &mut Cursor<'a>) -> Result<Rp<'a>, RelayFault>
    ensures { Takes (λ x. x) result cursor.new (unit_in direction cursor.old) }
{
    match MessageType::of(direction, cursor.octet(RelayFault::Truncated)?) {
        Some(MessageType::Data) => data(direction, cursor),
        Some(MessageType::Ack) => ack(cursor),
        Some(MessageType::Error) => error(cursor),
        Some(MessageType::Smma) => smma(direction, cursor),
        None => Err(RelayFault::Unknown),
    }
}

/// An RP-DATA behind its type.
#[tactic(auto, unfolding(crate::specs::RelayReading::data_in))]
fn data<'a>(direction: Direction, cursor: &mut Cursor<'a>) -> Result<Rp<'a>, RelayFault>
    ensures { Takes (λ x. x) result cursor.new (data_in direction cursor.old) }
{
    let reference = cursor.octet(RelayFault::Truncated)?;
    let centre = addresses(direction, cursor)?;
    let unit = tpdu(cursor)?;
    Ok(Rp::DataUnit {
        reference,
        centre,
        unit,
    })
}

/// An RP-SMMA behind its type, which only a handset sends.
#[tactic(auto, unfolding(crate::specs::RelayReading::smma_in))]
fn smma<'a>(direction: Direction, cursor: &mut Cursor<'a>) -> Result<Rp<'a>, RelayFault>
    ensures { Takes (λ x. x) result cursor.new (smma_in direction cursor.old) }
{
    match direction {
        Direction::Up => {
            let reference = cursor.octet(RelayFault::Truncated)?;
            Ok(Rp::Smma { reference })
        }
        Direction::Down => Err(RelayFault::Unknown),
    }
}
