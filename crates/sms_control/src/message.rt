ghost use Rattle.std.specs.Prelude.{◌≡◌, ◌≤◌, IfOk, Ok, [], ◌∷◌, length};
ghost use Rattle.sms_base.specs.Reading.{Takes};
ghost use Rattle.sms_control.specs.ControlGrammar.{IsCp, FitsUnit, cause_octet, head_octet, spelled, type_octet};
ghost use Rattle.sms_control.specs.ControlReading.{body_at, cp_at, head_in, type_in, unit_in};
ghost use Rattle.sms_control.specs.declared.message.Cp.{Cp as CpOf};

use crate::cause::CpCause;
use crate::fault::CpFault;
use crate::message_type::MessageType;
use crate::transaction::Transaction;
use sms_base::{Cursor, OctetView, Octets};
use std::alloc::{AllocError, Global};

// The longest unit that CP-DATA carries, in octets (3GPP TS 24.011 8.1.4.1).
const LONGEST_UNIT: u8 = 248;

/// A message of the control layer (3GPP TS 24.011 7.2), over the octets that it was read from.
#[derive(Drop)]
pub enum Cp<'a> {
    /// CP-DATA: a unit of the relay layer, 1 to 248 octets.
    DataUnit {
        transaction: Transaction,
        unit: OctetView<'a>,
    },
    /// CP-ACK: CP-DATA arrived.
    AckUnit {
        transaction: Transaction,
    },
    /// CP-ERROR: the transaction ends.
    ErrorUnit {
        transaction: Transaction,
        cause: CpCause,
    },
}

impl<'a> Cp<'a> {
    /// The message that the octets of a frame are, or the first fault from the left.
    pub fn read(octets: &'a [u8]) -> Result<Cp<'a>, CpFault>
        // What is read is in the grammar.
        ensures found { IfOk result (λ cp. IsCp octets.entry.now cp) }

        // What is in the grammar is read.
        ensures only { (cp : CpOf) → IsCp octets.entry.now cp → result ≡ Ok cp }

        // Which fault it is.
        ensures exact { result ≡ cp_at octets.entry.now }
    {
        cp_of(octets)
    }

    /// The octets of the frame, 2 to 251.
    pub fn write(&self, alloc: Global) -> Result<Octets, AllocError>
        requires { FitsUnit self.now }
        ensures { IfOk result (λ octets. octets ≡ spelled self.now) }
    {
        match self {
            Cp::DataUnit { transaction, unit } => {
                data_frame(alloc, *transaction, unit.as_slice())
            }
            Cp::AckUnit { transaction } => bare_frame(alloc, *transaction, MessageType::Ack),
            Cp::ErrorUnit { transaction, cause } => error_frame(alloc, *transaction, *cause),
        }
    }
}

// The transaction that the first octet names.
#[tactic(auto, unfolding(crate::specs::ControlReading::head_in))]
fn head(cursor: &mut Cursor<'_>) -> Result<Transaction, CpFault>
    ensures { Takes (λ x. x) result cursor.new (head_in cursor.old) }
{
    let octet = cursor.octet(CpFault::Truncated)?;
    match Transaction::of(octet) {
        Some(transaction) => Ok(transaction),
        None => Err(CpFault::Unknown),
    }
}

// The type that the second octet names.
#[tactic(auto, unfolding(crate::specs::ControlReading::type_in))]
fn message_type(cursor: &mut Cursor<'_>) -> Result<MessageType, CpFault>
    ensures { Takes (λ x. x) result cursor.new (type_in cursor.old) }
{
    let octet = cursor.octet(CpFault::Truncated)?;
    match MessageType::of(octet) {
        Some(message_type) => Ok(message_type),
        None => Err(CpFault::Unknown),
    }
}

// A unit behind its length.
#[tactic(auto, unfolding(crate::specs::ControlReading::unit_in))]
fn unit<'a>(cursor: &mut Cursor<'a>) -> Result<&'a [u8], CpFault>
    ensures { Takes (λ x. x.now) result cursor.new (unit_in cursor.old) }
{
    let len = cursor.octet(CpFault::Truncated)?;
    if len == 0 || len > LONGEST_UNIT {
        return Err(CpFault::BadLength);
    }
    let unit = cursor.run(usize::from(len), CpFault::Truncated)?;
    Ok(unit)
}

// What stands behind the type.
fn body<'a>(
    cursor: &mut Cursor<'a>,
    transaction: Transaction,
    message_type: MessageType,
) -> Result<Cp<'a>, CpFault>
    ensures { result ≡ body_at transaction message_type cursor.old }
{
    match message_type {
        MessageType::Data => {
            let unit = unit(cursor)?;
            cursor.end(CpFault::Trailing)?;
            Ok(Cp::DataUnit {
                transaction,
                unit: OctetView::of(unit),
            })
        }
        MessageType::Ack => {
            cursor.end(CpFault::Trailing)?;
            Ok(Cp::AckUnit { transaction })
        }
        MessageType::Error => {
            let octet = cursor.octet(CpFault::Truncated)?;
            cursor.end(CpFault::Trailing)?;
            Ok(Cp::ErrorUnit {
                transaction,
                cause: CpCause::of(octet),
            })
        }
    }
}

#[tactic(auto, unfolding(crate::specs::ControlReading::cp_at))]
fn cp_of(octets: &[u8]) -> Result<Cp<'_>, CpFault>
    ensures { result ≡ cp_at octets.entry.now }
{
    let mut cursor = Cursor::of(octets);
    let transaction = head(&mut cursor)?;
    let message_type = message_type(&mut cursor)?;
    let cp = body(&mut cursor, transaction, message_type)?;
    Ok(cp)
}

// A frame with a unit.
fn data_frame(alloc: Global, transaction: Transaction, unit: &[u8]) -> Result<Octets, AllocError>
    requires { length unit.now ≤ 248 }
    ensures { IfOk result (λ octets. octets ≡ head_octet transaction ∷ 1 ∷ length unit.now ∷ unit.now) }
{
    let mut octets = Vec::with_capacity(alloc, unit.len() + 3)?;
    octets.push(transaction.octet())?;
    octets.push(MessageType::Data.octet())?;
    octets.push(unit.len() as u8)?;
    octets.extend_from_slice(unit)?;
    Ok(Octets::from_vec(octets))
}

// A frame of two octets.
fn bare_frame(
    alloc: Global,
    transaction: Transaction,
    message_type: MessageType,
) -> Result<Octets, AllocError>
    ensures { IfOk result (λ octets. octets ≡ head_octet transaction ∷ type_octet message_type ∷ []) }
{
    let mut octets = Vec::with_capacity(alloc, 2)?;
    octets.push(transaction.octet())?;
    octets.push(message_type.octet())?;
    Ok(Octets::from_vec(octets))
}

// A frame with a cause.
fn error_frame(
    alloc: Global,
    transaction: Transaction,
    cause: CpCause,
) -> Result<Octets, AllocError>
    ensures { IfOk result (λ octets. octets ≡ head_octet transaction ∷ 16 ∷ cause_octet cause ∷ []) }
{
    let mut octets = Vec::with_capacity(alloc, 3)?;
    octets.push(transaction.octet())?;
    octets.push(MessageType::Error.octet())?;
    octets.push(cause.octet())?;
    Ok(Octets::from_vec(octets))
}
