//! The reference of a long message in two columns: how many bits it has, and its number.
ghost use Rattle.std.specs.Prelude.{◌≡◌, IfErr, IfOk};
ghost use Rattle.sqlite_value.specs.Order.{column};
ghost use Rattle.sms_alphabet.specs.declared.concat_key.ConcatReference.{ConcatReference as ReferenceOf};
ghost use Rattle.sms_store_sql.specs.listing.Columns.{number as as_number};
ghost use Rattle.sms_store_sql.specs.listing.Reading.{HasAt, LacksMemory};
ghost use Rattle.sms_store_tables.specs.References.{IsStoredReference, reference_bits, reference_in, reference_number};

use sms_concat::ConcatReference;
use sms_store_sql::listing::{octet_at, short_at};
use sqlite::{Error, Row};

/// How many bits the reference has, 8 or 16.
pub(crate) fn reference_bits(reference: ConcatReference) -> u32
    ensures { result ≡ reference_bits reference }
{
    match reference {
        ConcatReference::EightBit(_) => 8,
        ConcatReference::SixteenBit(_) => 16,
    }
}

/// The reference's number.
pub(crate) fn reference_number(reference: ConcatReference) -> u32
    ensures value { result ≡ reference_number reference }
    ensures stored { IsStoredReference reference }
{
    match reference {
        ConcatReference::EightBit(number) => u32::from(number),
        ConcatReference::SixteenBit(number) => u32::from(number),
    }
}

/// The reference in the two columns.
pub(crate) fn reference_at(row: &Row, bits: usize, value: usize) -> Result<ConcatReference, Error>
    ensures value { IfOk result (λ reference. reference ≡ reference_in (column row.now bits) (column row.now value)) }
    ensures only { (r : ReferenceOf) → IsStoredReference r → HasAt row.now bits (as_number (reference_bits r))
        → HasAt row.now value (as_number (reference_number r)) → IfErr result LacksMemory }
{
    let width = octet_at(row, bits)?;
    if width == 8 {
        let number = octet_at(row, value)?;
        return Ok(ConcatReference::EightBit(number));
    }
    let number = short_at(row, value)?;
    Ok(ConcatReference::SixteenBit(number))
}
