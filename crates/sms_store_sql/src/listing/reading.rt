//! Reads the columns of a row.
ghost use Rattle.std.specs.Prelude.{◌≡◌, ◌<◌, ◌≤◌, ◌+◌, ◌++◌, ℕ, Bool, List, Option, true, [], ◌∷◌, length, IfErr, IfNone, IfOk, OnOk, encode_utf8, IfSome};
ghost use Rattle.std.specs.Prelude.{IsNone, IsUtf8, chars, encode_utf8_all, string_bytes};
ghost use Rattle.std.specs.Str.{all_scalars};
ghost use Rattle.sqlite.specs.declared.types.Value.TheVariants.{Blob, Text};
ghost use Rattle.sms_base.specs.AddressKind.{type_of as type_numbered, type_number};
ghost use Rattle.sms_base.specs.Msisdn.{IsMsisdn};
ghost use Rattle.sms_base.specs.TimeStamp.{IsMoment};
ghost use Rattle.sms_base.specs.declared.address.Address.{Address as AddressOf};
ghost use Rattle.sqlite_sql.specs.Ops.{is_null};
ghost use Rattle.sqlite_value.specs.Order.{column};
ghost use Rattle.sms_store_sql.specs.listing.Addresses.{AreFew, IsStoredAddress, address_in, ton_in};
ghost use Rattle.sms_store_sql.specs.listing.Columns.{IsOctet, IsShort, IsWord, characters_in, flag as as_flag, flag_in, if_given, number as as_number};
ghost use Rattle.sms_store_sql.specs.listing.Columns.{number_in, octets_in, or_none, text_in};
ghost use Rattle.sms_store_sql.specs.listing.Reading.{HasAt, LacksMemory};

use sms_base::{Address, Digits, Moment, Msisdn, Octets, TypeOfNumber};
use sqlite::types::{Type, ValueRef};
use sqlite::{Error, Row};
use std::alloc::{AllocError, Global};

/// The number in the column, if it is one below 2^64.
pub fn number_at(row: &Row, at: usize) -> Result<u64, Error>
    ensures value { IfOk result (λ number. number ≡ number_in (column row.now at)) }
    ensures only { (n : ℕ) → HasAt row.now at (as_number n) → IfErr result LacksMemory }
{
    let number: u64 = row.get(at)?;
    Ok(number)
}

/// The number in the column, if it is one below 2^32.
pub fn word_at(row: &Row, at: usize) -> Result<u32, Error>
    ensures value { IfOk result (λ number. number ≡ number_in (column row.now at)) }
    ensures only { (n : ℕ) → IsWord n → HasAt row.now at (as_number n) → IfErr result LacksMemory }
{
    let number: u32 = row.get(at)?;
    Ok(number)
}

/// The number in the column, if it is one below 2^16.
pub fn short_at(row: &Row, at: usize) -> Result<u16, Error>
    ensures value { IfOk result (λ number. number ≡ number_in (column row.now at)) }
    ensures only { (n : ℕ) → IsShort n → HasAt row.now at (as_number n) → IfErr result LacksMemory }
{
    let number = number_at(row, at)?;
    u16::try_from(number).map_err(|_| Error::IntegralValueOutOfRange(at))
}

/// The number in the column, if it is one below 2^8.
pub fn octet_at(row: &Row, at: usize) -> Result<u8, Error>
    ensures value { IfOk result (λ number. number ≡ number_in (column row.now at)) }
    ensures only { (n : ℕ) → IsOctet n → HasAt row.now at (as_number n) → IfErr result LacksMemory }
{
    let number = number_at(row, at)?;
    u8::try_from(number).map_err(|_| Error::IntegralValueOutOfRange(at))
}

/// What the column says is so: 1, or 0 where it is not.
pub fn flag_at(row: &Row, at: usize) -> Result<bool, Error>
    ensures value { IfOk result (λ flag. flag ≡ flag_in (column row.now at)) }
    ensures only { (b : Bool) → HasAt row.now at (as_flag b) → IfErr result LacksMemory }
{
    let number = number_at(row, at)?;
    Ok(number != 0)
}

/// The moment in the column, in seconds.
pub fn moment_at(row: &Row, at: usize) -> Result<Moment, Error>
    ensures value { IfOk result (λ moment. moment ≡ number_in (column row.now at)) }
    ensures only { (n : ℕ) → IsMoment n → HasAt row.now at (as_number n) → IfErr result LacksMemory }
{
    let seconds = number_at(row, at)?;
    Moment::from_seconds(seconds).map_err(|_| Error::IntegralValueOutOfRange(at))
}

/// Whether the column holds NULL.
pub fn is_null_at(row: &Row, at: usize) -> Result<bool, Error>
    ensures value { IfOk result (λ null. null ≡ is_null (column row.now at)) }
    ensures only { IfErr result (λ _. length row.now ≤ at) }
{
    let value = row.get_ref(at)?;
    Ok(matches!(value, ValueRef::Null))
}

/// The number in the column, if it is one below 2^8, or none for NULL.
pub fn optional_octet_at(row: &Row, at: usize) -> Result<Option<u8>, Error>
    ensures value { IfOk result (λ number. number ≡ if_given number_in (column row.now at)) }
    ensures only { (n : Option ℕ) → IfSome n IsOctet → HasAt row.now at (or_none as_number n) → IfErr result LacksMemory }
{
    if is_null_at(row, at)? {
        return Ok(None);
    }
    let number = octet_at(row, at)?;
    Ok(Some(number))
}

/// The number in the column, if it is one below 2^16, or none for NULL.
pub fn optional_short_at(row: &Row, at: usize) -> Result<Option<u16>, Error>
    ensures value { IfOk result (λ number. number ≡ if_given number_in (column row.now at)) }
    ensures only { (n : Option ℕ) → IfSome n IsShort → HasAt row.now at (or_none as_number n) → IfErr result LacksMemory }
{
    if is_null_at(row, at)? {
        return Ok(None);
    }
    let number = short_at(row, at)?;
    Ok(Some(number))
}

/// The moment in the column, in seconds, or none for NULL.
pub fn optional_moment_at(row: &Row, at: usize) -> Result<Option<Moment>, Error>
    ensures value { IfOk result (λ moment. moment ≡ if_given number_in (column row.now at)) }
    ensures only { (n : Option ℕ) → IfSome n IsMoment → HasAt row.now at (or_none as_number n) → IfErr result LacksMemory }
{
    if is_null_at(row, at)? {
        return Ok(None);
    }
    let moment = moment_at(row, at)?;
    Ok(Some(moment))
}

/// The octets in the column.
pub fn octets_at(row: &Row, at: usize) -> Result<Octets, Error>
    ensures value { IfOk result (λ octets. octets ≡ octets_in (column row.now at)) }
    ensures only { (octets : List ℕ) → HasAt row.now at (Blob octets) → IfErr result LacksMemory }
{
    let octets: Vec<u8> = row.get(at)?;
    Ok(Octets::from_vec(octets))
}

/// The text in the column, where it lies.
pub fn text_at<'a>(row: &'a Row, at: usize) -> Result<&'a str, Error>
    ensures value { IfOk result (λ text. text.now ≡ text_in (column row.entry.now at)) }
    ensures only { (text : List ℕ) → IsUtf8 text → HasAt row.entry.now at (Text text) → IfErr result LacksMemory }
{
    match row.get_ref(at)? {
        ValueRef::Text(octets) => str::from_utf8(octets).map_err(|_| Error::Utf8Error(at)),
        value => Err(Error::InvalidColumnType(at, Type::of(value))),
    }
}

/// The text in the column, if it has at most 20 characters.
fn digits_at(row: &Row, at: usize) -> Result<Digits, Error>
    ensures value { IfOk result (λ digits. digits ≡ characters_in (column row.now at)) }
    ensures only { (digits : List ℕ) → AreFew digits → HasAt row.now at (Text (encode_utf8_all digits)) → IfErr result LacksMemory }
{
    let text = text_at(row, at)?;
    match digits_of(text) {
        Some(digits) => Ok(digits),
        None => Err(Error::Utf8Error(at)),
    }
}

/// The number of a handset in the column.
pub fn handset_at(row: &Row, at: usize) -> Result<Msisdn, Error>
    ensures value { IfOk result (λ number. number ≡ characters_in (column row.now at)) }
    ensures only { (digits : List ℕ) → IsMsisdn digits → HasAt row.now at (Text (encode_utf8_all digits)) → IfErr result LacksMemory }
{
    let digits = digits_at(row, at)?;
    match Msisdn::of_digits(&digits) {
        Some(number) => Ok(number),
        None => Err(Error::Utf8Error(at)),
    }
}

/// The address in three columns: its type of number, its numbering plan and its characters.
pub fn address_at(row: &Row, at: usize) -> Result<Address, Error>
    requires { at < 1000 }
    ensures value { IfOk result (λ address. address ≡ address_in (column row.now at) (column row.now (at + 1)) (column row.now (at + 2))) }
    ensures only { (a : AddressOf) → IsStoredAddress a → HasAt row.now at (as_number (type_number a.ton)) → HasAt row.now (at + 1) (as_number a.npi)
        → HasAt row.now (at + 2) (Text (encode_utf8_all a.digits)) → IfErr result LacksMemory }
{
    let number = octet_at(row, at)?;
    let npi = octet_at(row, at + 1)?;
    let digits = digits_at(row, at + 2)?;
    let ton = type_of(number, at)?;
    Ok(Address { ton, npi, digits })
}

fn type_of(number: u8, at: usize) -> Result<TypeOfNumber, Error>
    ensures value { IfOk result (λ ton. ton ≡ ton_in number) }
    ensures only { IfErr result (λ _. IsNone (type_numbered number)) }
{
    TypeOfNumber::of(number).ok_or(Error::IntegralValueOutOfRange(at))
}

fn digits_of(text: &str) -> Option<Digits>
    ensures value { IfSome result (λ digits. digits ≡ chars text.now) }
    ensures none { IfNone result (20 < length (chars text.now)) }
{
    let mut digits = Digits::new();
    for character in text.chars() {
        if digits.len() == 20 {
            return None;
        }
        digits.push(character);
    }
    Some(digits)
}

/// The text of the characters.
pub fn text_of(alloc: Global, characters: &[char]) -> Result<String, Error>
    ensures text { IfOk result (λ text. string_bytes text ≡ encode_utf8_all characters.now) }
    ensures characters { IfOk result (λ _. all_scalars characters.now ≡ true) }
    ensures only { IfErr result LacksMemory }
{
    let mut text = String::new(alloc);
    for character in characters {
        put_character(&mut text, *character)?;
    }
    Ok(text)
}

/// The text of the number of a handset.
pub fn handset_text(alloc: Global, number: &Msisdn) -> Result<String, Error>
    ensures text { IfOk result (λ text. string_bytes text ≡ encode_utf8_all number.now) }
    ensures number { IsMsisdn number.now }
    ensures only { IfErr result LacksMemory }
{
    number.spells_a_number();
    let digits = number.digits();
    text_of(alloc, digits.as_slice())
}

fn put_character(text: &mut String, character: char) -> Result<(), AllocError>
    ensures text { OnOk result (string_bytes text.new ≡ string_bytes text.old ++ encode_utf8 character) }
    ensures is_character { all_scalars (character ∷ []) ≡ true }
{
    text.push(character)
}
