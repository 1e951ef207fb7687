//! Address fields (3GPP TS 23.040 9.1.2.5).
ghost use Rattle.std.specs.Prelude.{◌≡◌, ◌≤◌, ◌<◌, ◌+◌, ◌*◌, ◌++◌, List, ℕ, length, IfOk, OnOk};
ghost use Rattle.sms_base.specs.Reading.{Takes};
ghost use Rattle.sms_base.specs.Address.{IsAddress};
ghost use Rattle.sms_base.specs.AddressKind.{is_name};
ghost use Rattle.sms_tpdu.specs.AddressGrammar.{semi_octet, semi_octets, type_of_address, address_length, address_value, address_field, relay_address};
ghost use Rattle.sms_tpdu.specs.AddressReading.{address_in, digits_in, two_digits_in, last_digit_in, characters_in, type_of_number_in};

use crate::fault::TpduFault;
use crate::name_field::{name_length, put_name, take_name};
use sms_base::{Address, Cursor, Digits, Octets, TypeOfNumber, digit_of, semi_octet_of};
use std::alloc::{AllocError, Global};

#[tactic(auto, unfolding(crate::specs::AddressReading::two_digits_in))]
fn take_two_digits(cursor: &mut Cursor<'_>) -> Result<(char, char), TpduFault>
    ensures { Takes (λ x. x) result cursor.new (two_digits_in cursor.old) }
{
    let octet = cursor.octet(TpduFault::Truncated)?;
    if octet % 16 == 15 || octet / 16 == 15 {
        return Err(TpduFault::BadAddress);
    }
    Ok((digit_of(octet % 16), digit_of(octet / 16)))
}

#[tactic(auto, unfolding(crate::specs::AddressReading::last_digit_in))]
fn take_last_digit(cursor: &mut Cursor<'_>) -> Result<char, TpduFault>
    ensures { Takes (λ x. x) result cursor.new (last_digit_in cursor.old) }
{
    let octet = cursor.octet(TpduFault::Truncated)?;
    if octet % 16 == 15 || octet / 16 != 15 {
        return Err(TpduFault::BadAddress);
    }
    Ok(digit_of(octet % 16))
}

fn take_digits(cursor: &mut Cursor<'_>, count: u8) -> Result<Digits, TpduFault>
    requires { count ≤ 20 }
    ensures { Takes (λ x. x) result cursor.new (digits_in count cursor.old) }
{
    let mut digits = Digits::new();
    for _ in 0..count / 2 {
        let (low, high) = take_two_digits(cursor)?;
        digits.push(low);
        digits.push(high);
    }
    if count % 2 == 1 {
        digits.push(take_last_digit(cursor)?);
    }
    Ok(digits)
}

#[inline(always)]
#[tactic(auto, unfolding(crate::specs::AddressReading::characters_in))]
fn take_characters(cursor: &mut Cursor<'_>, is_name: bool, count: u8) -> Result<Digits, TpduFault>
    requires { count ≤ 20 }
    ensures { Takes (λ x. x) result cursor.new (characters_in is_name count cursor.old) }
{
    if is_name {
        take_name(cursor, count)
    } else {
        take_digits(cursor, count)
    }
}

#[tactic(auto, unfolding(crate::specs::AddressReading::type_of_number_in))]
fn type_of_number(octet: u8) -> Result<TypeOfNumber, TpduFault>
    ensures { result ≡ type_of_number_in octet }
{
    if octet < 128 {
        return Err(TpduFault::BadAddress);
    }
    match TypeOfNumber::of(octet / 16 - 8) {
        Some(ton) => Ok(ton),
        None => Err(TpduFault::BadAddress),
    }
}

/// Takes an address field.
#[inline(always)]
#[tactic(auto, unfolding(crate::specs::AddressReading::address_in))]
pub(crate) fn take_address(cursor: &mut Cursor<'_>) -> Result<Address, TpduFault>
    ensures { Takes (λ x. x) result cursor.new (address_in cursor.old) }
{
    let count = cursor.octet(TpduFault::Truncated)?;
    if count == 0 || count > 20 {
        return Err(TpduFault::BadAddress);
    }
    let kind = cursor.octet(TpduFault::Truncated)?;
    let ton = type_of_number(kind)?;
    if ton.is_name() && count == 1 {
        return Err(TpduFault::BadAddress);
    }
    let digits = take_characters(cursor, ton.is_name(), count)?;
    Ok(Address {
        ton,
        npi: kind % 16,
        digits,
    })
}

// The semi-octet of a digit.
fn semi_octet(digit: char) -> u8
    ensures value { result ≡ semi_octet digit }
    ensures range { result < 16 }
{
    semi_octet_of(digit).unwrap_or(15)
}

// Two digits in an octet, the first in its low half.
fn two_digits(low: char, high: char) -> u8
    ensures { result ≡ semi_octet low + 16 * semi_octet high }
{
    semi_octet(low) + 16 * semi_octet(high)
}

// A digit below a fill of ones.
fn last_digit(digit: char) -> u8
    ensures { result ≡ semi_octet digit + 240 }
{
    semi_octet(digit) + 240
}

fn put_digits(out: &mut Octets, digits: &[char]) -> Result<(), AllocError>
    ensures { OnOk result (out.new ≡ out.old ++ semi_octets digits.now) }
{
    for i in 0..digits.len() / 2 {
        out.push(two_digits(digits[2 * i], digits[2 * i + 1]))?;
    }
    if digits.len() % 2 == 1 {
        out.push(last_digit(digits[digits.len() - 1]))?;
    }
    Ok(())
}

fn type_of_address(address: &Address) -> u8
    requires { address.now.npi < 16 }
    ensures { result ≡ type_of_address address.now }
{
    128 + 16 * address.ton.number() + address.npi
}

// How many useful semi-octets an address has.
fn address_length(address: &Address) -> u8
    requires { IsAddress address.now }
    ensures { result ≡ address_length (is_name address.now.ton) address.now.digits }
{
    if address.ton.is_name() {
        name_length(address.digits.as_slice())
    } else {
        address.digits.len() as u8
    }
}

// Puts the digits or the name at the end.
fn put_address_value(out: &mut Octets, address: &Address) -> Result<(), AllocError>
    requires { IsAddress address.now }
    ensures { OnOk result (out.new ≡ out.old ++ address_value (is_name address.now.ton) address.now.digits) }
{
    if address.ton.is_name() {
        put_name(out, address.digits.as_slice())
    } else {
        put_digits(out, address.digits.as_slice())
    }
}

/// Puts an address field at the end.
pub(crate) fn put_address(out: &mut Octets, address: &Address) -> Result<(), AllocError>
    requires { IsAddress address.now }
    ensures { OnOk result (out.new ≡ out.old ++ address_field address.now) }
{
    out.push(address_length(address))?;
    out.push(type_of_address(address))?;
    put_address_value(out, address)
}

fn relay_octets(alloc: Global, address: &Address) -> Result<Octets, AllocError>
    requires { IsAddress address.now }
    ensures { IfOk result (λ octets. octets ≡ relay_address address.now) }
{
    let mut out = Octets::with_capacity(alloc, 11)?;
    out.push(type_of_address(address))?;
    put_address_value(&mut out, address)?;
    Ok(out)
}

/// The value of an address element of the relay layer, 2 to 11 octets (3GPP TS 24.011 8.2.5.1). It is the type of
/// address, then the semi-octets of a number or the septets of a name.
///
/// Takes memory once.
pub fn write_relay_address(alloc: Global, address: &Address) -> Result<Octets, AllocError>
    requires { IsAddress address.now }
    ensures ok { IfOk result (λ octets. octets ≡ relay_address address.now) }
    ensures short { IfOk result (λ octets. length octets < 12) }
{
    relay_octets(alloc, address)
}
