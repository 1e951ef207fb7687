//! The text of an address, character by character.
ghost use Rattle.std.specs.Prelude.{◌≡◌, ◌↔◌, true};
ghost use Rattle.std.specs.List.{list_all};
ghost use Rattle.std.specs.Str.{chars};
ghost use Rattle.sms_base.specs.Address.{number_fault, name_fault, text_fault, unless, width_of, has_code};
ghost use Rattle.sms_base.specs.Alphabet.{code_for};
ghost use Rattle.sms_base.specs.Msisdn.{AllDigits};
ghost use Rattle.sms_base.specs.SemiOctet.{is_digit};

use crate::address_error::AddressError;
use crate::alphabet::code_of;
use crate::digits::Digits;
use crate::semi_octet::semi_octet_of;

/// Digits in a number, semi-octets of 1 to 20 (3GPP TS 23.040 9.1.2.5).
const MOST_DIGITS: usize = 20;

/// Septets in a name: as many as fit 20 semi-octets.
const MOST_SEPTETS: u8 = 11;

/// Whether the character is a digit of a number, `0-9*#abc`.
pub fn is_digit(character: char) -> bool
    ensures { result ≡ is_digit character }
{
    semi_octet_of(character).is_some()
}

/// Whether each character is a digit of a number.
pub fn are_digits(characters: &[char]) -> bool
    ensures test { result ≡ list_all is_digit characters.now }
    ensures digits { (result ≡ true) ↔ AllDigits characters.now }
{
    characters.iter().all(|character| is_digit(*character))
}

/// How many septets a character takes; one without a code counts as one.
pub fn width_of(character: char) -> u8
    ensures { result ≡ width_of (code_for character) }
{
    match code_of(character) {
        Some(code) => code.len(),
        None => 1,
    }
}

/// Whether the character is one of the default alphabet.
pub fn has_code(character: char) -> bool
    ensures { result ≡ has_code character }
{
    code_of(character).is_some()
}

fn number_of(text: &str) -> Result<Digits, AddressError>
    ensures { result ≡ unless (number_fault 0 (chars text.now)) (chars text.now) }
{
    let mut digits = Digits::new();
    for character in text.chars() {
        if digits.len() == MOST_DIGITS {
            return Err(AddressError::TooLong);
        }
        if !is_digit(character) {
            return Err(AddressError::BadDigit);
        }
        digits.push(character);
    }
    Ok(digits)
}

fn name_of(text: &str) -> Result<Digits, AddressError>
    ensures { result ≡ unless (name_fault 0 (chars text.now)) (chars text.now) }
{
    let mut digits = Digits::new();
    let mut septets: u8 = 0;
    for character in text.chars() {
        septets += width_of(character);
        if septets > MOST_SEPTETS {
            return Err(AddressError::TooLong);
        }
        if !has_code(character) {
            return Err(AddressError::BadName);
        }
        digits.push(character);
    }
    Ok(digits)
}

/// The characters of a name or of a number, or the first fault from the left.
pub(crate) fn text_of(is_name: bool, text: &str) -> Result<Digits, AddressError>
    ensures { result ≡ unless (text_fault is_name (chars text.now)) (chars text.now) }
{
    if is_name {
        name_of(text)
    } else {
        number_of(text)
    }
}
