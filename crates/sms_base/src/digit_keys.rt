//! The number by which digits are kept.
ghost use Rattle.std.specs.Prelude.{◌≡◌, ◌-◌, ◌%◌, ◌<◌, ◌≤◌, ◌^◌, length};
ghost use Rattle.sms_base.specs.DigitsKey.{digit_code as digit_code_of, digits_key as digits_key_of, spelled as spelled_of, last_first as last_first_of, turned_onto};
ghost use Rattle.sms_base.specs.SemiOctet.{digit_of};

use crate::digits::Digits;
use crate::semi_octet::{digit_of, semi_octet_of};

/// The number of the digits to the base 16, 20 at most.
pub fn digits_key(digits: &[char]) -> u128
    requires { length digits.now ≤ 20 }
    ensures value { result ≡ digits_key_of digits.now }
    ensures small { result < 16 ^ 20 }
{
    let mut place: u128 = 0;
    for digit in digits {
        place = 16 * place + u128::from(digit_code(*digit));
    }
    place
}

// The semi-octet of a digit, and one more, so that no digit counts as nothing.
fn digit_code(digit: char) -> u8
    ensures value { result ≡ digit_code_of digit }
    ensures small { result ≤ 15 }
{
    match semi_octet_of(digit) {
        Some(semi_octet) => semi_octet + 1,
        None => 0,
    }
}

/// The digits of the key.
pub(crate) fn spelled(key: u128) -> Digits
    ensures { result ≡ spelled_of key }
{
    last_first(turned(key))
}

// The key of the same digits, the last one first.
fn turned(key: u128) -> u128
    ensures { result ≡ turned_onto 20 key 0 }
{
    let mut rest = key;
    let mut onto: u128 = 0;
    for _step in 0..20_u8 {
        if rest == 0 {
            return onto;
        }
        onto = 16 * onto + rest % 16;
        rest /= 16;
    }
    onto
}

// The digits of the key, the last one first.
fn last_first(key: u128) -> Digits
    ensures { result ≡ last_first_of 20 key }
{
    let mut rest = key;
    let mut digits = Digits::new();
    for _step in 0..20_u8 {
        if rest == 0 {
            return digits;
        }
        digits.push(last_digit(rest));
        rest /= 16;
    }
    digits
}

// The last digit of the key.
fn last_digit(key: u128) -> char
    ensures { result ≡ digit_of (key % 16 - 1) }
{
    let code = (key % 16) as u8;
    digit_of(code.saturating_sub(1))
}
