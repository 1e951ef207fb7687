//! The names of address fields: septets of the default alphabet, packed (3GPP TS 23.040 9.1.2.5).
ghost use Rattle.std.specs.Prelude.{◌≡◌, ◌≤◌, ◌<◌, ◌^◌, ◌/◌, ◌*◌, ◌+◌, ◌++◌, ℕ, List, length, take, OnOk};
ghost use Rattle.sms_base.specs.Reading.{Takes};
ghost use Rattle.sms_base.specs.Alphabet.{text_in};
ghost use Rattle.sms_alphabet.specs.Packing.{value_in, digits_in};
ghost use Rattle.sms_tpdu.specs.AddressGrammar.{code_septets, name_septets, name_semi_octets, packed_name};
ghost use Rattle.sms_tpdu.specs.AddressReading.{name_in};

use crate::fault::TpduFault;
use crate::slices::front;
use sms_base::{
    Code, Cursor, Digits, ESCAPE, Octets, character_after_escape, character_of, code_of,
};
use std::alloc::AllocError;

// The number whose digits in base 256 the octets are, the least digit first.
fn value_of(octets: &[u8]) -> u128
    requires { length octets.now ≤ 10 }
    ensures value { result ≡ value_in 256 octets.now }
    ensures below { result < 256 ^ length octets.now }
{
    match octets {
        [] => 0,
        [octet, rest @ ..] => u128::from(*octet) + 256 * value_of(rest),
    }
}

// The text of that many septets of a number, and what is left of the number above them.
fn text_of(value: u128, count: u8) -> (Digits, u128)
    requires { count ≤ 11 }
    ensures text { result.0 ≡ text_in (digits_in 128 count value) }
    ensures rest { result.1 ≡ value / 128 ^ count }
{
    let mut text = Digits::new();
    let mut rest = value;
    let mut is_escaped = false;
    for _ in 0..count {
        let septet = (rest % 128) as u8;
        rest /= 128;
        if is_escaped {
            text.push(character_after_escape(septet));
            is_escaped = false;
        } else if septet == ESCAPE {
            is_escaped = true;
        } else {
            text.push(character_of(septet));
        }
    }
    if is_escaped {
        text.push(' ');
    }
    (text, rest)
}

/// Takes the name of so many useful semi-octets.
#[inline(never)]
#[tactic(auto, unfolding(crate::specs::AddressReading::name_in))]
pub(crate) fn take_name(cursor: &mut Cursor<'_>, count: u8) -> Result<Digits, TpduFault>
    requires { count ≤ 20 }
    ensures { Takes (λ x. x) result cursor.new (name_in count cursor.old) }
{
    let len = usize::from((count + 1) / 2);
    let septets = 4 * count / 7;
    let (text, spare) = text_of(value_of(front(cursor.rest(), len)), septets);
    if spare != 0 {
        return Err(TpduFault::BadAddress);
    }
    cursor.run(len, TpduFault::Truncated)?;
    Ok(text)
}

// A septet in front of the number of others and of how many they are.
fn with_septet(septet: u8, others: (u128, u8)) -> (u128, u8)
    requires few { others.1 < 11 }
    requires below { others.0 < 256 ^ others.1 }
    ensures value { result.0 ≡ septet + 128 * others.0 }
    ensures count { result.1 ≡ others.1 + 1 }
    ensures below { result.0 < 256 ^ result.1 }
{
    (u128::from(septet) + 128 * others.0, others.1 + 1)
}

// The septets of a character in front of others.
fn with_code(code: Option<Code>, others: (u128, u8)) -> (u128, u8)
    requires few { length (code_septets code) + others.1 ≤ 11 }
    requires below { others.0 < 256 ^ others.1 }
    ensures value { (septets : List ℕ) → others.0 ≡ value_in 128 septets → result.0 ≡ value_in 128 (code_septets code ++ septets) }
    ensures count { result.1 ≡ length (code_septets code) + others.1 }
    ensures below { result.0 < 256 ^ result.1 }
{
    match code {
        Some(Code::Main(septet)) => with_septet(septet, others),
        Some(Code::Extended(septet)) => with_septet(ESCAPE, with_septet(septet, others)),
        None => others,
    }
}

// The number whose digits in base 128 are the septets that spell a name, and how many there are.
fn septets_of(name: &[char]) -> (u128, u8)
    requires { length (name_septets name.now) ≤ 11 }
    ensures value { result.0 ≡ value_in 128 (name_septets name.now) }
    ensures count { result.1 ≡ length (name_septets name.now) }
    ensures below { result.0 < 256 ^ result.1 }
{
    match name {
        [] => (0, 0),
        [character, rest @ ..] => with_code(code_of(*character), septets_of(rest)),
    }
}

// Puts that many octets of a number at the end, the least first.
fn put_value(out: &mut Octets, value: u128, count: u8) -> Result<(), AllocError>
    ensures { OnOk result (out.new ≡ out.old ++ digits_in 256 count value) }
{
    let mut rest = value;
    for _ in 0..count {
        out.push((rest % 256) as u8)?;
        rest /= 256;
    }
    Ok(())
}

/// How many useful semi-octets a name has.
pub(crate) fn name_length(name: &[char]) -> u8
    requires { length (name_septets name.now) ≤ 11 }
    ensures { result ≡ name_semi_octets (length (name_septets name.now)) }
{
    let (_, septets) = septets_of(name);
    (7 * septets + 3) / 4
}

/// Puts the septets of a name at the end, packed.
pub(crate) fn put_name(out: &mut Octets, name: &[char]) -> Result<(), AllocError>
    requires { length (name_septets name.now) ≤ 11 }
    ensures { OnOk result (out.new ≡ out.old ++ packed_name name.now) }
{
    let (value, septets) = septets_of(name);
    put_value(out, value, (7 * septets + 7) / 8)
}
