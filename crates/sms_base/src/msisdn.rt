//! The numbers of handsets.
ghost use Rattle.std.specs.Cmp.Rules.{comparing};
ghost use Rattle.std.specs.Hash as fed;
ghost use Rattle.std.specs.Option.{SomeIff};
ghost use Rattle.std.specs.Prelude.{◌≡◌, ℕ, List};
ghost use Rattle.std.specs.Str.{bytes_eq};
ghost use Rattle.std.proofs.Common.{ap, rules};
ghost use Rattle.std.proofs.lemmas.Slice.Eq.{bytes_eq-Decides};
ghost use Rattle.sms_base.specs.Address.{IsAddress};
ghost use Rattle.sms_base.specs.Among.{Among};
ghost use Rattle.sms_base.specs.DigitsKey.{digits_key};
ghost use Rattle.sms_base.specs.HandsetNumber.{own_address};
ghost use Rattle.sms_base.specs.Msisdn.{IsMsisdn};

use crate::address_text::are_digits;
use crate::digit_keys::{digits_key, spelled};
use crate::digit_octets::digits_of;
use crate::digits::Digits;
use std::hash::{Hash, Hasher};
use std::marker::Model;

// Digits of a number, semi-octets of an address (3GPP TS 23.040 9.1.2.5).
const MOST_DIGITS: usize = 20;

/// The number of a handset: 1 to 20 digits `0-9*#abc`.
///
/// A value without memory of its own, kept as the key of its digits. Contracts see it as the list of the digits' codes.
#[derive(Clone, Copy)]
pub struct Msisdn {
    key: u128,
}

impl Model for Msisdn {
    ghost use Rattle.std.specs.Prelude.{◌≡◌, ℕ, List};
    ghost use Rattle.sms_base.specs.DigitsKey.{digits_key, spelled};
    ghost use Rattle.sms_base.specs.Msisdn.{IsMsisdn, given_back};

    ghost Value = { List ℕ };

    ghost view = { λ m. spelled m.key };

    ghost invariant = { λ m. IsMsisdn (spelled m.key) × (digits_key (spelled m.key) ≡ m.key) };

    ghost inverse = { λ digits. record { key = digits_key digits } };

    ghost inverse_ok = { λ m h. given_back (λ key. record { key = key }) m.key h.1 };
}

impl PartialEq for Msisdn {
    ghost eq = { λ a b. bytes_eq a b };

    ghost laws = { Prim.search (comparing, rules) };

    fn eq(&self, other: &Msisdn) -> bool {
        self.key == other.key
    }
}

impl Eq for Msisdn {
    ghost laws = { Prim.search (comparing, rules) };
}

impl Hash for Msisdn {
    ghost hash_input = { λ a. fed.u128 (digits_key a) };

    ghost respects_eq = { λ a b same. ap (λ digits. fed.u128 (digits_key digits)) ((bytes_eq-Decides a b).0 same) };

    fn hash<H: Hasher>(&self, state: &mut H) {
        self.key().hash(state);
    }
}

impl Msisdn {
    /// The number that the octets spell, one digit an octet, if they do.
    pub fn of(octets: &[u8]) -> Option<Msisdn>
        ensures { SomeIff result (IsMsisdn octets.now) octets.now }
    {
        if octets.len() > MOST_DIGITS {
            return None;
        }
        Msisdn::of_digits(&digits_of(octets))
    }

    /// The number that the characters spell, if they do.
    pub fn of_digits(digits: &Digits) -> Option<Msisdn>
        ensures { SomeIff result (IsMsisdn digits.now) digits.now }
    {
        let characters = digits.as_few();
        if characters.is_empty() || !are_digits(characters) {
            return None;
        }
        Some(made(characters))
    }

    /// The number that the characters spell.
    pub fn spelled_by(digits: &Digits) -> Msisdn
        requires { IsMsisdn digits.now }
        ensures { result ≡ digits.now }
    {
        match Msisdn::of_digits(digits) {
            Some(number) => number,
            None => unreachable!(),
        }
    }

    /// The key of its digits, by which it is found.
    pub fn key(&self) -> u128
        ensures key { result ≡ digits_key self.now }
        ensures number { IsMsisdn self.now }
    {
        self.key
    }

    /// Whether these characters are its digits.
    pub fn is_spelled(&self, characters: &[char]) -> bool
        ensures { result ≡ bytes_eq characters.now self.now }
    {
        let digits = self.digits();
        characters == digits.as_slice()
    }

    /// It is a number, and the digits of a handset's own address.
    pub fn spells_a_number(&self)
        ensures number { IsMsisdn self.now }
        ensures address { IsAddress (own_address self.now) }
    {
        let _key = &self.key;
    }

    /// The digits in order, as those of an address.
    pub fn digits(&self) -> Digits
        ensures { result ≡ self.now }
    {
        spelled(self.key)
    }
}

/// Each of them is the digits of a handset's own address.
pub fn are_numbers(numbers: &[Msisdn])
    ensures { (digits : List ℕ) → Among digits numbers.now → IsAddress (own_address digits) }
{
    for number in numbers {
        number.spells_a_number();
    }
}

// The number of these digits.
fn made(digits: &[char]) -> Msisdn
    requires { IsMsisdn digits.now }
    ensures { result ≡ digits.now }
{
    Msisdn {
        key: digits_key(digits),
    }
}
