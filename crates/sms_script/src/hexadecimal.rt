//! Octets and texts that a line writes in hexadecimal digits.
ghost use Rattle.std.specs.Prelude.{◌≡◌, ◌+◌, ◌*◌, ◌<◌, [], true, IfOk, IfSome};
ghost use Rattle.std.specs.List.{list_all};
ghost use Rattle.hex.specs.Hex.{hex_digit_value, is_hex_digit};
ghost use Rattle.sms_script.specs.Hexadecimal.{octets_of, spells, spelled, octet_of, digit_or_zero};

use crate::fault::LineFault;
use sms_base::Octets;
use std::alloc::{AllocError, Global};
use std::marker::Model;

fn is_digit(octet: u8) -> bool
    ensures { result ≡ is_hex_digit octet }
{
    matches!(octet, b'0'..=b'9' | b'a'..=b'f' | b'A'..=b'F')
}

fn are_digits(digits: &[u8]) -> bool
    ensures { result ≡ list_all is_hex_digit digits.now }
{
    digits.iter().all(|digit| is_digit(*digit))
}

// Whether the digits spell octets: an even number of digits of either case.
fn spell(digits: &[u8]) -> bool
    ensures { result ≡ spells digits.now }
{
    digits.len() % 2 == 0 && are_digits(digits)
}

/// Octets that are spelled in hexadecimal digits, seen by contracts as the octets.
#[derive(Drop)]
pub struct HexView<'a> {
    digits: &'a [u8],
}

impl<'a> Model for HexView<'a> {
    ghost use Rattle.std.specs.Prelude.{◌≡◌, ℕ, List, true};
    ghost use Rattle.sms_script.specs.Hexadecimal.{spells, spelled};

    ghost Value = { List ℕ };

    ghost view = { λ h. spelled h.digits.now };

    ghost invariant = { λ h. spells h.digits.now ≡ true };
}

impl<'a> HexView<'a> {
    /// No octets.
    pub(crate) fn empty() -> HexView<'a>
        ensures { result ≡ [] }
    {
        HexView { digits: &[] }
    }

    /// The octets that hexadecimal digits of either case spell, two digits an octet.
    ///
    /// # Errors
    /// `BadLine` where the number of digits is odd, or where one is no digit.
    pub fn of(digits: &'a [u8]) -> Result<HexView<'a>, LineFault>
        ensures { result ≡ octets_of digits.entry.now }
    {
        if !spell(digits) {
            return Err(LineFault::BadLine);
        }
        Ok(HexView { digits })
    }

    /// The digits that spell the octets, twice as many.
    pub(crate) fn digits(&self) -> &'a [u8]
        ensures spelled { spelled result.now ≡ self.now }
        ensures spells { spells result.now ≡ true }
    {
        self.digits
    }

    /// The octets, in one growth.
    pub fn octets(&self, alloc: Global) -> Result<Octets, AllocError>
        ensures { IfOk result (λ octets. octets ≡ self.now) }
    {
        match hex::decode(alloc, self.digits) {
            Ok(octets) => Ok(Octets::from_vec(octets)),
            // The digits spell octets, so memory alone can be wanting.
            Err(_) => Err(AllocError),
        }
    }
}

fn digit_of(digit: u8) -> Option<u8>
    ensures value { result ≡ hex_digit_value digit }
    ensures small { IfSome result (λ value. value < 16) }
{
    match digit {
        b'0'..=b'9' => Some(digit - b'0'),
        b'a'..=b'f' => Some(digit - b'a' + 10),
        b'A'..=b'F' => Some(digit - b'A' + 10),
        _ => None,
    }
}

/// The octet that two digits write, each of which counts as 0 where it is none.
pub(crate) fn octet_at(high: u8, low: u8) -> u8
    ensures { result ≡ digit_or_zero high * 16 + digit_or_zero low }
{
    digit_of(high).unwrap_or(0) * 16 + digit_of(low).unwrap_or(0)
}

/// The octet that two digits write.
pub(crate) fn octet_of(word: &[u8]) -> Result<u8, LineFault>
    ensures { result ≡ octet_of word.now }
{
    match word {
        [high, low] => match (digit_of(*high), digit_of(*low)) {
            (Some(high), Some(low)) => Ok(high * 16 + low),
            _ => Err(LineFault::BadLine),
        },
        _ => Err(LineFault::BadLine),
    }
}
