//! Texts that a line writes in hexadecimal digits.
ghost use Rattle.std.specs.Prelude.{◌≡◌, ◌<◌, ◌≤◌, ◌*◌, ◌%◌, ℕ, true, length, take, option_map, IfOk};
ghost use Rattle.std.specs.Str.{is_utf8, IsUtf8};
ghost use Rattle.sms_script.specs.Hexadecimal.{spelled, text_of};
ghost use Rattle.sms_script.specs.TextCuts.{ContinuesText};

use crate::fault::LineFault;
use crate::hexadecimal::{HexView, octet_at};
use sms_base::Octets;
use std::alloc::{AllocError, Global};
use std::marker::Model;
use std::str::from_utf8;

// The first octets that the digits spell, at most four, and how many there are.
fn window(digits: &[u8]) -> ([u8; 4], usize)
    requires { length digits.now % 2 ≡ 0 }
    ensures octets { take result.1 result.0 ≡ take 4 (spelled digits.now) }
    ensures few { result.1 ≤ 4 }
    ensures digits { 2 * result.1 ≤ length digits.now }
{
    match digits {
        [a, b, c, d, e, f, g, h, ..] => (
            [
                octet_at(*a, *b),
                octet_at(*c, *d),
                octet_at(*e, *f),
                octet_at(*g, *h),
            ],
            4,
        ),
        [a, b, c, d, e, f, ..] => ([octet_at(*a, *b), octet_at(*c, *d), octet_at(*e, *f), 0], 3),
        [a, b, c, d, ..] => ([octet_at(*a, *b), octet_at(*c, *d), 0, 0], 2),
        [a, b, ..] => ([octet_at(*a, *b), 0, 0, 0], 1),
        _ => ([0; 4], 0),
    }
}

// How many octets the longest front has that is text.
fn text_front(octets: &[u8]) -> usize
    ensures front { IsUtf8 (take result octets.now) }
    ensures within { result ≤ length octets.now }
    ensures longest { (n : ℕ) → result < n → n ≤ length octets.now → ¬ IsUtf8 (take n octets.now) }
{
    match from_utf8(octets) {
        Ok(_) => octets.len(),
        Err(fault) => fault.valid_up_to(),
    }
}

// The digits behind a front of what they spell that is text, unless no front is.
fn behind_text(digits: &[u8]) -> Option<&[u8]>
    requires even { length digits.now % 2 ≡ 0 }
    requires some { ¬ (length digits.now ≡ 0) }
    ensures { ContinuesText digits.now (option_map (λ rest. rest.now) result) }
{
    let (octets, count) = window(digits);
    let front = text_front(&octets[..count]);
    if front == 0 {
        return None;
    }
    let (_, rest) = digits.split_at(2 * front);
    Some(rest)
}

// Whether the octets that the digits spell are text in UTF-8.
fn is_text(digits: &[u8]) -> bool
    requires { length digits.now % 2 ≡ 0 }
    ensures { result ≡ is_utf8 (spelled digits.now) }
{
    let mut rest = digits;
    while !rest.is_empty() {
        match behind_text(rest) {
            Some(behind) => rest = behind,
            None => return false,
        }
    }
    true
}

/// A text that is spelled in hexadecimal digits, seen by contracts as its octets in UTF-8.
#[derive(Drop)]
pub struct TextView<'a> {
    spelling: HexView<'a>,
}

impl<'a> Model for TextView<'a> {
    ghost use Rattle.std.specs.Prelude.{◌≡◌, ℕ, List, true};
    ghost use Rattle.std.specs.Str.{is_utf8};

    ghost Value = { List ℕ };

    ghost view = { λ t. t.spelling };

    ghost invariant = { λ t. is_utf8 t.spelling ≡ true };
}

impl<'a> TextView<'a> {
    /// The text in UTF-8 that the octets are.
    ///
    /// # Errors
    /// `BadLine` where they are not UTF-8.
    pub fn of(spelling: HexView<'a>) -> Result<TextView<'a>, LineFault>
        ensures { result ≡ text_of spelling.entry }
    {
        if !is_text(spelling.digits()) {
            return Err(LineFault::BadLine);
        }
        Ok(TextView { spelling })
    }

    /// The octets of a text are UTF-8: for callers whose contracts need it. It takes no memory.
    pub fn is_in_utf8(&self)
        ensures { is_utf8 self.now ≡ true }
    {
        let _spelling = &self.spelling;
    }

    /// The octets of the text, in one growth.
    pub fn octets(&self, alloc: Global) -> Result<Octets, AllocError>
        ensures text { IfOk result (λ octets. octets ≡ self.now) }
        ensures utf8 { is_utf8 self.now ≡ true }
    {
        self.spelling.octets(alloc)
    }
}
