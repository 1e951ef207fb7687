//! The addresses of a receipt.
ghost use Rattle.std.specs.Prelude.{◌≡◌, IfOk, map};
ghost use Rattle.sms_receipt.specs.Receipts.{ascii_octet};

use sms_base::{Digits, Octets};
use std::alloc::{AllocError, Global};

fn ascii_octet(character: char) -> u8
    ensures { result ≡ ascii_octet character }
{
    if (character as u32) < 128 {
        character as u8
    } else {
        b'?'
    }
}

// The characters of an address as octets.
pub(crate) fn ascii_of(alloc: Global, digits: &Digits) -> Result<Octets, AllocError>
    ensures { IfOk result (λ octets. octets ≡ map ascii_octet digits.now) }
{
    let mut octets = Octets::with_capacity(alloc, digits.len())?;
    for character in digits.as_slice() {
        octets.push(ascii_octet(*character))?;
    }
    Ok(octets)
}
