//! The user data header.
ghost use Rattle.std.specs.Prelude.{◌≡◌, ◌<◌, List, ℕ, Ok, IfOk, length};
ghost use Rattle.sms_base.specs.Reading.{Takes};
ghost use Rattle.sms_alphabet.specs.Concatenation.{key_of, element_key, counted, eight_bit_key, sixteen_bit_key};
ghost use Rattle.sms_alphabet.specs.HeaderGrammar.{BeginsWith, HeaderIs, Tests, header_at, elements_in, element_in, written};
ghost use Rattle.sms_alphabet.specs.declared.element.Element.{Element as ElementOf};

use crate::concat_key::{ConcatKey, ConcatReference};
use crate::element::Element;
use crate::header_error::HeaderError;
use sms_base::{Cursor, OctetView, Octets};
use std::alloc::{AllocError, Global};
use std::marker::Model;

/// A user data header, seen by contracts as the list of its elements.
///
/// It borrows the octets that it was read from.
#[derive(Drop)]
pub struct Header<'a> {
    octets: &'a [u8],
}

impl<'a> Model for Header<'a> {
    ghost use Rattle.std.specs.Prelude.{List};
    ghost use Rattle.sms_alphabet.specs.HeaderGrammar.{elements_of, AreElements};
    ghost use Rattle.sms_alphabet.specs.declared.element.Element.{Element as ElementOf};

    ghost Value = { List ElementOf };

    ghost view = { λ h. elements_of h.octets.now };

    ghost invariant = { λ h. AreElements h.octets.now };
}

// The next element.
#[tactic(auto, unfolding(crate::specs::HeaderGrammar::element_in))]
fn element_in<'a>(cursor: &mut Cursor<'a>) -> Result<Element<'a>, HeaderError>
    ensures { Takes (λ x. x) result cursor.new (element_in cursor.old) }
{
    let identifier = cursor.octet(HeaderError::BadLength)?;
    let size = cursor.octet(HeaderError::BadLength)?;
    let octets = cursor.run(usize::from(size), HeaderError::BadLength)?;
    Ok(Element {
        identifier,
        octets: OctetView::of(octets),
    })
}

// Whether elements fill the octets.
fn test_elements(octets: &[u8]) -> Result<(), HeaderError>
    ensures { Tests result (elements_in octets.now) }
{
    let mut cursor = Cursor::of(octets);
    while !cursor.is_empty() {
        let _element = element_in(&mut cursor)?;
    }
    Ok(())
}

// The header whose elements fill the octets.
fn header_with<'a>(octets: &'a [u8]) -> Result<Header<'a>, HeaderError>
    requires { length octets.now < 256 }
    ensures { result ≡ elements_in octets.entry.now }
{
    test_elements(octets)?;
    Ok(Header { octets })
}

#[tactic(auto, unfolding(crate::specs::HeaderGrammar::header_at))]
fn header_of<'a>(octets: &'a [u8]) -> Result<Header<'a>, HeaderError>
    ensures { result ≡ header_at octets.entry.now }
{
    let mut cursor = Cursor::of(octets);
    let size = cursor.octet(HeaderError::Truncated)?;
    let elements = cursor.run(usize::from(size), HeaderError::Truncated)?;
    header_with(elements)
}

impl<'a> Header<'a> {
    /// The header that the octets begin with (3GPP TS 23.040 9.2.3.24).
    ///
    /// The octets behind the header are not looked at.
    pub fn read(octets: &'a [u8]) -> Result<Header<'a>, HeaderError>
        ensures found { IfOk result (λ elements. BeginsWith octets.entry.now elements) }
        ensures only { (elements : List ElementOf) → BeginsWith octets.entry.now elements → result ≡ Ok elements }
        ensures fault { HeaderIs octets.entry.now result }
        ensures exact { result ≡ header_at octets.entry.now }
    {
        header_of(octets)
    }

    /// The octets of the header: their number, and the elements. Takes memory once.
    pub fn write(&self, alloc: Global) -> Result<Octets, AllocError>
        ensures { IfOk result (λ octets. octets ≡ written self.now) }
    {
        let mut octets = Octets::with_capacity(alloc, self.octets.len() + 1)?;
        octets.push(self.octets.len() as u8)?;
        octets.append(self.octets)?;
        Ok(octets)
    }
}

// The key, if the parts are counted from 1 to the total.
fn counted(reference: ConcatReference, total: u8, number: u8) -> Option<ConcatKey>
    ensures { result ≡ counted reference total number }
{
    if number > 0 && number <= total {
        Some(ConcatKey {
            reference,
            total,
            number,
        })
    } else {
        None
    }
}

// The key in an element with an 8-bit reference.
fn eight_bit_key(octets: &[u8]) -> Option<ConcatKey>
    ensures { result ≡ eight_bit_key octets.now }
{
    match octets {
        [reference, total, number] => counted(
            ConcatReference::EightBit(*reference),
            *total,
            *number,
        ),
        _ => None,
    }
}

// The key in an element with a 16-bit reference.
fn sixteen_bit_key(octets: &[u8]) -> Option<ConcatKey>
    ensures { result ≡ sixteen_bit_key octets.now }
{
    match octets {
        [high, low, total, number] => {
            let reference = 256 * u16::from(*high) + u16::from(*low);
            counted(ConcatReference::SixteenBit(reference), *total, *number)
        }
        _ => None,
    }
}

// The key of an element, if it is a valid concatenation element.
fn element_key(element: &Element<'_>) -> Option<ConcatKey>
    ensures { result ≡ element_key element.now }
{
    match element.identifier {
        0 => eight_bit_key(element.octets.as_slice()),
        8 => sixteen_bit_key(element.octets.as_slice()),
        _ => None,
    }
}

/// The concatenation key of a header: that of its last valid concatenation element.
///
/// An element of another length than its identifier wants is no valid one, nor is one whose number is 0
/// or above its total.
pub fn concat_info(header: &Header<'_>) -> Option<ConcatKey>
    ensures { result ≡ key_of header.now }
{
    let mut cursor = Cursor::of(header.octets);
    let mut key = None;
    while let Ok(element) = element_in(&mut cursor) {
        key = element_key(&element).or(key);
    }
    key
}
