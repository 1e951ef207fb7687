//! The user data of a part, written.
ghost use Rattle.std.specs.Prelude.{◌≡◌, ◌/◌, ◌≤◌, ◌++◌, length, IfOk};
ghost use Rattle.sms_alphabet.specs.Packing.{AreSeptets, packed};
ghost use Rattle.sms_concat.specs.UserData.{fill_bits, data_length, capacity, header_of, body_octets, user_data_behind, IsUserData, FitsBehind, HasRoom};

use crate::content::{Content, Part, UserData};
use sms_alphabet::{Coding, ConcatReference, fill_bits, header_septets, pack};
use sms_base::Octets;
use std::alloc::{AllocError, Global};

// The octets, and those behind them.
fn joined(alloc: Global, front: &[u8], behind: &[u8]) -> Result<Octets, AllocError>
    ensures { IfOk result (λ octets. octets ≡ front.now ++ behind.now) }
{
    let mut octets = Octets::with_capacity(alloc, front.len().saturating_add(behind.len()))?;
    octets.append(front)?;
    octets.append(behind)?;
    Ok(octets)
}

// The septets packed behind the header.
fn packed_behind(alloc: Global, header: &[u8], septets: &[u8]) -> Result<Octets, AllocError>
    requires short { length header.now ≤ 256 }
    requires septets { AreSeptets septets.now }
    ensures { IfOk result (λ octets. octets ≡ header.now ++ packed (fill_bits (length header.now)) septets.now) }
{
    let packed = pack(alloc, septets, fill_bits(header.len()))?;
    if header.is_empty() {
        return Ok(packed);
    }
    joined(alloc, header, packed.as_slice())
}

// What TP-UDL says.
fn data_length(coding: Coding, header: usize, units: usize) -> u8
    requires { data_length coding header units ≤ capacity coding }
    ensures { result ≡ data_length coding header units }
{
    match coding {
        Coding::Septets => (header_septets(header) + units) as u8,
        _ => (header + units) as u8,
    }
}

// The octets of the header and the units.
fn body_of(alloc: Global, header: &[u8], content: &Content) -> Result<Octets, AllocError>
    requires { FitsBehind (length header.now) content.now }
    ensures { IfOk result (λ octets. octets ≡ body_octets header.now content.now.coding content.now.units) }
{
    match content.coding {
        Coding::Septets => packed_behind(alloc, header, content.units.as_slice()),
        _ => joined(alloc, header, content.units.as_slice()),
    }
}

/// The user data of a content behind a header, whose octets are given; none of them is no header.
pub fn user_data_behind(
    alloc: Global,
    header: &[u8],
    content: &Content,
) -> Result<UserData, AllocError>
    requires { FitsBehind (length header.now) content.now }
    ensures carries { IfOk result (λ user. IsUserData header.now content.now user) }
    ensures exact { IfOk result (λ user. user ≡ user_data_behind header.now content.now) }
{
    let octets = body_of(alloc, header, content)?;
    Ok(UserData {
        header_indicator: !header.is_empty(),
        length: data_length(content.coding, header.len(), content.units.len()),
        octets,
    })
}

// The high octet of a number.
fn high_octet(number: u16) -> u8
    ensures { result ≡ number / 256 }
{
    (number / 256) as u8
}

/// The user data of a part, which begins with the header of its key.
pub fn user_data(alloc: Global, part: &Part) -> Result<UserData, AllocError>
    requires { HasRoom part.now }
    ensures carries { IfOk result (λ user. IsUserData (header_of part.now.key) part.now.content user) }
    ensures exact { IfOk result (λ user. user ≡ user_data_behind (header_of part.now.key) part.now.content) }
{
    match part.key {
        None => user_data_behind(alloc, &[], &part.content),
        Some(key) => match key.reference {
            ConcatReference::EightBit(reference) => {
                user_data_behind(
                    alloc,
                    &[5, 0, 3, reference, key.total, key.number],
                    &part.content,
                )
            }
            ConcatReference::SixteenBit(reference) => {
                let high = high_octet(reference);
                let low = (reference % 256) as u8;
                user_data_behind(
                    alloc,
                    &[6, 8, 4, high, low, key.total, key.number],
                    &part.content,
                )
            }
        },
    }
}
