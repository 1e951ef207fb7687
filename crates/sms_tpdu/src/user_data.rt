//! User data and its length (3GPP TS 23.040 9.2.3.16, 9.2.3.24).
ghost use Rattle.std.specs.Prelude.{◌≡◌, ◌≤◌, ◌<◌, ◌-◌, ◌++◌, ℕ, List, take, drop, OnOk};
ghost use Rattle.sms_base.specs.Reading.{Takes};
ghost use Rattle.sms_alphabet.specs.Packing.{tested};
ghost use Rattle.sms_tpdu.specs.UserDataGrammar.{octets_of, header_octets, header_septets, fill_behind, user_data_field};
ghost use Rattle.sms_tpdu.specs.UserDataReading.{header_fits, content_test, text_test, text_in, user_data_in, of_test};

use crate::fault::TpduFault;
use crate::slices::{behind, front};
use sms_alphabet::{Coding, UnpackError, check, fill_bits, greatest_length, header_septets};
use sms_base::{Cursor, OctetView, Octets};
use std::alloc::AllocError;

/// User data as received: its length in septets of the default alphabet or else in octets, and its octets.
#[derive(Drop)]
pub struct UserData<'a> {
    /// How many septets, header and fill included, or how many octets.
    pub length: u8,
    /// The header, if there is one, and the content.
    pub octets: OctetView<'a>,
}

/// How many octets user data of that length has.
fn octets_of(coding: Coding, length: u8) -> usize
    ensures { result ≡ octets_of coding length }
{
    match coding {
        Coding::Septets => (7 * usize::from(length) + 7) / 8,
        Coding::Octets | Coding::Ucs2 | Coding::Compressed => usize::from(length),
    }
}

// Whether a header whose first octet is there ends within so many octets.
fn header_fits(with_header: bool, count: usize, octets: &[u8]) -> bool
    ensures { result ≡ header_fits with_header count octets.now }
{
    match octets {
        [elements, ..] if with_header => usize::from(*elements) < count,
        _ => true,
    }
}

fn header_octets(with_header: bool, octets: &[u8]) -> usize
    ensures value { result ≡ header_octets with_header octets.now }
    ensures range { result ≤ 256 }
{
    match octets {
        [elements, ..] if with_header => usize::from(*elements) + 1,
        _ => 0,
    }
}

// The test of the bits outside `count` septets behind `fill` bits, as far as the octets are there.
fn septets_test(octets: &[u8], fill: u8, count: u8) -> Result<(), TpduFault>
    requires { fill < 7 }
    ensures { result ≡ of_test (tested octets.now fill count) }
{
    match check(octets, fill, count) {
        Ok(()) => Ok(()),
        Err(UnpackError::SpareBits) => Err(TpduFault::SpareBits),
        Err(_) => Err(TpduFault::Truncated),
    }
}

// The fill bits behind a header of so many octets, in user data of that length.
fn fill_behind(header: usize, length: u8) -> u8
    requires { header ≤ 256 }
    ensures value { result ≡ fill_behind header length }
    ensures range { result < 7 }
{
    if header_septets(header) > usize::from(length) {
        return 0;
    }
    fill_bits(header)
}

// How many septets stand behind a header of so many octets, in user data of that length.
fn septets_behind(header: usize, length: u8) -> u8
    requires { header ≤ 256 }
    ensures { result ≡ length - header_septets header }
{
    usize::from(length).saturating_sub(header_septets(header)) as u8
}

fn content_test(coding: Coding, header: usize, length: u8, octets: &[u8]) -> Result<(), TpduFault>
    requires { header ≤ 256 }
    ensures { result ≡ content_test coding header length octets.now }
{
    match coding {
        Coding::Septets => septets_test(
            behind(octets, header),
            fill_behind(header, length),
            septets_behind(header, length),
        ),
        Coding::Octets | Coding::Ucs2 | Coding::Compressed => Ok(()),
    }
}

#[tactic(auto, unfolding(crate::specs::UserDataReading::text_test))]
fn text_test(coding: Coding, with_header: bool, length: u8, there: &[u8]) -> Result<(), TpduFault>
    ensures { result ≡ text_test coding with_header length there.now }
{
    if !header_fits(with_header, octets_of(coding, length), there) {
        return Err(TpduFault::BadHeader);
    }
    content_test(coding, header_octets(with_header, there), length, there)
}

#[tactic(auto, unfolding(crate::specs::UserDataReading::text_in))]
fn take_text<'a>(
    cursor: &mut Cursor<'a>,
    coding: Coding,
    with_header: bool,
    length: u8,
) -> Result<&'a [u8], TpduFault>
    ensures { Takes (λ x. x.now) result cursor.new (text_in coding with_header length cursor.old) }
{
    let count = octets_of(coding, length);
    text_test(coding, with_header, length, front(cursor.rest(), count))?;
    cursor.run(count, TpduFault::Truncated)
}

/// Takes user data, its length first.
#[tactic(auto, unfolding(crate::specs::UserDataReading::user_data_in))]
pub(crate) fn take_user_data<'a>(
    cursor: &mut Cursor<'a>,
    coding: Coding,
    with_header: bool,
) -> Result<UserData<'a>, TpduFault>
    ensures { Takes (λ x. x) result cursor.new (user_data_in coding with_header cursor.old) }
{
    let length = cursor.octet(TpduFault::Truncated)?;
    if length > greatest_length(coding) {
        return Err(TpduFault::UserDataTooLong);
    }
    if with_header && length == 0 {
        return Err(TpduFault::BadHeader);
    }
    let octets = take_text(cursor, coding, with_header, length)?;
    Ok(UserData {
        length,
        octets: OctetView::of(octets),
    })
}

/// Puts user data at the end, its length first.
pub(crate) fn put_user_data(out: &mut Octets, user_data: &UserData<'_>) -> Result<(), AllocError>
    ensures { OnOk result (out.new ≡ out.old ++ user_data_field user_data.now) }
{
    out.push(user_data.length)?;
    out.append(user_data.octets.as_slice())
}
