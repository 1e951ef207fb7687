//! What a short message says, for a person.
ghost use Rattle.std.specs.Prelude.{◌≡◌, ◌++◌, codes, decimal, OnOk};
ghost use Rattle.sms_alphabet.specs.TextReading.{text_read};
ghost use Rattle.sms_alphabet.specs.Ucs2.{ucs2_in};
ghost use Rattle.sms_concat.specs.UserData.{part_in};
ghost use Rattle.sms_tpdu.specs.TpduReading.{down_at, up_at};
ghost use Rattle.sms_tpdu.specs.declared.carrier.Carrier.TheVariants.{InData};
ghost use Rattle.smsc_cli.specs.handset_table.MessageText.{content_text, delivered_text, no_text, read_text, submitted_text, units_text, user_data_text};

use crate::columns::put_text;
use sms_alphabet::{Coding, ReadingError, Ucs2Error, UnpackError, text_of, ucs2_text};
use sms_base::{Octets, put_decimal};
use sms_concat::{Content, part_of};
use sms_tpdu::{Carrier, Down, Up, UserData, read_down, read_up};
use std::alloc::{AllocError, Global};

fn put_no_text(out: &mut Octets) -> Result<(), AllocError>
    ensures { OnOk result (out.new ≡ out.old ++ no_text) }
{
    out.append(b"(no text)")
}

fn put_septets(alloc: Global, out: &mut Octets, units: &[u8]) -> Result<(), AllocError>
    ensures { OnOk result (out.new ≡ out.old ++ read_text (text_read units.now)) }
{
    match text_of(alloc, units) {
        Ok(text) => put_text(out, text.as_str()),
        Err(ReadingError::NotSeptet) => put_no_text(out),
        Err(ReadingError::NoMemory) => Err(AllocError),
    }
}

fn put_ucs2(alloc: Global, out: &mut Octets, units: &[u8]) -> Result<(), AllocError>
    ensures { OnOk result (out.new ≡ out.old ++ read_text (ucs2_in units.now)) }
{
    match ucs2_text(alloc, units) {
        Ok(text) => put_text(out, text.as_str()),
        Err(Ucs2Error::OddLength | Ucs2Error::LoneSurrogate) => put_no_text(out),
        Err(Ucs2Error::NoMemory) => Err(AllocError),
    }
}

fn put_octets(out: &mut Octets, count: usize) -> Result<(), AllocError>
    ensures { OnOk result (out.new ≡ out.old ++ (codes "(" ++ (decimal count ++ codes " octets)"))) }
{
    out.append(b"(")?;
    put_decimal(out, count as u64)?;
    out.append(b" octets)")
}

fn put_units(
    alloc: Global,
    out: &mut Octets,
    coding: Coding,
    units: &[u8],
) -> Result<(), AllocError>
    ensures { OnOk result (out.new ≡ out.old ++ units_text coding units.now) }
{
    match coding {
        Coding::Septets => put_septets(alloc, out, units),
        Coding::Ucs2 => put_ucs2(alloc, out, units),
        Coding::Octets | Coding::Compressed => put_octets(out, units.len()),
    }
}

/// A content as a text on one line.
pub(crate) fn put_content(
    alloc: Global,
    out: &mut Octets,
    content: &Content,
) -> Result<(), AllocError>
    ensures { OnOk result (out.new ≡ out.old ++ content_text content.now) }
{
    put_units(alloc, out, content.coding, content.units.as_slice())
}

fn put_user_data(
    alloc: Global,
    out: &mut Octets,
    header_indicator: bool,
    data_coding_scheme: u8,
    user_data: &UserData<'_>,
) -> Result<(), AllocError>
    ensures { OnOk result (out.new ≡ out.old ++ user_data_text header_indicator data_coding_scheme user_data.now) }
{
    let length = user_data.length;
    let octets = user_data.octets.as_slice();
    match part_of(alloc, header_indicator, data_coding_scheme, length, octets) {
        Ok(part) => put_content(alloc, out, &part.content),
        Err(UnpackError::TooShort | UnpackError::SpareBits) => put_no_text(out),
        Err(UnpackError::NoMemory) => Err(AllocError),
    }
}

/// What a DELIVER says.
pub(crate) fn put_delivered(alloc: Global, out: &mut Octets, tpdu: &[u8]) -> Result<(), AllocError>
    ensures { OnOk result (out.new ≡ out.old ++ delivered_text (down_at InData tpdu.now)) }
{
    match read_down(tpdu, Carrier::InData) {
        Ok(Down::Deliver(message)) => put_user_data(
            alloc,
            out,
            message.user_data_header_indicator,
            message.data_coding_scheme,
            &message.user_data,
        ),
        Ok(Down::StatusReport(_) | Down::SubmitReport(_)) | Err(_) => put_no_text(out),
    }
}

/// What a SUBMIT says.
pub(crate) fn put_submitted(alloc: Global, out: &mut Octets, tpdu: &[u8]) -> Result<(), AllocError>
    ensures { OnOk result (out.new ≡ out.old ++ submitted_text (up_at InData tpdu.now)) }
{
    match read_up(tpdu, Carrier::InData) {
        Ok(Up::Submit(message)) => put_user_data(
            alloc,
            out,
            message.user_data_header_indicator,
            message.data_coding_scheme,
            &message.user_data,
        ),
        Ok(Up::DeliverReport(_)) | Err(_) => put_no_text(out),
    }
}
