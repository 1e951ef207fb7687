//! SUBMIT (3GPP TS 23.040 9.2.2.2).
ghost use Rattle.std.specs.Prelude.{◌≡◌, ◌<◌, length, IfOk};
ghost use Rattle.sms_base.specs.Address.{IsAddress};
ghost use Rattle.sms_tpdu.specs.TpduGrammar.{submit_head, IsSubmitData, IsWrittenSubmit};
ghost use Rattle.sms_tpdu.specs.TpduReading.{submit_at};

use crate::address_field::{put_address, take_address};
use crate::bits::{bit, bit_value};
use crate::fault::TpduFault;
use crate::user_data::{UserData, put_user_data, take_user_data};
use crate::validity_period::{
    ValidityPeriod, put_validity_period, take_validity_period, validity_format,
};
use sms_alphabet::dcs;
use sms_base::{Address, Cursor, Octets};
use std::alloc::{AllocError, Global};

/// The octets of a SUBMIT beside its user data, at most.
const FIXED: usize = 24;

/// A message that a handset sends.
#[derive(Drop)]
pub struct Submit<'a> {
    /// TP-RD: a message with this reference, sender and destination that is still held is a duplicate.
    pub reject_duplicates: bool,
    /// TP-SRR: the sender wants a status report.
    pub status_report_request: bool,
    /// TP-UDHI: the user data begins with a header.
    pub user_data_header_indicator: bool,
    /// TP-RP.
    pub reply_path: bool,
    /// TP-MR.
    pub message_reference: u8,
    /// TP-DA.
    pub destination_address: Address,
    /// TP-PID.
    pub protocol_identifier: u8,
    /// TP-DCS.
    pub data_coding_scheme: u8,
    /// TP-VPF and TP-VP.
    pub validity_period: ValidityPeriod,
    /// TP-UDL and TP-UD.
    pub user_data: UserData<'a>,
}

#[inline(never)]
#[tactic(auto, unfolding(crate::specs::TpduReading::submit_at, crate::specs::TpduReading::submit_rest_in))]
pub(crate) fn submit_of(octets: &[u8]) -> Result<Submit<'_>, TpduFault>
    ensures { result ≡ submit_at octets.now }
{
    let mut cursor = Cursor::of(octets);
    let first = cursor.octet(TpduFault::Truncated)?;
    if first % 4 != 1 {
        return Err(TpduFault::UnsupportedType);
    }
    if first / 8 % 4 == 1 {
        return Err(TpduFault::UnsupportedValidity);
    }
    let message_reference = cursor.octet(TpduFault::Truncated)?;
    let destination_address = take_address(&mut cursor)?;
    let protocol_identifier = cursor.octet(TpduFault::Truncated)?;
    let data_coding_scheme = cursor.octet(TpduFault::Truncated)?;
    let validity_period = take_validity_period(&mut cursor, first / 8 % 4)?;
    let user_data = take_user_data(&mut cursor, dcs(data_coding_scheme), bit(first, 0x40))?;
    cursor.end(TpduFault::TrailingOctets)?;
    Ok(Submit {
        reject_duplicates: bit(first, 0x04),
        status_report_request: bit(first, 0x20),
        user_data_header_indicator: bit(first, 0x40),
        reply_path: bit(first, 0x80),
        message_reference,
        destination_address,
        protocol_identifier,
        data_coding_scheme,
        validity_period,
        user_data,
    })
}

fn head_of(message: &Submit<'_>) -> u8
    ensures { result ≡ submit_head message.now }
{
    1 + bit_value(message.reject_duplicates, 0x04)
        + 8 * validity_format(message.validity_period)
        + bit_value(message.status_report_request, 0x20)
        + bit_value(message.user_data_header_indicator, 0x40)
        + bit_value(message.reply_path, 0x80)
}

fn submit_octets(alloc: Global, message: &Submit<'_>) -> Result<Octets, AllocError>
    requires address { IsAddress message.now.destination_address }
    requires user_data { IsSubmitData message.now }
    ensures { IfOk result (λ octets. IsWrittenSubmit octets message.now) }
{
    let mut out = Octets::with_capacity(alloc, FIXED + usize::from(message.user_data.length))?;
    out.push(head_of(message))?;
    out.push(message.message_reference)?;
    put_address(&mut out, &message.destination_address)?;
    out.push(message.protocol_identifier)?;
    out.push(message.data_coding_scheme)?;
    put_validity_period(&mut out, message.validity_period)?;
    put_user_data(&mut out, &message.user_data)?;
    Ok(out)
}

/// The octets of a SUBMIT, at most 164.
///
/// Takes memory once.
pub fn write_submit(alloc: Global, message: &Submit<'_>) -> Result<Octets, AllocError>
    requires address { IsAddress message.now.destination_address }
    requires user_data { IsSubmitData message.now }
    ensures ok { IfOk result (λ octets. IsWrittenSubmit octets message.now) }
    ensures short { IfOk result (λ octets. length octets < 256) }
{
    submit_octets(alloc, message)
}
