//! DELIVER (3GPP TS 23.040 9.2.2.1).
ghost use Rattle.std.specs.Prelude.{◌≡◌, ◌<◌, length, IfOk};
ghost use Rattle.sms_base.specs.Address.{IsAddress};
ghost use Rattle.sms_tpdu.specs.TpduGrammar.{deliver_head, IsDeliverData, IsWrittenDeliver};
ghost use Rattle.sms_tpdu.specs.TpduReading.{deliver_at};

use crate::address_field::{put_address, take_address};
use crate::bits::{bit, bit_value};
use crate::fault::TpduFault;
use crate::time_field::take_time;
use crate::user_data::{UserData, put_user_data, take_user_data};
use sms_alphabet::dcs;
use sms_base::{Address, Cursor, Moment, Octets};
use std::alloc::{AllocError, Global};

/// The octets of a DELIVER beside its user data, at most.
const FIXED: usize = 23;

/// A message on its way to a handset.
#[derive(Drop)]
pub struct Deliver<'a> {
    /// TP-MMS: no more messages wait for this handset.
    pub no_more_messages_to_send: bool,
    /// TP-LP.
    pub loop_prevention: bool,
    /// TP-SRI: a status report will be returned to the originator.
    pub status_report_indication: bool,
    /// TP-UDHI: the user data begins with a header.
    pub user_data_header_indicator: bool,
    /// TP-RP.
    pub reply_path: bool,
    /// TP-OA.
    pub originating_address: Address,
    /// TP-PID.
    pub protocol_identifier: u8,
    /// TP-DCS.
    pub data_coding_scheme: u8,
    /// TP-SCTS: when the service centre took the message.
    pub service_centre_time_stamp: Moment,
    /// TP-UDL and TP-UD.
    pub user_data: UserData<'a>,
}

#[tactic(auto, unfolding(crate::specs::TpduReading::deliver_at))]
pub(crate) fn deliver_of(octets: &[u8]) -> Result<Deliver<'_>, TpduFault>
    ensures { result ≡ deliver_at octets.now }
{
    let mut cursor = Cursor::of(octets);
    let first = cursor.octet(TpduFault::Truncated)?;
    if first % 4 != 0 {
        return Err(TpduFault::UnsupportedType);
    }
    let originating_address = take_address(&mut cursor)?;
    let protocol_identifier = cursor.octet(TpduFault::Truncated)?;
    let data_coding_scheme = cursor.octet(TpduFault::Truncated)?;
    let service_centre_time_stamp = take_time(&mut cursor)?;
    let user_data = take_user_data(&mut cursor, dcs(data_coding_scheme), bit(first, 0x40))?;
    cursor.end(TpduFault::TrailingOctets)?;
    Ok(Deliver {
        no_more_messages_to_send: bit(first, 0x04),
        loop_prevention: bit(first, 0x08),
        status_report_indication: bit(first, 0x20),
        user_data_header_indicator: bit(first, 0x40),
        reply_path: bit(first, 0x80),
        originating_address,
        protocol_identifier,
        data_coding_scheme,
        service_centre_time_stamp,
        user_data,
    })
}

fn head_of(message: &Deliver<'_>) -> u8
    ensures { result ≡ deliver_head message.now }
{
    bit_value(message.no_more_messages_to_send, 0x04)
        + bit_value(message.loop_prevention, 0x08)
        + bit_value(message.status_report_indication, 0x20)
        + bit_value(message.user_data_header_indicator, 0x40)
        + bit_value(message.reply_path, 0x80)
}

fn deliver_octets(alloc: Global, message: &Deliver<'_>) -> Result<Octets, AllocError>
    requires address { IsAddress message.now.originating_address }
    requires user_data { IsDeliverData message.now }
    ensures { IfOk result (λ octets. IsWrittenDeliver octets message.now) }
{
    let mut out = Octets::with_capacity(alloc, FIXED + usize::from(message.user_data.length))?;
    out.push(head_of(message))?;
    put_address(&mut out, &message.originating_address)?;
    out.push(message.protocol_identifier)?;
    out.push(message.data_coding_scheme)?;
    out.append(&message.service_centre_time_stamp.to_scts())?;
    put_user_data(&mut out, &message.user_data)?;
    Ok(out)
}

/// The octets of a DELIVER, at most 163.
///
/// Takes memory once.
pub fn write_deliver(alloc: Global, message: &Deliver<'_>) -> Result<Octets, AllocError>
    requires address { IsAddress message.now.originating_address }
    requires user_data { IsDeliverData message.now }
    ensures ok { IfOk result (λ octets. IsWrittenDeliver octets message.now) }
    ensures short { IfOk result (λ octets. length octets < 256) }
{
    deliver_octets(alloc, message)
}
