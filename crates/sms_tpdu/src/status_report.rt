//! STATUS-REPORT (3GPP TS 23.040 9.2.2.3).
ghost use Rattle.std.specs.Prelude.{◌≡◌, ◌<◌, ◌++◌, length, IfOk, OnOk};
ghost use Rattle.sms_base.specs.Address.{IsAddress};
ghost use Rattle.sms_tpdu.specs.TpduGrammar.{status_report_head, status_tail, IsReportData, IsWrittenStatusReport};
ghost use Rattle.sms_tpdu.specs.TpduReading.{status_report_at, status_tail_in};

use crate::address_field::{put_address, take_address};
use crate::bits::{bit, bit_value};
use crate::fault::TpduFault;
use crate::parameters::{
    Parameters, data_length, end_after, indicator_of, put_parameters, take_parameters,
};
use crate::time_field::take_time;
use sms_base::{Address, Cursor, Moment, Octets};
use std::alloc::{AllocError, Global};

/// The octets of a STATUS-REPORT beside its user data, at most.
const FIXED: usize = 33;

/// How a message ended, for its sender.
#[derive(Drop)]
pub struct StatusReport<'a> {
    /// TP-MMS: no more messages wait for this handset.
    pub no_more_messages_to_send: bool,
    /// TP-SRQ: the report answers a COMMAND and no SUBMIT.
    pub status_report_qualifier: bool,
    /// TP-UDHI: the user data, if there is any, begins with a header.
    pub user_data_header_indicator: bool,
    /// TP-MR of the SUBMIT.
    pub message_reference: u8,
    /// TP-RA: the destination of the message.
    pub recipient_address: Address,
    /// TP-SCTS: when the service centre took the SUBMIT.
    pub service_centre_time_stamp: Moment,
    /// TP-DT: when the message ended.
    pub discharge_time: Moment,
    /// TP-ST.
    pub status: u8,
    /// What TP-PI announces.
    pub parameters: Parameters<'a>,
}

#[tactic(auto, unfolding(crate::specs::TpduReading::status_tail_in))]
fn tail_of(octets: &[u8], with_header: bool) -> Result<Parameters<'_>, TpduFault>
    ensures { result ≡ status_tail_in with_header octets.now }
{
    match octets {
        [] => Ok(Parameters {
            protocol_identifier: None,
            data_coding_scheme: None,
            user_data: None,
        }),
        [indicator, rest @ ..] => {
            let mut cursor = Cursor::of(rest);
            let parameters = take_parameters(&mut cursor, *indicator, with_header)?;
            end_after(&cursor, *indicator)?;
            Ok(parameters)
        }
    }
}

#[tactic(auto, unfolding(crate::specs::TpduReading::status_report_at))]
pub(crate) fn status_report_of(octets: &[u8]) -> Result<StatusReport<'_>, TpduFault>
    ensures { result ≡ status_report_at octets.now }
{
    let mut cursor = Cursor::of(octets);
    let first = cursor.octet(TpduFault::Truncated)?;
    if first % 4 != 2 {
        return Err(TpduFault::UnsupportedType);
    }
    let message_reference = cursor.octet(TpduFault::Truncated)?;
    let recipient_address = take_address(&mut cursor)?;
    let service_centre_time_stamp = take_time(&mut cursor)?;
    let discharge_time = take_time(&mut cursor)?;
    let status = cursor.octet(TpduFault::Truncated)?;
    let parameters = tail_of(cursor.rest(), bit(first, 0x40))?;
    Ok(StatusReport {
        no_more_messages_to_send: bit(first, 0x04),
        status_report_qualifier: bit(first, 0x20),
        user_data_header_indicator: bit(first, 0x40),
        message_reference,
        recipient_address,
        service_centre_time_stamp,
        discharge_time,
        status,
        parameters,
    })
}

fn head_of(report: &StatusReport<'_>) -> u8
    ensures { result ≡ status_report_head report.now }
{
    2 + bit_value(report.no_more_messages_to_send, 0x04)
        + bit_value(report.status_report_qualifier, 0x20)
        + bit_value(report.user_data_header_indicator, 0x40)
}

// Puts what stands behind the status at the end: nothing where there are no parameters.
fn put_tail(out: &mut Octets, parameters: &Parameters<'_>) -> Result<(), AllocError>
    ensures { OnOk result (out.new ≡ out.old ++ status_tail parameters.now) }
{
    let indicator = indicator_of(parameters);
    if indicator == 0 {
        return Ok(());
    }
    out.push(indicator)?;
    put_parameters(out, parameters)
}

fn status_report_octets(alloc: Global, report: &StatusReport<'_>) -> Result<Octets, AllocError>
    requires address { IsAddress report.now.recipient_address }
    requires user_data { IsReportData report.now.user_data_header_indicator report.now.parameters }
    ensures { IfOk result (λ octets. IsWrittenStatusReport octets report.now) }
{
    let mut out = Octets::with_capacity(
        alloc,
        FIXED + usize::from(data_length(&report.parameters)),
    )?;
    out.push(head_of(report))?;
    out.push(report.message_reference)?;
    put_address(&mut out, &report.recipient_address)?;
    out.append(&report.service_centre_time_stamp.to_scts())?;
    out.append(&report.discharge_time.to_scts())?;
    out.push(report.status)?;
    put_tail(&mut out, &report.parameters)?;
    Ok(out)
}

/// The octets of a STATUS-REPORT, at most 173.
///
/// Takes memory once.
pub fn write_status_report(alloc: Global, report: &StatusReport<'_>) -> Result<Octets, AllocError>
    requires address { IsAddress report.now.recipient_address }
    requires user_data { IsReportData report.now.user_data_header_indicator report.now.parameters }
    ensures ok { IfOk result (λ octets. IsWrittenStatusReport octets report.now) }
    ensures short { IfOk result (λ octets. length octets < 256) }
{
    status_report_octets(alloc, report)
}
