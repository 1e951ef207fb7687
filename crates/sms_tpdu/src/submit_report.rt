//! SUBMIT-REPORT (3GPP TS 23.040 9.2.2.2a).
ghost use Rattle.std.specs.Prelude.{◌≡◌, ◌<◌, false, length, IfOk};
ghost use Rattle.sms_tpdu.specs.TpduGrammar.{IsReportData, IsWrittenSubmitReport};
ghost use Rattle.sms_tpdu.specs.TpduReading.{submit_report_at};

use crate::fault::TpduFault;
use crate::parameters::{
    Parameters, data_length, end_after, indicator_of, put_optional_octet, put_parameters,
    take_optional_octet, take_parameters,
};
use crate::time_field::take_time;
use sms_base::{Cursor, Moment, Octets};
use std::alloc::{AllocError, Global};

/// The octets of a SUBMIT-REPORT beside its user data, at most.
const FIXED: usize = 13;

/// The service centre's answer to a SUBMIT.
#[derive(Drop)]
pub struct SubmitReport<'a> {
    /// TP-FCS: why the SUBMIT was refused, in RP-ERROR alone.
    pub failure_cause: Option<u8>,
    /// TP-SCTS: when the service centre took or refused the message.
    pub service_centre_time_stamp: Moment,
    /// What TP-PI announces.
    pub parameters: Parameters<'a>,
}

#[tactic(auto, unfolding(crate::specs::TpduReading::submit_report_at))]
pub(crate) fn submit_report_of(octets: &[u8], in_error: bool) -> Result<SubmitReport<'_>, TpduFault>
    ensures { result ≡ submit_report_at in_error octets.now }
{
    let mut cursor = Cursor::of(octets);
    let first = cursor.octet(TpduFault::Truncated)?;
    if first % 4 != 1 {
        return Err(TpduFault::UnsupportedType);
    }
    let failure_cause = take_optional_octet(&mut cursor, in_error)?;
    let indicator = cursor.octet(TpduFault::Truncated)?;
    let service_centre_time_stamp = take_time(&mut cursor)?;
    let parameters = take_parameters(&mut cursor, indicator, false)?;
    end_after(&cursor, indicator)?;
    Ok(SubmitReport {
        failure_cause,
        service_centre_time_stamp,
        parameters,
    })
}

fn submit_report_octets(alloc: Global, report: &SubmitReport<'_>) -> Result<Octets, AllocError>
    requires { IsReportData false report.now.parameters }
    ensures { IfOk result (λ octets. IsWrittenSubmitReport octets report.now) }
{
    let mut out = Octets::with_capacity(
        alloc,
        FIXED + usize::from(data_length(&report.parameters)),
    )?;
    out.push(0x01)?;
    put_optional_octet(&mut out, report.failure_cause)?;
    out.push(indicator_of(&report.parameters))?;
    out.append(&report.service_centre_time_stamp.to_scts())?;
    put_parameters(&mut out, &report.parameters)?;
    Ok(out)
}

/// The octets of a SUBMIT-REPORT, at most 153: with its cause for RP-ERROR, without one for RP-ACK.
///
/// Takes memory once.
pub fn write_submit_report(alloc: Global, report: &SubmitReport<'_>) -> Result<Octets, AllocError>
    requires { IsReportData false report.now.parameters }
    ensures ok { IfOk result (λ octets. IsWrittenSubmitReport octets report.now) }
    ensures short { IfOk result (λ octets. length octets < 256) }
{
    submit_report_octets(alloc, report)
}
