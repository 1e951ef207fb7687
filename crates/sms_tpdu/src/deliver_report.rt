//! DELIVER-REPORT (3GPP TS 23.040 9.2.2.1a).
ghost use Rattle.std.specs.Prelude.{◌≡◌, ◌<◌, false, length, IfOk};
ghost use Rattle.sms_tpdu.specs.TpduGrammar.{IsReportData, IsWrittenDeliverReport};
ghost use Rattle.sms_tpdu.specs.TpduReading.{deliver_report_at};

use crate::fault::TpduFault;
use crate::parameters::{
    Parameters, data_length, end_after, indicator_of, put_optional_octet, put_parameters,
    take_optional_octet, take_parameters,
};
use sms_base::{Cursor, Octets};
use std::alloc::{AllocError, Global};

/// The octets of a DELIVER-REPORT beside its user data, at most.
const FIXED: usize = 6;

/// A handset's answer to a DELIVER or a STATUS-REPORT.
#[derive(Drop)]
pub struct DeliverReport<'a> {
    /// TP-FCS: why the message was refused, in RP-ERROR alone.
    pub failure_cause: Option<u8>,
    /// What TP-PI announces.
    pub parameters: Parameters<'a>,
}

#[tactic(auto, unfolding(crate::specs::TpduReading::deliver_report_at))]
pub(crate) fn deliver_report_of(
    octets: &[u8],
    in_error: bool,
) -> Result<DeliverReport<'_>, TpduFault>
    ensures { result ≡ deliver_report_at in_error octets.now }
{
    let mut cursor = Cursor::of(octets);
    let first = cursor.octet(TpduFault::Truncated)?;
    if first % 4 != 0 {
        return Err(TpduFault::UnsupportedType);
    }
    let failure_cause = take_optional_octet(&mut cursor, in_error)?;
    let indicator = cursor.octet(TpduFault::Truncated)?;
    let parameters = take_parameters(&mut cursor, indicator, false)?;
    end_after(&cursor, indicator)?;
    Ok(DeliverReport {
        failure_cause,
        parameters,
    })
}

fn deliver_report_octets(alloc: Global, report: &DeliverReport<'_>) -> Result<Octets, AllocError>
    requires { IsReportData false report.now.parameters }
    ensures { IfOk result (λ octets. IsWrittenDeliverReport octets report.now) }
{
    let mut out = Octets::with_capacity(
        alloc,
        FIXED + usize::from(data_length(&report.parameters)),
    )?;
    out.push(0x00)?;
    put_optional_octet(&mut out, report.failure_cause)?;
    out.push(indicator_of(&report.parameters))?;
    put_parameters(&mut out, &report.parameters)?;
    Ok(out)
}

/// The octets of a DELIVER-REPORT, at most 146: with its cause for RP-ERROR, without one for RP-ACK.
///
/// Takes memory once.
pub fn write_deliver_report(alloc: Global, report: &DeliverReport<'_>) -> Result<Octets, AllocError>
    requires { IsReportData false report.now.parameters }
    ensures ok { IfOk result (λ octets. IsWrittenDeliverReport octets report.now) }
    ensures short { IfOk result (λ octets. length octets < 256) }
{
    deliver_report_octets(alloc, report)
}
