//! What a handset is answered to its SUBMIT.
ghost use Rattle.std.specs.Prelude.{◌≡◌, IfOk, Option};
ghost use Rattle.sms_intake.specs.SubmitReports.{accepting_report, refusing_report, submit_report_of, submit_report_written};

use crate::refusal::SubmitRefusal;
use sms_base::{Moment, Octets};
use sms_tpdu::{Parameters, SubmitReport, write_submit_report};
use std::alloc::{AllocError, Global};

fn report_octets(alloc: Global, failure: Option<u8>, now: Moment) -> Result<Octets, AllocError>
    ensures { IfOk result (λ octets. octets ≡ submit_report_written (submit_report_of failure now)) }
{
    let report = SubmitReport {
        failure_cause: failure,
        service_centre_time_stamp: now,
        parameters: Parameters {
            protocol_identifier: None,
            data_coding_scheme: None,
            user_data: None,
        },
    };
    write_submit_report(alloc, &report)
}

/// The SUBMIT-REPORT of a SUBMIT that was accepted then, for RP-ACK: 9 octets. Takes memory once.
pub fn accepting_report(alloc: Global, now: Moment) -> Result<Octets, AllocError>
    ensures { IfOk result (λ octets. octets ≡ accepting_report now) }
{
    report_octets(alloc, None, now)
}

/// The SUBMIT-REPORT of a SUBMIT that was refused then, for RP-ERROR: 10 octets. Takes memory once.
pub fn refusing_report(
    alloc: Global,
    refusal: SubmitRefusal,
    now: Moment,
) -> Result<Octets, AllocError>
    ensures { IfOk result (λ octets. octets ≡ refusing_report refusal now) }
{
    report_octets(alloc, Some(refusal.failure_cause().octet()), now)
}
