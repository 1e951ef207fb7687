//! Units that CP-DATA can't carry: an empty one, and those of more than 248 octets. None of them is a SUBMIT that can be read.
ghost use Rattle.std.specs.Prelude.{◌≡◌, ◌<◌, ◌≤◌, IfOk, Some, length};
ghost use Rattle.sms_base.specs.declared.address.Address.{Address as AddressOf};
ghost use Rattle.sms_relay_run.specs.relay_laws.Relay.{IsAnswer, IsNothing, IsRefused, IsRelayed, failure_cause_of, report_of, unreadable_answer};
ghost use Rattle.sms_tpdu.specs.TpduGrammar.{IsWrittenSubmitReport};

use crate::relay_laws::refusal::{Refusal, unreadable_cause};
use crate::relay_laws::relayed::Relayed;
use sms_base::{Moment, OctetView, Octets};
use sms_relay::{RelayFault, Rp, read_up, write_down};
use sms_tpdu::{Carrier, Parameters, SubmitReport, read_up as read_tpdu, write_submit_report};
use std::alloc::{AllocError, Global};

/// Nothing is sent.
pub fn nothing() -> Relayed
    ensures { IsNothing result }
{
    Relayed {
        answer: None,
        down: None,
    }
}

fn answer(octets: Octets) -> Relayed
    ensures { IsAnswer octets result }
{
    Relayed {
        answer: Some(octets),
        down: None,
    }
}

// RP-ERROR without user data, under the octet in the place of the reference.
fn answer_unreadable(alloc: Global, unit: &[u8], fault: RelayFault) -> Result<Relayed, AllocError>
    ensures { IfOk result (λ r. IsAnswer (unreadable_answer unit.now fault) r) }
{
    let reference = match unit.get(1) {
        Some(octet) => *octet,
        None => 0,
    };
    let error = Rp::ErrorUnit {
        reference,
        cause: unreadable_cause(fault),
        unit: None,
    };
    Ok(answer(write_down(alloc, &error)?))
}

// The SUBMIT-REPORT of a refusal at a moment.
fn report_at(alloc: Global, refusal: Refusal, now: Moment) -> Result<Octets, AllocError>
    ensures written { IfOk result (λ octets. IsWrittenSubmitReport octets (report_of (Some (failure_cause_of refusal)) now)) }
    ensures short { IfOk result (λ octets. length octets < 256) }
{
    let report = SubmitReport {
        failure_cause: Some(refusal.failure_cause()),
        service_centre_time_stamp: now,
        parameters: Parameters {
            protocol_identifier: None,
            data_coding_scheme: None,
            user_data: None,
        },
    };
    write_submit_report(alloc, &report)
}

fn refuse(
    alloc: Global,
    now: Moment,
    reference: u8,
    refusal: Refusal,
) -> Result<Relayed, AllocError>
    ensures { IfOk result (λ r. IsRefused now reference refusal r) }
{
    let report = report_at(alloc, refusal, now)?;
    let error = Rp::ErrorUnit {
        reference,
        cause: refusal.cause(),
        unit: Some(OctetView::of(report.as_slice())),
    };
    Ok(answer(write_down(alloc, &error)?))
}

/// What a centre without rows sends for a unit that CP-DATA can't carry, so that it never arrived over a link.
pub fn relay_uncarried(alloc: Global, now: Moment, unit: &[u8]) -> Result<Relayed, AllocError>
    requires { 0 < length unit.now → length unit.now ≤ 248 → ⊥ }
    ensures { (centre from : AddressOf) → IfOk result (λ r. IsRelayed centre from now unit.now r) }
{
    match read_up(unit) {
        Ok(
            Rp::DataUnit {
                reference,
                centre: _,
                unit,
            },
        ) => match read_tpdu(unit.as_slice(), Carrier::InData) {
            Err(fault) => refuse(alloc, now, reference, Refusal::of(fault)),
            Ok(_) => unreachable!(),
        },
        Ok(Rp::Smma { .. }) => unreachable!(),
        Ok(Rp::AckUnit { .. }) | Ok(Rp::ErrorUnit { .. }) => Ok(nothing()),
        Err(fault) => answer_unreadable(alloc, unit, fault),
    }
}
