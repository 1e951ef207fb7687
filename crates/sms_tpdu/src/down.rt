//! TPDUs from the service centre to a handset.
ghost use Rattle.std.specs.Prelude.{◌≡◌, ◌<◌, IfOk, Ok, length};
ghost use Rattle.sms_tpdu.specs.TpduGrammar.{IsDown, IsWritableDown, IsDownWritten};
ghost use Rattle.sms_tpdu.specs.TpduReading.{is_status_report, data_down_at, report_down_at, down_at};
ghost use Rattle.sms_tpdu.specs.declared.down.Down.{Down as DownOf};

use crate::carrier::Carrier;
use crate::deliver::{Deliver, deliver_of, write_deliver};
use crate::fault::TpduFault;
use crate::status_report::{StatusReport, status_report_of, write_status_report};
use crate::submit_report::{SubmitReport, submit_report_of, write_submit_report};
use sms_base::Octets;
use std::alloc::{AllocError, Global};

/// A TPDU from the service centre to a handset.
#[derive(Drop)]
pub enum Down<'a> {
    /// In RP-DATA.
    Deliver(Deliver<'a>),
    /// In RP-DATA.
    StatusReport(StatusReport<'a>),
    /// In RP-ACK or RP-ERROR.
    SubmitReport(SubmitReport<'a>),
}

fn is_status_report(octets: &[u8]) -> bool
    ensures { result ≡ is_status_report octets.now }
{
    match octets {
        [] => false,
        [first, ..] => first % 4 == 2,
    }
}

#[tactic(auto, unfolding(crate::specs::TpduReading::data_down_at))]
fn data_down_of(octets: &[u8]) -> Result<Down<'_>, TpduFault>
    ensures { result ≡ data_down_at octets.now }
{
    if is_status_report(octets) {
        let report = status_report_of(octets)?;
        Ok(Down::StatusReport(report))
    } else {
        let deliver = deliver_of(octets)?;
        Ok(Down::Deliver(deliver))
    }
}

#[tactic(auto, unfolding(crate::specs::TpduReading::report_down_at))]
fn report_down_of(octets: &[u8], in_error: bool) -> Result<Down<'_>, TpduFault>
    ensures { result ≡ report_down_at in_error octets.now }
{
    let report = submit_report_of(octets, in_error)?;
    Ok(Down::SubmitReport(report))
}

#[tactic(auto, unfolding(crate::specs::TpduReading::down_at))]
fn down_of(octets: &[u8], carrier: Carrier) -> Result<Down<'_>, TpduFault>
    ensures { result ≡ down_at carrier octets.now }
{
    match carrier {
        Carrier::InData => data_down_of(octets),
        Carrier::InAck => report_down_of(octets, false),
        Carrier::InError => report_down_of(octets, true),
    }
}

/// The TPDU that the octets are, or the first fault from left to right. Octets left over are the last fault.
///
/// Takes no memory; the TPDU borrows the octets.
pub fn read_down(octets: &[u8], carrier: Carrier) -> Result<Down<'_>, TpduFault>
    // What is read is in the grammar.
    ensures found { IfOk result (λ tpdu. IsDown carrier octets.now tpdu) }
    // What is in the grammar is read.
    ensures only { (tpdu : DownOf) → IsDown carrier octets.now tpdu → result ≡ Ok tpdu }
    // What is read may be written.
    ensures writable { IfOk result (λ tpdu. IsWritableDown tpdu) }
    // Which fault it is.
    ensures exact { result ≡ down_at carrier octets.now }
{
    down_of(octets, carrier)
}

/// The octets of a TPDU as they are written, at most 173.
///
/// Takes memory once.
pub fn write_down(alloc: Global, tpdu: &Down<'_>) -> Result<Octets, AllocError>
    requires { IsWritableDown tpdu.now }
    ensures ok { IfOk result (λ octets. IsDownWritten octets tpdu.now) }
    ensures short { IfOk result (λ octets. length octets < 256) }
{
    match tpdu {
        Down::Deliver(deliver) => write_deliver(alloc, deliver),
        Down::StatusReport(report) => write_status_report(alloc, report),
        Down::SubmitReport(report) => write_submit_report(alloc, report),
    }
}
