//! TPDUs from a handset to the service centre.
ghost use Rattle.std.specs.Prelude.{◌≡◌, ◌<◌, IfOk, Ok, length};
ghost use Rattle.sms_tpdu.specs.TpduGrammar.{IsUp, IsWritableUp, IsUpWritten};
ghost use Rattle.sms_tpdu.specs.TpduReading.{up_at};
ghost use Rattle.sms_tpdu.specs.declared.up.Up.{Up as UpOf};

use crate::carrier::Carrier;
use crate::deliver_report::{DeliverReport, deliver_report_of, write_deliver_report};
use crate::fault::TpduFault;
use crate::submit::{Submit, submit_of, write_submit};
use sms_base::Octets;
use std::alloc::{AllocError, Global};

/// A TPDU from a handset to the service centre.
#[derive(Drop)]
pub enum Up<'a> {
    /// In RP-DATA.
    Submit(Submit<'a>),
    /// In RP-ACK or RP-ERROR.
    DeliverReport(DeliverReport<'a>),
}

#[tactic(auto, unfolding(crate::specs::TpduReading::up_at, crate::specs::TpduReading::data_up_at, crate::specs::TpduReading::report_up_at))]
fn up_of(octets: &[u8], carrier: Carrier) -> Result<Up<'_>, TpduFault>
    ensures { result ≡ up_at carrier octets.now }
{
    match carrier {
        Carrier::InData => Ok(Up::Submit(submit_of(octets)?)),
        Carrier::InAck => Ok(Up::DeliverReport(deliver_report_of(octets, false)?)),
        Carrier::InError => Ok(Up::DeliverReport(deliver_report_of(octets, true)?)),
    }
}

/// The TPDU that the octets are, or the first fault from left to right. Octets left over are the last fault.
///
/// Takes no memory; the TPDU borrows the octets.
pub fn read_up(octets: &[u8], carrier: Carrier) -> Result<Up<'_>, TpduFault>
    // What is read is in the grammar.
    ensures found { IfOk result (λ tpdu. IsUp carrier octets.now tpdu) }
    // What is in the grammar is read.
    ensures only { (tpdu : UpOf) → IsUp carrier octets.now tpdu → result ≡ Ok tpdu }
    // What is read may be written.
    ensures writable { IfOk result (λ tpdu. IsWritableUp tpdu) }
    // Which fault it is.
    ensures exact { result ≡ up_at carrier octets.now }
{
    up_of(octets, carrier)
}

/// The octets of a TPDU as they are written, at most 164.
///
/// Takes memory once.
pub fn write_up(alloc: Global, tpdu: &Up<'_>) -> Result<Octets, AllocError>
    requires { IsWritableUp tpdu.now }
    ensures ok { IfOk result (λ octets. IsUpWritten octets tpdu.now) }
    ensures short { IfOk result (λ octets. length octets < 256) }
{
    match tpdu {
        Up::Submit(submit) => write_submit(alloc, submit),
        Up::DeliverReport(report) => write_deliver_report(alloc, report),
    }
}
