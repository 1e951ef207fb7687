//! Answers to what handsets send up (3GPP TS 24.011 6).
ghost use Rattle.std.specs.Prelude.{◌≡◌, ◌<◌, ◌≤◌, None, Some, length, IfOk, OnOk};
ghost use Rattle.sms_base.specs.declared.carried.Kind.TheVariants.{Ack, Error};
ghost use Rattle.sms_link.specs.LinkTurn.{taken};
ghost use Rattle.sms_relay.specs.Cause.{IsRpCause};
ghost use Rattle.sms_relay.specs.RelayGrammar.{ack_down, error_down};
ghost use Rattle.sms_centre_rows.specs.waiting.Links.{link_of, turn_link};
ghost use Rattle.sms_intake.specs.Refusals.{cause_of};
ghost use Rattle.sms_intake.specs.SubmitReports.{accepting_report as accepting_report_of, refusing_report as refusing_report_of};
ghost use Rattle.sms_centre_spec.specs.Draft.{Draft, answer_with, on_links};
ghost use Rattle.sms_centre_spec.specs.Receiving.{confirm as confirm_of, memory_available as memory_available_of, refuse as refuse_of, reject as reject_of};
ghost use Rattle.sms_centre_spec.specs.Receiving.{reply as reply_of};
ghost use Rattle.sms_centre_draft.specs.CentreDraft.{Represents};

use crate::centre_draft::CentreDraft;
use sms_base::{Holder, Kind, Msisdn, OctetView, Octets};
use sms_centre_spec::CentreAnswer;
use sms_intake::{SubmitRefusal, accepting_report, refusing_report};
use sms_link::Upward;
use sms_relay::{Rp, RpCause, write_down};
use std::alloc::{AllocError, Global};

/// A transfer that a handset began, and that waits for its answer.
#[derive(Clone, Copy)]
pub struct Transfer {
    /// Who began it.
    pub handset: Msisdn,
    /// Its RP-Message-Reference.
    pub reference: u8,
    /// For whom the handset's frame was made.
    pub tag: Holder,
}

// RP-ACK, with a TPDU.
fn ack_unit(alloc: Global, reference: u8, report: &[u8]) -> Result<Octets, AllocError>
    requires { length report.now < 256 }
    ensures { IfOk result (λ unit. unit ≡ ack_down reference (Some report.now)) }
{
    write_down(
        alloc,
        &Rp::AckUnit {
            reference,
            unit: Some(OctetView::of(report)),
        },
    )
}

// RP-ACK.
fn bare_ack(alloc: Global, reference: u8) -> Result<Octets, AllocError>
    ensures { IfOk result (λ unit. unit ≡ ack_down reference None) }
{
    write_down(
        alloc,
        &Rp::AckUnit {
            reference,
            unit: None,
        },
    )
}

// RP-ERROR, with a TPDU.
fn error_unit(
    alloc: Global,
    reference: u8,
    cause: RpCause,
    report: &[u8],
) -> Result<Octets, AllocError>
    requires cause { IsRpCause cause }
    requires report { length report.now < 256 }
    ensures { IfOk result (λ unit. unit ≡ error_down reference cause (Some report.now)) }
{
    write_down(
        alloc,
        &Rp::ErrorUnit {
            reference,
            cause,
            unit: Some(OctetView::of(report)),
        },
    )
}

// RP-ERROR.
fn bare_error(alloc: Global, reference: u8, cause: RpCause) -> Result<Octets, AllocError>
    requires { IsRpCause cause }
    ensures { IfOk result (λ unit. unit ≡ error_down reference cause None) }
{
    write_down(
        alloc,
        &Rp::ErrorUnit {
            reference,
            cause,
            unit: None,
        },
    )
}

impl<'a> CentreDraft<'a> {
    /// The answer in the transaction that the handset began, if one waits for it: a unit of 1 to 248 octets.
    pub fn reply(&mut self, transfer: &Transfer, kind: Kind, unit: &[u8]) -> Result<(), AllocError>
        requires some { 0 < length unit.now }
        requires fits { length unit.now ≤ 248 }
        ensures { (d : Draft) → Represents d self.old
            → OnOk result (Represents (reply_of transfer.now.handset kind transfer.now.reference transfer.now.tag unit.now d) self.new) }
    {
        self.queues.reply(
            transfer.handset,
            self.moment,
            kind,
            transfer.reference,
            transfer.tag,
            unit,
        )?;
        Ok(())
    }

    /// Takes a frame of the handset, whatever its octets, and gives what the link passes up.
    pub fn take(&mut self, handset: Msisdn, frame: &[u8]) -> Result<Option<Upward>, AllocError>
        ensures up { (d : Draft) → Represents d self.old → IfOk result (λ up. up ≡ (taken frame.now (link_of handset d.links.all).near_end).out.up) }
        ensures state { (d : Draft) → Represents d self.old
            → OnOk result (Represents (on_links (turn_link (link_of handset d.links.all)
            (taken frame.now (link_of handset d.links.all).near_end) d.links) d) self.new) }
    {
        let up = self.queues.take(handset, frame)?;
        Ok(up)
    }

    /// The application is answered.
    pub fn answer(&mut self, answer: CentreAnswer)
        ensures { (d : Draft) → Represents d self.old → Represents (answer_with answer d) self.new }
    {
        self.answer = Some(answer);
    }

    // RP-ACK with the SUBMIT-REPORT of one that was accepted now.
    fn confirming(&self, reference: u8) -> Result<Octets, AllocError>
        ensures is { (d : Draft) → Represents d self.now → IfOk result (λ unit. unit ≡ ack_down reference (Some (accepting_report_of d.store.moment))) }
        ensures len { IfOk result (λ unit. length unit ≡ 13) }
    {
        let report = accepting_report(self.alloc, self.moment)?;
        let unit = ack_unit(self.alloc, reference, report.as_slice())?;
        Ok(unit)
    }

    // RP-ERROR with the SUBMIT-REPORT of one that was refused now.
    fn refusing(&self, reference: u8, refusal: SubmitRefusal) -> Result<Octets, AllocError>
        ensures is { (d : Draft) → Represents d self.now → IfOk result
            (λ unit. unit ≡ error_down reference (cause_of refusal) (Some (refusing_report_of refusal d.store.moment))) }
        ensures len { IfOk result (λ unit. length unit ≡ 16) }
    {
        let report = refusing_report(self.alloc, refusal, self.moment)?;
        let unit = error_unit(self.alloc, reference, refusal.cause(), report.as_slice())?;
        Ok(unit)
    }

    /// A SUBMIT is accepted.
    pub fn confirm(&mut self, transfer: &Transfer) -> Result<(), AllocError>
        ensures { (d : Draft) → Represents d self.old
            → OnOk result (Represents (confirm_of transfer.now.handset transfer.now.reference transfer.now.tag d) self.new) }
    {
        let unit = self.confirming(transfer.reference)?;
        self.reply(transfer, Kind::Ack, unit.as_slice())
    }

    /// A SUBMIT is refused.
    pub fn refuse(&mut self, transfer: &Transfer, refusal: SubmitRefusal) -> Result<(), AllocError>
        ensures { (d : Draft) → Represents d self.old
            → OnOk result (Represents (refuse_of transfer.now.handset transfer.now.reference transfer.now.tag refusal d) self.new) }
    {
        let unit = self.refusing(transfer.reference, refusal)?;
        self.reply(transfer, Kind::Error, unit.as_slice())
    }

    /// A unit that can't be read is rejected.
    pub fn reject(&mut self, transfer: &Transfer, cause: RpCause) -> Result<(), AllocError>
        requires cause { IsRpCause cause }
        ensures { (d : Draft) → Represents d self.old
            → OnOk result (Represents (reject_of transfer.now.handset transfer.now.reference transfer.now.tag cause d) self.new) }
    {
        let unit = bare_error(self.alloc(), transfer.reference, cause)?;
        self.reply(transfer, Kind::Error, unit.as_slice())
    }

    /// The source of its memory.
    pub fn alloc(&self) -> Global {
        self.alloc
    }

    // RP-SMMA is acknowledged.
    fn acknowledge(&mut self, transfer: &Transfer) -> Result<(), AllocError>
        ensures { (d : Draft) → Represents d self.old
            → OnOk result (Represents
            (reply_of transfer.now.handset Ack transfer.now.reference transfer.now.tag (ack_down transfer.now.reference None) d) self.new) }
    {
        let unit = bare_ack(self.alloc(), transfer.reference)?;
        self.reply(transfer, Kind::Ack, unit.as_slice())
    }

    /// Takes RP-SMMA: the handset has memory.
    pub fn memory_available(&mut self, transfer: &Transfer) -> Result<(), AllocError>
        ensures { (d : Draft) → Represents d self.old
            → OnOk result (Represents (memory_available_of transfer.now.handset transfer.now.reference transfer.now.tag d) self.new) }
    {
        self.acknowledge(transfer)?;
        self.has_memory(transfer.handset)
    }
}
