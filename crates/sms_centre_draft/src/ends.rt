//! How a message ends, and its report.
ghost use Rattle.std.specs.Prelude.{◌≡◌, ℕ, Some, true, false, IfOk, OnOk};
ghost use Rattle.sms_base.specs.declared.originator.Originator.TheVariants.{Application, Handset};
ghost use Rattle.sms_base.specs.declared.final_state.FinalState.{FinalState as FinalStateOf};
ghost use Rattle.sms_centre_rows.specs.messages.Messages.{is_pending, message_at};
ghost use Rattle.sms_receipt.specs.StatusReports.{status_octets as status_octets_of};
ghost use Rattle.sms_centre_rows.specs.declared.reports.report.ReportKind.TheVariants.{Receipt, Unsent};
ghost use Rattle.sms_centre_rows.specs.waiting.References.{handset_of};
ghost use Rattle.sms_centre_spec.specs.Draft.{Draft, handsets_in, in_store, messages_in};
ghost use Rattle.sms_centre_spec.specs.Ends.{end as end_of, is_failure as is_failure_of, is_wished as is_wished_of, make_report, make_status as make_status_of};
ghost use Rattle.sms_centre_spec.specs.Ends.{report as report_of, report_to as report_to_of, status_given};
ghost use Rattle.sms_centre_spec.specs.Finals.{final_of as final_of_message};
ghost use Rattle.sms_centre_spec.specs.Submitting.{reference_for};
ghost use Rattle.sms_centre_draft.specs.Stages.{IsUnreported};
ghost use Rattle.sms_centre_draft.specs.CentreDraft.{Represents};

use crate::centre_draft::CentreDraft;
use sms_base::{FinalState, Moment, Msisdn, Octets, Originator, Wish};
use sms_centre_rows::messages::MessageRow;
use sms_centre_rows::waiting::QueuedPart;
use sms_centre_spec::final_of;
use sms_receipt::status_report_octets;
use std::alloc::{AllocError, Global};

fn is_failure(state: FinalState) -> bool
    ensures { result ≡ is_failure_of state }
{
    match state {
        FinalState::Delivered => false,
        FinalState::Expired | FinalState::Deleted | FinalState::Undeliverable => true,
    }
}

fn is_wished(wish: Wish, state: FinalState) -> bool
    ensures { result ≡ is_wished_of wish state }
{
    match wish {
        Wish::Nothing => false,
        Wish::Always => true,
        Wish::OnFailure => is_failure(state),
    }
}

// The STATUS-REPORT of a message that ended so, to a handset.
fn status_octets(
    alloc: Global,
    state: FinalState,
    now: Moment,
    message: &MessageRow,
) -> Result<Octets, AllocError>
    ensures { IfOk result (λ octets. octets ≡ status_octets_of (final_of_message state now message.now)) }
{
    status_report_octets(alloc, &final_of(state, now, message))
}

impl<'a> CentreDraft<'a> {
    // An application's message gets a receipt.
    fn make_receipt(&mut self, message: &MessageRow, account: &[u8]) -> Result<(), AllocError>
        ensures { (d : Draft) (state : FinalStateOf) → Represents d self.old → IsUnreported state message.now d.store
            → message.now.originator ≡ Application account.now
            → OnOk result (Represents (in_store (make_report message.now.id Receipt false d.store) d) self.new) }
    {
        self.reports.make_receipt(message.id, self.moment, account)?;
        Ok(())
    }

    // A handset's message gets a status report under that reference.
    fn give_status(
        &mut self,
        state: FinalState,
        message: &MessageRow,
        handset: Msisdn,
        reference: u8,
    ) -> Result<(), AllocError>
        requires { handset ≡ message.now.source.digits }
        ensures { (d : Draft) (n : ℕ) → Represents d self.old → IsUnreported state message.now d.store → message.now.originator ≡ Handset n
            → reference_for (handset_of message.now.source.digits (handsets_in d.store)) d.store ≡ Some reference
            → OnOk result (Represents (in_store (status_given state message.now (handset_of message.now.source.digits (handsets_in d.store))
            (Some reference) d.store) d) self.new) }
    {
        let tpdu = status_octets(self.alloc, state, self.moment, message)?;
        self.reports
            .make_status(message.id, self.moment, reference, tpdu)?;
        let queued = QueuedPart {
            id: message.id,
            number: 0,
            reference,
            priority: 0,
            due: self.moment,
        };
        self.queues.give(handset, self.moment, queued)?;
        Ok(())
    }

    // No reference is free for the status report, so that none is sent.
    fn make_unsent(&mut self, message: &MessageRow) -> Result<(), AllocError>
        ensures { (d : Draft) (state : FinalStateOf) → Represents d self.old → IsUnreported state message.now d.store
            → OnOk result (Represents (in_store (make_report message.now.id Unsent true d.store) d) self.new) }
    {
        self.reports.make_unsent(message.id, self.moment)?;
        Ok(())
    }

    /// The next reference of the handset.
    pub(crate) fn next_reference(&self, number: Msisdn) -> Result<Option<u8>, AllocError>
        ensures { (d : Draft) → Represents d self.now
            → IfOk result (λ reference. reference_for (handset_of number (handsets_in d.store)) d.store ≡ reference) }
    {
        let reference = self.queues.next_reference(number, self.moment)?;
        Ok(reference)
    }

    // The handset that submitted the message gets a status report, where a reference is free for it.
    fn make_status_to(
        &mut self,
        state: FinalState,
        message: &MessageRow,
        handset: Msisdn,
    ) -> Result<(), AllocError>
        requires { handset ≡ message.now.source.digits }
        ensures { (d : Draft) (n : ℕ) → Represents d self.old → IsUnreported state message.now d.store → message.now.originator ≡ Handset n
            → OnOk result (Represents (in_store (make_status_of state message.now
            (handset_of message.now.source.digits (handsets_in d.store)) d.store) d) self.new) }
    {
        let free = self.next_reference(handset)?;
        match free {
            Some(reference) => self.give_status(state, message, handset, reference),
            None => self.make_unsent(message),
        }
    }

    // A handset's message gets a status report.
    fn make_status(&mut self, state: FinalState, message: &MessageRow) -> Result<(), AllocError>
        ensures { (d : Draft) (n : ℕ) → Represents d self.old → IsUnreported state message.now d.store → message.now.originator ≡ Handset n
            → OnOk result (Represents (in_store (make_status_of state message.now
            (handset_of message.now.source.digits (handsets_in d.store)) d.store) d) self.new) }
    {
        match Msisdn::of_digits(&message.source.digits) {
            Some(handset) => self.make_status_to(state, message, handset),
            None => Ok(()),
        }
    }

    // An application gets a receipt, a handset a status report.
    fn report_to(&mut self, state: FinalState, message: &MessageRow) -> Result<(), AllocError>
        ensures { (d : Draft) → Represents d self.old → IsUnreported state message.now d.store
            → OnOk result (Represents (in_store (report_to_of message.now.originator state message.now d.store) d) self.new) }
    {
        match &message.originator {
            Originator::Application { account } => self.make_receipt(message, account.as_slice()),
            Originator::Handset { .. } => self.make_status(state, message),
        }
    }

    // The end is reported to who asked for that.
    fn report(&mut self, state: FinalState, message: &MessageRow) -> Result<(), AllocError>
        ensures { (d : Draft) → Represents d self.old → IsUnreported state message.now d.store
            → OnOk result (Represents (in_store (report_of state message.now d.store) d) self.new) }
    {
        if is_wished(message.wish, state) {
            return self.report_to(state, message);
        }
        Ok(())
    }

    /// The message, which is pending, ends so now, and its report is made at once, where one was asked for.
    pub fn end(&mut self, state: FinalState, message: &MessageRow) -> Result<(), AllocError>
        ensures { (d : Draft) → Represents d self.old → message_at message.now.id (messages_in d.store) ≡ Some message.now → is_pending message.now ≡ true
            → OnOk result (Represents (in_store (end_of state message.now d.store) d) self.new) }
    {
        self.put_ended(state, message)?;
        self.report(state, message)
    }
}
