//! The centre in the middle of an event.
ghost use Rattle.std.specs.Prelude.{◌≡◌, IfOk};
ghost use Rattle.sms_centre_spec.specs.Draft.{Core, draft_of};
ghost use Rattle.sms_centre_draft.specs.Beginning.{IsCentre};
ghost use Rattle.sms_centre_draft.specs.CentreDraft.{Represents};

use sms_base::Moment;
use sms_centre_messages::message_index::{MessageIndex, MessageIndexDraft};
use sms_centre_queue::queues::{DeliveryQueues, DeliveryQueuesDraft};
use sms_centre_reports::open_reports::{OpenReports, OpenReportsDraft};
use sms_centre_reports::sessions::{BindingsDraft, ReceiptSession};
use sms_centre_spec::{CentreAnswer, Setup};
use sms_rows::table::Table;
use std::alloc::{AllocError, Global};
use std::marker::Model;

/// The centre in the middle of an event.
#[derive(Drop)]
pub struct CentreDraft<'a> {
    pub alloc: Global,
    pub setup: &'a Setup,
    pub moment: Moment,
    pub messages: MessageIndexDraft<'a>,
    pub queues: DeliveryQueuesDraft,
    pub reports: OpenReportsDraft,
    pub bindings: BindingsDraft,
    pub answer: Option<CentreAnswer>,
}

impl<'a> Model for CentreDraft<'a> {
    ghost use Rattle.sms_centre_draft.specs.CentreDraft.{CentreDraftOf};

    ghost Value = { CentreDraftOf };

    ghost view = { λ w. record {
      setup = w.setup.now;
      moment = w.moment;
      messages = w.messages;
      queues = w.queues;
      reports = w.reports;
      bindings = w.bindings;
      answer = w.answer;
    } };
}

impl<'a> CentreDraft<'a> {
    /// The centre as an event begins.
    pub fn of(
        alloc: Global,
        setup: &'a Setup,
        moment: Moment,
        messages: &'a MessageIndex,
        queues: &DeliveryQueues,
        reports: &OpenReports,
        sessions: &Table<ReceiptSession>,
    ) -> Result<CentreDraft<'a>, AllocError>
        ensures represented { (c : Core) → IsCentre c setup.entry.now moment messages.entry.now queues.now reports.now sessions.now.rows
            → IfOk result (Represents (draft_of c)) }
        ensures setup { IfOk result (λ draft. draft.setup ≡ setup.entry.now) }
    {
        let bindings = BindingsDraft::of(alloc, sessions)?;
        let reports = OpenReportsDraft::of(alloc, reports)?;
        let queues = DeliveryQueuesDraft::of(alloc, queues)?;
        let messages = MessageIndexDraft::of(alloc, messages);
        Ok(CentreDraft {
            alloc,
            setup,
            moment,
            messages,
            queues,
            reports,
            bindings,
            answer: None,
        })
    }
}
