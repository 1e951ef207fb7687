//! The centre between two events.
ghost use Rattle.std.specs.Prelude.{◌≡◌, IfOk};
ghost use Rattle.sms_centre_spec.specs.Draft.{Core, draft_of};
ghost use Rattle.sms_centre.specs.state.CentreState.{Represents as StateRepresents};
ghost use Rattle.sms_centre_draft.specs.CentreDraft.{Represents as DraftRepresents};

use sms_base::Moment;
use sms_centre_draft::CentreDraft;
use sms_centre_messages::message_index::MessageIndex;
use sms_centre_messages::references::ReferenceIndex;
use sms_centre_queue::queues::DeliveryQueues;
use sms_centre_reports::open_reports::OpenReports;
use sms_centre_reports::report_log::ReportLog;
use sms_centre_reports::sessions::ReceiptSession;
use sms_centre_spec::Setup;
use sms_rows::table::Table;
use std::alloc::{AllocError, Global};
use std::marker::Model;

/// All that a centre keeps in memory between two events.
#[derive(Drop)]
pub struct CentreState {
    pub setup: Setup,
    /// The greatest moment of a tick, or that its rows have seen.
    pub moment: Moment,
    pub messages: MessageIndex,
    /// The split references and TP-MRs that earlier messages lay claim to.
    pub reference_index: ReferenceIndex,
    pub queues: DeliveryQueues,
    /// The reports that are open.
    pub reports: OpenReports,
    /// All reports that were made.
    pub log: ReportLog,
    pub sessions: Table<ReceiptSession>,
}

impl Model for CentreState {
    ghost use Rattle.sms_centre.specs.state.CentreState.{CentreStateOf};

    ghost Value = { CentreStateOf };

    ghost view = { λ s. record {
      setup = s.setup;
      moment = s.moment;
      messages = s.messages;
      reference_index = s.reference_index;
      queues = s.queues;
      reports = s.reports;
      log = s.log;
      sessions = s.sessions;
    } };
}

impl CentreState {
    /// The centre as an event begins.
    pub fn begin<'a>(&'a self, alloc: Global) -> Result<CentreDraft<'a>, AllocError>
        ensures represented { (c : Core) → StateRepresents c self.entry.now → IfOk result (DraftRepresents (draft_of c)) }
        ensures setup { IfOk result (λ draft. draft.setup ≡ self.entry.now.setup) }
    {
        let draft = CentreDraft::of(
            alloc,
            &self.setup,
            self.moment,
            &self.messages,
            &self.queues,
            &self.reports,
            &self.sessions,
        )?;
        Ok(draft)
    }
}
