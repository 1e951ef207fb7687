//! Putting in what an event leads to.
ghost use Rattle.std.specs.Prelude.{◌≡◌, ℕ};
ghost use Rattle.sms_centre_spec.specs.CentreEvent.{happened};
ghost use Rattle.sms_centre_spec.specs.Draft.{Core, core_of};
ghost use Rattle.sms_centre_spec.specs.SoundCore.{IsEvent};
ghost use Rattle.sms_centre_spec.specs.forgetting.Forget.{forget};
ghost use Rattle.sms_centre_spec.specs.declared.event.CentreEvent.{CentreEvent as CentreEventOf};
ghost use Rattle.sms_centre_spec.specs.declared.setup.Setup.{Setup as SetupOf};
ghost use Rattle.sms_centre_messages.specs.references.ReferenceIndex.{Represents as ReferencesRepresent};
ghost use Rattle.sms_centre.specs.plans.EventOutcome.{FitsIn, IsOutcome};
ghost use Rattle.sms_centre_draft.specs.Beginning.{IsCentre};

use crate::plans::event_outcome::{EventOutcome, NextState, Outputs};
use sms_base::{Listed, Moment};
use sms_centre_messages::message_index::MessageIndex;
use sms_centre_messages::references::ReferenceIndex;
use sms_centre_queue::queues::DeliveryQueues;
use sms_centre_reports::open_reports::OpenReports;
use sms_centre_reports::sessions::ReceiptSession;
use sms_centre_rows::messages::MessageRow;
use sms_centre_spec::Changes;
use sms_rows::table::{Change, Table};

impl EventOutcome {
    /// Puts it into what the centre keeps, without taking memory. It gives the changes back, with these in the place of those of
    /// messages, which it uses up, and what leaves.
    pub fn adopt(
        self,
        kept: Listed<Change<MessageRow>>,
        moment: &mut Moment,
        messages: &mut MessageIndex,
        reference_index: &mut ReferenceIndex,
        queues: &mut DeliveryQueues,
        reports: &mut OpenReports,
        sessions: &mut Table<ReceiptSession>,
    ) -> (Changes, Outputs)
        requires fits { FitsIn messages.old reference_index.old self }
        ensures changes { result.0 ≡ record self.changes { messages = kept } }
        ensures outputs { result.1 ≡ self.outputs }
        ensures centre { (event : CentreEventOf) (c : Core) (setup : SetupOf) → IsEvent event → IsOutcome (happened event c) self
            → IsCentre c setup moment.old messages.old queues.old reports.old sessions.old.rows
            → IsCentre (core_of (happened event c)) setup moment.new messages.new queues.new reports.new sessions.new.rows }
        ensures reference_index { (event : CentreEventOf) (c : Core) (setup : SetupOf) → IsEvent event → IsOutcome (happened event c) self
            → IsCentre c setup moment.old messages.old queues.old reports.old sessions.old.rows
            → ReferencesRepresent reference_index.old c.rows.bars c.rows.messages c.rows.parts
            → ReferencesRepresent reference_index.new (core_of (happened event c)).rows.bars (core_of (happened event c)).rows.messages
            (core_of (happened event c)).rows.parts }
        ensures forgotten { (before from most : ℕ) (c : Core) (setup : SetupOf) → IsOutcome (forget before from most c) self
            → IsCentre c setup moment.old messages.old queues.old reports.old sessions.old.rows
            → IsCentre (core_of (forget before from most c)) setup moment.new messages.new queues.new reports.new sessions.new.rows }
        ensures reference_index_forgets { (before from most : ℕ) (c : Core) (setup : SetupOf) → IsOutcome (forget before from most c) self
            → IsCentre c setup moment.old messages.old queues.old reports.old sessions.old.rows
            → ReferencesRepresent reference_index.old c.rows.bars c.rows.messages c.rows.parts
            → ReferencesRepresent reference_index.new (core_of (forget before from most c)).rows.bars (core_of (forget before from most c)).rows.messages
            (core_of (forget before from most c)).rows.parts }
    {
        let EventOutcome {
            changes,
            outputs,
            next_state,
        } = self;
        let NextState {
            moment: now,
            messages: reserve,
            reference_index: claimed,
            queues: settled,
            reports: known,
            sessions: seated,
        } = next_state;
        let Changes {
            messages: put,
            parts,
            references,
            handsets,
            reports: reported,
            priorities,
            bars,
        } = changes;
        reference_index.adopt(claimed, put.as_slice(), parts.as_slice(), bars.as_slice());
        messages.adopt(reserve, put);
        queues.adopt(settled);
        *moment = now;
        *reports = known;
        *sessions = seated;
        let changes = Changes {
            messages: kept,
            parts,
            references,
            handsets,
            reports: reported,
            priorities,
            bars,
        };
        (changes, outputs)
    }
}
