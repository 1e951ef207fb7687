//! What an event leads to.
ghost use Rattle.std.specs.Prelude.{◌≡◌, length, IfOk};
ghost use Rattle.sms_centre_spec.specs.Draft.{Draft, changes_in};
ghost use Rattle.sms_centre_messages.specs.references.Moves.{FitsTheReferences as FitsReferenceIndex};
ghost use Rattle.sms_centre_messages.specs.message_index.MessageIndex.{FitsTheMessages as FitsMessages, DraftRepresents as RepresentsMessages};
ghost use Rattle.sms_centre_messages.specs.message_index.Settling.{IsSettled};
ghost use Rattle.sms_centre_rows.specs.messages.Messages.{Messages};
ghost use Rattle.sms_centre.specs.plans.EventOutcome.{FitsIn, IsOutcome};
ghost use Rattle.sms_centre_queue.specs.queues.Plan.{FitsTheQueues as FitsQueues, IsSettled as IsSettledQueues};
ghost use Rattle.sms_centre_draft.specs.CentreDraft.{Represents, CentreDraftOf};

use crate::plans::event_outcome::{EventOutcome, NextState, Outputs};
use sms_base::{Listed, Moment};
use sms_centre_draft::CentreDraft;
use sms_centre_messages::message_index::{MessageIndex, MessageIndexDraft, MessageIndexPlan};
use sms_centre_messages::references::{ReferenceIndex, ReferenceIndexReserve};
use sms_centre_queue::queues::{DeliveryQueuesDraft, DeliveryQueuesOutcome};
use sms_centre_reports::open_reports::OpenReportsDraft;
use sms_centre_reports::sessions::BindingsDraft;
use sms_centre_rows::messages::BarRow;
use sms_centre_spec::{CentreAnswer, Changes};
use sms_rows::table::Change;
use std::alloc::{AllocError, Global};

// What an event changes of messages, with the memory for it and for what they lay claim to.
#[derive(Drop)]
struct SettledRows {
    messages: MessageIndexPlan,
    reference_index: ReferenceIndexReserve,
}

// The same, and what it leaves of the queues.
#[derive(Drop)]
struct Settled {
    rows: SettledRows,
    plan: DeliveryQueuesOutcome,
}

fn settle_rows(
    alloc: Global,
    messages: MessageIndexDraft<'_>,
    bars: &Listed<Change<BarRow>>,
    message_index: &MessageIndex,
    reference_index: &ReferenceIndex,
) -> Result<SettledRows, AllocError>
    ensures settled { (m : Messages) → RepresentsMessages messages.entry m → IfOk result (λ rows. IsSettled m rows.messages) }
    ensures messages { IfOk result (λ rows. FitsMessages rows.messages.reserve (length rows.messages.messages) message_index.now) }
    ensures reference_index { IfOk result (λ rows. FitsReferenceIndex rows.reference_index (length rows.messages.messages)
        (length rows.messages.parts) (length bars.now) reference_index.now) }
{
    let settled = messages.settle(message_index)?;
    match reference_index.make_reserve(
        alloc,
        settled.messages.len(),
        settled.parts.len(),
        bars.len(),
    ) {
        Ok(reference_index) => Ok(SettledRows {
            messages: settled,
            reference_index,
        }),
        Err(error) => {
            drop(settled);
            Err(error)
        }
    }
}

fn settle_stored(
    alloc: Global,
    now: Moment,
    messages: MessageIndexDraft<'_>,
    bars: &Listed<Change<BarRow>>,
    queues: DeliveryQueuesDraft,
    message_index: &MessageIndex,
    reference_index: &ReferenceIndex,
) -> Result<Settled, AllocError>
    ensures settled { (m : Messages) → RepresentsMessages messages.entry m → IfOk result (λ settled. IsSettled m settled.rows.messages) }
    ensures messages { IfOk result (λ settled. FitsMessages settled.rows.messages.reserve (length settled.rows.messages.messages) message_index.now) }
    ensures reference_index { IfOk result (λ settled. FitsReferenceIndex settled.rows.reference_index (length settled.rows.messages.messages)
        (length settled.rows.messages.parts) (length bars.now) reference_index.now) }
    ensures handsets { IfOk result (λ settled. settled.plan.handsets ≡ queues.handsets) }
    ensures references { IfOk result (λ settled. settled.plan.references ≡ queues.references) }
    ensures frames { IfOk result (λ settled. settled.plan.frames ≡ queues.frames) }
    ensures queues { IfOk result (λ settled. IsSettledQueues queues settled.plan.queues) }
    ensures fits { IfOk result (λ settled. FitsQueues settled.plan.queues) }
{
    let rows = settle_rows(alloc, messages, bars, message_index, reference_index)?;
    match queues.settle(now) {
        Ok(plan) => Ok(Settled { rows, plan }),
        Err(error) => {
            drop(rows);
            Err(error)
        }
    }
}

// What was settled, as the plan.
fn planned(
    moment: Moment,
    settled: Settled,
    bars: Listed<Change<BarRow>>,
    reports: OpenReportsDraft,
    bindings: BindingsDraft,
    answer: Option<CentreAnswer>,
) -> EventOutcome
    ensures plans { (d : Draft) (w : CentreDraftOf) → Represents d w → moment ≡ w.moment → IsSettled d.store.messages settled.rows.messages
        → IsSettledQueues w.queues settled.plan.queues
        → settled.plan.references ≡ w.queues.references → settled.plan.handsets ≡ w.queues.handsets → settled.plan.frames ≡ w.queues.frames
        → reports ≡ w.reports → bindings ≡ w.bindings → answer ≡ w.answer → bars ≡ (changes_in d.store).bars → IsOutcome d result }
    ensures messages { result.next_state.messages ≡ settled.rows.messages.reserve }
    ensures reference_index { result.next_state.reference_index ≡ settled.rows.reference_index }
    ensures queues { result.next_state.queues ≡ settled.plan.queues }
    ensures changed { result.changes.messages ≡ settled.rows.messages.messages }
    ensures parts { result.changes.parts ≡ settled.rows.messages.parts }
    ensures bars { result.changes.bars ≡ bars }
{
    let Settled { rows, plan } = settled;
    let SettledRows {
        messages,
        reference_index,
    } = rows;
    let known = reports.settle();
    let changed = Listed::from_vec(known.changes);
    let seated = bindings.settle();
    let deliveries = Listed::from_vec(seated.deliveries);
    EventOutcome {
        changes: Changes {
            messages: messages.messages,
            parts: messages.parts,
            references: plan.references,
            handsets: plan.handsets,
            reports: changed,
            priorities: messages.priorities,
            bars,
        },
        outputs: Outputs {
            frames: plan.frames,
            answer,
            deliveries,
        },
        next_state: NextState {
            moment,
            messages: messages.reserve,
            reference_index,
            queues: plan.queues,
            reports: known.reports,
            sessions: seated.sessions,
        },
    }
}

/// What the event leads to, with the bars that it puts, and with the memory to put it into what the centre keeps of
/// messages and claims. It has what the event leaves of queues, reports and sessions.
pub fn settle(
    draft: CentreDraft<'_>,
    bars: Listed<Change<BarRow>>,
    message_index: &MessageIndex,
    reference_index: &ReferenceIndex,
) -> Result<EventOutcome, AllocError>
    ensures plans { (d : Draft) → Represents d draft.entry → bars ≡ (changes_in d.store).bars → IfOk result (IsOutcome d) }
    ensures fits { IfOk result (FitsIn message_index.now reference_index.now) }
{
    let CentreDraft {
        alloc,
        setup: _,
        moment,
        messages,
        queues,
        reports,
        bindings,
        answer,
    } = draft;
    match settle_stored(
        alloc,
        moment,
        messages,
        &bars,
        queues,
        message_index,
        reference_index,
    ) {
        Ok(settled) => Ok(planned(moment, settled, bars, reports, bindings, answer)),
        Err(error) => {
            drop(bars);
            drop(reports);
            drop(bindings);
            Err(error)
        }
    }
}
