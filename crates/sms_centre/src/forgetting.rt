//! Which messages a centre may forget, and the plan of it.
ghost use Rattle.std.specs.Prelude.{◌≡◌, ◌∷◌, [], ◌++◌, ◌+◌, ℕ, Some, slice_get, IfOk, OnOk};
ghost use Rattle.sms_centre_rows.specs.messages.Messages.{message_at};
ghost use Rattle.sms_centre_rows.specs.waiting.Links.{link_of};
ghost use Rattle.sms_centre_spec.specs.Draft.{Core, Draft, changes_in, draft_of};
ghost use Rattle.sms_centre_spec.specs.forgetting.Forget.{bars_put, claims_by, forget as forget_of, going_now, is_carried as is_carried_of, is_held_for as is_held_for_of};
ghost use Rattle.sms_centre_spec.specs.forgetting.Forget.{is_on_way as is_on_way_of, may_go_now as may_go_now_of, next_from as next_from_of};
ghost use Rattle.sms_centre_spec.specs.forgetting.Forgetting.{may_go as may_go_of};
ghost use Rattle.sms_centre_draft.specs.CentreDraft.{Represents as DraftRepresents};
ghost use Rattle.sms_centre.specs.Archiving.{AreArchived, Stays};
ghost use Rattle.sms_centre.specs.Forgetting.{gone_at};
ghost use Rattle.sms_centre.specs.Planning.{FitsTheCentre};
ghost use Rattle.sms_centre.specs.plans.EventOutcome.{IsOutcome};
ghost use Rattle.sms_centre.specs.state.CentreState.{CentreStateOf, Represents as StateRepresents};

use crate::archiving::{Archive, archive_all};
use crate::barring::bars_for;
use crate::finishing::planned;
use crate::forget_error::ForgetError;
use crate::plan::Plan;
use crate::state::CentreState;
use sms_base::{Carried, Digits, Holder, Listed, MessageId, Moment, Msisdn};
use sms_centre_draft::CentreDraft;
use sms_centre_messages::message_index::has_ended;
use sms_centre_reports::reported::is_reported;
use sms_centre_rows::messages::{BarRow, MessageRow as Message};
use sms_rows::table::Change;
use std::alloc::{AllocError, Global};

// ---- what is asked of a message

fn may_go(state: &CentreState, before: Moment, message: &Message) -> bool
    ensures { (c : Core) → StateRepresents c state.now → result ≡ may_go_of before c.rows message.now }
{
    if !has_ended(message, before) {
        return false;
    }
    if !is_reported(&state.reports, &state.log, message.id) {
        return false;
    }
    if !state.reference_index.leaves_split(message) {
        return false;
    }
    state.messages.leaves_number(message)
}

fn is_held_for(tag: Holder, id: MessageId) -> bool
    ensures { result ≡ is_held_for_of id tag }
{
    match tag {
        Holder::Part(other, _) => other.number() == id.number(),
        Holder::Report(other) => other.number() == id.number(),
        Holder::Entry(_) => false,
        Holder::Memory(_) => false,
    }
}

fn is_carried(transfer: Option<Carried>, id: MessageId) -> bool
    ensures { result ≡ is_carried_of id transfer }
{
    match transfer {
        Some(transfer) => is_held_for(transfer.tag, id),
        None => false,
    }
}

// It is under way to that handset.
fn is_on_way_to(draft: &CentreDraft<'_>, handset: Msisdn, id: MessageId) -> bool
    ensures { (c : Core) → DraftRepresents (draft_of c) draft.now → result ≡ is_carried_of id (link_of handset c.links).near_end.under_way }
{
    is_carried(draft.under_way(handset), id)
}

// It is under way to that source. What is no number has no link.
fn is_on_way_back(draft: &CentreDraft<'_>, source: &Digits, id: MessageId) -> bool
    ensures { (c : Core) → DraftRepresents (draft_of c) draft.now → result ≡ is_carried_of id (link_of source.now c.links).near_end.under_way }
{
    match Msisdn::of_digits(source) {
        Some(number) => is_on_way_to(draft, number, id),
        None => false,
    }
}

// It or its report is under way: to its handset, or to its source.
fn is_on_way(draft: &CentreDraft<'_>, message: &Message) -> bool
    ensures { (c : Core) (state : CentreStateOf) → DraftRepresents (draft_of c) draft.now → StateRepresents c state
        → message_at message.now.id c.rows.messages ≡ Some message.now → result ≡ is_on_way_of message.now.id c.links }
{
    if is_on_way_to(draft, message.handset, message.id) {
        return true;
    }
    is_on_way_back(draft, &message.source.digits, message.id)
}

fn may_go_now(
    draft: &CentreDraft<'_>,
    state: &CentreState,
    before: Moment,
    message: &Message,
) -> bool
    ensures { (c : Core) → DraftRepresents (draft_of c) draft.now → StateRepresents c state.now → message_at message.now.id c.rows.messages ≡ Some message.now
        → result ≡ may_go_now_of before c message.now }
{
    if !may_go(state, before, message) {
        return false;
    }
    if draft.bindings.is_unanswered(message.id) {
        return false;
    }
    !is_on_way(draft, message)
}

// ---- which of the messages it looks at go

// The number of the message at that place is one of them, if it may go.
fn note(
    alloc: Global,
    draft: &CentreDraft<'_>,
    state: &CentreState,
    before: Moment,
    place: usize,
    ids: &mut Vec<MessageId>,
) -> Result<(), AllocError>
    ensures { (c : Core) → DraftRepresents (draft_of c) draft.now → StateRepresents c state.now
        → OnOk result (ids.new.items ≡ ids.old.items ++ gone_at (may_go_now_of before c) (slice_get c.rows.messages place)) }
{
    let found = state.messages.row(alloc, place)?;
    match found {
        Some(message) => note_message(draft, state, before, message, ids),
        None => Ok(()),
    }
}

fn note_message(
    draft: &CentreDraft<'_>,
    state: &CentreState,
    before: Moment,
    message: Message,
    ids: &mut Vec<MessageId>,
) -> Result<(), AllocError>
    ensures { (c : Core) → DraftRepresents (draft_of c) draft.now → StateRepresents c state.now → message_at message.id c.rows.messages ≡ Some message
        → OnOk result (ids.new.items ≡ ids.old.items ++ gone_at (may_go_now_of before c) (Some message)) }
{
    let id = message.id;
    let goes = may_go_now(draft, state, before, &message);
    drop(message);
    if !goes {
        return Ok(());
    }
    ids.push(id)?;
    Ok(())
}

// The same of the one so many places behind another.
fn note_behind(
    alloc: Global,
    draft: &CentreDraft<'_>,
    state: &CentreState,
    before: Moment,
    start: usize,
    behind: usize,
    ids: &mut Vec<MessageId>,
) -> Result<(), AllocError>
    ensures { (c : Core) → DraftRepresents (draft_of c) draft.now → StateRepresents c state.now
        → OnOk result (ids.new.items ≡ ids.old.items ++ gone_at (may_go_now_of before c) (slice_get c.rows.messages (start + behind))) }
{
    match start.checked_add(behind) {
        Some(place) => note(alloc, draft, state, before, place, ids),
        None => Err(AllocError),
    }
}

fn note_each(
    alloc: Global,
    draft: &CentreDraft<'_>,
    state: &CentreState,
    before: Moment,
    from: u64,
    most: u16,
    ids: &mut Vec<MessageId>,
) -> Result<(), AllocError>
    ensures { (c : Core) → DraftRepresents (draft_of c) draft.now → StateRepresents c state.now → ids.old.items ≡ []
        → OnOk result (ids.new.items ≡ going_now before from most c) }
{
    let start = state.messages.place_from(from);
    for behind in 0..usize::from(most) {
        note_behind(alloc, draft, state, before, start, behind, ids)?;
    }
    Ok(())
}

fn going(
    alloc: Global,
    draft: &CentreDraft<'_>,
    state: &CentreState,
    before: Moment,
    from: u64,
    most: u16,
) -> Result<Vec<MessageId>, AllocError>
    ensures { (c : Core) → DraftRepresents (draft_of c) draft.now → StateRepresents c state.now
        → IfOk result (λ ids. ids.items ≡ going_now before from most c) }
{
    let mut ids = Vec::new(alloc);
    match note_each(alloc, draft, state, before, from, most, &mut ids) {
        Ok(()) => Ok(ids),
        Err(error) => {
            drop(ids);
            Err(error)
        }
    }
}

// ---- the plan

// The bars that are put for what goes.
fn forget<A: Archive>(
    alloc: Global,
    state: &CentreState,
    draft: &mut CentreDraft<'_>,
    archive: &mut A,
    before: Moment,
    from: u64,
    most: u16,
) -> Result<Listed<Change<BarRow>>, ForgetError>
    ensures plan { (c : Core) → DraftRepresents (draft_of c) draft.old → StateRepresents c state.now
        → OnOk result (DraftRepresents (forget_of before from most c) draft.new) }
    ensures bars { (c : Core) → DraftRepresents (draft_of c) draft.old → StateRepresents c state.now
        → IfOk result (λ bars. bars ≡ (changes_in (forget_of before from most c).store).bars) }
    ensures archived { (c : Core) → DraftRepresents (draft_of c) draft.old → StateRepresents c state.now
        → OnOk result (AreArchived (A.keeps archive.new) (going_now before from most c) c.rows) }
    ensures kept { Stays (A.keeps archive.old) (A.keeps archive.new) }
{
    let ids = going(alloc, draft, state, before, from, most)?;
    let bars = forget_archived(alloc, state, draft, archive, ids.as_slice());
    drop(ids);
    bars
}

// What is forgotten is archived first.
fn forget_archived<A: Archive>(
    alloc: Global,
    state: &CentreState,
    draft: &mut CentreDraft<'_>,
    archive: &mut A,
    ids: &[MessageId],
) -> Result<Listed<Change<BarRow>>, ForgetError>
    ensures plan { (before from most : ℕ) (c : Core) → DraftRepresents (draft_of c) draft.old → StateRepresents c state.now
        → ids.now ≡ going_now before from most c → OnOk result (DraftRepresents (forget_of before from most c) draft.new) }
    ensures bars { (c : Core) → StateRepresents c state.now
        → IfOk result (λ bars. bars ≡ bars_put (claims_by ids.now c.rows.messages c.rows.parts) c.rows.bars) }
    ensures archived { (c : Core) → StateRepresents c state.now → OnOk result (AreArchived (A.keeps archive.new) ids.now c.rows) }
    ensures kept { Stays (A.keeps archive.old) (A.keeps archive.new) }
{
    archive_all(alloc, state, archive, ids)?;
    let bars = forget_all(alloc, state, draft, ids)?;
    Ok(bars)
}

fn forget_all(
    alloc: Global,
    state: &CentreState,
    draft: &mut CentreDraft<'_>,
    ids: &[MessageId],
) -> Result<Listed<Change<BarRow>>, AllocError>
    ensures plan { (before from most : ℕ) (c : Core) → DraftRepresents (draft_of c) draft.old → StateRepresents c state.now
        → ids.now ≡ going_now before from most c
        → OnOk result (DraftRepresents (forget_of before from most c) draft.new) }
    ensures bars { (c : Core) → StateRepresents c state.now
        → IfOk result (λ bars. bars ≡ bars_put (claims_by ids.now c.rows.messages c.rows.parts) c.rows.bars) }
{
    let bars = bars_for(alloc, state, ids)?;
    match draft.forget(ids, &state.log) {
        Ok(()) => Ok(bars),
        Err(error) => {
            drop(bars);
            Err(error)
        }
    }
}

fn plan_begun<A: Archive>(
    alloc: Global,
    state: &CentreState,
    mut draft: CentreDraft<'_>,
    archive: &mut A,
    before: Moment,
    from: u64,
    most: u16,
) -> Result<Plan, ForgetError>
    ensures plan { (c : Core) → DraftRepresents (draft_of c) draft.entry → StateRepresents c state.now
        → IfOk result (λ p. IsOutcome (forget_of before from most c) p.plan) }
    ensures archived { (c : Core) → DraftRepresents (draft_of c) draft.entry → StateRepresents c state.now
        → OnOk result (AreArchived (A.keeps archive.new) (going_now before from most c) c.rows) }
    ensures kept { Stays (A.keeps archive.old) (A.keeps archive.new) }
    ensures fits { IfOk result (FitsTheCentre state.now) }
{
    match forget(alloc, state, &mut draft, archive, before, from, most) {
        Ok(bars) => finished(alloc, state, draft, bars),
        Err(error) => {
            drop(draft);
            Err(error)
        }
    }
}

fn finished(
    alloc: Global,
    state: &CentreState,
    draft: CentreDraft<'_>,
    bars: Listed<Change<BarRow>>,
) -> Result<Plan, ForgetError>
    ensures plan { (d : Draft) → DraftRepresents d draft.entry → bars ≡ (changes_in d.store).bars → IfOk result (λ p. IsOutcome d p.plan) }
    ensures fits { IfOk result (FitsTheCentre state.now) }
{
    let plan = planned(alloc, state, draft, bars)?;
    Ok(plan)
}

/// The plan of forgetting: of the first so many messages from that number on those go that may, and ended before that moment. The
/// archive has them then.
pub(crate) fn plan_forget<A: Archive>(
    alloc: Global,
    state: &CentreState,
    archive: &mut A,
    before: Moment,
    from: u64,
    most: u16,
) -> Result<Plan, ForgetError>
    ensures plan { (c : Core) → StateRepresents c state.now → IfOk result (λ p. IsOutcome (forget_of before from most c) p.plan) }
    ensures archived { (c : Core) → StateRepresents c state.now
        → OnOk result (AreArchived (A.keeps archive.new) (going_now before from most c) c.rows) }
    ensures kept { Stays (A.keeps archive.old) (A.keeps archive.new) }
    ensures fits { IfOk result (FitsTheCentre state.now) }
{
    let draft = state.begin(alloc)?;
    plan_begun(alloc, state, draft, archive, before, from, most)
}

// ---- where the next call goes on

/// The number of the first message that a call does not look at, or 0 where it looks at the last.
pub(crate) fn next_from(state: &CentreState, from: u64, most: u16) -> u64
    ensures { (c : Core) → StateRepresents c state.now → result ≡ next_from_of from most c.rows.messages }
{
    state.messages.number_behind(from, most)
}
