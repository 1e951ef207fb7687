//! What an event does by itself, before receipts and offers follow.
ghost use Rattle.std.specs.Prelude.{◌≡◌};
ghost use Rattle.sms_centre_spec.specs.CentreEvent.{tag_of as tag_or_none};
ghost use Rattle.sms_centre_spec.specs.Draft.{Core, draft_of};
ghost use Rattle.sms_centre_spec.specs.SoundRows.{IsSetup};
ghost use Rattle.sms_centre_spec.specs.declared.event.CentreEvent.TheVariants.{Submit, Query, Cancel, Bound, Unbound, DeliverAnswered, Frame, LinkUp, LinkDown};
ghost use Rattle.sms_centre_spec.specs.declared.event.CentreEvent.TheVariants.{Ordered, Tick};
ghost use Rattle.sms_centre.specs.Acting.{Acts};
ghost use Rattle.sms_centre.specs.state.CentreState.{Represents as StateRepresents};
ghost use Rattle.sms_centre_draft.specs.CentreDraft.{Represents as DraftRepresents};

use crate::state::CentreState;
use smpp_pdu::{CancelSm, Message, QuerySm};
use sms_base::{Holder, MessageId, Moment, Msisdn};
use sms_centre_draft::CentreDraft;
use sms_centre_events::{bind, cancel, frame_taken, lower, order, query, submit, tick};
use sms_centre_spec::{CentreEvent, Order};
use std::alloc::AllocError;

// ---- what applications ask

fn submitted(
    draft: &mut CentreDraft<'_>,
    centre_state: &CentreState,
    account: u8,
    message: &Message<'_>,
) -> Result<(), AllocError>
    requires setup { IsSetup draft.old.setup }
    ensures { (c : Core) → DraftRepresents (draft_of c) draft.old → StateRepresents c centre_state.now
        → Acts (Submit account message.now) c draft.new result }
{
    submit(
        draft,
        &centre_state.messages,
        &centre_state.reference_index,
        account,
        message,
    )?;
    Ok(())
}

fn queried(draft: &mut CentreDraft<'_>, account: u8, wanted: &QuerySm<'_>) -> Result<(), AllocError>
    ensures { (c : Core) → DraftRepresents (draft_of c) draft.old → Acts (Query account wanted.now) c draft.new result }
{
    query(draft, account, wanted)?;
    Ok(())
}

fn cancelled(
    draft: &mut CentreDraft<'_>,
    account: u8,
    wanted: &CancelSm<'_>,
) -> Result<(), AllocError>
    ensures { (c : Core) → DraftRepresents (draft_of c) draft.old → Acts (Cancel account wanted.now) c draft.new result }
{
    cancel(draft, account, wanted)?;
    Ok(())
}

// ---- sessions

fn bound(
    draft: &mut CentreDraft<'_>,
    centre_state: &CentreState,
    session: u32,
    account: u8,
    receives: bool,
) -> Result<(), AllocError>
    ensures { (c : Core) → DraftRepresents (draft_of c) draft.old → StateRepresents c centre_state.now
        → Acts (Bound session account receives) c draft.new result }
{
    bind(draft, session, account, receives)?;
    Ok(())
}

fn unbound(
    draft: &mut CentreDraft<'_>,
    centre_state: &CentreState,
    session: u32,
) -> Result<(), AllocError>
    ensures { (c : Core) → DraftRepresents (draft_of c) draft.old → StateRepresents c centre_state.now → Acts (Unbound session) c draft.new result }
{
    draft.unbind(session)?;
    Ok(())
}

fn answered(
    draft: &mut CentreDraft<'_>,
    centre_state: &CentreState,
    session: u32,
    id: MessageId,
    is_accepted: bool,
) -> Result<(), AllocError>
    ensures { (c : Core) → DraftRepresents (draft_of c) draft.old → StateRepresents c centre_state.now
        → Acts (DeliverAnswered session id is_accepted) c draft.new result }
{
    draft.deliver_answered(session, id, is_accepted)?;
    Ok(())
}

// ---- handsets

// A frame from a socket has no tag: it is taken as one of entry 0, which no entry is.
fn tag_of(tag: Option<Holder>) -> Holder
    ensures { result ≡ tag_or_none tag }
{
    tag.unwrap_or(Holder::Entry(0))
}

fn frame_received(
    draft: &mut CentreDraft<'_>,
    centre_state: &CentreState,
    handset: Msisdn,
    octets: &[u8],
    tag: Option<Holder>,
) -> Result<(), AllocError>
    ensures { (c : Core) → DraftRepresents (draft_of c) draft.old → StateRepresents c centre_state.now
        → Acts (Frame handset octets.now tag) c draft.new result }
{
    frame_taken(
        draft,
        &centre_state.messages,
        &centre_state.reference_index,
        handset,
        octets,
        tag_of(tag),
    )?;
    Ok(())
}

fn raised(draft: &mut CentreDraft<'_>, handset: Msisdn) -> Result<(), AllocError>
    ensures { (c : Core) → DraftRepresents (draft_of c) draft.old → Acts (LinkUp handset) c draft.new result }
{
    draft.raise(handset)?;
    Ok(())
}

fn lowered(draft: &mut CentreDraft<'_>, handset: Msisdn) -> Result<(), AllocError>
    ensures { (c : Core) → DraftRepresents (draft_of c) draft.old → Acts (LinkDown handset) c draft.new result }
{
    lower(draft, handset)?;
    Ok(())
}

// ---- an operator

fn ordered(draft: &mut CentreDraft<'_>, wanted: Order, id: MessageId) -> Result<(), AllocError>
    ensures { (c : Core) → DraftRepresents (draft_of c) draft.old → Acts (Ordered wanted id) c draft.new result }
{
    order(draft, wanted, id)?;
    Ok(())
}

// ---- time

fn ticked(
    draft: &mut CentreDraft<'_>,
    centre_state: &CentreState,
    now: Moment,
) -> Result<(), AllocError>
    ensures { (c : Core) → DraftRepresents (draft_of c) draft.old → StateRepresents c centre_state.now → Acts (Tick now) c draft.new result }
{
    tick(draft, &centre_state.messages, now)?;
    Ok(())
}

// ---- all events

/// The event acts on the centre as it begins.
pub(crate) fn act(
    draft: &mut CentreDraft<'_>,
    centre_state: &CentreState,
    event: &CentreEvent<'_>,
) -> Result<(), AllocError>
    requires setup { IsSetup draft.old.setup }
    ensures { (c : Core) → DraftRepresents (draft_of c) draft.old → StateRepresents c centre_state.now → Acts event.now c draft.new result }
{
    match event {
        CentreEvent::Submit { account, message } => submitted(
            draft,
            centre_state,
            *account,
            message,
        ),
        CentreEvent::Query { account, query } => queried(draft, *account, query),
        CentreEvent::Cancel { account, cancel } => cancelled(draft, *account, cancel),
        CentreEvent::Bound {
            session,
            account,
            receives,
        } => bound(draft, centre_state, *session, *account, *receives),
        CentreEvent::Unbound { session } => unbound(draft, centre_state, *session),
        CentreEvent::DeliverAnswered {
            session,
            id,
            is_accepted,
        } => answered(draft, centre_state, *session, *id, *is_accepted),
        CentreEvent::Frame {
            handset,
            octets,
            tag,
        } => frame_received(draft, centre_state, *handset, octets.as_slice(), *tag),
        CentreEvent::LinkUp { handset } => raised(draft, *handset),
        CentreEvent::LinkDown { handset } => lowered(draft, *handset),
        CentreEvent::Ordered { order, id } => ordered(draft, *order, *id),
        CentreEvent::Tick(now) => ticked(draft, centre_state, *now),
    }
}
