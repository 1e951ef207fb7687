//! Laws of the centre's events, over its definitions alone.
ghost use Rattle.std.specs.Prelude.{◌≡◌, ℕ, List, Bool, Option, Some};
ghost use Rattle.smpp_pdu.specs.declared.cancel.CancelSm.{CancelSm};
ghost use Rattle.smpp_pdu.specs.declared.message.Message.{Message};
ghost use Rattle.smpp_pdu.specs.declared.query.QuerySm.{QuerySm};
ghost use Rattle.sms_base.specs.Among.{Among};
ghost use Rattle.sms_base.specs.declared.holder.Holder.{Holder};
ghost use Rattle.sms_centre_rows.specs.messages.Messages.{message_at};
ghost use Rattle.sms_centre_rows.specs.declared.messages.message.MessageRow.{MessageRow};
ghost use Rattle.sms_centre_rows.specs.declared.reports.delivery.Delivery.{Delivery};
ghost use Rattle.sms_centre_rows.specs.declared.waiting.handset_link.Sent.{Sent};
ghost use Rattle.sms_centre_spec.specs.CentreEvent.{answered, bound, cancel_received, frame_received, happened, link_down, link_up, order_received};
ghost use Rattle.sms_centre_spec.specs.CentreEvent.{query_received, submit_received, tag_of, ticked, unbound};
ghost use Rattle.sms_centre_spec.specs.Draft.{Core, rows_after};
ghost use Rattle.sms_centre_spec.specs.Keeping.{Keeps};
ghost use Rattle.sms_centre_spec.specs.SoundCore.{Brings, IsEvent, IsReceiptRow, IsSoundCore};
ghost use Rattle.sms_centre_spec.specs.SoundRows.{IsSound};
ghost use Rattle.sms_centre_spec.specs.declared.answer.CentreAnswer.TheVariants.{Submitted};
ghost use Rattle.sms_centre_spec.specs.declared.event.CentreEvent.{CentreEvent};
ghost use Rattle.sms_centre_spec.specs.declared.order.Order.{Order};
ghost use Rattle.sms_centre_spec.specs.declared.event.CentreEvent.TheVariants.{Submit, Query, Cancel, Bound, Unbound, DeliverAnswered, Frame, LinkUp, LinkDown};
ghost use Rattle.sms_centre_spec.specs.declared.event.CentreEvent.TheVariants.{Ordered, Tick};
ghost use Rattle.sms_centre.specs.declared.plans.event_outcome.EventOutcome.{EventOutcome};
ghost use Rattle.sms_centre.specs.plans.EventOutcome.{IsOutcome};

pub use crate::state::laws::a_state_meets_what_events_require;

/// What happens to a centre at each kind of event, by the definition's own name for it.
pub fn each_event_is_of_a_kind()
    ensures submit { (account : ℕ) (message : Message) (c : Core) → happened (Submit account message) c ≡ submit_received account message c }
    ensures query { (account : ℕ) (query : QuerySm) (c : Core) → happened (Query account query) c ≡ query_received account query c }
    ensures cancel { (account : ℕ) (cancel : CancelSm) (c : Core) → happened (Cancel account cancel) c ≡ cancel_received account cancel c }
    ensures bound { (session account : ℕ) (receives : Bool) (c : Core) → happened (Bound session account receives) c ≡ bound session account receives c }
    ensures unbound { (session : ℕ) (c : Core) → happened (Unbound session) c ≡ unbound session c }
    ensures answered { (session id : ℕ) (is_accepted : Bool) (c : Core)
        → happened (DeliverAnswered session id is_accepted) c ≡ answered session id is_accepted c }
    ensures frame { (handset octets : List ℕ) (tag : Option Holder) (c : Core)
        → happened (Frame handset octets tag) c ≡ frame_received handset octets (tag_of tag) c }
    ensures link_up { (handset : List ℕ) (c : Core) → happened (LinkUp handset) c ≡ link_up handset c }
    ensures link_down { (handset : List ℕ) (c : Core) → happened (LinkDown handset) c ≡ link_down handset c }
    ensures order { (order : Order) (id : ℕ) (c : Core) → happened (Ordered order id) c ≡ order_received order id c }
    ensures tick { (now : ℕ) (c : Core) → happened (Tick now) c ≡ ticked now c }
{}

/// What every plan of a sound centre guarantees. The rows with its changes are sound. No message, part or report of the
/// rows before is lost in them, and no final state is taken back. Each part and report keeps its reference and its
/// octets. The number in an answer to a submit_sm is that of a message in them, and each receipt that is sent is one of
/// theirs. Each frame was made for a part of one of the handset's messages, the status report of one of its own, an
/// answer, or nothing. For a part or report its reference is the row's.
pub fn what_a_plan_is_good_for()
    ensures sound { (event : CentreEvent) (c : Core) (p : EventOutcome) → IsOutcome (happened event c) p → IsSoundCore c → IsEvent event
        → IsSound (rows_after p.changes c.rows) }
    ensures nothing_lost { (event : CentreEvent) (c : Core) (p : EventOutcome) → IsOutcome (happened event c) p → IsSoundCore c → IsEvent event
        → Keeps c.rows (rows_after p.changes c.rows) }
    ensures answered { (account : ℕ) (message : Message) (c : Core) (p : EventOutcome) → IsOutcome (happened (Submit account message) c) p → (id : ℕ)
        → p.outputs.answer ≡ Some (Submitted id)
        → (row : MessageRow) × (message_at id (rows_after p.changes c.rows).messages ≡ Some row) }
    ensures receipts { (event : CentreEvent) (c : Core) (p : EventOutcome) → IsOutcome (happened event c) p → IsSoundCore c → IsEvent event
        → (delivery : Delivery) → Among delivery p.outputs.deliveries → IsReceiptRow (rows_after p.changes c.rows) delivery.id }
    ensures frames { (event : CentreEvent) (c : Core) (p : EventOutcome) → IsOutcome (happened event c) p → IsSoundCore c → IsEvent event
        → (sent : Sent) → Among sent p.outputs.frames → Brings sent.handset sent.frame.carried (rows_after p.changes c.rows) }
{}
