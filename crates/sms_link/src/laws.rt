//! Laws of one end of a link, over its definitions alone.
ghost use Rattle.std.specs.Prelude.{◌≡◌, ℕ, List, [], Some, None, true, false, is_some};
ghost use Rattle.sms_base.specs.declared.holder.Holder.{Holder};
ghost use Rattle.sms_control.specs.DueTimers.{is_due, is_timed};
ghost use Rattle.sms_control.specs.LinkStep.{awaits_reply, begin_step, is_busy, reply_step};
ghost use Rattle.sms_link.specs.LinkCalls.{AllSend, AreCalls, LinkCall, TakesTurns, run};
ghost use Rattle.sms_link.specs.LinkTurn.{LinkOf, answering, begun, fired, new_link, of_kind, replied, started, still, taken};
ghost use Rattle.sms_base.specs.declared.carried.Carried.{Carried};
ghost use Rattle.sms_base.specs.declared.carried.Kind.{Kind};
ghost use Rattle.sms_base.specs.declared.carried.Kind.TheVariants.{Data};
ghost use Rattle.sms_link.specs.declared.ending.Ending.{Ending};
ghost use Rattle.sms_link.specs.declared.ending.Upward.TheVariants.{Ended, Opened};
ghost use Rattle.sms_link.specs.declared.ending.Side.{Side};

/// Over any calls, each frame out is one of three. `begin` and `reply` send a new frame: CP-DATA with the unit that
/// they were given, which carries what they were given. A timer sends a copy of an earlier new frame, with what that
/// frame carried. A received frame is answered by such a copy, or by CP-ACK or CP-ERROR, which carries nothing.
pub fn frames_carry_what_they_did()
    ensures { (side : Side) (calls : List LinkCall) → AreCalls calls → AllSend calls (new_link side) [] }
{}

/// Over any calls, transfers of this side take turns: one begins only where none is under way, and only the one under way
/// ends, once.
pub fn transfers_take_turns()
    ensures { (side : Side) (calls : List LinkCall) → TakesTurns calls (new_link side) None }
{}

/// Over any calls, a link is busy exactly while it has a transfer under way.
pub fn a_busy_link_has_a_transfer()
    ensures { (side : Side) (calls : List LinkCall) → is_busy (run calls (new_link side)).links ≡ is_some (run calls (new_link side)).under_way }
{}

/// Where no transaction is under way, one begins, and it carries what was given.
pub fn a_free_link_begins()
    ensures { (now reference : ℕ) (tag : Holder) (unit : List ℕ) (link : LinkOf) → is_busy link.links ≡ false
        → begun now reference tag unit link ≡ started (of_kind Data reference tag) (begin_step now unit link.links) link }
{}

/// Where a unit waits, it is answered, and the answer carries what was given.
pub fn a_waiting_unit_is_answered()
    ensures { (now : ℕ) (kind : Kind) (reference : ℕ) (tag : Holder) (unit : List ℕ) (link : LinkOf) → awaits_reply link.links ≡ true
        → replied now kind reference tag unit link ≡ answering (of_kind kind reference tag) (reply_step now unit link.links) link }
{}

/// A unit that was passed up waits for its reply.
pub fn an_opened_unit_waits()
    ensures { (frame unit : List ℕ) (link : LinkOf) → (taken frame link).out.up ≡ Some (Opened unit) → awaits_reply (taken frame link).link.links ≡ true }
{}

/// A transfer that an answer or a CP-ERROR ended was under way, and leaves the link free.
pub fn an_ended_transfer_was_under_way()
    ensures { (frame : List ℕ) (transfer : Carried) (ending : Ending) (link : LinkOf) → (taken frame link).out.up ≡ Some (Ended transfer ending)
        → (link.under_way ≡ Some transfer) × (is_busy (taken frame link).link.links ≡ false) }
{}

/// A transfer that a timer ended was under way, and leaves the link free.
pub fn a_fired_transfer_was_under_way()
    ensures { (now : ℕ) (transfer : Carried) (ending : Ending) (link : LinkOf) → (fired now link).out.up ≡ Some (Ended transfer ending)
        → (link.under_way ≡ Some transfer) × (is_busy (fired now link).link.links ≡ false) }
{}

/// Where no timer fires, firing them leaves the link as it is, and sends nothing; and none fires where none runs.
pub fn a_link_rests_until_a_timer_fires()
    ensures rests { (now : ℕ) (link : LinkOf) → is_due now link.links ≡ false → fired now link ≡ still link }
    ensures runs { (now : ℕ) (link : LinkOf) → is_due now link.links ≡ true → is_timed link.links ≡ true }
{}
