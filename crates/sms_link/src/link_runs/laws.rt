//! Laws of one end of a link over whole runs of calls.
ghost use Rattle.std.specs.Prelude.{◌≡◌, ◌≤◌, ◌+◌, ◌*◌, ℕ, List, [], ◌∷◌, Some, None, Ok};
ghost use Rattle.sms_base.specs.declared.carried.Carried.{Carried};
ghost use Rattle.sms_control.specs.ControlReading.{cp_at};
ghost use Rattle.sms_control.specs.LinkStep.{in_transaction};
ghost use Rattle.sms_control.specs.declared.message.Cp.TheVariants.{DataUnit};
ghost use Rattle.sms_control.specs.declared.transaction.TransactionFlag.TheVariants.{ToOriginator};
ghost use Rattle.sms_link.specs.Ending.{ended_by, unit_at};
ghost use Rattle.sms_link.specs.LinkCalls.{LinkCall, run};
ghost use Rattle.sms_link.specs.LinkTurn.{fired, new_link, taken};
ghost use Rattle.sms_link.specs.declared.ending.Ending.{Ending};
ghost use Rattle.sms_link.specs.declared.ending.Ending.TheVariants.{Lost};
ghost use Rattle.sms_link.specs.declared.ending.Side.{Side};
ghost use Rattle.sms_link.specs.declared.ending.Upward.TheVariants.{Ended};
ghost use Rattle.sms_link.specs.link_runs.AnswersTaken.{EndsTheTransfer, NoneAnswered, acknowledgement_of};
ghost use Rattle.sms_link.specs.link_runs.FramesSent.{repeats, sendings};
ghost use Rattle.sms_link.specs.link_runs.UnderWay.{EndsByTimer, EndsByFrame, IsUnderWay, under_way_after};

/// A frame is sent three times at most: once as the layer above has it sent, and twice more by TC1* (3GPP TS 24.011
/// 5.3.2.1). Wherever calls have led, timers send its octets at most twice until the layer above has them sent anew
/// (`until_sent_anew`). Over any calls they are sent at most three times for each time that it has them sent
/// (`in_all`).
pub fn a_frame_is_sent_three_times_at_most()
    ensures until_sent_anew { (side : Side) (before after : List LinkCall) (frame : List ℕ)
        → sendings frame after (run before (new_link side)) ≡ 0 → repeats frame after (run before (new_link side)) ≤ 2 }
    ensures in_all { (side : Side) (calls : List LinkCall) (frame : List ℕ)
        → sendings frame calls (new_link side) + repeats frame calls (new_link side) ≤ 3 * sendings frame calls (new_link side) }
{}

/// An answer, CP-DATA to the originator, is passed up exactly where its identifier is that of the transaction under
/// way. The transfer that this transaction carries ends then, as the answer's unit says (`own`). An answer of another
/// identifier is never passed up, nor is one where no transaction is under way (`other`).
pub fn an_answer_reaches_only_its_own_transaction()
    ensures own { (side : Side) (calls : List LinkCall) (frame unit : List ℕ) (identifier : ℕ) (transfer : Carried)
        → cp_at frame ≡ Ok (DataUnit (in_transaction ToOriginator identifier) unit)
        → IsUnderWay identifier transfer (under_way_after calls side)
        → (taken frame (run calls (new_link side))).out.up ≡ Some (Ended transfer (ended_by transfer.reference (unit_at side unit))) }
    ensures other { (side : Side) (calls : List LinkCall) (frame unit : List ℕ) (identifier : ℕ)
        → cp_at frame ≡ Ok (DataUnit (in_transaction ToOriginator identifier) unit)
        → ((transfer : Carried) → ¬ IsUnderWay identifier transfer (under_way_after calls side))
        → (taken frame (run calls (new_link side))).out.up ≡ None }
{}

/// Only the transfer under way ends. A frame that ends it has the identifier of its transaction. It is the answer,
/// whose unit says how the transfer ended, or CP-ERROR, which leaves it lost (`frame`). What a timer ends is lost
/// (`timer`).
pub fn only_what_is_under_way_ends()
    ensures frame { (side : Side) (calls : List LinkCall) (frame : List ℕ) (transfer : Carried) (ending : Ending)
        → (taken frame (run calls (new_link side))).out.up ≡ Some (Ended transfer ending)
        → EndsByFrame side (cp_at frame) (under_way_after calls side) transfer ending }
    ensures timer { (side : Side) (calls : List LinkCall) (now : ℕ) (transfer : Carried) (ending : Ending)
        → (fired now (run calls (new_link side))).out.up ≡ Some (Ended transfer ending)
        → EndsByTimer (under_way_after calls side) transfer ending }
{}

/// An answer that was taken is acknowledged alone until another answer is taken (3GPP TS 24.011 5.3.2). Whatever else
/// is called, its frame, repeated, is answered by CP-ACK of its transaction and nothing else.
/// `an_answer_reaches_only_its_own_transaction` says when it is passed up again: only where a transaction of its
/// identifier is under way again.
pub fn a_taken_answer_is_acknowledged_alone()
    ensures { (side : Side) (before after : List LinkCall) (answer : List ℕ) (identifier : ℕ)
        → EndsTheTransfer answer identifier (run before (new_link side))
        → NoneAnswered after (taken answer (run before (new_link side))).link
        → (taken answer (run after (taken answer (run before (new_link side))).link)).out.frames ≡ acknowledgement_of identifier ∷ [] }
{}
