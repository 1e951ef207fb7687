//! Laws of the control layer, over its definitions alone.
ghost use Rattle.std.specs.Prelude.{◌≡◌, ◌++◌, ◌≢◌, ◌≤◌, ◌+◌, List, [], ◌∷◌, ℕ, Ok, Err, Some, None, false};
ghost use Rattle.sms_base.specs.FaultReasons.{HasContinuation, HasFront};
ghost use Rattle.sms_base.specs.Reading.{AreOctets};
ghost use Rattle.sms_control.specs.ControlGrammar.{IsCp, IsCpValue, spelled};
ghost use Rattle.sms_control.specs.ControlReading.{cp_at};
ghost use Rattle.sms_control.specs.LinkRuns.{Acknowledges, Call, FiresPast, NoneAcknowledged, NoneAnswered, Rising, TakesTurns, begins, ends, openings};
ghost use Rattle.sms_control.specs.LinkRuns.{repeats, replies, run, sendings, ticks};
ghost use Rattle.sms_control.specs.LinkStep.{begin_step, fresh, has_begun, in_transaction, is_busy, take_step};
ghost use Rattle.sms_control.specs.Timers.{later, tr1};
ghost use Rattle.sms_control.specs.declared.link_state.LinkState.{LinkState};
ghost use Rattle.sms_control.specs.declared.link_state.Opened.{Opened};
ghost use Rattle.sms_control.specs.declared.fault.CpFault.TheVariants.{Truncated, Trailing};
ghost use Rattle.sms_control.specs.declared.fault.CpFault.{CpFault};
ghost use Rattle.sms_control.specs.declared.message.Cp.{Cp};
ghost use Rattle.sms_control.specs.declared.message.Cp.TheVariants.{AckUnit, DataUnit};
ghost use Rattle.sms_control.specs.declared.out.Up.TheVariants.{Unit};
ghost use Rattle.sms_control.specs.declared.transaction.TransactionFlag.TheVariants.{FromOriginator, ToOriginator};

/// What is written is in the grammar, and is read as that value.
pub fn written_is_read()
    ensures { (cp : Cp) → IsCpValue cp → IsCp (spelled cp) cp × (cp_at (spelled cp) ≡ Ok cp) }
{}

/// A value has one written form.
pub fn one_written_form()
    ensures { (first second : List ℕ) (cp : Cp) → IsCp first cp → IsCp second cp → first ≡ second }
{}

/// A frame is of one value.
pub fn one_value()
    ensures { (octets : List ℕ) (first second : Cp) → IsCp octets first → IsCp octets second → first ≡ second }
{}

/// A proper front of a readable frame ends too early.
pub fn front_is_truncated()
    ensures { (front rest : List ℕ) (cp : Cp) → IsCp (front ++ rest) cp → rest ≢ [] → cp_at front ≡ Err Truncated }
{}

/// Octets end too early only where octets may follow with which they are a frame. Octets are left over only behind a frame.
/// With any other fault they are no frame, whatever follows.
pub fn a_fault_has_its_reason()
    ensures truncated { (octets : List ℕ) → AreOctets octets → cp_at octets ≡ Err Truncated → HasContinuation IsCp octets }
    ensures trailing { (octets : List ℕ) → AreOctets octets → cp_at octets ≡ Err Trailing → HasFront IsCp octets }
    ensures other { (octets more : List ℕ) (cp : Cp) (fault : CpFault) → cp_at octets ≡ Err fault → fault ≢ Truncated → ¬ IsCp (octets ++ more) cp }
{}

/// A side has at most one transaction of its own under way: over any calls, as many have ended as began, or one fewer.
pub fn one_begun_at_a_time()
    ensures { (calls : List Call) → (ends calls fresh ≤ begins calls fresh) × (begins calls fresh ≤ ends calls fresh + 1) }
{}

/// A begun transaction ends once, with one unit passed up or one failure. Until the next one begins, there is no second
/// end.
pub fn a_begun_transaction_ends_once()
    ensures { (state : LinkState) (calls : List Call) → begins calls state ≡ 0 → ends calls state ≤ 1 }
{}

/// A unit of the other side is answered at most once: over any calls, no more are answered than were passed up.
pub fn answers_follow_openings()
    ensures { (calls : List Call) → replies calls fresh ≤ openings calls fresh }
{}

/// Until the next unit of the other side is passed up, there is no second answer.
pub fn an_opening_is_answered_once()
    ensures { (state : LinkState) (calls : List Call) → openings calls state ≡ 0 → replies calls state ≤ 1 }
{}

/// The frame that opened the other side's present transaction is not passed up again.
pub fn a_present_opening_is_quiet()
    ensures { (before : List Call) (transaction : Opened) → (run before fresh).opened ≡ Some transaction
        → (take_step transaction.opening (run before fresh)).out.up ≡ None }
{}

/// A frame equal to the opening of the last acknowledged transaction is not passed up again, whatever is called until
/// another one is acknowledged.
pub fn an_acknowledged_opening_is_quiet()
    ensures { (before after : List Call) (ack opening : List ℕ)
        → Acknowledges (run before fresh) ack opening
        → NoneAcknowledged after (take_step ack (run before fresh)).state
        → (take_step opening (run after (take_step ack (run before fresh)).state)).out.up ≡ None }
{}

/// A begun transaction has ended once the timers fired at TR1N or past it, whatever else was called.
pub fn a_begun_transaction_ends_in_time()
    ensures { (state : LinkState) (now : ℕ) (unit : List ℕ) (calls : List Call)
        → is_busy state ≡ false → FiresPast (later now tr1) calls → 1 ≤ ends calls (begin_step now unit state).state }
{}

/// A begun transaction has ended after 40 ticks, each at a later second than the one before.
pub fn a_begun_transaction_ends_within_40_ticks()
    ensures { (state : LinkState) (now : ℕ) (unit : List ℕ) (calls : List Call)
        → is_busy state ≡ false → Rising now calls → 40 ≤ ticks calls → 1 ≤ ends calls (begin_step now unit state).state }
{}

/// Transactions of this side take turns. One begins, with CP-DATA to the other side, only where none is under way. What
/// ends is the one under way, by CP-DATA of its own identifier or by a failure. So an answer of another identifier is
/// never passed up.
pub fn transactions_take_turns()
    ensures { (calls : List Call) → TakesTurns calls fresh None }
{}

/// Until the layer above sends it anew, a frame is sent at most twice by timers: three times in all.
pub fn a_frame_is_repeated_at_most_twice()
    ensures { (before after : List Call) (frame : List ℕ) → sendings frame after (run before fresh) ≡ 0 → repeats frame after (run before fresh) ≤ 2 }
{}

/// An answer that was taken is acknowledged alone, whatever is called until another one is taken. Its frame, repeated,
/// is answered by CP-ACK and nothing else, and is not passed up. The exception is a transaction of its identifier under
/// way, whose answer it then is.
pub fn a_taken_answer_is_acknowledged_alone()
    ensures alone { (state : LinkState) (after : List Call) (answer unit : List ℕ) (identifier : ℕ)
        → cp_at answer ≡ Ok (DataUnit (in_transaction ToOriginator identifier) unit)
        → (take_step answer state).out.up ≡ Some (Unit ToOriginator unit)
        → NoneAnswered after (take_step answer state).state
        → (take_step answer (run after (take_step answer state).state)).out.frames ≡ spelled (AckUnit (in_transaction FromOriginator identifier)) ∷ [] }
    ensures quiet { (state : LinkState) (after : List Call) (answer unit : List ℕ) (identifier : ℕ)
        → cp_at answer ≡ Ok (DataUnit (in_transaction ToOriginator identifier) unit)
        → (take_step answer state).out.up ≡ Some (Unit ToOriginator unit)
        → NoneAnswered after (take_step answer state).state
        → has_begun identifier (run after (take_step answer state).state).begun ≡ false
        → (take_step answer (run after (take_step answer state).state)).out.up ≡ None }
{}
