//! Laws of the service's steps, over its definitions alone.
ghost use Rattle.std.specs.Prelude.{◌≡◌, ◌∷◌, ◌++◌, ℕ, List, [], Some, true};
ghost use Rattle.sms_base.specs.Among.{Among};
ghost use Rattle.sms_centre_spec.specs.declared.answer.CentreAnswer.TheVariants.{Submitted};
ghost use Rattle.sms_centre_spec.specs.declared.jobs.job.Job.TheVariants.{Submit};
ghost use Rattle.sms_keeper.specs.declared.machine.Fate.{Fate};
ghost use Rattle.sms_keeper.specs.declared.machine.Errand.TheVariants.{Enrol};
ghost use Rattle.sms_keeper.specs.declared.machine.Fate.TheVariants.{Done};
ghost use Rattle.sms_keeper.specs.declared.machine.Stimulus.{Stimulus};
ghost use Rattle.sms_keeper.specs.declared.machine.Stimulus.TheVariants.{Job as JobOf, Own};
ghost use Rattle.sms_centre_rows.specs.messages.Messages.{message_at};
ghost use Rattle.sms_centre_rows.specs.declared.messages.message.MessageRow.{MessageRow};
ghost use Rattle.sms_centre_spec.specs.CentreEvent.{happened};
ghost use Rattle.sms_centre_spec.specs.Draft.{Core};
ghost use Rattle.sms_centre_spec.specs.declared.event.CentreEvent.TheVariants.{Ordered};
ghost use Rattle.sms_centre_spec.specs.conditions.RowsTest.{has_address};
ghost use Rattle.sms_centre_spec.specs.declared.jobs.job.Job.{Job};
ghost use Rattle.sms_centre_spec.specs.declared.order.Order.{Order};
ghost use Rattle.sms_intake.specs.declared.submission.CentreAccount.{CentreAccount};
ghost use Rattle.smsc_service.specs.Accounts.{ComeBehind, with_accounts};
ghost use Rattle.smsc_service.specs.declared.order_desk.OrderOutcome.{OrderOutcome};
ghost use Rattle.smsc_service.specs.Outcomes.{number_of, outcome_at, outcome_for, told_by};
ghost use Rattle.smsc_service.specs.Serving.{Serving, after, gives};
ghost use Rattle.smsc_service.specs.Replies.{answer_for};

/// Where a submission is answered by a number (submit_sm_resp with ESME_ROK, SMPP v3.4 4.4.2), the answer is for the
/// seat that asked. A message of that number is in the rows after the step, which were committed when the outs are
/// given.
pub fn an_answer_names_a_message()
    ensures { (s : Serving) (seat account asked id : ℕ) (pdu : List ℕ) (fate : Fate)
        → Among (answer_for asked (Submitted id)) (gives s (JobOf seat (Submit account pdu)) fate)
        → (asked ≡ seat) × ((row : MessageRow) × (message_at id (after s (JobOf seat (Submit account pdu)) fate).core.rows.messages ≡ Some row)) }
{}

/// What the owner hears of an order is what the message was as the order found it. A retry of a message that has not ended tells that it waits, and
/// of another how it ended. An order to delete tells that the message is deleted, or that it had ended. Of a number that no message has each tells
/// that. A desk gives back the outcome that was put there.
pub fn an_order_is_told()
    ensures told { (order : Order) (id : ℕ) (c : Core)
        → told_by (happened (Ordered order id) c).answer ≡ outcome_for (message_at id c.rows.messages) order }
    ensures kept { (outcome : OrderOutcome) → outcome_at (number_of outcome) ≡ outcome }
{}

/// An account that comes is the last one from then on, and nothing else changes. Whatever is asked, accounts keep their places: what comes stands
/// behind those from before.
pub fn accounts_keep_their_places()
    ensures comes { (s : Serving) (account : CentreAccount) → has_address account ≡ true
        → after s (Own (Enrol account)) Done
        ≡ record s { core = record s.core { rows = with_accounts (s.core.rows.setup.accounts ++ account ∷ []) s.core.rows } } }
    ensures places { (s : Serving) (stimulus : Stimulus Job) (fate : Fate)
        → ComeBehind s.core.rows.setup.accounts (after s stimulus fate).core.rows.setup.accounts }
{}
