//! Whether a handset has room for a submission: how many of its references are free, and how many of them an account holds.
ghost use Rattle.std.specs.Prelude.{◌≡◌, ◌+◌, ◌-◌, ◌*◌, ◌≤◌, nat_le, nat_lt, length, IfOk};
ghost use Rattle.sms_centre_messages.specs.references.Counts.{one_if as one_if_of};
ghost use Rattle.sms_centre_rows.specs.messages.Messages.{message_at};
ghost use Rattle.sms_centre_spec.specs.Draft.{Draft, messages_in, waiting_in};
ghost use Rattle.sms_centre_draft.specs.Room.{free_for, has_room as has_room_of, would_hold_too_much as would_hold_too_much_of};
ghost use Rattle.sms_centre_draft.specs.Room.{would_take_too_much as would_take_too_much_of};
ghost use Rattle.sms_centre_spec.specs.Shares.{held_by as held_by_of, is_of_account as is_of_account_of};
ghost use Rattle.sms_centre_draft.specs.CentreDraft.{Represents};

use crate::centre_draft::CentreDraft;
use sms_base::{Msisdn, Originator};
use sms_centre_rows::messages::MessageRow;
use sms_centre_rows::waiting::QueuedPart;
use sms_intake::Submission;
use std::alloc::AllocError;

// The references of a handset.
const REFERENCES: usize = 256;

fn is_of_account(account: &[u8], message: &Option<MessageRow>) -> bool
    ensures { result ≡ is_of_account_of account.now message.now }
{
    let Some(message) = message else {
        return false;
    };
    match &message.originator {
        Originator::Application { account: own } => own.as_slice() == account,
        Originator::Handset { .. } => false,
    }
}

// Whether so many, of so many in all, and so many more are more than half of what is free beside the others.
fn is_too_much(held: usize, all: usize, more: usize) -> bool
    requires held { held ≤ all }
    requires few { more ≤ 20 }
    ensures { result ≡ nat_lt (256 - (all - held)) (2 * (held + more)) }
{
    let free = REFERENCES.saturating_sub(all - held);
    let own = held.saturating_add(more);
    free.saturating_sub(own) < own
}

fn one_if(is_counted: bool) -> usize
    ensures value { result ≡ one_if_of is_counted }
    ensures small { result ≤ 1 }
{
    if is_counted { 1 } else { 0 }
}

impl<'a> CentreDraft<'a> {
    // Whether what waits is of a message of the account.
    fn is_held_by(&self, account: &[u8], queued: &QueuedPart) -> Result<bool, AllocError>
        ensures { (d : Draft) → Represents d self.now
            → IfOk result (λ is. is ≡ is_of_account_of account.now (message_at queued.now.id (messages_in d.store))) }
    {
        let message = self.find(queued.id)?;
        Ok(is_of_account(account, &message))
    }

    // How many of what waits are of messages of the account.
    fn held_by(&self, account: &[u8], waiting: &[QueuedPart]) -> Result<usize, AllocError>
        ensures held { (d : Draft) → Represents d self.now → IfOk result (λ held. held ≡ held_by_of account.now (messages_in d.store) waiting.now) }
        ensures few { IfOk result (λ held. held ≤ length waiting.now) }
    {
        let mut held: usize = 0;
        for queued in waiting {
            let is_own = self.is_held_by(account, queued)?;
            held += one_if(is_own);
        }
        Ok(held)
    }

    fn waiting_count(&self, handset: Msisdn) -> usize
        ensures { (d : Draft) → Represents d self.now → result ≡ length (waiting_in handset d.store) }
    {
        self.queues.waiting_count(&handset)
    }

    #[tactic(auto, using(crate::proofs::SharesHeld::many_held))]
    fn would_hold_too_many(
        &self,
        account: &[u8],
        waiting: &[QueuedPart],
        parts: usize,
    ) -> Result<bool, AllocError>
        requires few { parts ≤ 20 }
        ensures { (d : Draft) → Represents d self.now
            → IfOk result (λ is. is ≡ would_hold_too_much_of account.now parts (messages_in d.store) waiting.now) }
    {
        let held = self.held_by(account, waiting)?;
        Ok(is_too_much(held, waiting.len(), parts))
    }

    // While half of them or fewer are held, nobody holds too many: what waits is counted, and nothing of it is looked at.
    #[tactic(auto, using(crate::proofs::SharesHeld::few_held))]
    fn would_hold_too_much(
        &self,
        account: &[u8],
        handset: Msisdn,
        parts: usize,
    ) -> Result<bool, AllocError>
        requires few { parts ≤ 20 }
        ensures { (d : Draft) → Represents d self.now
            → IfOk result (λ is. is ≡ would_hold_too_much_of account.now parts (messages_in d.store) (waiting_in handset d.store)) }
    {
        if self.waiting_count(handset).saturating_add(parts) <= REFERENCES / 2 {
            return Ok(false);
        }
        let waiting = self.waiting(handset)?;
        self.would_hold_too_many(account, waiting.as_slice(), parts)
    }

    // Whether the account of the submission would hold more than half of the handset's references that are free beside what others
    // hold there. A handset's submission has no account.
    fn would_take_too_much(&self, submission: &Submission, parts: usize) -> Result<bool, AllocError>
        requires few { parts ≤ 20 }
        ensures { (d : Draft) → Represents d self.now → IfOk result (λ is. is
            ≡ would_take_too_much_of submission.now.originator parts (messages_in d.store) (waiting_in submission.now.handset d.store)) }
    {
        match &submission.originator {
            Originator::Application { account } => {
                self.would_hold_too_much(account.as_slice(), submission.handset, parts)
            }
            Originator::Handset { .. } => Ok(false),
        }
    }

    // Whether so many of the handset's references are free.
    fn has_free(&self, number: Msisdn, parts: usize) -> Result<bool, AllocError>
        ensures { (d : Draft) → Represents d self.now → IfOk result (λ is. is ≡ nat_le parts (free_for number d.store)) }
    {
        let is_free = self.queues.has_free(number, self.moment, parts)?;
        Ok(is_free)
    }

    /// Whether a reference is free for each of so many parts of the submission, and its account leaves enough of them to others.
    pub(crate) fn has_room(&self, submission: &Submission, parts: usize) -> Result<bool, AllocError>
        requires few { parts ≤ 20 }
        ensures { (d : Draft) → Represents d self.now → IfOk result (λ is. is ≡ has_room_of submission.now parts d.store) }
    {
        let has_free = self.has_free(submission.handset, parts)?;
        if !has_free {
            return Ok(false);
        }
        let takes_too_much = self.would_take_too_much(submission, parts)?;
        Ok(!takes_too_much)
    }
}
