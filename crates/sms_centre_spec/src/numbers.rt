//! Where the numbers of a run begin, so that none is given twice.
ghost use Rattle.std.specs.Prelude.{◌≡◌, ◌+◌, ◌≤◌, ◌<◌, ℕ, max, List, Option};
ghost use Rattle.sms_base.specs.Among.{Among};
ghost use Rattle.sms_centre_rows.specs.declared.messages.message.MessageRow.{MessageRow};
ghost use Rattle.sms_centre_spec.specs.declared.event.CentreEvent.{CentreEvent};
ghost use Rattle.sms_centre_spec.specs.Draft.{Core};
ghost use Rattle.sms_centre_spec.specs.MessageNumbers.{first_number as first_number_of, greatest_of, numbers_of_step, step_after_loss as step_after_loss_of};
ghost use Rattle.sms_centre_spec.specs.MessageNumbers.{steps_to as steps_to_of};
ghost use Rattle.sms_centre_spec.specs.RunNumbers.{after, numbers_given};
ghost use Rattle.sms_centre_spec.specs.SoundCore.{IsEvent, IsSoundCore};

use sms_base::MessageId;

/// How many numbers a step skips. What one log of a store holds takes fewer.
pub const NUMBERS_OF_STEP: u64 = 100_000;

/// The first number of a run whose store has skipped that many steps.
pub fn first_number(step: u32) -> u64
    ensures { result ≡ first_number_of step }
{
    u64::from(step) * NUMBERS_OF_STEP + 1
}

// The steps that it takes to reach that number.
fn steps_to(number: u64) -> u32
    requires { number ≤ 9999999999 }
    ensures { result ≡ steps_to_of number }
{
    ((number + (NUMBERS_OF_STEP - 1)) / NUMBERS_OF_STEP) as u32
}

fn greatest(found: Option<MessageId>) -> u64
    ensures value { result ≡ greatest_of found }
    ensures short { result ≤ 9999999999 }
{
    match found {
        Some(id) => id.number(),
        None => 0,
    }
}

fn greater(one: u32, other: u32) -> u32
    ensures { result ≡ max one other }
{
    if one < other {
        return other;
    }
    one
}

/// The steps that a store has skipped once a run of it did not end in order. `found` is the greatest number in its rows.
pub fn step_after_loss(step: u32, found: Option<MessageId>) -> u32
    requires { step ≤ 2147483647 }
    ensures { result ≡ step_after_loss_of step found }
{
    greater(step, steps_to(greatest(found))) + 1
}

/// The first number of a run after one that did not end in order is behind all that was found, and behind all steps
/// before, by a step at least. The steps never fall. Say that `c` is the centre whose rows are found, and that the
/// commits of `events` were lost. Where these gave no more numbers than a step has, the next run gives none of them.
pub fn a_run_begins_behind_what_was_lost()
    ensures rises { (step : ℕ) (found : Option ℕ) → step < step_after_loss_of step found }
    ensures found { (step n : ℕ) (found : Option ℕ) → n ≤ greatest_of found + numbers_of_step → n < first_number_of (step_after_loss_of step found) }
    ensures skipped { (step n : ℕ) (found : Option ℕ) → n < first_number_of step + numbers_of_step → n < first_number_of (step_after_loss_of step found) }
    ensures lost { (events : List CentreEvent) (c : Core) (step : ℕ) (found : Option ℕ) → IsSoundCore c
        → ((event : CentreEvent) → Among event events → IsEvent event) → ((m : MessageRow) → Among m c.rows.messages → m.id ≤ greatest_of found)
        → c.rows.setup.first ≤ first_number_of step → numbers_given events c ≤ numbers_of_step
        → (m : MessageRow) → Among m (after events c).rows.messages → m.id < first_number_of (step_after_loss_of step found) }
{}
