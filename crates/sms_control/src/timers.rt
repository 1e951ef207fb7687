ghost use Rattle.std.specs.Prelude.{◌≡◌};
ghost use Rattle.sms_control.specs.Timers.{begun_firing as begun_firing_of, opened_firing as opened_firing_of, first_sending, sent_again, tc1_firing};
ghost use Rattle.sms_control.specs.DueTimers.{is_firing as is_firing_of};
ghost use Rattle.sms_control.specs.LinkStep.{failed_by as failed_by_of};

use crate::link_state::{Begun, Opened, Repetition};
use crate::out::Up;
use sms_base::Moment;

/// TC1*, in seconds: CP-DATA that was not acknowledged by then is sent again (3GPP TS 24.011 5.3.2.1).
pub const TC1_STAR: u64 = 10;

/// How often TC1* sends CP-DATA again: the standard allows one to three times (3GPP TS 24.011 5.3.2.1).
pub const MOST_REPEATS: u8 = 2;

/// TR1N, in seconds: how long the network waits for the answer to RP-DATA (3GPP TS 24.011 6.2.2 and 10: 35 to 45).
pub const TR1N: u64 = 40;

/// TR1M, in seconds: how long a handset waits for the answer to RP-DATA or RP-SMMA (3GPP TS 24.011 6.2.1 and 10: 35 to
/// 45). It is as long as TR1N, since an end of a link does not know which end it is.
pub const TR1M: u64 = TR1N;

/// What the timers of a transaction do at a moment.
#[derive(Clone, Copy, PartialEq, Eq)]
pub(crate) enum Firing {
    /// None fires.
    Idle,
    /// TC1* fires, and the frame is sent again.
    Again,
    /// TR1N or TR1M fires, or TC1* with no repeat left.
    Closes,
}

impl Repetition {
    // TC1* of a frame that is sent now.
    pub(crate) fn first(now: Moment) -> Repetition
        ensures { result ≡ first_sending now }
    {
        Repetition {
            due: now.plus(TC1_STAR),
            repeats_left: MOST_REPEATS,
        }
    }

    // TC1* of a frame that is sent again now.
    pub(crate) fn again(self, now: Moment) -> Repetition
        ensures { result ≡ sent_again now self }
    {
        Repetition {
            due: now.plus(TC1_STAR),
            repeats_left: self.repeats_left.saturating_sub(1),
        }
    }

    fn firing(self, now: Moment) -> Firing
        ensures { result ≡ tc1_firing now self }
    {
        if now < self.due {
            Firing::Idle
        } else if self.repeats_left == 0 {
            Firing::Closes
        } else {
            Firing::Again
        }
    }
}

// What TR1N or TR1M and TC1* of the begun transaction do.
pub(crate) fn begun_firing(begun: &Option<Begun>, now: Moment) -> Firing
    ensures { result ≡ begun_firing_of now begun.now }
{
    match begun {
        Some(begun) => {
            if now >= begun.closes {
                return Firing::Closes;
            }
            match begun.repetition {
                Some(repetition) => repetition.firing(now),
                None => Firing::Idle,
            }
        }
        None => Firing::Idle,
    }
}

// What TC1* of the other side's transaction does.
pub(crate) fn opened_firing(opened: &Option<Opened>, now: Moment) -> Firing
    ensures { result ≡ opened_firing_of now opened.now }
{
    match opened {
        Some(opened) => match &opened.answer {
            Some(answer) => answer.repetition.firing(now),
            None => Firing::Idle,
        },
        None => Firing::Idle,
    }
}

// Whether it does anything.
pub(crate) fn is_firing(firing: Firing) -> bool
    ensures { result ≡ is_firing_of firing }
{
    match firing {
        Firing::Idle => false,
        Firing::Again | Firing::Closes => true,
    }
}

// A begun transaction that a timer closes has failed.
pub(crate) fn failed_by(firing: Firing) -> Option<Up>
    ensures { result ≡ failed_by_of firing }
{
    match firing {
        Firing::Closes => Some(Up::Failed),
        Firing::Idle | Firing::Again => None,
    }
}
