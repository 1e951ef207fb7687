ghost use Rattle.std.specs.Prelude.{◌≡◌, ◌≢◌, ◌↔◌, ◌<◌, ◌≤◌, ◌++◌, [], true, false, IfOk, OnOk, OnErr, Err, None, length};
ghost use Rattle.sms_control.specs.DueTimers.{is_due, is_timed};
ghost use Rattle.sms_control.specs.LinkStep.{ack_taken, answer_frames, answer_taken, awaits_reply, begin_step, begun_frames, error_taken, fire_step, fresh};
ghost use Rattle.sms_control.specs.LinkStep.{if_again, is_busy, opening_taken, reply_step, take_step};

use crate::link_error::LinkError;
use crate::link_state::{LinkState, has_begun, has_opened, is_same, opens};
use crate::message::Cp;
use crate::out::{Frames, Out, Up};
use crate::sending::{acknowledged, data_frame, frames_with, push_answer, push_begun, rejected};
use crate::timers::{Firing, begun_firing, failed_by, is_firing, opened_firing};
use crate::transaction::{Transaction, TransactionFlag, TransactionIdentifier};
use sms_base::{Moment, Octets};
use std::alloc::{AllocError, Global};
use std::marker::Model;

/// A side of a link: the transaction that it began and the one that the other side began.
///
/// Contracts see it as its `LinkState`. A call that is refused, or that finds no memory, changes nothing.
#[derive(Drop)]
pub struct Links {
    alloc: Global,
    state: LinkState,
}

impl Model for Links {
    ghost use Rattle.sms_control.specs.declared.link_state.LinkState.{LinkState};

    ghost Value = { LinkState };

    ghost view = { λ l. l.state };
}

impl Links {
    /// Links with nothing under way, nothing remembered and transaction identifier 0 next.
    pub fn new(alloc: Global) -> Links
        ensures { result ≡ fresh }
    {
        Links {
            alloc,
            state: LinkState {
                next_identifier: TransactionIdentifier::first(),
                begun: None,
                opened: None,
                last_answer: None,
                last_opening: None,
            },
        }
    }

    /// A copy of the links.
    pub fn copy(&self) -> Result<Links, AllocError>
        ensures { IfOk result (λ c. c ≡ self.now) }
    {
        let state = self.state.copy(self.alloc)?;
        Ok(Links {
            alloc: self.alloc,
            state,
        })
    }

    /// Whether a transaction that this side began is under way.
    pub fn is_busy(&self) -> bool
        ensures { result ≡ is_busy self.now }
    {
        self.state.begun.is_some()
    }

    /// Whether a transaction of the other side waits for an answer.
    pub fn awaits_reply(&self) -> bool
        ensures { result ≡ awaits_reply self.now }
    {
        match &self.state.opened {
            Some(opened) => opened.answer.is_none(),
            None => false,
        }
    }

    /// Whether `fire` has something to do at that moment: where it has not, it changes nothing and sends nothing.
    pub fn is_due(&self, now: Moment) -> bool
        ensures { result ≡ is_due now self.now }
    {
        is_firing(begun_firing(&self.state.begun, now))
            || is_firing(opened_firing(&self.state.opened, now))
    }

    /// Whether a timer runs: `fire` has nothing to do where none does.
    pub fn is_timed(&self) -> bool
        ensures { result ≡ is_timed self.now }
    {
        if self.state.begun.is_some() {
            return true;
        }
        match &self.state.opened {
            Some(opened) => opened.answer.is_some(),
            None => false,
        }
    }

    /// Begins a transaction with a unit of 1 to 248 octets: gives its CP-DATA, and sets TC1* and TR1N (of a handset
    /// TR1M).
    #[tactic(auto, unfolding(crate::specs::LinkStep::begin_step))]
    pub fn begin(&mut self, now: Moment, unit: &[u8]) -> Result<Out, LinkError>
        requires some { 0 < length unit.now }
        requires fits { length unit.now ≤ 248 }
        ensures out { IfOk result (λ out. out ≡ (begin_step now unit.now self.old).out) }
        ensures state { OnOk result (self.new ≡ (begin_step now unit.now self.old).state) }

        // Refused exactly where a transaction is under way.
        ensures busy { (result ≡ Err LinkError.Busy) ↔ (is_busy self.old ≡ true) }
        ensures causes { result ≢ Err LinkError.NothingToAnswer }
        ensures err { OnErr result (self.new ≡ self.old) }
    {
        if self.is_busy() {
            return Err(LinkError::Busy);
        }
        let frame = data_frame(
            self.alloc,
            TransactionFlag::FromOriginator,
            self.state.next_identifier,
            unit,
        )?;
        let frames = frames_with(self.alloc, frame.as_slice())?;
        self.state.start(now, frame);
        Ok(Out { frames, up: None })
    }

    /// Answers in the transaction that the other side opened, with a unit of 1 to 248 octets: gives its CP-DATA, and
    /// sets TC1*. A transaction is answered once.
    #[tactic(auto, unfolding(crate::specs::LinkStep::reply_step))]
    pub fn reply(&mut self, now: Moment, unit: &[u8]) -> Result<Out, LinkError>
        requires some { 0 < length unit.now }
        requires fits { length unit.now ≤ 248 }
        ensures out { IfOk result (λ out. out ≡ (reply_step now unit.now self.old).out) }
        ensures state { OnOk result (self.new ≡ (reply_step now unit.now self.old).state) }

        // Refused exactly where no transaction waits for an answer.
        ensures nothing { (result ≡ Err LinkError.NothingToAnswer) ↔ (awaits_reply self.old ≡ false) }
        ensures causes { result ≢ Err LinkError.Busy }
        ensures err { OnErr result (self.new ≡ self.old) }
    {
        let identifier = match &self.state.opened {
            Some(opened) if opened.answer.is_none() => opened.identifier,
            _ => return Err(LinkError::NothingToAnswer),
        };
        let frame = data_frame(self.alloc, TransactionFlag::ToOriginator, identifier, unit)?;
        let frames = frames_with(self.alloc, frame.as_slice())?;
        self.state.answer(now, frame);
        Ok(Out { frames, up: None })
    }

    /// Takes a frame, whatever its octets: an unreadable one is dropped.
    #[tactic(auto, unfolding(crate::specs::LinkStep::take_step))]
    pub fn take(&mut self, frame: &[u8]) -> Result<Out, AllocError>
        ensures out { IfOk result (λ out. out ≡ (take_step frame.now self.old).out) }
        ensures state { OnOk result (self.new ≡ (take_step frame.now self.old).state) }
        ensures err { OnErr result (self.new ≡ self.old) }
    {
        match Cp::read(frame) {
            Ok(Cp::DataUnit { transaction, unit }) => match transaction.flag {
                TransactionFlag::ToOriginator => {
                    self.take_answer(frame, transaction, unit.as_slice())
                }
                TransactionFlag::FromOriginator => {
                    self.take_opening(frame, transaction, unit.as_slice())
                }
            },
            Ok(Cp::AckUnit { transaction }) => Ok(self.take_ack(transaction)),
            Ok(Cp::ErrorUnit { transaction, .. }) => Ok(self.take_error(transaction)),
            Err(_) => Ok(self.nothing()),
        }
    }

    /// Lets the timers fire that are due. TR1N or TR1M is looked at first, then TC1* of the begun transaction, then
    /// TC1* of the other side's.
    #[tactic(auto, unfolding(crate::specs::LinkStep::fire_step))]
    pub fn fire(&mut self, now: Moment) -> Result<Out, AllocError>
        ensures out { IfOk result (λ out. out ≡ (fire_step now self.old).out) }
        ensures state { OnOk result (self.new ≡ (fire_step now self.old).state) }
        ensures err { OnErr result (self.new ≡ self.old) }
    {
        let mine = begun_firing(&self.state.begun, now);
        let theirs = opened_firing(&self.state.opened, now);
        let frames = self.repeated(mine, theirs)?;
        self.state.fire_begun(now, mine);
        self.state.fire_opened(now, theirs);
        Ok(Out {
            frames,
            up: failed_by(mine),
        })
    }

    // No frames, and nothing that goes up.
    fn nothing(&self) -> Out
        ensures { result ≡ record { frames = []; up = None } }
    {
        Out {
            frames: Frames::new(self.alloc),
            up: None,
        }
    }

    // CP-DATA in a transaction of this side.
    fn take_answer(
        &mut self,
        frame: &[u8],
        transaction: Transaction,
        unit: &[u8],
    ) -> Result<Out, AllocError>
        ensures out { IfOk result (λ out. out ≡ (answer_taken frame.now unit.now transaction self.old).out) }
        ensures state { OnOk result (self.new ≡ (answer_taken frame.now unit.now transaction self.old).state) }
        ensures err { OnErr result (self.new ≡ self.old) }
    {
        if has_begun(&self.state.begun, transaction.identifier) {
            let frames = acknowledged(self.alloc, transaction)?;
            let unit = Octets::copy_of(self.alloc, unit)?;
            let answer = Octets::copy_of(self.alloc, frame)?;
            self.state.begun = None;
            self.state.last_answer = Some(answer);
            return Ok(Out {
                frames,
                up: Some(Up::Unit {
                    flag: TransactionFlag::ToOriginator,
                    unit,
                }),
            });
        }
        let frames = if is_same(frame, &self.state.last_answer) {
            acknowledged(self.alloc, transaction)?
        } else {
            rejected(self.alloc, transaction)?
        };
        Ok(Out { frames, up: None })
    }

    // CP-DATA in a transaction of the other side.
    fn take_opening(
        &mut self,
        frame: &[u8],
        transaction: Transaction,
        unit: &[u8],
    ) -> Result<Out, AllocError>
        ensures out { IfOk result (λ out. out ≡ (opening_taken frame.now unit.now transaction self.old).out) }
        ensures state { OnOk result (self.new ≡ (opening_taken frame.now unit.now transaction self.old).state) }
        ensures err { OnErr result (self.new ≡ self.old) }
    {
        let identifier = transaction.identifier;
        let mut frames = acknowledged(self.alloc, transaction)?;
        if opens(frame, &self.state.opened) {
            push_answer(self.alloc, &mut frames, &self.state.opened)?;
            return Ok(Out { frames, up: None });
        }
        if is_same(frame, &self.state.last_opening) {
            return Ok(Out { frames, up: None });
        }
        let unit = Octets::copy_of(self.alloc, unit)?;
        let opening = Octets::copy_of(self.alloc, frame)?;
        self.state.open(identifier, opening);
        Ok(Out {
            frames,
            up: Some(Up::Unit {
                flag: TransactionFlag::FromOriginator,
                unit,
            }),
        })
    }

    // CP-ACK.
    fn take_ack(&mut self, transaction: Transaction) -> Out
        ensures out { result ≡ (ack_taken transaction.flag transaction.identifier self.old).out }
        ensures state { self.new ≡ (ack_taken transaction.flag transaction.identifier self.old).state }
    {
        match transaction.flag {
            TransactionFlag::ToOriginator => self.state.stop_repeating(transaction.identifier),
            TransactionFlag::FromOriginator => self.state.acknowledge(transaction.identifier),
        }
        self.nothing()
    }

    // CP-ERROR.
    fn take_error(&mut self, transaction: Transaction) -> Out
        ensures out { result ≡ (error_taken transaction.flag transaction.identifier self.old).out }
        ensures state { self.new ≡ (error_taken transaction.flag transaction.identifier self.old).state }
    {
        match transaction.flag {
            TransactionFlag::ToOriginator => {
                if has_begun(&self.state.begun, transaction.identifier) {
                    self.state.begun = None;
                    return Out {
                        frames: Frames::new(self.alloc),
                        up: Some(Up::Failed),
                    };
                }
            }
            TransactionFlag::FromOriginator => {
                if has_opened(&self.state.opened, transaction.identifier) {
                    self.state.opened = None;
                }
            }
        }
        self.nothing()
    }

    // The frames that timers send again.
    fn repeated(&self, mine: Firing, theirs: Firing) -> Result<Frames, AllocError>
        ensures { IfOk result (λ frames. frames ≡ if_again mine (begun_frames self.now.begun) ++ if_again theirs (answer_frames self.now.opened)) }
    {
        let mut frames = Frames::new(self.alloc);
        if mine == Firing::Again {
            push_begun(self.alloc, &mut frames, &self.state.begun)?;
        }
        if theirs == Firing::Again {
            push_answer(self.alloc, &mut frames, &self.state.opened)?;
        }
        Ok(frames)
    }
}
