ghost use Rattle.std.specs.Prelude.{◌≡◌, ◌&&◌, IfOk, is_some};
ghost use Rattle.sms_control.specs.LinkStep.{ack_taken, begun_fired, has_begun as has_begun_of, has_opened as has_opened_of, is_same as is_same_of};
ghost use Rattle.sms_control.specs.LinkStep.{opened_fired, opening_of, started, answer_of};
ghost use Rattle.std.specs.Option.{option_map};
ghost use Rattle.sms_control.specs.Timers.{first_sending};
ghost use Rattle.sms_control.specs.declared.link_state.Opened.{Opened as OpenedOf};
ghost use Rattle.sms_control.specs.declared.transaction.TransactionFlag.TheVariants.{FromOriginator, ToOriginator};

use crate::timers::{Firing, TR1N};
use crate::transaction::TransactionIdentifier;
use sms_base::{Moment, Octets};
use std::alloc::{AllocError, Global};

/// The timer TC1* of a frame that is not acknowledged.
#[derive(Clone, Copy, PartialEq, Eq)]
pub struct Repetition {
    /// When the timer fires next.
    pub due: Moment,
    /// How often the frame may still be sent again, 2 to 0.
    pub repeats_left: u8,
}

/// The transaction that this side began.
#[derive(Drop)]
pub struct Begun {
    pub identifier: TransactionIdentifier,
    /// The CP-DATA of the transaction.
    pub frame: Octets,
    /// None once CP-ACK has arrived.
    pub repetition: Option<Repetition>,
    /// When TR1N ends it, or TR1M.
    pub closes: Moment,
}

/// The answer in a transaction of the other side, until its CP-ACK arrives.
#[derive(Drop)]
pub struct Answer {
    /// The CP-DATA of the transaction.
    pub frame: Octets,
    pub repetition: Repetition,
}

/// The transaction that the other side began.
#[derive(Drop)]
pub struct Opened {
    pub identifier: TransactionIdentifier,
    /// The frame that opened it.
    pub opening: Octets,
    /// None until this side replied.
    pub answer: Option<Answer>,
}

/// All that a link's two ends of transactions know.
#[derive(Drop)]
pub struct LinkState {
    /// Of the next transaction that this side begins.
    pub next_identifier: TransactionIdentifier,
    pub begun: Option<Begun>,
    pub opened: Option<Opened>,
    /// The frame that answered the last begun transaction that was answered.
    pub last_answer: Option<Octets>,
    /// The frame that opened the other side's last transaction that CP-ACK closed.
    pub last_opening: Option<Octets>,
}

impl Begun {
    fn copy(&self, alloc: Global) -> Result<Begun, AllocError>
        ensures { IfOk result (λ c. c ≡ self.now) }
    {
        Ok(Begun {
            identifier: self.identifier,
            frame: Octets::copy_of(alloc, self.frame.as_slice())?,
            repetition: self.repetition,
            closes: self.closes,
        })
    }
}

impl Answer {
    fn copy(&self, alloc: Global) -> Result<Answer, AllocError>
        ensures { IfOk result (λ c. c ≡ self.now) }
    {
        Ok(Answer {
            frame: Octets::copy_of(alloc, self.frame.as_slice())?,
            repetition: self.repetition,
        })
    }
}

impl Opened {
    fn copy(&self, alloc: Global) -> Result<Opened, AllocError>
        ensures { IfOk result (λ c. c ≡ self.now) }
    {
        let answer = match &self.answer {
            Some(answer) => Some(answer.copy(alloc)?),
            None => None,
        };
        Ok(Opened {
            identifier: self.identifier,
            opening: Octets::copy_of(alloc, self.opening.as_slice())?,
            answer,
        })
    }
}

// A copy of a remembered frame.
fn remembered_copy(alloc: Global, frame: &Option<Octets>) -> Result<Option<Octets>, AllocError>
    ensures { IfOk result (λ c. c ≡ frame.now) }
{
    match frame {
        Some(frame) => Ok(Some(Octets::copy_of(alloc, frame.as_slice())?)),
        None => Ok(None),
    }
}

fn begun_copy(alloc: Global, begun: &Option<Begun>) -> Result<Option<Begun>, AllocError>
    ensures { IfOk result (λ c. c ≡ begun.now) }
{
    match begun {
        Some(begun) => Ok(Some(begun.copy(alloc)?)),
        None => Ok(None),
    }
}

fn opened_copy(alloc: Global, opened: &Option<Opened>) -> Result<Option<Opened>, AllocError>
    ensures { IfOk result (λ c. c ≡ opened.now) }
{
    match opened {
        Some(opened) => Ok(Some(opened.copy(alloc)?)),
        None => Ok(None),
    }
}

impl LinkState {
    pub(crate) fn copy(&self, alloc: Global) -> Result<LinkState, AllocError>
        ensures { IfOk result (λ c. c ≡ self.now) }
    {
        Ok(LinkState {
            next_identifier: self.next_identifier,
            begun: begun_copy(alloc, &self.begun)?,
            opened: opened_copy(alloc, &self.opened)?,
            last_answer: remembered_copy(alloc, &self.last_answer)?,
            last_opening: remembered_copy(alloc, &self.last_opening)?,
        })
    }

    // A transaction of this side begins with its CP-DATA.
    pub(crate) fn start(&mut self, now: Moment, frame: Octets)
        ensures { self.new ≡ (started now frame self.old).state }
    {
        let identifier = self.next_identifier;
        self.next_identifier = identifier.next();
        self.begun = Some(Begun {
            identifier,
            frame,
            repetition: Some(Repetition::first(now)),
            closes: now.plus(TR1N),
        });
    }

    // A transaction of the other side's opens, in place of the present one.
    pub(crate) fn open(&mut self, identifier: TransactionIdentifier, opening: Octets)
        ensures { self.new ≡ record self.old { opened = Some (record { identifier = identifier; opening = opening; answer = None }) } }
    {
        self.opened = Some(Opened {
            identifier,
            opening,
            answer: None,
        });
    }

    // The other side's transaction is answered.
    pub(crate) fn answer(&mut self, now: Moment, frame: Octets)
        ensures { self.new ≡ record self.old {
          opened = option_map
              (λ (o : OpenedOf). record o { answer = Some (record { frame = frame; repetition = first_sending now }) }) self.old.opened;
        } }
    {
        if let Some(opened) = &mut self.opened {
            opened.answer = Some(Answer {
                frame,
                repetition: Repetition::first(now),
            });
        }
    }

    // CP-ACK came in the begun transaction.
    pub(crate) fn stop_repeating(&mut self, identifier: TransactionIdentifier)
        ensures { self.new ≡ (ack_taken ToOriginator identifier self.old).state }
    {
        if let Some(begun) = &mut self.begun {
            if identifier == begun.identifier {
                begun.repetition = None;
            }
        }
    }

    // CP-ACK came in the other side's transaction.
    pub(crate) fn acknowledge(&mut self, identifier: TransactionIdentifier)
        ensures { self.new ≡ (ack_taken FromOriginator identifier self.old).state }
    {
        if !is_answered(&self.opened, identifier) {
            return;
        }
        if let Some(opened) = self.opened.take() {
            self.last_opening = Some(opened.opening);
        }
    }

    // The timers of the begun transaction fired.
    pub(crate) fn fire_begun(&mut self, now: Moment, firing: Firing)
        ensures { self.new ≡ record self.old { begun = begun_fired now firing self.old.begun } }
    {
        match firing {
            Firing::Idle => {}
            Firing::Again => {
                if let Some(begun) = &mut self.begun {
                    if let Some(repetition) = begun.repetition {
                        begun.repetition = Some(repetition.again(now));
                    }
                }
            }
            Firing::Closes => self.begun = None,
        }
    }

    // The timer of the other side's transaction fired.
    pub(crate) fn fire_opened(&mut self, now: Moment, firing: Firing)
        ensures { self.new ≡ record self.old { opened = opened_fired now firing self.old.opened } }
    {
        match firing {
            Firing::Idle => {}
            Firing::Again => {
                if let Some(opened) = &mut self.opened {
                    if let Some(answer) = &mut opened.answer {
                        answer.repetition = answer.repetition.again(now);
                    }
                }
            }
            Firing::Closes => self.opened = None,
        }
    }
}

// Whether the begun transaction has that identifier.
pub(crate) fn has_begun(begun: &Option<Begun>, identifier: TransactionIdentifier) -> bool
    ensures { result ≡ has_begun_of identifier begun.now }
{
    match begun {
        Some(begun) => identifier == begun.identifier,
        None => false,
    }
}

// Whether the other side's transaction has that identifier.
pub(crate) fn has_opened(opened: &Option<Opened>, identifier: TransactionIdentifier) -> bool
    ensures { result ≡ has_opened_of identifier opened.now }
{
    match opened {
        Some(opened) => identifier == opened.identifier,
        None => false,
    }
}

// Whether the other side's transaction has that identifier and is answered.
fn is_answered(opened: &Option<Opened>, identifier: TransactionIdentifier) -> bool
    ensures { result ≡ (has_opened_of identifier opened.now && is_some (answer_of opened.now)) }
{
    match opened {
        Some(opened) => identifier == opened.identifier && opened.answer.is_some(),
        None => false,
    }
}

// Whether the frame is the remembered one.
pub(crate) fn is_same(frame: &[u8], remembered: &Option<Octets>) -> bool
    ensures { result ≡ is_same_of frame.now remembered.now }
{
    match remembered {
        Some(remembered) => frame == remembered.as_slice(),
        None => false,
    }
}

// Whether the frame opened the other side's transaction.
pub(crate) fn opens(frame: &[u8], opened: &Option<Opened>) -> bool
    ensures { result ≡ is_same_of frame.now (opening_of opened.now) }
{
    match opened {
        Some(opened) => frame == opened.opening.as_slice(),
        None => false,
    }
}
