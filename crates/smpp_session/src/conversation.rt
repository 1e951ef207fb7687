//! What a session remembers beside its accounts and the octets that aren't treated yet.
ghost use Rattle.std.specs.Prelude.{◌≡◌, IfOk, OnOk, OnErr, IfErr};
ghost use Rattle.smpp_session.specs.SessionTable.{broken_conversation, closed_conversation, finishing_conversation};
ghost use Rattle.smpp_session.specs.Bindings.{is_bound, is_deaf};
ghost use Rattle.smpp_session.specs.Windows.{free_number};
ghost use Rattle.smpp_session.specs.Sessions.{awaiting_under, delivery_fault, may_unbind, opened_conversation};
ghost use Rattle.smpp_session.specs.Answers.{after_answer, is_last, last_unbind};

use crate::account::FullAccounts;
use crate::fault::DeliverFault;
use crate::numbers::SentNumbers;
use smpp_pdu::number_after;
use std::alloc::{AllocError, Global};

// How many deliver_sm may wait for their answers.
const WINDOW: usize = 10;

/// The states of a session (SMPP v3.4 2.2).
#[derive(Clone, Copy, Debug, PartialEq, Eq)]
pub enum SessionState {
    /// The connection is open, and nobody is bound.
    Opened,
    /// A transmitter is bound.
    BoundTx,
    /// A receiver is bound.
    BoundRx,
    /// A transceiver is bound.
    BoundTrx,
    /// The centre has sent unbind, and its answer is waited for. No request is taken in any more.
    Unbinding,
    /// An unbind was exchanged, and nobody is bound any more. The requests that were taken are still answered.
    Finishing,
    /// The octets are no PDUs any more, and none is taken in. The requests that were taken are still answered.
    Broken,
    /// Nothing is taken or given any more.
    Closed,
}

impl SessionState {
    /// Whether an account is bound.
    pub fn is_bound(self) -> bool
        ensures { result ≡ is_bound self }
    {
        match self {
            SessionState::BoundTx
            | SessionState::BoundRx
            | SessionState::BoundTrx
            | SessionState::Unbinding => true,
            SessionState::Opened
            | SessionState::Finishing
            | SessionState::Broken
            | SessionState::Closed => false,
        }
    }

    // Whether no octet is taken in any more.
    pub(crate) fn is_deaf(self) -> bool
        ensures { result ≡ is_deaf self }
    {
        matches!(self, SessionState::Broken | SessionState::Closed)
    }

    // Whether the centre may send an unbind.
    pub(crate) fn may_unbind(self) -> bool
        ensures { result ≡ may_unbind self }
    {
        matches!(
            self,
            SessionState::BoundTx | SessionState::BoundRx | SessionState::BoundTrx
        )
    }
}

// The state, and what waits for answers.
#[derive(Debug, Drop)]
pub(crate) struct Conversation {
    pub state: SessionState,
    // The sequence numbers of the deliver_sm that were sent and aren't answered, at most ten.
    pub unanswered: SentNumbers,
    // The sequence number of the next deliver_sm, unless one waits under it still: 1 to 7FFFFFFF hexadecimal.
    pub next_number: u32,
    // The sequence numbers of the requests that were passed up and aren't answered, in that order.
    pub owed: SentNumbers,
    // The sequence number of an unbind whose answer waits for theirs.
    pub unbind: Option<u32>,
    // Of SMPP, as the application bound.
    pub interface_version: u8,
    // Those that take no further session.
    pub full: FullAccounts,
}

impl Conversation {
    // Of a connection that was just opened.
    pub(crate) fn new(alloc: Global) -> Conversation
        ensures { result ≡ opened_conversation }
    {
        Conversation {
            state: SessionState::Opened,
            unanswered: SentNumbers::new(alloc),
            next_number: 1,
            owed: SentNumbers::new(alloc),
            unbind: None,
            interface_version: 0,
            full: FullAccounts::none(),
        }
    }

    // The same.
    pub(crate) fn copy(&self, alloc: Global) -> Result<Conversation, AllocError>
        ensures { IfOk result (λ conversation. conversation ≡ self.now) }
    {
        let unanswered = self.unanswered.copy(alloc)?;
        let owed = self.owed.copy(alloc)?;
        Ok(Conversation {
            state: self.state,
            unanswered,
            next_number: self.next_number,
            owed,
            unbind: self.unbind,
            interface_version: self.interface_version,
            full: self.full,
        })
    }

    // Whether a deliver_sm may go out.
    pub(crate) fn check(&self) -> Result<(), DeliverFault>
        ensures ok { OnOk result (delivery_fault self.now ≡ None) }
        ensures err { IfErr result (λ e. delivery_fault self.now ≡ Some e) }
    {
        match self.state {
            SessionState::BoundRx | SessionState::BoundTrx => {
                if self.unanswered.len() < WINDOW {
                    Ok(())
                } else {
                    Err(DeliverFault::WindowFull)
                }
            }
            _ => Err(DeliverFault::NotBound),
        }
    }

    // The number of a deliver_sm that goes out now.
    pub(crate) fn free_number(&self) -> u32
        ensures { result ≡ free_number self.now.next_number self.now.unanswered }
    {
        let mut number = self.next_number;
        for _passed in 0..WINDOW {
            if !self.unanswered.contains(number) {
                return number;
            }
            number = number_after(number);
        }
        self.next_number
    }

    // The deliver_sm of this number waits for its answer.
    pub(crate) fn await_answer(&mut self, number: u32) -> Result<(), AllocError>
        ensures ok { OnOk result (self.new ≡ awaiting_under number self.old) }
        ensures err { OnErr result (self.new ≡ self.old) }
    {
        self.unanswered.push(number)?;
        self.next_number = number_after(number);
        Ok(())
    }

    // Nothing is taken or given any more.
    pub(crate) fn close(&mut self)
        ensures { self.new ≡ closed_conversation self.old }
    {
        self.state = SessionState::Closed;
        self.unanswered.clear();
        self.owed.clear();
        self.unbind = None;
        self.interface_version = 0;
    }

    // The requests that were taken are still answered, and then the unbind of that number.
    pub(crate) fn finish(&mut self, unbind: Option<u32>)
        ensures { self.new ≡ finishing_conversation unbind self.old }
    {
        self.state = SessionState::Finishing;
        self.unanswered.clear();
        self.unbind = unbind;
    }

    // The requests that were taken are still answered, and no octet is taken in any more.
    pub(crate) fn break_off(&mut self)
        ensures { self.new ≡ broken_conversation self.old }
    {
        self.state = SessionState::Broken;
        self.unanswered.clear();
    }

    // The unbind whose answer is sent behind the answer under that number.
    pub(crate) fn last_unbind(&self, number: u32) -> Option<u32>
        ensures { result ≡ last_unbind number self.now }
    {
        if self.is_last(number) {
            self.unbind
        } else {
            None
        }
    }

    // Whether the answer under that number is the last of a session that is to end.
    pub(crate) fn is_last(&self, number: u32) -> bool
        ensures { result ≡ is_last number self.now }
    {
        match self.state {
            SessionState::Finishing | SessionState::Broken => self.owed.is_only(number),
            _ => false,
        }
    }

    // The request of that number has its answer.
    pub(crate) fn settle(&mut self, number: u32)
        ensures { self.new ≡ after_answer number self.old }
    {
        if self.is_last(number) {
            self.close();
        } else {
            let _ = self.owed.take(number);
        }
    }
}
