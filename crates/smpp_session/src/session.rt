//! A session of an application with the centre.
ghost use Rattle.std.specs.Prelude.{◌≡◌, ◌++◌, IfOk, IfErr, OnOk, OnErr, None, [], not};
ghost use Rattle.std.specs.Arc.{arc_value};
ghost use Rattle.smpp_pdu.specs.Writing.{written};
ghost use Rattle.smpp_session.specs.Answers.{answered, IsAnswer};
ghost use Rattle.smpp_session.specs.Windows.{is_none};
ghost use Rattle.smpp_session.specs.Bindings.{is_bound, is_bind_lost};
ghost use Rattle.smpp_session.specs.SessionTable.{unbind_resp, unbind_resp_to};
ghost use Rattle.smpp_session.specs.Sessions.{SessionView, opened, with_more, with_first, treated_input, fed, IsDeliverable, delivery_fault, IsRefused};
ghost use Rattle.smpp_session.specs.Sessions.{after_answered, after_close, after_delivery, after_unbind, deliver_pdu, for_version, number_to_send};
ghost use Rattle.smpp_session.specs.Sessions.{unbind_octets, unbinding};
ghost use Rattle.smpp_session.specs.Sessions.{with_full};

use crate::account::{Accounts, FullAccounts};
use crate::action::{Actions, Fed};
use crate::answer::Answer;
use crate::conversation::{Conversation, SessionState};
use crate::fault::DeliverFault;
use crate::front::{Front, front_of};
use crate::table::{UNBIND_NUMBER, takes_parameters};
use crate::turn::SessionStep;
use bytes::BytesMut;
use smpp_pdu::{Body, CommandStatus, Message, Pdu, Tlvs};
use sms_base::Octets;
use std::alloc::{AllocError, Global};
use std::fmt;
use std::marker::Model;
use std::sync::Arc;

/// A session, seen by contracts as its accounts, what it remembers and the octets that aren't treated yet.
///
/// Received octets are in one buffer, from whose front whole PDUs are cut. They are read in place.
#[derive(Drop)]
pub struct Session {
    alloc: Global,
    accounts: Arc<Accounts, Global>,
    conversation: Conversation,
    input: BytesMut,
}

impl Model for Session {
    ghost Value = { SessionView };

    ghost view = { λ s. record { accounts = arc_value s.accounts; conversation = s.conversation; buffered = s.input.items } };
}

// The accounts and the octets of a bind hold passwords, so they are not shown.
impl fmt::Debug for Session {
    fn fmt<W: fmt::Write>(&self, f: &mut fmt::Formatter<W>) -> fmt::Result {
        f.debug_struct("Session")
            .field("conversation", &self.conversation)
            .field("waiting_octets", &self.input.len())
            .finish_non_exhaustive()
    }
}

/// A deliver_sm to send.
#[derive(Drop)]
pub struct Outgoing {
    /// The number of its answer.
    pub sequence_number: u32,
    /// The octets to send.
    pub octets: Octets,
}

impl Session {
    /// A session on a connection that was just opened.
    pub fn new(alloc: Global, accounts: Arc<Accounts, Global>) -> Session
        ensures { result ≡ opened (arc_value accounts) }
    {
        Session {
            alloc,
            accounts,
            conversation: Conversation::new(alloc),
            input: BytesMut::new(alloc),
        }
    }

    /// The session's state (SMPP v3.4 2.2).
    pub fn state(&self) -> SessionState
        ensures { result ≡ self.now.conversation.state }
    {
        self.conversation.state
    }

    /// Takes which accounts are full. Until it is told otherwise, a bind of one of them is refused.
    pub fn set_full(&mut self, full: FullAccounts)
        ensures { self.new ≡ with_full full self.old }
    {
        self.conversation.full = full;
    }

    /// Takes received octets, and answers what is to be done.
    ///
    /// Without memory the octets are not taken.
    pub fn feed(&mut self, octets: &[u8]) -> Result<Fed, AllocError>
        ensures actions { IfOk result (λ given. fed self.old octets.now ≡ (self.new, given.actions)) }
        // The call behind which no octet is taken in tells whether an account was bound, where no action tells it.
        ensures bind_lost { IfOk result (λ given. given.bind_lost ≡ is_bind_lost self.old.conversation.state given.actions self.new.conversation.state) }
        ensures err { OnErr result (self.new ≡ self.old) }
    {
        let waiting = self.input.len();
        self.take_in(octets)?;
        if let Front::Waiting = front_of(self.conversation.state, self.input.as_slice()) {
            return Ok(Fed {
                actions: Actions::new(self.alloc),
                bind_lost: false,
            });
        }
        let given = self.treat_input(waiting)?;
        Ok(given)
    }

    // Puts octets at the end of the buffer. A slow line gives them one by one, and one for which there is room is put
    // without a call.
    #[inline]
    fn take_in(&mut self, octets: &[u8]) -> Result<(), AllocError>
        ensures ok { OnOk result (self.new ≡ with_more octets.now self.old) }
        ensures err { OnErr result (self.new ≡ self.old) }
    {
        match octets {
            [octet] if self.input.len() < self.input.capacity() => {
                self.input.extend_reserved(&[*octet]);
            }
            _ => self.input.extend_from_slice(octets)?,
        }
        Ok(())
    }

    // Treats the octets that stand in the buffer. Without memory those behind so many are taken back.
    #[inline(never)]
    fn treat_input(&mut self, waiting: usize) -> Result<Fed, AllocError>
        ensures actions { IfOk result (λ given. treated_input self.old ≡ (self.new, given.actions)) }
        ensures bind_lost { IfOk result (λ given. given.bind_lost ≡ is_bind_lost self.old.conversation.state given.actions self.new.conversation.state) }
        ensures err { OnErr result (self.new ≡ with_first waiting self.old) }
    {
        let before = self.conversation.state;
        match self.cut_input() {
            Ok(actions) => {
                let is_deaf = self.conversation.state.is_deaf();
                let bind_lost = is_deaf && actions.bound_behind(before.is_bound());
                Ok(Fed { actions, bind_lost })
            }
            Err(error) => {
                self.input.truncate(waiting);
                Err(error)
            }
        }
    }

    // Cuts whole PDUs from the front of the buffer, and treats each where it stands.
    fn cut_input(&mut self) -> Result<Actions, AllocError>
        ensures ok { IfOk result (λ actions. treated_input self.old ≡ (self.new, actions)) }
        ensures err { OnErr result (self.new ≡ self.old) }
    {
        let mut turn = SessionStep {
            conversation: self.conversation.copy(self.alloc)?,
            actions: Actions::new(self.alloc),
        };
        let done = turn.walk(self.alloc, &self.accounts, self.input.as_slice())?;
        let SessionStep {
            conversation,
            actions,
        } = turn;
        self.conversation = conversation;
        self.input.advance(done);
        Ok(actions)
    }

    /// The octets that answer a request which was passed up; none where the session is closed.
    ///
    /// The requests under one sequence number are answered in the order in which they were passed up. With the last answer that
    /// is owed, a session that was to end is closed: the unbind_resp follows, where the other side has sent unbind.
    pub fn answer(
        &mut self,
        sequence_number: u32,
        answer: Answer<'_>,
    ) -> Result<Option<Octets>, AllocError>
        requires { IsAnswer answer }
        ensures octets { IfOk result (λ octets. octets ≡ answered self.old.conversation sequence_number answer.entry) }
        ensures ok { OnOk result (self.new ≡ after_answered sequence_number self.old) }
        ensures err { OnErr result (self.new ≡ self.old) }
    {
        if self.conversation.state == SessionState::Closed {
            self.settle(sequence_number);
            return Ok(None);
        }
        let mut octets = answer.write(self.alloc, sequence_number)?;
        let unbind = self.conversation.last_unbind(sequence_number);
        put_unbind_resp(self.alloc, &mut octets, unbind)?;
        self.settle(sequence_number);
        Ok(Some(octets))
    }

    // The request of that number has its answer. Behind the last one nothing is taken in any more.
    fn settle(&mut self, number: u32)
        ensures { self.new ≡ after_answered number self.old }
    {
        if self.conversation.is_last(number) {
            self.input = BytesMut::new(self.alloc);
        }
        self.conversation.settle(number);
    }

    /// The unbind of the centre, where an account is bound and none was sent yet. No request is taken in behind it.
    ///
    /// The session ends with the answer, once each request that was taken has its own.
    pub fn unbind(&mut self) -> Result<Option<Octets>, AllocError>
        ensures octets { IfOk result (λ octets. octets ≡ unbinding self.old.conversation.state) }
        ensures ok { OnOk result (self.new ≡ after_unbind self.old) }
        ensures err { OnErr result (self.new ≡ self.old) }
    {
        if !self.conversation.state.may_unbind() {
            return Ok(None);
        }
        let octets = unbind_octets(self.alloc)?;
        self.conversation.state = SessionState::Unbinding;
        Ok(Some(octets))
    }

    /// Whether requests that were passed up have no answer yet.
    pub fn owes(&self) -> bool
        ensures { result ≡ not (is_none self.now.conversation.owed) }
    {
        !self.conversation.owed.is_empty()
    }

    /// A deliver_sm under the next sequence number, which then waits for its answer. A number under which one waits
    /// still is skipped.
    ///
    /// It is refused where no receiver or transceiver is bound, and where ten wait already. An application of a version below 3.4
    /// gets no optional parameters.
    pub fn deliver(&mut self, message: Message<'_>) -> Result<Outgoing, DeliverFault>
        requires { IsDeliverable message }
        // The deliver_sm, under the next number that is free.
        ensures octets { IfOk result (λ sent. sent.octets
            ≡ written (deliver_pdu sent.sequence_number (for_version self.old.conversation.interface_version message.entry))) }
        ensures number { IfOk result (λ sent. sent.sequence_number ≡ number_to_send self.old.conversation) }
        // It waits for its answer.
        ensures ok { OnOk result (self.new ≡ after_delivery self.old) }
        // Only where nothing stands against it.
        ensures nothing_against { OnOk result (delivery_fault self.old.conversation ≡ None) }
        ensures fault { IfErr result (λ e. IsRefused (delivery_fault self.old.conversation) e) }
        ensures err { OnErr result (self.new ≡ self.old) }
    {
        self.conversation.check()?;
        let sequence_number = self.conversation.free_number();
        let message = fitting(self.conversation.interface_version, message);
        let octets = deliver_octets(self.alloc, sequence_number, message)?;
        self.conversation.await_answer(sequence_number)?;
        Ok(Outgoing {
            sequence_number,
            octets,
        })
    }

    /// Ends the session, whose connection has ended, and answers whether an account was bound until now.
    pub fn close(&mut self) -> bool
        ensures bind_lost { result ≡ is_bound self.old.conversation.state }
        ensures closed { self.new ≡ after_close self.old }
    {
        let bind_lost = self.conversation.state.is_bound();
        self.conversation.close();
        self.input = BytesMut::new(self.alloc);
        bind_lost
    }
}

// The message without optional parameters for an application of an earlier version.
fn fitting(version: u8, message: Message<'_>) -> Message<'_>
    requires { IsDeliverable message }
    ensures value { result ≡ for_version version message.entry }
    ensures deliverable { IsDeliverable result }
{
    if takes_parameters(version) {
        return message;
    }
    let mut message = message;
    message.tlvs = Tlvs::none();
    message
}

// The octets of the centre's unbind.
fn unbind_octets(alloc: Global) -> Result<Octets, AllocError>
    ensures { IfOk result (λ octets. octets ≡ unbind_octets) }
{
    let pdu = Pdu {
        command_status: CommandStatus::ESME_ROK.number(),
        sequence_number: UNBIND_NUMBER,
        body: Body::Unbind,
    };
    let octets = pdu.write(alloc)?;
    Ok(octets)
}

// Puts the answer to an unbind, if there is one, behind other octets.
fn put_unbind_resp(
    alloc: Global,
    octets: &mut Octets,
    unbind: Option<u32>,
) -> Result<(), AllocError>
    ensures { OnOk result (octets.new ≡ octets.old ++ unbind_resp_to unbind) }
{
    if let Some(number) = unbind {
        let last = unbind_resp_octets(alloc, number)?;
        octets.append(last.as_slice())?;
    }
    Ok(())
}

// The octets of the answer to an unbind.
fn unbind_resp_octets(alloc: Global, sequence_number: u32) -> Result<Octets, AllocError>
    ensures { IfOk result (λ octets. octets ≡ unbind_resp sequence_number) }
{
    let pdu = Pdu {
        command_status: CommandStatus::ESME_ROK.number(),
        sequence_number,
        body: Body::UnbindResp,
    };
    let octets = pdu.write(alloc)?;
    Ok(octets)
}

// The octets of a deliver_sm.
fn deliver_octets(
    alloc: Global,
    sequence_number: u32,
    message: Message<'_>,
) -> Result<Octets, AllocError>
    requires { IsDeliverable message }
    ensures { IfOk result (λ octets. octets ≡ written (deliver_pdu sequence_number message.entry)) }
{
    let pdu = Pdu {
        command_status: CommandStatus::ESME_ROK.number(),
        sequence_number,
        body: Body::DeliverSm(message),
    };
    let octets = pdu.write(alloc)?;
    Ok(octets)
}
