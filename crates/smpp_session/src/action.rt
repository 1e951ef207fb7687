//! What a session wants done, and whether it was bound when it closed.
ghost use Rattle.std.specs.Prelude.{◌≡◌, [], ◌∷◌, ◌++◌, IfOk, OnOk, OnErr};
ghost use Rattle.smpp_session.specs.Bindings.{bound_after, bound_behind};

use smpp_pdu::CommandStatus;
use sms_base::Octets;
use std::alloc::{AllocError, Global};
use std::marker::Model;

/// What an application binds as.
#[derive(Clone, Copy, PartialEq, Eq)]
pub enum BindKind {
    Transmitter,
    Receiver,
    Transceiver,
}

/// What the owner of a session has to do, in order.
///
/// The requests that are passed up are the whole octets of a PDU of that command, which `smpp_pdu::Pdu::read` reads.
#[derive(Drop)]
pub enum Action {
    /// Send these octets, a whole PDU.
    Send(Octets),
    /// The account at this place, from 0, is bound.
    Bound(usize, BindKind),
    /// A submit_sm to answer, and its priority_flag, 0 to 3 (SMPP v3.4 5.2.14): a flag above 3 is as 3.
    Submit(Octets, u8),
    /// A query_sm to answer.
    Query(Octets),
    /// A cancel_sm to answer.
    Cancel(Octets),
    /// The deliver_sm of this sequence number was accepted, or refused.
    DeliverAnswered(u32, bool),
    /// A bind was refused with this status. It gave this system_id, which has no octets where it can't be read.
    BindRefused(CommandStatus, Octets),
    /// The account is no longer bound.
    Unbound,
}

impl Action {
    // Whether an account is bound, by what this tells, if it was so before.
    fn bound_after(&self, before: bool) -> bool
        ensures { result ≡ bound_after before self.now }
    {
        match self {
            Action::Bound(_, _) => true,
            Action::Unbound => false,
            _ => before,
        }
    }
}

/// Actions in order, seen by contracts as a list.
///
/// A vector is made for the first. Most octets of a slow connection give none, and none is dropped without a call.
#[derive(Drop)]
pub struct Actions {
    alloc: Global,
    items: Option<Vec<Action>>,
}

impl Model for Actions {
    ghost use Rattle.std.specs.Prelude.{List};
    ghost use Rattle.std.specs.Option.{option_map};
    ghost use Rattle.smpp_session.specs.declared.action.Action.{Action as ActionOf};
    ghost use Rattle.smpp_session.specs.Given.{all_given};

    ghost Value = { List ActionOf };

    ghost view = { λ a. all_given (option_map (λ given. given.items) a.items) };
}

/// What a session gives for received octets.
#[derive(Drop)]
pub struct Fed {
    /// What is to be done, in order.
    pub actions: Actions,
    /// A bad command_length came while an account was bound, and no `Unbound` says so. The owner, who got `Bound` and no
    /// `Unbound`, has one account less.
    pub bind_lost: bool,
}

impl Actions {
    // No action.
    pub(crate) fn new(alloc: Global) -> Actions
        ensures { result ≡ [] }
    {
        Actions { alloc, items: None }
    }

    /// The vector that holds the actions.
    pub fn into_vec(self) -> Vec<Action>
        ensures { result.items ≡ self }
    {
        let Actions { alloc, items } = self;
        match items {
            Some(items) => items,
            None => Vec::new(alloc),
        }
    }

    /// The actions in order.
    pub fn as_slice(&self) -> &[Action]
        ensures { result.now ≡ self.now }
    {
        match &self.items {
            Some(items) => items.as_slice(),
            None => &[],
        }
    }

    // Whether an account is bound behind them, by what they tell, if it was so before them.
    pub(crate) fn bound_behind(&self, before: bool) -> bool
        ensures { result ≡ bound_behind before self.now }
    {
        let actions = self.as_slice();
        let mut bound = before;
        for action in actions {
            bound = action.bound_after(bound);
        }
        bound
    }

    // Puts an action at the end.
    pub(crate) fn push(&mut self, action: Action) -> Result<(), AllocError>
        ensures ok { OnOk result (self.new ≡ self.old ++ action ∷ []) }
        ensures err { OnErr result (self.new ≡ self.old) }
    {
        match &mut self.items {
            Some(items) => items.push(action)?,
            None => self.items = Some(one(self.alloc, action)?),
        }
        Ok(())
    }

    // Puts all of them at the end.
    pub(crate) fn append(&mut self, more: Actions) -> Result<(), AllocError>
        ensures { OnOk result (self.new ≡ self.old ++ more) }
    {
        for action in more.into_vec() {
            self.push(action)?;
        }
        Ok(())
    }
}

// A vector of one action.
fn one(alloc: Global, action: Action) -> Result<Vec<Action>, AllocError>
    ensures { IfOk result (λ given. given.items ≡ action ∷ []) }
{
    let mut items = Vec::new(alloc);
    items.push(action)?;
    Ok(items)
}
