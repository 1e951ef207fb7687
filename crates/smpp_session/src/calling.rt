//! A list of calls.
ghost use Rattle.std.specs.Prelude.{◌≡◌, List, [], IfOk, OnOk};
ghost use Rattle.std.specs.List.{AllByRecursion};
ghost use Rattle.std.specs.Arc.{arc_value};
ghost use Rattle.smpp_session.specs.declared.calling.Call.{Call as CallOf};
ghost use Rattle.smpp_session.specs.Sessions.{opened};
ghost use Rattle.smpp_session.specs.Calls.{and_then, called, ran, IsCall, each_octet};

use crate::account::{Accounts, FullAccounts};
use crate::action::{Action, Actions};
use crate::answer::Answer;
use crate::fault::DeliverFault;
use crate::session::Session;
use smpp_pdu::Message;
use sms_base::OctetView;
use std::alloc::{AllocError, Global};
use std::fmt;
use std::sync::Arc;

/// A call of a session.
#[derive(Drop)]
pub enum Call<'a> {
    /// `set_full` of these accounts.
    Full(FullAccounts),
    /// `feed` of these octets.
    Feed(OctetView<'a>),
    /// `answer` under that sequence number.
    Answer(u32, Answer<'a>),
    /// `deliver` of this message.
    Deliver(Message<'a>),
    /// `unbind`, the session's own.
    Unbind,
    /// `close`, as its connection ends.
    Close,
}

// The octets of a bind hold a password, so they are not shown.
impl<'a> fmt::Debug for Call<'a> {
    fn fmt<W: fmt::Write>(&self, f: &mut fmt::Formatter<W>) -> fmt::Result {
        match self {
            Call::Full(full) => write!(f, "Full({full:?})"),
            Call::Feed(octets) => write!(f, "Feed({} octets)", octets.as_slice().len()),
            Call::Answer(number, answer) => write!(f, "Answer({number}, {answer:?})"),
            Call::Deliver(message) => write!(f, "Deliver({message:?})"),
            Call::Unbind => f.write_str("Unbind"),
            Call::Close => f.write_str("Close"),
        }
    }
}

/// The actions of the calls of a new session, one after the other.
///
/// What `answer`, `deliver` and `unbind` give to send is an action too; a `deliver` that is refused gives none. Only want of memory
/// ends the list early.
pub fn run(
    alloc: Global,
    accounts: Arc<Accounts, Global>,
    calls: Vec<Call<'_>>,
) -> Result<Actions, AllocError>
    requires { AllByRecursion IsCall calls.items }
    // They are those of the table.
    ensures table { IfOk result (λ actions. actions ≡ (ran (opened (arc_value accounts), []) calls.entry.items).1) }
    // Calls between which the same octets come give the same actions, however the octets were cut.
    ensures however_cut { IfOk result (λ actions. (other : List CallOf) → each_octet other ≡ each_octet calls.entry.items
        → actions ≡ (ran (opened (arc_value accounts), []) other).1) }
{
    let actions = all(alloc, accounts, calls)?;
    Ok(actions)
}

// The calls one after the other.
fn all(
    alloc: Global,
    accounts: Arc<Accounts, Global>,
    calls: Vec<Call<'_>>,
) -> Result<Actions, AllocError>
    requires { AllByRecursion IsCall calls.items }
    ensures { IfOk result (λ actions. actions ≡ (ran (opened (arc_value accounts), []) calls.entry.items).1) }
{
    let mut session = Session::new(alloc, accounts);
    let mut actions = Actions::new(alloc);
    for call in calls {
        one(&mut session, &mut actions, call)?;
    }
    Ok(actions)
}

// One call more.
fn one(session: &mut Session, actions: &mut Actions, call: Call<'_>) -> Result<(), AllocError>
    requires { IsCall call }
    ensures { OnOk result ((session.new, actions.new) ≡ and_then (session.old, actions.old) (called session.old call.entry)) }
{
    match call {
        Call::Full(full) => session.set_full(full),
        Call::Feed(octets) => {
            let given = session.feed(octets.as_slice())?;
            actions.append(given.actions)?;
        }
        Call::Answer(number, answer) => {
            if let Some(octets) = session.answer(number, answer)? {
                actions.push(Action::Send(octets))?;
            }
        }
        Call::Deliver(message) => match session.deliver(message) {
            Ok(sent) => actions.push(Action::Send(sent.octets))?,
            Err(DeliverFault::NoMemory) => return Err(AllocError),
            Err(_) => {}
        },
        Call::Unbind => {
            if let Some(octets) = session.unbind()? {
                actions.push(Action::Send(octets))?;
            }
        }
        Call::Close => {
            let _ = session.close();
        }
    }
    Ok(())
}
