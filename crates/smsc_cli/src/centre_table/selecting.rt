//! Which messages of a store are shown.
ghost use Rattle.std.specs.Prelude.{◌≡◌, ◌==◌, filter as filter_list, option_map};
ghost use Rattle.std.specs.Str.{bytes_eq};
ghost use Rattle.smsc_cli.specs.centre_table.CentreTable.{state_word as state_word_of};
ghost use Rattle.smsc_cli.specs.centre_table.Selecting.{is_between as is_between_of, is_named as is_named_of, is_of_account as is_of_account_of};
ghost use Rattle.smsc_cli.specs.centre_table.Selecting.{is_selected as is_selected_by, is_wanted, last_of as last_among};

use crate::centre_table::messages::state_word;
use sms_base::{Digits, FinalState, MessageId, Originator};
use sms_centre_rows::messages::MessageRow;

/// Which messages are shown: those that are as wanted in each of these, where something is wanted.
#[derive(Clone, Copy)]
pub struct Filter<'a> {
    /// The message's number.
    pub id: Option<MessageId>,
    /// The digits or the name of its originator.
    pub from: Option<Digits>,
    /// The digits of its destination.
    pub to: Option<Digits>,
    /// The account by which an application submitted it.
    pub account: Option<&'a str>,
    /// The word of its state, as the table has it.
    pub state: Option<&'a str>,
    /// Of the messages that are as wanted the last so many.
    pub last: Option<u32>,
}

impl<'a> Filter<'a> {
    ghost use Rattle.std.specs.Prelude.{◌≡◌, None};

    /// All messages: nothing is wanted of them.
    pub fn all() -> Filter<'a>
        ensures parties { (result.id ≡ None) × (result.from ≡ None) × (result.to ≡ None) }
        ensures others { (result.account ≡ None) × (result.state ≡ None) × (result.last ≡ None) }
    {
        Filter {
            id: None,
            from: None,
            to: None,
            account: None,
            state: None,
            last: None,
        }
    }
}

fn is_id(id: MessageId, wanted: Option<MessageId>) -> bool
    ensures { result ≡ is_wanted (λ wanted. id == wanted) wanted }
{
    match wanted {
        Some(wanted) => id.number() == wanted.number(),
        None => true,
    }
}

fn is_text(digits: &Digits, wanted: Option<Digits>) -> bool
    ensures { result ≡ is_wanted (λ wanted. bytes_eq digits.now wanted) wanted }
{
    match wanted {
        Some(wanted) => digits.as_slice() == wanted.as_slice(),
        None => true,
    }
}

fn is_of_account(originator: &Originator, name: &str) -> bool
    ensures { result ≡ is_of_account_of originator.now name.now }
{
    match originator {
        Originator::Application { account } => account.as_slice() == name.as_bytes(),
        Originator::Handset { .. } => false,
    }
}

fn is_account(originator: &Originator, wanted: Option<&str>) -> bool
    ensures { result ≡ is_wanted (λ name. is_of_account_of originator.now name) (option_map (λ s. s.now) wanted.entry) }
{
    match wanted {
        Some(name) => is_of_account(originator, name),
        None => true,
    }
}

fn is_state(state: Option<FinalState>, wanted: Option<&str>) -> bool
    ensures { result ≡ is_wanted (λ word. bytes_eq (state_word_of state) word) (option_map (λ s. s.now) wanted.entry) }
{
    match wanted {
        Some(word) => state_word(state) == word,
        None => true,
    }
}

fn is_between(filter: &Filter<'_>, message: &MessageRow) -> bool
    ensures { result ≡ is_between_of filter.now message.now }
{
    is_text(&message.source.digits, filter.from) && is_text(&message.handset.digits(), filter.to)
}

fn is_named(filter: &Filter<'_>, message: &MessageRow) -> bool
    ensures { result ≡ is_named_of filter.now message.now }
{
    is_id(message.id, filter.id)
        && (is_account(&message.originator, filter.account)
            && is_state(message.state, filter.state))
}

fn is_selected(filter: &Filter<'_>, message: &MessageRow) -> bool
    ensures { result ≡ is_selected_by filter.now message.now }
{
    is_between(filter, message) && is_named(filter, message)
}

/// The messages that are as wanted.
pub fn selected(filter: &Filter<'_>, messages: Vec<MessageRow>) -> Vec<MessageRow>
    ensures { result.items ≡ filter_list (λ m. is_selected_by filter.now m) messages.items }
{
    let mut messages = messages;
    messages.retain(|message| is_selected(filter, message));
    messages
}

/// The last so many messages; all of them, where no number is given.
pub fn last_of(messages: &[MessageRow], last: Option<u32>) -> &[MessageRow]
    ensures { result.now ≡ last_among last messages.now }
{
    match last {
        Some(count) => &messages[messages.len().saturating_sub(count as usize)..],
        None => messages,
    }
}
