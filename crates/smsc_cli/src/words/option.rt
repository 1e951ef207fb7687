//! Options of command lines.
ghost use Rattle.std.specs.Prelude.{◌≡◌, false, map, IfOk, option_map};
ghost use Rattle.clap.specs.Words.{app_of, rule_of};
ghost use Rattle.smsc_cli.specs.words.Options.{flag_option, is_given, listed_words, needed_word, offer_rule, optional_option, required_option, with_rules};

use clap::{Arg, ArgAction, Command};
use std::alloc::{AllocError, Global};

/// An option with a value, that must be given.
fn required<'a>(alloc: Global, name: &'a str) -> Arg<'a>
    ensures rule { rule_of result ≡ required_option name.entry.now }
    ensures local { result.global ≡ false }
{
    Arg::new(alloc, name)
        .long(name)
        .required(true)
        .action(ArgAction::Set)
}

/// An option with a value, that may be given.
fn optional<'a>(alloc: Global, name: &'a str) -> Arg<'a>
    ensures rule { rule_of result ≡ optional_option name.entry.now }
    ensures local { result.global ≡ false }
{
    Arg::new(alloc, name).long(name).action(ArgAction::Set)
}

/// An option without a value.
fn flag<'a>(alloc: Global, name: &'a str) -> Arg<'a>
    ensures rule { rule_of result ≡ flag_option name.entry.now }
    ensures local { result.global ≡ false }
{
    Arg::new(alloc, name).long(name).action(ArgAction::SetTrue)
}

fn word<'a>(alloc: Global, name: &'a str) -> Arg<'a>
    ensures rule { rule_of result ≡ needed_word name.entry.now }
    ensures local { result.global ≡ false }
{
    Arg::new(alloc, name).required(true).action(ArgAction::Set)
}

fn listed<'a>(alloc: Global, name: &'a str) -> Arg<'a>
    ensures rule { rule_of result ≡ listed_words name.entry.now }
    ensures local { result.global ≡ false }
{
    Arg::new(alloc, name).action(ArgAction::Append)
}

/// What a command line may have, by its name.
#[derive(Clone, Copy)]
pub(crate) enum Offer<'a> {
    /// An option with a value, that must be given.
    Required(&'a str),
    /// An option with a value, that may be given.
    Optional(&'a str),
    /// An option without a value.
    Flag(&'a str),
    /// A word that is an argument itself, and must be given.
    Word(&'a str),
    /// Words that are arguments themselves, as many as there are.
    Words(&'a str),
}

fn arg_of<'a>(alloc: Global, offer: &Offer<'a>) -> Arg<'a>
    ensures rule { rule_of result ≡ offer_rule offer.entry.now }
    ensures local { result.global ≡ false }
{
    match offer {
        Offer::Required(name) => required(alloc, *name),
        Offer::Optional(name) => optional(alloc, *name),
        Offer::Flag(name) => flag(alloc, *name),
        Offer::Word(name) => word(alloc, *name),
        Offer::Words(name) => listed(alloc, *name),
    }
}

/// The command with these offers behind its own.
pub(crate) fn offering<'a>(
    alloc: Global,
    command: Command<'a>,
    offers: &[Offer<'a>],
) -> Result<Command<'a>, AllocError>
    ensures { IfOk result (λ c. app_of c ≡ with_rules (app_of command.entry) (map offer_rule offers.entry.now)) }
{
    match offers.split_first() {
        Some((first, others)) => {
            let command = command.arg(arg_of(alloc, first))?;
            offering(alloc, command, others)
        }
        None => Ok(command),
    }
}

/// Whether an option without a value was given.
pub(crate) fn is_set(value: Option<&str>) -> bool
    ensures { result ≡ is_given (option_map (λ s. s.now) value.entry) }
{
    match value {
        Some(word) => word == "true",
        None => false,
    }
}
