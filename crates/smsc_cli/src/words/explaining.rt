//! What is wrong with words that ask for nothing, for a person.
ghost use Rattle.std.specs.Prelude.{◌≡◌, ◌↔◌, Some, true, IfNone, IfSome};
ghost use Rattle.clap.specs.Words.{first_value, found_of};
ghost use Rattle.smsc_cli.specs.words.Explaining.{IsWanted};
ghost use Rattle.smsc_cli.specs.words.LookWords.{MayBe};

use crate::words::detail::is_log_word;
use crate::words::look::{is_message, is_party, is_state_word};
use crate::words::misbehaviour::{percent_of, refusal_of};
use crate::words::number::{address_of, count_of, port_of, slots_of};
use crate::words::sim::moment_of;
use clap::{ArgMatches, Command};
use std::alloc::{AllocError, Global};

/// What the value of an option is to be.
#[derive(Clone, Copy, PartialEq, Eq)]
pub(crate) enum Wanted {
    /// A port of this machine.
    Port,
    /// The number of a handset or of the centre.
    Number,
    /// A count of 32 bits.
    Count,
    /// How many parts a store has room for.
    Slots,
    /// A moment of the years 2000 to 2099.
    Seconds,
    /// The number of a message.
    Message,
    /// A number or a name.
    Party,
    /// A state of messages.
    State,
    /// What the log has besides.
    Log,
    /// A cause, perhaps with a count.
    Refusal,
    /// So many of a hundred.
    Percent,
}

impl Wanted {
    fn in_words(self) -> &'static str {
        match self {
            Wanted::Port => "a port is 1 to 65535",
            Wanted::Number => "a number has 1 to 20 digits 0 to 9",
            Wanted::Count => "0 to 4294967295 is wanted",
            Wanted::Slots => "1 to 255 is wanted",
            Wanted::Seconds => "seconds from 1970 to a moment of the years 2000 to 2099 are wanted",
            Wanted::Message => "the number of a message has ten digits, not all of them 0",
            Wanted::Party => "a number of 1 to 20 digits or a name of 1 to 11 characters is wanted",
            Wanted::State => "ENROUTE, DELIVRD, EXPIRED, DELETED or UNDELIV is wanted",
            Wanted::Log => "messages or access is wanted",
            Wanted::Refusal =>
                "a cause of 0 to 127 is wanted, perhaps with a colon and a count behind it",
            Wanted::Percent => "0 to 100 is wanted",
        }
    }

    // Whether the text spells one.
    fn is_spelled(self, text: &str) -> bool
        ensures { (result ≡ true) ↔ IsWanted self text.now }
    {
        match self {
            Wanted::Port => port_of(text).is_some(),
            Wanted::Number => address_of(text).is_some(),
            Wanted::Count => count_of(text).is_some(),
            Wanted::Slots => slots_of(text).is_some(),
            Wanted::Seconds => moment_of(text).is_some(),
            Wanted::Message => is_message(text),
            Wanted::Party => is_party(text),
            Wanted::State => is_state_word(text),
            Wanted::Log => is_log_word(text),
            Wanted::Refusal => refusal_of(text).is_some(),
            Wanted::Percent => percent_of(text).is_some(),
        }
    }
}

/// An option that takes such a value.
pub(crate) type Rule = (&'static str, Wanted);

// The value of the option, where it spells none.
fn wrong_value<'a>(matches: &ArgMatches<'a>, option: &str, wanted: Wanted) -> Option<&'a str>
    ensures found { IfSome result (λ value. (first_value (found_of matches.now) option.now ≡ Some value.now) × ¬ IsWanted wanted value.now) }
    ensures none { IfNone result (MayBe (IsWanted wanted) (first_value (found_of matches.now) option.now)) }
{
    let value = matches.get_str(option)?;
    if wanted.is_spelled(value) {
        return None;
    }
    Some(value)
}

// The first of these options whose value spells none.
fn wrong_text<'a>(
    alloc: Global,
    matches: &ArgMatches<'a>,
    rules: &[Rule],
) -> Result<Option<String>, AllocError> {
    for (option, wanted) in rules {
        if let Some(value) = wrong_value(matches, option, *wanted) {
            let wanted = wanted.in_words();
            let text = format!(in alloc;
                "error: invalid value '{value}' for '--{option}': {wanted}{MORE}"
            )?;
            return Ok(Some(text));
        }
    }
    Ok(None)
}

/// Where more is said.
pub(crate) const MORE: &str = "\n\nFor more information, try '--help'.\n";

/// What is wrong with the words of a command: what clap says where it does not take them, else the first of these options
/// whose value spells none.
pub(crate) fn explained<'a>(
    alloc: Global,
    command: Command<'a>,
    words: &'a [&'a str],
    rules: &[Rule],
) -> Result<Option<String>, AllocError> {
    match command.try_get_matches_from(words) {
        Ok(matches) => wrong_text(alloc, &matches, rules),
        Err(error) => Ok(Some(format!(in alloc; "{error}")?)),
    }
}
