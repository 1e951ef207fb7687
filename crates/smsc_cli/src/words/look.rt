//! The words of a look at a centre's store.
ghost use Rattle.std.specs.Prelude.{◌≡◌, ◌↔◌, ℕ, Some, true, map, option_map, IfErr, IfNone, IfSome, IfOk};
ghost use Rattle.clap.specs.Words.{app_of, first_value, found_of, kind_of, takes};
ghost use Rattle.clap.specs.declared.error.kind.ErrorKind.TheVariants.{OutOfMemory};
ghost use Rattle.sms_base.specs.MessageId.{IsIdText};
ghost use Rattle.smsc_cli.specs.declared.words.fault.WordsFault.TheVariants.{BadWords, NoMemory};
ghost use Rattle.smsc_cli.specs.words.Options.{is_given};
ghost use Rattle.smsc_cli.specs.words.LookWords.{AreLookOptions, AskForLook, IsIdOf, IsMessageText, IsNameText, IsNumberText, IsPartyText, IsStateWord, MayBe};
ghost use Rattle.smsc_cli.specs.words.LookWords.{SpelledFilter, SpelledLook, SpellsDigits, SpellsFilter, SpellsLook, Wants, is_state_word, look_command};
ghost use Rattle.smsc_cli.specs.words.LookWords.{look_value};

use crate::centre_table::Filter;
use crate::words::fault::{WordsFault, fault_of};
use crate::words::number::optional_count;
use crate::words::option::{Offer, is_set, offering};
use clap::{ArgMatches, Command, Error};
use sms_base::{Address, Digits, MessageId};
use std::alloc::{AllocError, Global};

// The options of a look, as text.
#[derive(Drop)]
struct LookOptions<'a> {
    store: Option<&'a str>,
    id: Option<&'a str>,
    from: Option<&'a str>,
    to: Option<&'a str>,
    account: Option<&'a str>,
    state: Option<&'a str>,
    last: Option<&'a str>,
    stuck: Option<&'a str>,
}

/// The command line of a look.
pub(crate) fn look_command<'a>(alloc: Global) -> Result<Command<'a>, AllocError>
    ensures { IfOk result (λ command. app_of command ≡ look_command) }
{
    offering(
        alloc,
        Command::new(alloc, "show"),
        &[
            Offer::Required("store"),
            Offer::Optional("id"),
            Offer::Optional("from"),
            Offer::Optional("to"),
            Offer::Optional("account"),
            Offer::Optional("state"),
            Offer::Optional("last"),
            Offer::Flag("stuck"),
        ],
    )
}

// The values of the options in the matches of the words.
fn options_of<'a>(matches: &ArgMatches<'a>) -> LookOptions<'a>
    ensures { AreLookOptions (λ name. first_value (found_of matches.now) name) result }
{
    LookOptions {
        store: matches.get_str("store"),
        id: matches.get_str("id"),
        from: matches.get_str("from"),
        to: matches.get_str("to"),
        account: matches.get_str("account"),
        state: matches.get_str("state"),
        last: matches.get_str("last"),
        stuck: matches.get_str("stuck"),
    }
}

fn look_options<'a>(alloc: Global, words: &'a [&'a str]) -> Result<LookOptions<'a>, Error>
    ensures options { IfOk result (λ o. AreLookOptions (λ name. look_value name (map (λ w. w.now) words.entry.now)) o) }
    ensures good { IfErr result (λ error. takes look_command (map (λ w. w.now) words.entry.now) ≡ true → kind_of error ≡ OutOfMemory) }
{
    let command = look_command(alloc)?;
    let matches = command.try_get_matches_from(words)?;
    Ok(options_of(&matches))
}

// ---- what they spell: none where a value spells nothing

fn id_of(word: Option<&str>) -> Option<Option<MessageId>>
    ensures found { IfSome result (λ id. Wants IsIdText (option_map (λ s. s.now) word.entry) id) }
    ensures none { IfNone result (¬ MayBe IsMessageText (option_map (λ s. s.now) word.entry)) }
{
    match word {
        Some(text) => Some(Some(MessageId::read(text.as_bytes())?)),
        None => Some(None),
    }
}

/// The number of a message, in ten decimal digits.
pub(crate) fn message_id_of(text: &str) -> Option<MessageId>
    ensures found { IfSome result (λ id. IsIdText text.now id) }
    ensures only { (id : ℕ) → IsIdOf text.now id → result ≡ Some id }
{
    MessageId::read(text.as_bytes())
}

// The characters of a name.
#[tactic(auto, using(crate::proofs::words::Parties::is_name_text))]
fn name_digits(text: &str) -> Option<Digits>
    ensures found { IfSome result (λ digits. SpellsDigits text.now digits) }
    ensures is { IfSome result (λ digits. IsNameText text.now) }
    ensures none { IfNone result (¬ IsNameText text.now) }
{
    match Address::new(5, 0, text) {
        Ok(address) => Some(address.digits),
        Err(_) => None,
    }
}

// The digits of a number.
#[tactic(auto, using(crate::proofs::words::Parties::is_number_text))]
fn number_digits(text: &str) -> Option<Digits>
    ensures found { IfSome result (λ digits. SpellsDigits text.now digits) }
    ensures is { IfSome result (λ digits. IsNumberText text.now) }
    ensures none { IfNone result (¬ IsNumberText text.now) }
{
    match Address::new(1, 1, text) {
        Ok(address) => Some(address.digits),
        Err(_) => None,
    }
}

// The digits of a number, or else the characters of a name.
fn digits_of(text: &str) -> Option<Digits>
    ensures found { IfSome result (λ digits. SpellsDigits text.now digits) }
    ensures is { IfSome result (λ digits. IsPartyText text.now) }
    ensures none { IfNone result (¬ IsPartyText text.now) }
{
    match number_digits(text) {
        Some(digits) => Some(digits),
        None => name_digits(text),
    }
}

fn party_of(word: Option<&str>) -> Option<Option<Digits>>
    ensures found { IfSome result (λ digits. Wants SpellsDigits (option_map (λ s. s.now) word.entry) digits) }
    ensures none { IfNone result (¬ MayBe IsPartyText (option_map (λ s. s.now) word.entry)) }
{
    match word {
        Some(text) => Some(Some(digits_of(text)?)),
        None => Some(None),
    }
}

/// Whether the text is the number of a message.
pub(crate) fn is_message(text: &str) -> bool
    ensures { (result ≡ true) ↔ IsMessageText text.now }
{
    MessageId::read(text.as_bytes()).is_some()
}

/// Whether the text is a number or a name.
pub(crate) fn is_party(text: &str) -> bool
    ensures { (result ≡ true) ↔ IsPartyText text.now }
{
    digits_of(text).is_some()
}

/// Whether the table has such a word for a state.
pub(crate) fn is_state_word(word: &str) -> bool
    ensures { result ≡ is_state_word word.now }
{
    word == "ENROUTE"
        || word == "DELIVRD"
        || word == "EXPIRED"
        || word == "DELETED"
        || word == "UNDELIV"
}

fn is_state_or_none(word: Option<&str>) -> bool
    ensures { (result ≡ true) ↔ MayBe IsStateWord (option_map (λ s. s.now) word.entry) }
{
    match word {
        Some(word) => is_state_word(word),
        None => true,
    }
}

fn filter_of<'a>(options: &LookOptions<'a>) -> Option<Filter<'a>>
    ensures found { IfSome result (λ filter. SpelledFilter options.entry.now filter) }
    ensures none { IfNone result (¬ SpellsFilter (option_map (λ s. s.now) options.entry.now.id) (option_map (λ s. s.now) options.entry.now.from)
        (option_map (λ s. s.now) options.entry.now.to) (option_map (λ s. s.now) options.entry.now.state) (option_map (λ s. s.now) options.entry.now.last)) }
{
    if !is_state_or_none(options.state) {
        return None;
    }
    let id = id_of(options.id)?;
    let from = party_of(options.from)?;
    let to = party_of(options.to)?;
    let last = optional_count(options.last)?;
    Some(Filter {
        id,
        from,
        to,
        account: options.account,
        state: options.state,
        last,
    })
}

// The store and the filter of options with these values, and whether what waits is shown by handset.
fn look_of<'a>(options: &LookOptions<'a>) -> Result<(&'a str, Filter<'a>, bool), WordsFault>
    ensures store { IfOk result (λ r. option_map (λ s. s.now) options.entry.now.store ≡ Some r.0.now) }
    ensures filter { IfOk result (λ r. SpelledFilter options.entry.now r.1) }
    ensures stuck { IfOk result (λ r. r.2 ≡ is_given (option_map (λ s. s.now) options.entry.now.stuck)) }
    ensures bad { IfErr result (λ fault. (fault ≡ BadWords) × (¬ SpellsLook (option_map (λ s. s.now) options.entry.now.store)
        (option_map (λ s. s.now) options.entry.now.id) (option_map (λ s. s.now) options.entry.now.from)
        (option_map (λ s. s.now) options.entry.now.to) (option_map (λ s. s.now) options.entry.now.state) (option_map (λ s. s.now) options.entry.now.last))) }
{
    match (options.store, filter_of(options)) {
        (Some(store), Some(filter)) => Ok((store, filter, is_set(options.stuck))),
        _ => Err(WordsFault::BadWords),
    }
}

/// The store that the words behind the program's name ask to look at, which of its messages, and whether what waits of them
/// is shown by handset.
#[tactic(auto, using(crate::proofs::words::Looked::looked, crate::proofs::words::Looked::given_to))]
pub(crate) fn look_words<'a>(
    alloc: Global,
    words: &'a [&'a str],
) -> Result<(&'a str, Filter<'a>, bool), WordsFault>
    ensures asked { IfOk result (λ r. SpelledLook (λ name. look_value name (map (λ w. w.now) words.entry.now)) r.0.now r.1 r.2) }
    ensures good { AskForLook (map (λ w. w.now) words.entry.now) → IfErr result (λ fault. fault ≡ NoMemory) }
{
    match look_options(alloc, words) {
        Ok(options) => look_of(&options),
        Err(error) => Err(fault_of(&error)),
    }
}
