//! The words of the simulator.
ghost use Rattle.std.specs.Prelude.{◌≡◌, ℕ, map, option_map, slice_get, codes, true, IfErr, IfNone, IfSome, IfOk, Some};
ghost use Rattle.clap.specs.Words.{app_of, first_value, found_of, kind_of, takes};
ghost use Rattle.clap.specs.declared.error.kind.ErrorKind.TheVariants.{OutOfMemory};
ghost use Rattle.smsc_cli.specs.declared.words.fault.WordsFault.TheVariants.{BadWords, NoMemory};
ghost use Rattle.smsc_cli.specs.words.SimWords.{AskForRelay, AsksFor, IsSeconds, Spelled, SpellsRelay, SpellsSeconds, is_relay, relay_command, value_of};

use crate::words::fault::{WordsFault, fault_of};
use crate::words::number::{address_of, is_decimal_text};
use crate::words::option::{Offer, offering};
use clap::{ArgMatches, Command, Error};
use sms_base::{Address, Moment};
use std::alloc::{AllocError, Global};

/// What a run of the simulator is to do.
#[derive(Clone, Copy, PartialEq, Eq)]
pub enum SimWords {
    /// `relay --centre NUMBER --from NUMBER --now SECONDS`.
    Relay {
        /// The number of the centre.
        centre: Address,
        /// The number of the sender.
        from: Address,
        /// The moment of the centre.
        now: Moment,
    },
}

// The options of a relay run, as text.
#[derive(Drop)]
struct RelayOptions<'a> {
    centre: Option<&'a str>,
    from: Option<&'a str>,
    now: Option<&'a str>,
}

// The values of the options in the matches of the words.
fn options_of<'a>(matches: &ArgMatches<'a>) -> RelayOptions<'a>
    ensures centre { option_map (λ s. s.now) result.centre ≡ first_value (found_of matches.now) (codes "centre") }
    ensures from { option_map (λ s. s.now) result.from ≡ first_value (found_of matches.now) (codes "from") }
    ensures now { option_map (λ s. s.now) result.now ≡ first_value (found_of matches.now) (codes "now") }
{
    RelayOptions {
        centre: matches.get_str("centre"),
        from: matches.get_str("from"),
        now: matches.get_str("now"),
    }
}

/// The command line of a relay run.
pub(crate) fn relay_command<'a>(alloc: Global) -> Result<Command<'a>, AllocError>
    ensures { IfOk result (λ command. app_of command ≡ relay_command) }
{
    offering(
        alloc,
        Command::new(alloc, "relay"),
        &[
            Offer::Required("centre"),
            Offer::Required("from"),
            Offer::Required("now"),
        ],
    )
}

fn relay_options<'a>(alloc: Global, words: &'a [&'a str]) -> Result<RelayOptions<'a>, Error>
    ensures centre { IfOk result (λ o. option_map (λ s. s.now) o.centre ≡ value_of (codes "centre") (map (λ w. w.now) words.entry.now)) }
    ensures from { IfOk result (λ o. option_map (λ s. s.now) o.from ≡ value_of (codes "from") (map (λ w. w.now) words.entry.now)) }
    ensures now { IfOk result (λ o. option_map (λ s. s.now) o.now ≡ value_of (codes "now") (map (λ w. w.now) words.entry.now)) }
    ensures good { IfErr result (λ error. takes relay_command (map (λ w. w.now) words.entry.now) ≡ true → kind_of error ≡ OutOfMemory) }
{
    let command = relay_command(alloc)?;
    let matches = command.try_get_matches_from(words)?;
    Ok(options_of(&matches))
}

/// The moment of a number of seconds, in decimal digits alone.
pub(crate) fn moment_of(text: &str) -> Option<Moment>
    ensures found { IfSome result (λ moment. SpellsSeconds text.now moment) }
    ensures only { (moment : ℕ) → IsSeconds text.now moment → result ≡ Some moment }
{
    if !is_decimal_text(text) {
        return None;
    }
    let seconds: u64 = text.parse().ok()?;
    Moment::from_seconds(seconds).ok()
}

fn spelled_relay(options: &RelayOptions<'_>) -> Option<SimWords>
    ensures found { IfSome result (λ words. Spelled (option_map (λ s. s.now) options.entry.now.centre) (option_map (λ s. s.now) options.entry.now.from)
        (option_map (λ s. s.now) options.entry.now.now) words) }
    ensures none { IfNone result (¬ SpellsRelay (option_map (λ s. s.now) options.entry.now.centre) (option_map (λ s. s.now) options.entry.now.from)
        (option_map (λ s. s.now) options.entry.now.now)) }
{
    let centre = address_of(options.centre?)?;
    let from = address_of(options.from?)?;
    let now = moment_of(options.now?)?;
    Some(SimWords::Relay { centre, from, now })
}

fn relay_words(options: &RelayOptions<'_>) -> Result<SimWords, WordsFault>
    ensures found { IfOk result (λ words. Spelled (option_map (λ s. s.now) options.entry.now.centre) (option_map (λ s. s.now) options.entry.now.from)
        (option_map (λ s. s.now) options.entry.now.now) words) }
    ensures bad { IfErr result (λ fault. (fault ≡ BadWords) ×
        (¬ SpellsRelay (option_map (λ s. s.now) options.entry.now.centre) (option_map (λ s. s.now) options.entry.now.from)
        (option_map (λ s. s.now) options.entry.now.now))) }
{
    match spelled_relay(options) {
        Some(words) => Ok(words),
        None => Err(WordsFault::BadWords),
    }
}

/// Whether the first word asks for a relay run.
pub(crate) fn is_relay(words: &[&str]) -> bool
    ensures { result ≡ is_relay (option_map (λ w. w.now) (slice_get words.now 0)) }
{
    match words.first() {
        Some(word) => *word == "relay",
        None => false,
    }
}

fn relay_asked(alloc: Global, words: &[&str]) -> Result<SimWords, WordsFault>
    ensures asked { IfOk result (λ asked. AsksFor (map (λ w. w.now) words.now) asked) }
    ensures good { AskForRelay (map (λ w. w.now) words.now) → IfErr result (λ fault. fault ≡ NoMemory) }
{
    match relay_options(alloc, words) {
        Ok(options) => relay_words(&options),
        Err(error) => Err(fault_of(&error)),
    }
}

/// The run that the words after the program's name ask of the simulator.
///
/// They are `relay --centre NUMBER --from NUMBER --now SECONDS`. A number is 1 to 20 digits 0 to 9. The seconds are
/// counted from 1970, in the years 2000 to 2099. All else is bad words, and words that ask for that run are refused for
/// want of memory alone. Each value is the one that clap's matches of the words have for its option.
pub fn sim_words(alloc: Global, words: &[&str]) -> Result<SimWords, WordsFault>
    ensures asked { IfOk result (λ asked. AsksFor (map (λ w. w.now) words.now) asked) }
    ensures good { is_relay (option_map (λ w. w.now) (slice_get words.now 0)) ≡ true → AskForRelay (map (λ w. w.now) words.now) → IfErr result
        (λ fault. fault ≡ NoMemory) }
{
    if is_relay(words) {
        relay_asked(alloc, words)
    } else {
        Err(WordsFault::BadWords)
    }
}
