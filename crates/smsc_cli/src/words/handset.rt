//! The words of a handset.
ghost use Rattle.std.specs.Prelude.{◌≡◌, map, drop, option_map, slice_get, codes, true, IfErr, IfNone, IfSome, IfOk};
ghost use Rattle.clap.specs.Words.{app_of, first_value, found_of, kind_of, takes};
ghost use Rattle.clap.specs.declared.error.kind.ErrorKind.TheVariants.{OutOfMemory};
ghost use Rattle.smsc_cli.specs.declared.words.fault.WordsFault.TheVariants.{BadWords, NoMemory};
ghost use Rattle.smsc_cli.specs.words.HandsetWords.{AskForRun, AskForShow, AskForSome, AsksFor, AsksToRun, AsksToShow, SpelledRun, SpellsRun, is_show};
ghost use Rattle.smsc_cli.specs.words.HandsetWords.{run_command, run_value, show_command, show_value};

use crate::words::fault::{WordsFault, fault_of};
use crate::words::number::{address_of, count_of, port_of, slots_of};
use crate::words::option::{Offer, offering};
use clap::{ArgMatches, Command, Error};
use sms_base::Address;
use std::alloc::{AllocError, Global};

/// What a run of a handset is to do.
#[derive(Clone, Copy)]
pub enum HandsetWords<'a> {
    /// `--connect PORT --number NUMBER --centre NUMBER --slots K --store FILE --frames N`, and as wanted `--secret FILE`.
    Run {
        /// The port of the centre, on this machine.
        connect: u16,
        /// The handset's own number.
        number: Address,
        /// The number of the centre.
        centre: Address,
        /// How many parts its store has room for.
        slots: u8,
        /// The path of its store.
        store: &'a str,
        /// The run ends after so many frames.
        frames: u32,
        /// The path of a file with the secret of its links.
        secret: Option<&'a str>,
    },
    /// `show --store FILE`.
    Show {
        /// The path of the store.
        store: &'a str,
    },
}

// The options of a run, as text.
#[derive(Drop)]
struct RunOptions<'a> {
    connect: Option<&'a str>,
    number: Option<&'a str>,
    centre: Option<&'a str>,
    slots: Option<&'a str>,
    store: Option<&'a str>,
    frames: Option<&'a str>,
    secret: Option<&'a str>,
}

/// The command line of a run: what it must have, what it is to do wrong on purpose, and the secret of its links.
pub(crate) fn run_command<'a>(alloc: Global) -> Result<Command<'a>, AllocError>
    ensures { IfOk result (λ command. app_of command ≡ run_command) }
{
    offering(
        alloc,
        Command::new(alloc, "handset"),
        &[
            Offer::Required("connect"),
            Offer::Required("number"),
            Offer::Required("centre"),
            Offer::Required("slots"),
            Offer::Required("store"),
            Offer::Required("frames"),
            Offer::Optional("refuse"),
            Offer::Optional("slow"),
            Offer::Optional("full-after"),
            Offer::Flag("silent"),
            Offer::Optional("drop"),
            Offer::Optional("seed"),
            Offer::Optional("secret"),
        ],
    )
}

/// The command line of a look at a store.
pub(crate) fn show_command<'a>(alloc: Global) -> Result<Command<'a>, AllocError>
    ensures { IfOk result (λ command. app_of command ≡ show_command) }
{
    offering(
        alloc,
        Command::new(alloc, "show"),
        &[Offer::Required("store")],
    )
}

// The values of the options in the matches of the words.
fn options_of<'a>(matches: &ArgMatches<'a>) -> RunOptions<'a>
    ensures connect { option_map (λ s. s.now) result.connect ≡ first_value (found_of matches.now) (codes "connect") }
    ensures number { option_map (λ s. s.now) result.number ≡ first_value (found_of matches.now) (codes "number") }
    ensures centre { option_map (λ s. s.now) result.centre ≡ first_value (found_of matches.now) (codes "centre") }
    ensures slots { option_map (λ s. s.now) result.slots ≡ first_value (found_of matches.now) (codes "slots") }
    ensures store { option_map (λ s. s.now) result.store ≡ first_value (found_of matches.now) (codes "store") }
    ensures frames { option_map (λ s. s.now) result.frames ≡ first_value (found_of matches.now) (codes "frames") }
    ensures secret { option_map (λ s. s.now) result.secret ≡ first_value (found_of matches.now) (codes "secret") }
{
    RunOptions {
        connect: matches.get_str("connect"),
        number: matches.get_str("number"),
        centre: matches.get_str("centre"),
        slots: matches.get_str("slots"),
        store: matches.get_str("store"),
        frames: matches.get_str("frames"),
        secret: matches.get_str("secret"),
    }
}

fn run_options<'a>(alloc: Global, words: &'a [&'a str]) -> Result<RunOptions<'a>, Error>
    ensures connect { IfOk result (λ o. option_map (λ s. s.now) o.connect ≡ run_value (codes "connect") (map (λ w. w.now) words.entry.now)) }
    ensures number { IfOk result (λ o. option_map (λ s. s.now) o.number ≡ run_value (codes "number") (map (λ w. w.now) words.entry.now)) }
    ensures centre { IfOk result (λ o. option_map (λ s. s.now) o.centre ≡ run_value (codes "centre") (map (λ w. w.now) words.entry.now)) }
    ensures slots { IfOk result (λ o. option_map (λ s. s.now) o.slots ≡ run_value (codes "slots") (map (λ w. w.now) words.entry.now)) }
    ensures store { IfOk result (λ o. option_map (λ s. s.now) o.store ≡ run_value (codes "store") (map (λ w. w.now) words.entry.now)) }
    ensures frames { IfOk result (λ o. option_map (λ s. s.now) o.frames ≡ run_value (codes "frames") (map (λ w. w.now) words.entry.now)) }
    ensures secret { IfOk result (λ o. option_map (λ s. s.now) o.secret ≡ run_value (codes "secret") (map (λ w. w.now) words.entry.now)) }
    ensures good { IfErr result (λ error. takes run_command (map (λ w. w.now) words.entry.now) ≡ true → kind_of error ≡ OutOfMemory) }
{
    let command = run_command(alloc)?;
    let matches = command.try_get_matches_from(words)?;
    Ok(options_of(&matches))
}

fn shown_store<'a>(alloc: Global, words: &'a [&'a str]) -> Result<Option<&'a str>, Error>
    ensures store { IfOk result (λ store. option_map (λ s. s.now) store ≡ show_value (codes "store") (map (λ w. w.now) words.entry.now)) }
    ensures good { IfErr result (λ error. takes show_command (map (λ w. w.now) words.entry.now) ≡ true → kind_of error ≡ OutOfMemory) }
{
    let command = show_command(alloc)?;
    let matches = command.try_get_matches_from(words)?;
    Ok(matches.get_str("store"))
}

fn spelled_run<'a>(options: &RunOptions<'a>) -> Option<HandsetWords<'a>>
    ensures found { IfSome result (λ words. SpelledRun (option_map (λ s. s.now) options.entry.now.connect) (option_map (λ s. s.now) options.entry.now.number)
        (option_map (λ s. s.now) options.entry.now.centre) (option_map (λ s. s.now) options.entry.now.slots) (option_map (λ s. s.now) options.entry.now.store)
        (option_map (λ s. s.now) options.entry.now.frames) (option_map (λ s. s.now) options.entry.now.secret) words) }
    ensures none { IfNone result (¬ SpellsRun (option_map (λ s. s.now) options.entry.now.connect) (option_map (λ s. s.now) options.entry.now.number)
        (option_map (λ s. s.now) options.entry.now.centre) (option_map (λ s. s.now) options.entry.now.slots) (option_map (λ s. s.now) options.entry.now.store)
        (option_map (λ s. s.now) options.entry.now.frames)) }
{
    let connect = port_of(options.connect?)?;
    let number = address_of(options.number?)?;
    let centre = address_of(options.centre?)?;
    let slots = slots_of(options.slots?)?;
    let store = options.store?;
    let frames = count_of(options.frames?)?;
    Some(HandsetWords::Run {
        connect,
        number,
        centre,
        slots,
        store,
        frames,
        secret: options.secret,
    })
}

fn run_words<'a>(options: &RunOptions<'a>) -> Result<HandsetWords<'a>, WordsFault>
    ensures found { IfOk result (λ words. SpelledRun (option_map (λ s. s.now) options.entry.now.connect) (option_map (λ s. s.now) options.entry.now.number)
        (option_map (λ s. s.now) options.entry.now.centre) (option_map (λ s. s.now) options.entry.now.slots) (option_map (λ s. s.now) options.entry.now.store)
        (option_map (λ s. s.now) options.entry.now.frames) (option_map (λ s. s.now) options.entry.now.secret) words) }
    ensures bad { IfErr result (λ fault. (fault ≡ BadWords) ×
        (¬ SpellsRun (option_map (λ s. s.now) options.entry.now.connect) (option_map (λ s. s.now) options.entry.now.number)
        (option_map (λ s. s.now) options.entry.now.centre) (option_map (λ s. s.now) options.entry.now.slots) (option_map (λ s. s.now) options.entry.now.store)
        (option_map (λ s. s.now) options.entry.now.frames))) }
{
    match spelled_run(options) {
        Some(words) => Ok(words),
        None => Err(WordsFault::BadWords),
    }
}

fn run_asked<'a>(alloc: Global, words: &'a [&'a str]) -> Result<HandsetWords<'a>, WordsFault>
    ensures asked { IfOk result (λ asked. AsksToRun (map (λ w. w.now) words.entry.now) asked) }
    ensures good { AskForRun (map (λ w. w.now) words.entry.now) → IfErr result (λ fault. fault ≡ NoMemory) }
{
    match run_options(alloc, words) {
        Ok(options) => run_words(&options),
        Err(error) => Err(fault_of(&error)),
    }
}

fn show_asked<'a>(alloc: Global, words: &'a [&'a str]) -> Result<HandsetWords<'a>, WordsFault>
    ensures asked { IfOk result (λ asked. AsksToShow (map (λ w. w.now) words.entry.now) asked) }
    ensures good { AskForShow (map (λ w. w.now) words.entry.now) → IfErr result (λ fault. fault ≡ NoMemory) }
{
    match shown_store(alloc, words) {
        Ok(Some(store)) => Ok(HandsetWords::Show { store }),
        Ok(None) => Err(WordsFault::BadWords),
        Err(error) => Err(fault_of(&error)),
    }
}

/// Whether the second word asks for a look.
pub(crate) fn is_show(words: &[&str]) -> bool
    ensures { result ≡ is_show (option_map (λ w. w.now) (slice_get words.now 1)) }
{
    match words.get(1) {
        Some(word) => *word == "show",
        None => false,
    }
}

/// The run that the words ask of a handset, the program's own name first.
///
/// They are `--connect PORT --number NUMBER --centre NUMBER --slots K --store FILE --frames N` in any order, perhaps with
/// `--secret FILE`, or `show --store FILE`. A PORT is 1 to 65535, a NUMBER 1 to 20 digits 0 to 9, and K 1 to 255. FILE is a path, and
/// N 0 to 4294967295. All else is bad words, and words that ask for something are refused for want of memory alone. Each value
/// is the one that clap's matches of the words have for its option.
pub fn handset_words<'a>(
    alloc: Global,
    words: &'a [&'a str],
) -> Result<HandsetWords<'a>, WordsFault>
    ensures asked { IfOk result (AsksFor (option_map (λ w. w.now) (slice_get words.entry.now 1)) (map (λ w. w.now) words.entry.now)
        (map (λ w. w.now) (drop 1 words.entry.now))) }
    ensures good { AskForSome (option_map (λ w. w.now) (slice_get words.entry.now 1)) (map (λ w. w.now) words.entry.now)
        (map (λ w. w.now) (drop 1 words.entry.now)) → IfErr result (λ fault. fault ≡ NoMemory) }
{
    if words.len() > 1 && is_show(words) {
        return show_asked(alloc, &words[1..]);
    }
    run_asked(alloc, words)
}
