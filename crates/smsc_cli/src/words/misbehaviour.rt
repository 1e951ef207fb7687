//! What a handset is to do wrong on purpose.
ghost use Rattle.std.specs.Prelude.{◌≡◌, Some, true, map, option_map, IfErr, IfNone, IfSome, IfOk};
ghost use Rattle.clap.specs.Words.{first_value, found_of, kind_of, takes};
ghost use Rattle.clap.specs.declared.error.kind.ErrorKind.TheVariants.{OutOfMemory};
ghost use Rattle.smsc_cli.specs.declared.words.fault.WordsFault.TheVariants.{BadWords, NoMemory};
ghost use Rattle.smsc_cli.specs.words.HandsetWords.{run_command, run_value};
ghost use Rattle.smsc_cli.specs.words.LookWords.{IsCountText, MayBe, Wants};
ghost use Rattle.smsc_cli.specs.words.MisbehaviourWords.{AreMisbehaviourOptions, AskForMisbehaviour, IsCauseText, IsPercentText, IsRefusalText};
ghost use Rattle.smsc_cli.specs.words.MisbehaviourWords.{SpelledMisbehaviour, SpelledMisbehaviourOptions, SpellsCause, SpellsMisbehaviour, SpellsPercent};
ghost use Rattle.smsc_cli.specs.words.MisbehaviourWords.{SpellsRefusal};

use crate::words::account::at_colon;
use crate::words::fault::{WordsFault, fault_of};
use crate::words::handset::run_command;
use crate::words::number::{count_of, optional_count, small_of};
use crate::words::option::is_set;
use clap::{ArgMatches, Error};
use std::alloc::Global;

/// A handset that refuses what is offered to it.
#[derive(Clone, Copy, PartialEq, Eq)]
pub struct Refusal {
    /// The cause of the RP-ERROR, 0 to 127 (3GPP TS 24.011 8.2.5.4).
    pub cause: u8,
    /// The handset refuses so many and takes the next; all of them where this is none.
    pub count: Option<u32>,
}

/// What a handset is to do wrong on purpose.
#[derive(Clone, Copy, PartialEq, Eq)]
pub struct Misbehaviour {
    /// The handset refuses what is offered.
    pub refuses: Option<Refusal>,
    /// The handset lets so many seconds pass before it looks at an offer.
    pub slow: Option<u32>,
    /// The handset is full once it has taken so many offers.
    pub full_after: Option<u32>,
    /// The handset takes offers and never answers.
    pub is_silent: bool,
    /// So many of a hundred frames get lost, to it and from it.
    pub drops: Option<u8>,
    /// Which of them: a run with one seed loses the same ones.
    pub seed: Option<u32>,
}

// The options, as text.
#[derive(Drop)]
struct MisbehaviourOptions<'a> {
    refuse: Option<&'a str>,
    slow: Option<&'a str>,
    full_after: Option<&'a str>,
    silent: Option<&'a str>,
    drop: Option<&'a str>,
    seed: Option<&'a str>,
}

// The values of the options in the matches of the words.
fn options_of<'a>(matches: &ArgMatches<'a>) -> MisbehaviourOptions<'a>
    ensures { AreMisbehaviourOptions (λ name. first_value (found_of matches.now) name) result }
{
    MisbehaviourOptions {
        refuse: matches.get_str("refuse"),
        slow: matches.get_str("slow"),
        full_after: matches.get_str("full-after"),
        silent: matches.get_str("silent"),
        drop: matches.get_str("drop"),
        seed: matches.get_str("seed"),
    }
}

fn misbehaviour_options<'a>(
    alloc: Global,
    words: &'a [&'a str],
) -> Result<MisbehaviourOptions<'a>, Error>
    ensures options { IfOk result (λ o. AreMisbehaviourOptions (λ name. run_value name (map (λ w. w.now) words.entry.now)) o) }
    ensures good { IfErr result (λ error. takes run_command (map (λ w. w.now) words.entry.now) ≡ true → kind_of error ≡ OutOfMemory) }
{
    let command = run_command(alloc)?;
    let matches = command.try_get_matches_from(words)?;
    Ok(options_of(&matches))
}

// ---- what they spell: none where a value spells nothing

fn cause_of(text: &str) -> Option<u8>
    ensures found { IfSome result (λ cause. SpellsCause text.now cause) }
    ensures none { IfNone result (¬ IsCauseText text.now) }
{
    small_of(text, 127)
}

/// What `CAUSE` or `CAUSE:COUNT` spells.
pub(crate) fn refusal_of(text: &str) -> Option<Refusal>
    ensures found { IfSome result (λ refusal. SpellsRefusal text.now refusal) }
    ensures none { IfNone result (¬ IsRefusalText text.now) }
{
    match at_colon(text) {
        Some((before, behind)) => {
            let cause = cause_of(before)?;
            let count = count_of(behind)?;
            Some(Refusal {
                cause,
                count: Some(count),
            })
        }
        None => {
            let cause = cause_of(text)?;
            Some(Refusal { cause, count: None })
        }
    }
}

fn optional_refusal(word: Option<&str>) -> Option<Option<Refusal>>
    ensures found { IfSome result (λ refusal. Wants SpellsRefusal (option_map (λ s. s.now) word.entry) refusal) }
    ensures none { IfNone result (¬ MayBe IsRefusalText (option_map (λ s. s.now) word.entry)) }
{
    match word {
        Some(text) => Some(Some(refusal_of(text)?)),
        None => Some(None),
    }
}

/// So many of a hundred.
pub(crate) fn percent_of(text: &str) -> Option<u8>
    ensures found { IfSome result (λ percent. SpellsPercent text.now percent) }
    ensures none { IfNone result (¬ IsPercentText text.now) }
{
    small_of(text, 100)
}

fn optional_percent(word: Option<&str>) -> Option<Option<u8>>
    ensures found { IfSome result (λ percent. Wants SpellsPercent (option_map (λ s. s.now) word.entry) percent) }
    ensures none { IfNone result (¬ MayBe IsPercentText (option_map (λ s. s.now) word.entry)) }
{
    match word {
        Some(text) => Some(Some(percent_of(text)?)),
        None => Some(None),
    }
}

fn misbehaviour_of(options: &MisbehaviourOptions<'_>) -> Option<Misbehaviour>
    ensures found { IfSome result (λ m. SpelledMisbehaviourOptions options.entry.now m) }
    ensures none { IfNone result (¬ SpellsMisbehaviour (option_map (λ s. s.now) options.entry.now.refuse) (option_map (λ s. s.now) options.entry.now.slow)
        (option_map (λ s. s.now) options.entry.now.full_after) (option_map (λ s. s.now) options.entry.now.drop)
        (option_map (λ s. s.now) options.entry.now.seed)) }
{
    let refuses = optional_refusal(options.refuse)?;
    let slow = optional_count(options.slow)?;
    let full_after = optional_count(options.full_after)?;
    let drops = optional_percent(options.drop)?;
    let seed = optional_count(options.seed)?;
    let is_silent = is_set(options.silent);
    Some(Misbehaviour {
        refuses,
        slow,
        full_after,
        is_silent,
        drops,
        seed,
    })
}

fn misbehaviour_in(options: &MisbehaviourOptions<'_>) -> Result<Misbehaviour, WordsFault>
    ensures found { IfOk result (λ m. SpelledMisbehaviourOptions options.entry.now m) }
    ensures bad { IfErr result (λ fault. (fault ≡ BadWords) × (¬ SpellsMisbehaviour (option_map (λ s. s.now) options.entry.now.refuse)
        (option_map (λ s. s.now) options.entry.now.slow) (option_map (λ s. s.now) options.entry.now.full_after)
        (option_map (λ s. s.now) options.entry.now.drop) (option_map (λ s. s.now) options.entry.now.seed))) }
{
    match misbehaviour_of(options) {
        Some(misbehaviour) => Ok(misbehaviour),
        None => Err(WordsFault::BadWords),
    }
}

/// What the words of a run ask a handset to do wrong, the program's own name first.
///
/// They are `--refuse CAUSE[:COUNT]`, `--slow SECONDS`, `--full-after N`, `--silent`, `--drop PERCENT` and `--seed N`, each
/// as wanted. CAUSE is 0 to 127, PERCENT 0 to 100, and the others are 0 to 4294967295. All else is bad words.
#[tactic(auto, using(crate::proofs::words::Misbehaved::misbehaved, crate::proofs::words::Misbehaved::given_to))]
pub fn misbehaviour_words<'a>(
    alloc: Global,
    words: &'a [&'a str],
) -> Result<Misbehaviour, WordsFault>
    ensures asked { IfOk result (λ m. SpelledMisbehaviour (λ name. run_value name (map (λ w. w.now) words.entry.now)) m) }
    ensures good { AskForMisbehaviour (map (λ w. w.now) words.entry.now) → IfErr result (λ fault. fault ≡ NoMemory) }
{
    match misbehaviour_options(alloc, words) {
        Ok(options) => misbehaviour_in(&options),
        Err(error) => Err(fault_of(&error)),
    }
}
