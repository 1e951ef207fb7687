//! The words of the server.
ghost use Rattle.std.specs.Prelude.{◌≡◌, ◌<◌, [], length, List, Some, true, false, map, drop, option_map, slice_get, codes, IfErr, IfNone, IfSome, IfOk};
ghost use Rattle.clap.specs.Words.{app_of, first_value, found_of, kind_of, matched_of, raw_values, takes};
ghost use Rattle.clap.specs.declared.error.kind.ErrorKind.TheVariants.{OutOfMemory};
ghost use Rattle.smsc_cli.specs.declared.words.account.AccountWords.{AccountWords as AccountWordsOf};
ghost use Rattle.smsc_cli.specs.declared.words.fault.WordsFault.TheVariants.{BadWords, NoMemory};
ghost use Rattle.smsc_cli.specs.words.Accounts.{AddsAll};
ghost use Rattle.smsc_cli.specs.words.SimWords.{Gives, Spells};
ghost use Rattle.sms_base.specs.MessageId.{IsIdText};
ghost use Rattle.smsc_cli.specs.words.LookWords.{AskForLook, IsIdOf, MayBe, Wants};
ghost use Rattle.smsc_cli.specs.words.Numbers.{IsCount, SpellsCount, SpellsFrom};
ghost use Rattle.smsc_cli.specs.words.ServerWords.{AreOptionsOf, AskForEnd, AskForPassword, AskForReload, AskForSave, AskForServer, AskForStop, AskServer};
ghost use Rattle.smsc_cli.specs.words.ServerWords.{AskToOrder, AsksForPassword, AsksOfServer, AsksToEnd, AsksToLook, AsksToOrder, AsksToReload, AsksToSave};
ghost use Rattle.smsc_cli.specs.words.ServerWords.{AsksToServe, AsksToStop, IsPortText, SpelledOptions, SpelledServer, SpellsEnd, SpellsOrder, SpellsServer};
ghost use Rattle.smsc_cli.specs.words.ServerWords.{SpellsStop};
ghost use Rattle.smsc_cli.specs.words.ServerWords.{account_texts, end_command, end_value, is_word, listed, order_command, order_value};
ghost use Rattle.smsc_cli.specs.words.ServerWords.{reload_command, reload_value, save_command, save_value, server_command, server_value, stop_command};
ghost use Rattle.smsc_cli.specs.words.ServerWords.{stop_value};

use crate::centre_table::Filter;
use crate::words::account::AccountWords;
use crate::words::accounts::accounts_of;
use crate::words::detail::{LogDetail, detail_of};
use crate::words::fault::{WordsFault, fault_of};
use crate::words::look::{look_words, message_id_of};
use crate::words::number::{address_of, count_of, optional_count, port_of};
use crate::words::option::{Offer, is_set, offering};
use clap::{ArgMatches, Command, Error};
use sms_base::{Address, MessageId};
use std::alloc::{AllocError, Global};

/// What a run of the server is to do, but for its accounts.
#[derive(Clone, Copy)]
pub struct ServerRun<'a> {
    /// The path of its store.
    pub store: &'a str,
    /// The port for applications, on this machine.
    pub smpp: u16,
    /// The port for handsets, on this machine.
    pub links: u16,
    /// The number of the centre.
    pub centre: Address,
    /// The run ends after so many connections; by an order alone where they are not counted.
    pub sessions: Option<u32>,
    /// The path of a file with accounts, one a line.
    pub accounts: Option<&'a str>,
    /// The path of a file with the secrets of links, one a line.
    pub link_secrets: Option<&'a str>,
    /// The path of the socket for an operator's orders.
    pub control: Option<&'a str>,
    /// The port of the status page, on this machine.
    pub status: Option<u16>,
    /// Ended messages are kept for so many days; for ever where the words don't say.
    pub keep: Option<u32>,
    /// The path of a file to which what is forgotten is written.
    pub archive: Option<&'a str>,
    /// Rows that are ahead of the clock are right.
    pub is_ahead: bool,
    /// A new store may begin where the log of another one lies.
    pub begins_anew: bool,
    /// What damage took from the store is given up.
    pub accepts_loss: bool,
    /// Others may read the files with passwords and secrets.
    pub opens_accounts: bool,
    /// What the log has besides.
    pub log: LogDetail,
}

/// What the words ask of the server.
#[derive(Drop)]
pub enum ServerWords<'a> {
    /// `--store FILE --smpp PORT --links PORT --centre NUMBER`, and as wanted `--sessions N`, `--accounts FILE`,
    /// `--link-secrets FILE`, `--control PATH`, `--status PORT`, `--ahead`, `--log WORD`, `--new-store`,
    /// `--accept-loss`, `--accounts-open`, `--keep DAYS`, `--archive FILE` and accounts.
    Run(ServerRun<'a>, Vec<AccountWords<'a>>),
    /// `show --store FILE`, perhaps with options of a filter.
    Show {
        /// The path of the store.
        store: &'a str,
        /// Which messages.
        filter: Filter<'a>,
        /// What waits of them is shown, by handset.
        by_handset: bool,
    },
    /// `save --store FILE --to FILE`.
    Save {
        /// The path of the store.
        store: &'a str,
        /// The path of the copy.
        to: &'a str,
    },
    /// `stop --control PATH`, perhaps with `--wait SECONDS`.
    Stop {
        /// The path of the server's socket.
        control: &'a str,
        /// So many seconds the run may take to end.
        wait: Option<u32>,
    },
    /// `end --control PATH SEAT`.
    End {
        /// The path of the server's socket.
        control: &'a str,
        /// The number of the seat.
        seat: u32,
    },
    /// `reload --control PATH`.
    Reload {
        /// The path of the server's socket.
        control: &'a str,
    },
    /// `retry --control PATH ID` or `cancel --control PATH ID`.
    Order {
        /// The path of the server's socket.
        control: &'a str,
        /// What is ordered.
        order: OrderWord,
        /// The number of the message.
        id: MessageId,
    },
    /// `password`.
    Password,
}

/// What can be ordered of a message.
#[derive(Clone, Copy, PartialEq, Eq)]
pub enum OrderWord {
    /// What waits of the message is due now.
    Retry,
    /// The message is deleted.
    Cancel,
}

// The options of a run, as text.
#[derive(Drop)]
struct Options<'a> {
    store: Option<&'a str>,
    smpp: Option<&'a str>,
    links: Option<&'a str>,
    centre: Option<&'a str>,
    sessions: Option<&'a str>,
    accounts: Option<&'a str>,
    link_secrets: Option<&'a str>,
    control: Option<&'a str>,
    status: Option<&'a str>,
    keep: Option<&'a str>,
    archive: Option<&'a str>,
    ahead: Option<&'a str>,
    log: Option<&'a str>,
    new_store: Option<&'a str>,
    accept_loss: Option<&'a str>,
    accounts_open: Option<&'a str>,
    words: Vec<&'a str>,
}

/// The command line of a run: what it must have, and what it may have.
pub(crate) fn run_command<'a>(alloc: Global) -> Result<Command<'a>, AllocError>
    ensures { IfOk result (λ command. app_of command ≡ server_command) }
{
    offering(
        alloc,
        Command::new(alloc, "smscd"),
        &[
            Offer::Required("store"),
            Offer::Required("smpp"),
            Offer::Required("links"),
            Offer::Required("centre"),
            Offer::Optional("sessions"),
            Offer::Optional("accounts"),
            Offer::Optional("link-secrets"),
            Offer::Optional("control"),
            Offer::Optional("status"),
            Offer::Flag("ahead"),
            Offer::Optional("log"),
            // What an operator says of a store or of accounts that a run would refuse.
            Offer::Flag("new-store"),
            Offer::Flag("accept-loss"),
            Offer::Flag("accounts-open"),
            // How long ended messages are kept, and where what goes is written.
            Offer::Optional("keep"),
            Offer::Optional("archive"),
            Offer::Words("account"),
        ],
    )
}

/// The command line of a copy.
pub(crate) fn save_command<'a>(alloc: Global) -> Result<Command<'a>, AllocError>
    ensures { IfOk result (λ command. app_of command ≡ save_command) }
{
    offering(
        alloc,
        Command::new(alloc, "save"),
        &[Offer::Required("store"), Offer::Required("to")],
    )
}

/// The command line of an order to stop.
pub(crate) fn stop_command<'a>(alloc: Global) -> Result<Command<'a>, AllocError>
    ensures { IfOk result (λ command. app_of command ≡ stop_command) }
{
    offering(
        alloc,
        Command::new(alloc, "stop"),
        &[Offer::Required("control"), Offer::Optional("wait")],
    )
}

/// The command line of an order to end a connection.
pub(crate) fn end_command<'a>(alloc: Global) -> Result<Command<'a>, AllocError>
    ensures { IfOk result (λ command. app_of command ≡ end_command) }
{
    offering(
        alloc,
        Command::new(alloc, "end"),
        &[Offer::Required("control"), Offer::Word("seat")],
    )
}

/// The command line of an order to read the accounts again.
pub(crate) fn reload_command<'a>(alloc: Global) -> Result<Command<'a>, AllocError>
    ensures { IfOk result (λ command. app_of command ≡ reload_command) }
{
    offering(
        alloc,
        Command::new(alloc, "reload"),
        &[Offer::Required("control")],
    )
}

/// The command line of an order of a message.
pub(crate) fn order_command<'a>(alloc: Global, order: OrderWord) -> Result<Command<'a>, AllocError>
    ensures { IfOk result (λ command. app_of command ≡ order_command order) }
{
    match order {
        OrderWord::Retry => offering(
            alloc,
            Command::new(alloc, "retry"),
            &[Offer::Required("control"), Offer::Word("id")],
        ),
        OrderWord::Cancel => offering(
            alloc,
            Command::new(alloc, "cancel"),
            &[Offer::Required("control"), Offer::Word("id")],
        ),
    }
}

/// The words that no option takes, in the matches of the words.
pub(crate) fn texts_of<'a>(
    alloc: Global,
    matches: &ArgMatches<'a>,
) -> Result<Vec<&'a str>, AllocError>
    ensures { IfOk result (λ texts. map (λ s. s.now) texts.items ≡ listed (option_map raw_values (matched_of (found_of matches.now) (codes "account")))) }
{
    match matches.get_strs("account") {
        Some(words) => Vec::from_slice(alloc, words),
        None => Ok(Vec::new(alloc)),
    }
}

// The values of the options in the matches of the words.
fn options_of<'a>(alloc: Global, matches: &ArgMatches<'a>) -> Result<Options<'a>, AllocError>
    ensures { IfOk result (λ o. AreOptionsOf (λ name. first_value (found_of matches.now) name)
        (listed (option_map raw_values (matched_of (found_of matches.now) (codes "account")))) o) }
{
    let words = texts_of(alloc, matches)?;
    Ok(Options {
        store: matches.get_str("store"),
        smpp: matches.get_str("smpp"),
        links: matches.get_str("links"),
        centre: matches.get_str("centre"),
        sessions: matches.get_str("sessions"),
        accounts: matches.get_str("accounts"),
        link_secrets: matches.get_str("link-secrets"),
        control: matches.get_str("control"),
        status: matches.get_str("status"),
        keep: matches.get_str("keep"),
        archive: matches.get_str("archive"),
        ahead: matches.get_str("ahead"),
        log: matches.get_str("log"),
        new_store: matches.get_str("new-store"),
        accept_loss: matches.get_str("accept-loss"),
        accounts_open: matches.get_str("accounts-open"),
        words,
    })
}

fn run_options<'a>(alloc: Global, words: &'a [&'a str]) -> Result<Options<'a>, Error>
    ensures options { IfOk result (λ o. AreOptionsOf (λ name. server_value name (map (λ w. w.now) words.entry.now))
        (account_texts (map (λ w. w.now) words.entry.now)) o) }
    ensures good { IfErr result (λ error. takes server_command (map (λ w. w.now) words.entry.now) ≡ true → kind_of error ≡ OutOfMemory) }
{
    let command = run_command(alloc)?;
    let matches = command.try_get_matches_from(words)?;
    let options = options_of(alloc, &matches)?;
    Ok(options)
}

// The port of the status page, if the words ask for one; none where the word is no port.
fn status_of(word: Option<&str>) -> Option<Option<u16>>
    ensures found { IfSome result (λ port. Wants (SpellsFrom 1) (option_map (λ s. s.now) word.entry) port) }
    ensures none { IfNone result (¬ MayBe IsPortText (option_map (λ s. s.now) word.entry)) }
{
    match word {
        Some(text) => Some(Some(port_of(text)?)),
        None => Some(None),
    }
}

fn run_of<'a>(options: &Options<'a>) -> Option<ServerRun<'a>>
    ensures found { IfSome result (λ run. SpelledOptions options.entry.now run) }
    ensures none { IfNone result (¬ (SpellsServer (option_map (λ s. s.now) options.entry.now.store) (option_map (λ s. s.now) options.entry.now.smpp)
        (option_map (λ s. s.now) options.entry.now.links) (option_map (λ s. s.now) options.entry.now.centre)
        (option_map (λ s. s.now) options.entry.now.sessions) (option_map (λ s. s.now) options.entry.now.status)
        (option_map (λ s. s.now) options.entry.now.keep) (option_map (λ s. s.now) options.entry.now.log))) }
{
    let store = options.store?;
    let smpp = port_of(options.smpp?)?;
    let links = port_of(options.links?)?;
    let centre = address_of(options.centre?)?;
    let sessions = optional_count(options.sessions)?;
    let status = status_of(options.status)?;
    let keep = optional_count(options.keep)?;
    let log = detail_of(options.log)?;
    let is_ahead = is_set(options.ahead);
    let begins_anew = is_set(options.new_store);
    let accepts_loss = is_set(options.accept_loss);
    let opens_accounts = is_set(options.accounts_open);
    Some(ServerRun {
        store,
        smpp,
        links,
        centre,
        sessions,
        accounts: options.accounts,
        link_secrets: options.link_secrets,
        control: options.control,
        status,
        keep,
        archive: options.archive,
        is_ahead,
        begins_anew,
        accepts_loss,
        opens_accounts,
        log,
    })
}

// The words of the options spell a run, with these accounts.
fn run_words<'a>(
    alloc: Global,
    options: &Options<'a>,
) -> Result<(ServerRun<'a>, Vec<AccountWords<'a>>), WordsFault>
    ensures run { IfOk result (λ r. SpelledOptions options.entry.now r.0) }
    ensures accounts { IfOk result (λ r. AddsAll (map (λ s. s.now) options.entry.now.words.items) [] r.1.items) }
    ensures bad { IfErr result (λ fault. fault ≡ BadWords → (accounts : List AccountWordsOf) →
        AddsAll (map (λ s. s.now) options.entry.now.words.items) [] accounts →
        ¬ (SpellsServer (option_map (λ s. s.now) options.entry.now.store) (option_map (λ s. s.now) options.entry.now.smpp)
        (option_map (λ s. s.now) options.entry.now.links) (option_map (λ s. s.now) options.entry.now.centre)
        (option_map (λ s. s.now) options.entry.now.sessions) (option_map (λ s. s.now) options.entry.now.status)
        (option_map (λ s. s.now) options.entry.now.keep) (option_map (λ s. s.now) options.entry.now.log))) }
{
    let Some(run) = run_of(options) else {
        return Err(WordsFault::BadWords);
    };
    let accounts = accounts_of(alloc, options.words.as_slice())?;
    Ok((run, accounts))
}

fn run_spelled<'a>(
    alloc: Global,
    words: &'a [&'a str],
) -> Result<(ServerRun<'a>, Vec<AccountWords<'a>>), WordsFault>
    ensures run { IfOk result (λ r. SpelledServer (λ name. server_value name (map (λ w. w.now) words.entry.now)) r.0) }
    ensures accounts { IfOk result (λ r. AddsAll (account_texts (map (λ w. w.now) words.entry.now)) [] r.1.items) }
    ensures good { AskForServer (map (λ w. w.now) words.entry.now) → IfErr result (λ fault. fault ≡ NoMemory) }
{
    match run_options(alloc, words) {
        Ok(options) => run_words(alloc, &options),
        Err(error) => Err(fault_of(&error)),
    }
}

fn run_asked<'a>(alloc: Global, words: &'a [&'a str]) -> Result<ServerWords<'a>, WordsFault>
    ensures asked { IfOk result (λ asked. AsksToServe (map (λ w. w.now) words.entry.now) asked) }
    ensures good { AskForServer (map (λ w. w.now) words.entry.now) → IfErr result (λ fault. fault ≡ NoMemory) }
{
    let (run, accounts) = run_spelled(alloc, words)?;
    Ok(ServerWords::Run(run, accounts))
}

// The paths of the store and of its copy, where the words ask for one.
fn saved<'a>(
    alloc: Global,
    words: &'a [&'a str],
) -> Result<(Option<&'a str>, Option<&'a str>), Error>
    ensures store { IfOk result (λ r. option_map (λ s. s.now) r.0 ≡ save_value (codes "store") (map (λ w. w.now) words.entry.now)) }
    ensures to { IfOk result (λ r. option_map (λ s. s.now) r.1 ≡ save_value (codes "to") (map (λ w. w.now) words.entry.now)) }
    ensures good { IfErr result (λ error. takes save_command (map (λ w. w.now) words.entry.now) ≡ true → kind_of error ≡ OutOfMemory) }
{
    let command = save_command(alloc)?;
    let matches = command.try_get_matches_from(words)?;
    Ok((matches.get_str("store"), matches.get_str("to")))
}

fn save_asked<'a>(alloc: Global, words: &'a [&'a str]) -> Result<ServerWords<'a>, WordsFault>
    ensures asked { IfOk result (λ asked. AsksToSave (map (λ w. w.now) words.entry.now) asked) }
    ensures good { AskForSave (map (λ w. w.now) words.entry.now) → IfErr result (λ fault. fault ≡ NoMemory) }
{
    match saved(alloc, words) {
        Ok((Some(store), Some(to))) => Ok(ServerWords::Save { store, to }),
        Ok(_) => Err(WordsFault::BadWords),
        Err(error) => Err(fault_of(&error)),
    }
}

// The path of the socket and the seconds to wait, where the words ask to stop.
fn stopped<'a>(
    alloc: Global,
    words: &'a [&'a str],
) -> Result<(Option<&'a str>, Option<&'a str>), Error>
    ensures control { IfOk result (λ r. option_map (λ s. s.now) r.0 ≡ stop_value (codes "control") (map (λ w. w.now) words.entry.now)) }
    ensures wait { IfOk result (λ r. option_map (λ s. s.now) r.1 ≡ stop_value (codes "wait") (map (λ w. w.now) words.entry.now)) }
    ensures good { IfErr result (λ error. takes stop_command (map (λ w. w.now) words.entry.now) ≡ true → kind_of error ≡ OutOfMemory) }
{
    let command = stop_command(alloc)?;
    let matches = command.try_get_matches_from(words)?;
    Ok((matches.get_str("control"), matches.get_str("wait")))
}

fn stop_of<'a>(control: Option<&'a str>, wait: Option<&'a str>) -> Option<(&'a str, Option<u32>)>
    ensures control { IfSome result (λ r. option_map (λ s. s.now) control.entry ≡ Some r.0.now) }
    ensures wait { IfSome result (λ r. Wants SpellsCount (option_map (λ s. s.now) wait.entry) r.1) }
    ensures none { IfNone result (¬ SpellsStop (option_map (λ s. s.now) control.entry) (option_map (λ s. s.now) wait.entry)) }
{
    let wait = optional_count(wait)?;
    Some((control?, wait))
}

fn stop_asked<'a>(alloc: Global, words: &'a [&'a str]) -> Result<ServerWords<'a>, WordsFault>
    ensures asked { IfOk result (λ asked. AsksToStop (map (λ w. w.now) words.entry.now) asked) }
    ensures good { AskForStop (map (λ w. w.now) words.entry.now) → IfErr result (λ fault. fault ≡ NoMemory) }
{
    match stopped(alloc, words) {
        Ok((control, wait)) => match stop_of(control, wait) {
            Some((control, wait)) => Ok(ServerWords::Stop { control, wait }),
            None => Err(WordsFault::BadWords),
        },
        Err(error) => Err(fault_of(&error)),
    }
}

// The path of the socket and the seat, where the words ask to end a connection.
fn ended<'a>(
    alloc: Global,
    words: &'a [&'a str],
) -> Result<(Option<&'a str>, Option<&'a str>), Error>
    ensures control { IfOk result (λ r. option_map (λ s. s.now) r.0 ≡ end_value (codes "control") (map (λ w. w.now) words.entry.now)) }
    ensures seat { IfOk result (λ r. option_map (λ s. s.now) r.1 ≡ end_value (codes "seat") (map (λ w. w.now) words.entry.now)) }
    ensures good { IfErr result (λ error. takes end_command (map (λ w. w.now) words.entry.now) ≡ true → kind_of error ≡ OutOfMemory) }
{
    let command = end_command(alloc)?;
    let matches = command.try_get_matches_from(words)?;
    Ok((matches.get_str("control"), matches.get_str("seat")))
}

// The seat that a word names.
fn seat_of(word: Option<&str>) -> Option<u32>
    ensures found { IfSome result (λ seat. Gives SpellsCount (option_map (λ s. s.now) word.entry) seat) }
    ensures none { IfNone result (¬ Spells IsCount (option_map (λ s. s.now) word.entry)) }
{
    count_of(word?)
}

fn end_of<'a>(control: Option<&'a str>, seat: Option<&'a str>) -> Option<(&'a str, u32)>
    ensures control { IfSome result (λ r. option_map (λ s. s.now) control.entry ≡ Some r.0.now) }
    ensures seat { IfSome result (λ r. Gives SpellsCount (option_map (λ s. s.now) seat.entry) r.1) }
    ensures none { IfNone result (¬ SpellsEnd (option_map (λ s. s.now) control.entry) (option_map (λ s. s.now) seat.entry)) }
{
    let seat = seat_of(seat)?;
    Some((control?, seat))
}

fn end_asked<'a>(alloc: Global, words: &'a [&'a str]) -> Result<ServerWords<'a>, WordsFault>
    ensures asked { IfOk result (λ asked. AsksToEnd (map (λ w. w.now) words.entry.now) asked) }
    ensures good { AskForEnd (map (λ w. w.now) words.entry.now) → IfErr result (λ fault. fault ≡ NoMemory) }
{
    match ended(alloc, words) {
        Ok((control, seat)) => match end_of(control, seat) {
            Some((control, seat)) => Ok(ServerWords::End { control, seat }),
            None => Err(WordsFault::BadWords),
        },
        Err(error) => Err(fault_of(&error)),
    }
}

// The path of the socket, where the words ask to read the accounts again.
fn reloaded<'a>(alloc: Global, words: &'a [&'a str]) -> Result<Option<&'a str>, Error>
    ensures control { IfOk result (λ r. option_map (λ s. s.now) r ≡ reload_value (codes "control") (map (λ w. w.now) words.entry.now)) }
    ensures good { IfErr result (λ error. takes reload_command (map (λ w. w.now) words.entry.now) ≡ true → kind_of error ≡ OutOfMemory) }
{
    let command = reload_command(alloc)?;
    let matches = command.try_get_matches_from(words)?;
    Ok(matches.get_str("control"))
}

fn reload_asked<'a>(alloc: Global, words: &'a [&'a str]) -> Result<ServerWords<'a>, WordsFault>
    ensures asked { IfOk result (λ asked. AsksToReload (map (λ w. w.now) words.entry.now) asked) }
    ensures good { AskForReload (map (λ w. w.now) words.entry.now) → IfErr result (λ fault. fault ≡ NoMemory) }
{
    match reloaded(alloc, words) {
        Ok(Some(control)) => Ok(ServerWords::Reload { control }),
        Ok(None) => Err(WordsFault::BadWords),
        Err(error) => Err(fault_of(&error)),
    }
}

// The path of the socket and the number, where the words order something of a message.
fn ordered<'a>(
    alloc: Global,
    order: OrderWord,
    words: &'a [&'a str],
) -> Result<(Option<&'a str>, Option<&'a str>), Error>
    ensures control { IfOk result (λ r. option_map (λ s. s.now) r.0 ≡ order_value order (codes "control") (map (λ w. w.now) words.entry.now)) }
    ensures id { IfOk result (λ r. option_map (λ s. s.now) r.1 ≡ order_value order (codes "id") (map (λ w. w.now) words.entry.now)) }
    ensures good { IfErr result (λ error. takes (order_command order) (map (λ w. w.now) words.entry.now) ≡ true → kind_of error ≡ OutOfMemory) }
{
    let command = order_command(alloc, order)?;
    let matches = command.try_get_matches_from(words)?;
    Ok((matches.get_str("control"), matches.get_str("id")))
}

// The message that a word names.
fn message_of(word: Option<&str>) -> Option<MessageId>
    ensures found { IfSome result (λ id. Gives IsIdText (option_map (λ s. s.now) word.entry) id) }
    ensures none { IfNone result (¬ Spells IsIdOf (option_map (λ s. s.now) word.entry)) }
{
    message_id_of(word?)
}

fn order_of<'a>(control: Option<&'a str>, id: Option<&'a str>) -> Option<(&'a str, MessageId)>
    ensures control { IfSome result (λ r. option_map (λ s. s.now) control.entry ≡ Some r.0.now) }
    ensures id { IfSome result (λ r. Gives IsIdText (option_map (λ s. s.now) id.entry) r.1) }
    ensures none { IfNone result (¬ SpellsOrder (option_map (λ s. s.now) control.entry) (option_map (λ s. s.now) id.entry)) }
{
    let id = message_of(id)?;
    Some((control?, id))
}

fn order_asked<'a>(
    alloc: Global,
    order: OrderWord,
    words: &'a [&'a str],
) -> Result<ServerWords<'a>, WordsFault>
    ensures asked { IfOk result (λ asked. AsksToOrder order (map (λ w. w.now) words.entry.now) asked) }
    ensures good { AskToOrder order (map (λ w. w.now) words.entry.now) → IfErr result (λ fault. fault ≡ NoMemory) }
{
    match ordered(alloc, order, words) {
        Ok((control, id)) => match order_of(control, id) {
            Some((control, id)) => Ok(ServerWords::Order { control, order, id }),
            None => Err(WordsFault::BadWords),
        },
        Err(error) => Err(fault_of(&error)),
    }
}

// What to write of a password.
fn password_asked<'a>(words: &[&str]) -> Result<ServerWords<'a>, WordsFault>
    ensures asked { IfOk result (λ asked. AsksForPassword (map (λ w. w.now) words.now) asked) }
    ensures good { AskForPassword (map (λ w. w.now) words.now) → IfErr result (λ fault. fault ≡ NoMemory) }
{
    if words.len() == 1 {
        Ok(ServerWords::Password)
    } else {
        Err(WordsFault::BadWords)
    }
}

fn show_asked<'a>(alloc: Global, words: &'a [&'a str]) -> Result<ServerWords<'a>, WordsFault>
    ensures asked { IfOk result (λ asked. AsksToLook (map (λ w. w.now) words.entry.now) asked) }
    ensures good { AskForLook (map (λ w. w.now) words.entry.now) → IfErr result (λ fault. fault ≡ NoMemory) }
{
    match look_words(alloc, words) {
        Ok((store, filter, by_handset)) => Ok(ServerWords::Show {
            store,
            filter,
            by_handset,
        }),
        Err(fault) => Err(fault),
    }
}

/// Whether the second word is this one.
pub(crate) fn is_second(words: &[&str], wanted: &str) -> bool
    ensures word { result ≡ is_word wanted.now (option_map (λ w. w.now) (slice_get words.now 1)) }
    ensures long { result ≡ true → 1 < length words.now }
{
    match words.get(1) {
        Some(word) => *word == wanted,
        None => false,
    }
}

/// What the words, the program's own name first, ask of the server.
///
/// - `--store FILE --smpp PORT --links PORT --centre NUMBER` in any order. Optional are `--sessions N`, `--accounts FILE`,
///   `--control PATH`, `--status PORT`, `--ahead`, `--log WORD`, `--new-store`, `--accept-loss`,
///   `--accounts-open`, `--keep DAYS`, `--archive FILE` and up to 32 words
///   `NAME:PASSWORD:NUMBER` or `NAME:PASSWORD:NUMBER:SESSIONS`, no two of one name
/// - `show --store FILE`, perhaps with `--id ID`, `--from WHO`, `--to NUMBER`, `--account NAME`, `--state STATE`, `--last N` and `--stuck`
/// - `save --store FILE --to FILE`, `stop --control PATH`, perhaps with `--wait SECONDS`, `end --control PATH SEAT`, `reload --control PATH`,
///   `retry --control PATH ID`, `cancel --control PATH ID`, `password`
///
/// The WORD of the log is `messages` or `access`. A FILE or PATH is a path, a PORT 1 to 65535, and a NUMBER 1 to 20
/// digits 0 to 9. N, SEAT and DAYS are 0 to 4294967295. An ID is ten decimal digits, not all 0. The first two colons of
/// an account end its NAME, 1 to 15 ASCII characters, and its PASSWORD, up to 8. SESSIONS is 1 to 32. All else is bad
/// words.
/// Words that ask for something are refused for want of memory alone.
pub fn server_words<'a>(alloc: Global, words: &'a [&'a str]) -> Result<ServerWords<'a>, WordsFault>
    ensures asked { IfOk result (AsksOfServer (option_map (λ w. w.now) (slice_get words.entry.now 1))
        (map (λ w. w.now) words.entry.now) (map (λ w. w.now) (drop 1 words.entry.now))) }
    ensures good { AskServer (option_map (λ w. w.now) (slice_get words.entry.now 1)) (map (λ w. w.now) words.entry.now)
        (map (λ w. w.now) (drop 1 words.entry.now)) → IfErr result (λ fault. fault ≡ NoMemory) }
{
    if is_second(words, "show") {
        return show_asked(alloc, &words[1..]);
    }
    if is_second(words, "save") {
        return save_asked(alloc, &words[1..]);
    }
    if is_second(words, "stop") {
        return stop_asked(alloc, &words[1..]);
    }
    if is_second(words, "end") {
        return end_asked(alloc, &words[1..]);
    }
    if is_second(words, "reload") {
        return reload_asked(alloc, &words[1..]);
    }
    if is_second(words, "retry") {
        return order_asked(alloc, OrderWord::Retry, &words[1..]);
    }
    if is_second(words, "cancel") {
        return order_asked(alloc, OrderWord::Cancel, &words[1..]);
    }
    if is_second(words, "password") {
        return password_asked(&words[1..]);
    }
    run_asked(alloc, words)
}
