//! Why a run ended before its time.
use crate::moments::text_of;
use sms_base::Moment;
use sms_rows::keep::KeepError;
use smsc_cli::words::{WordsFault, why_no_server_words};
use std::alloc::{AllocError, AllocFailed, Global};
use std::{fmt, io};
use thiserror::Error;

/// Why a store can't be opened.
#[derive(Clone, Copy, Debug, PartialEq, Eq, Error)]
pub enum StoreFault {
    /// Another program has it open.
    #[error("another program has it open")]
    Busy,
    /// The file's folder is not there.
    #[error("its folder is not there")]
    NoFolder,
    /// The file is a folder.
    #[error("it is a folder")]
    Folder,
    /// The file may not be read or written.
    #[error("it may not be read or written")]
    NotAllowed,
    /// The file is on a disk that can't be written.
    #[error("it can't be written")]
    ReadOnly,
    /// The disk of the store is full.
    #[error("its disk is full")]
    Full,
    /// The file is no database.
    #[error("it is no database")]
    NoDatabase,
    /// The store is damaged.
    #[error("it is damaged")]
    Damaged,
    /// There is none.
    #[error("there is none")]
    NotThere,
    /// The file is missing or empty, and its log is there.
    #[error("it is missing or empty, but its log (FILE-wal) is there: put the file back, or give up what the log holds with --new-store")]
    LogAlone,
    /// The store's file says that a run had it open, and its log is missing.
    #[error("a run had it open, and its log (FILE-wal) is missing: put the log back, or give up what it held with --accept-loss")]
    NoLog,
    /// The log of the store has no head.
    #[error("its log (FILE-wal) has no head that was written: restore a copy, or give up what it held with --accept-loss")]
    NoHead,
    /// The store's file says that no run has it open, and a log is there.
    #[error("the last run left it whole, so the log beside it (FILE-wal) is another store's: take that away, or drop it with --accept-loss")]
    OtherLog,
    /// The log of the store is damaged: it takes so many frames, and so many lie behind them.
    #[error("its log (FILE-wal) is damaged behind frame {0}, where it has {1} more: restore a copy, or give up what is behind with --accept-loss")]
    DamagedLog(usize, usize),
    /// The store's file or log became another one as it was opened.
    #[error("its file or its log was replaced as it was opened")]
    Replaced,
    /// Something else, of which the system says nothing more.
    #[error("it can't be read or written")]
    Other,
}

/// A clock that is more than ten minutes behind the rows of its store.
#[derive(Clone, Copy)]
pub struct ClockBehind {
    /// The newest moment of the rows.
    pub newest: Moment,
    /// The moment that the clock has.
    pub now: Moment,
}

// A moment has no text for debugging; who runs the server is shown both (`RunFault::text`).
impl fmt::Debug for ClockBehind {
    fn fmt<W: fmt::Write>(&self, f: &mut fmt::Formatter<W>) -> fmt::Result {
        f.debug_struct("ClockBehind").finish_non_exhaustive()
    }
}

/// Why a run ended before its time.
#[derive(Debug, Drop, Error)]
pub enum RunFault {
    /// The words ask for nothing: this is wrong with them.
    #[error("{0}")]
    Words(String),
    /// The words are no text.
    #[error("the words are no text")]
    NoWords,
    /// A line of the accounts' file is no account: this one.
    #[error("line {0} is no account")]
    AccountLine(usize),
    /// The account at this line of the accounts' file has a source that ends in an asterisk and is no number's beginning.
    #[error("line {0}: a source ends in an asterisk and is no number's beginning")]
    StarredSource(usize),
    /// The account at this line of the accounts' file is another than the run knows.
    #[error("the account at line {0} is another than the run knows: a run takes over password, rate, suspended, new accounts, and that one has gone")]
    OtherAccount(usize),
    /// The run has no file of accounts.
    #[error("the run has no file of accounts")]
    NoFile,
    /// The run has not begun, or is about to end.
    #[error("the run takes no orders now")]
    NoOrders,
    /// The server did not do what was ordered: it says this.
    #[error("{0}")]
    NotDone(String),
    /// The accounts' file has other tables than accounts.
    #[error("they have another key than account, or that is no [[account]]")]
    NoTables,
    /// Every user may read or write the accounts' file, which has this mode.
    #[error("every user may read or write them (mode {0:o}): chmod 600, or --accounts-open")]
    OpenToOthers(u32),
    /// There are too many accounts, or one name twice.
    #[error("more than 32 accounts, or a name twice")]
    Accounts,
    /// The accounts' file is no text.
    #[error("they are no text")]
    NoText,
    /// A line of the links' file is no number and secret: this one.
    #[error("line {0} is no number and secret")]
    SecretLine(usize),
    /// The links' file is no text.
    #[error("the secrets of links are no text")]
    SecretsNoText,
    /// The links' file can't be read.
    #[error("the secrets of links can't be read: {0}")]
    NoSecrets(io::Error),
    /// There was no memory.
    #[error("out of memory")]
    NoMemory,
    /// No centre could have left these rows.
    #[error("its rows are not sound")]
    BadRows,
    /// The file is another store, or none.
    #[error("it is no store of a centre")]
    NotThisStore,
    /// The store is of an earlier version.
    #[error("it is of an earlier version, which a run brings to the present one")]
    OldVersion,
    /// The store can't be opened.
    #[error("{0}")]
    Store(StoreFault),
    /// The store refused what it was asked, and could not be read again.
    #[error("it refused a step and could not be read again")]
    Broken,
    /// The store's file or its log was replaced, removed or cut short.
    #[error("its file or its log was replaced, removed or cut short, so nothing more is confirmed")]
    StoreReplaced,
    /// The store's files could not be looked at, or their disk took nothing more.
    #[error("its disk is lost or cut off, so nothing more is confirmed: {0}")]
    StoreLost(io::Error),
    /// The run has ended in order, but its store could not be left whole.
    #[error("the run has ended, but its log could not be written back, so keep it with FILE: {0}")]
    NotLeft(StoreFault),
    /// The clock is behind the rows.
    #[error("its rows are ahead of the clock")]
    Ahead(ClockBehind),
    /// The accounts' file can't be read.
    #[error("they can't be read: {0}")]
    NoAccounts(io::Error),
    /// A port can't be listened on: this one.
    #[error("port {0} can't be listened on: {1}")]
    Port(u16, io::Error),
    /// The control socket can't be made or reached.
    #[error("{0}")]
    Control(io::Error),
    /// Another server takes orders at the control socket.
    #[error("another server takes orders there")]
    ControlTaken,
    /// The server refused the order.
    #[error("nobody is at that seat")]
    Refused,
    /// The run that was ordered to end has not, in so many seconds.
    #[error("the run has not ended in {0} seconds")]
    NotEnded(u32),
    /// The system had no further thread or file.
    #[error("no further thread or file")]
    NoThread,
    /// The clock has no moment of the years 2000 to 2099.
    #[error("the clock shows none of the years 2000 to 2099")]
    NoClock,
    /// Standard input has no password.
    #[error("a password has up to 8 ASCII characters, on one line")]
    NoPassword,
    /// Standard input can't be read.
    #[error("standard input can't be read: {0}")]
    Input(io::Error),
    /// Standard output can't be written.
    #[error("standard output can't be written")]
    Output,
    /// The copy of a store can't be written.
    #[error("the copy can't be written: {0}")]
    Copy(io::Error),
}

/// How the program is used.
pub const USAGE: &str =
    "usage: smscd --store FILE --smpp PORT --links PORT --centre NUMBER [OPTIONS] [ACCOUNT]..\n\
    \u{20}      smscd show --store FILE [--id ID] [--from WHO] [--to NUMBER] [--account NAME] [--state STATE] [--last N] [--stuck]\n\
    \u{20}      smscd save --store FILE --to FILE\n\
    \u{20}      smscd stop --control PATH [--wait SECONDS]\n\
    \u{20}      smscd end --control PATH SEAT\n\
    \u{20}      smscd reload --control PATH\n\
    \u{20}      smscd retry --control PATH ID\n\
    \u{20}      smscd cancel --control PATH ID\n\
    \u{20}      smscd password\n\
    \u{20}      smscd --help | --version\n\
    \n\
    a run, until it is ordered to stop:\n\
    \u{20}  --store FILE      the store; made where there is none\n\
    \u{20}  --smpp PORT       applications bind here: 1 to 65535, of 127.0.0.1\n\
    \u{20}  --links PORT      handsets link here\n\
    \u{20}  --centre NUMBER   the centre's own number, 1 to 20 digits\n\
    \u{20}  --accounts FILE   accounts, one a line, each as ACCOUNT: NAME:PASSWORD:NUMBER[:SESSIONS]\n\
    \u{20}                    (SESSIONS at once: 1 to 32, else 4); or tables [[account]] in TOML\n\
    \u{20}  --accounts-open   every user may read that file\n\
    \u{20}  --link-secrets FILE\n\
    \u{20}                    secrets of handsets, one a line: NUMBER:SECRET\n\
    \u{20}  --control PATH    a socket for orders\n\
    \u{20}  --status PORT     a page for a browser, and figures for Prometheus\n\
    \u{20}  --log messages    a line as a message is accepted, and one as it ends\n\
    \u{20}  --log access      one line a message at its end: who, to whom, when, how it ended; never a text\n\
    \u{20}  --sessions N      end by itself after N connections\n\
    \u{20}  --keep DAYS       forget the messages that ended before DAYS days, as the run goes on; else all are kept\n\
    \u{20}  --archive FILE    append what is forgotten to FILE first, a line of JSON a message; never a text\n\
    a store that a run refuses otherwise:\n\
    \u{20}  --ahead           its rows are ahead of the clock, and that is right\n\
    \u{20}  --new-store       begin anew where a store's log lies without its file\n\
    \u{20}  --accept-loss     give up what damage took\n\
    a look at a store, a copy of it: also beside a run\n\
    \u{20}  ID is ten digits, WHO a NUMBER or a name, STATE one of ENROUTE, DELIVRD, EXPIRED, DELETED, UNDELIV\n\
    \u{20}  --stuck           in place of the messages what waits of them: a line for each handset, the most first\n\
    orders:\n\
    \u{20}  stop              end in good order; waited for 15 seconds, or SECONDS\n\
    \u{20}  end SEAT          end the connection at that seat, 0 to 31\n\
    \u{20}  reload            read the accounts' file again: password, rate, suspended, accounts that come or have gone\n\
    \u{20}  retry ID          try that message now\n\
    \u{20}  cancel ID         delete that message: it is reported as deleted\n\
    a password, read from standard input:\n\
    \u{20}  password          prints the salt and the hash of it for a table [[account]]\n\
    \n\
    example:\n\
    \u{20}  (umask 077; echo bank:Tr0ub4d0:447700900001 > accounts)\n\
    \u{20}  smscd --store centre.store --smpp 2775 --links 2776 --centre 447700900000 --accounts accounts --control orders &\n\
    \u{20}  smscd stop --control orders\n";

/// Why a run ends whose files could not be looked at.
pub fn lost_fault(error: io::Error) -> RunFault {
    match error.kind() {
        io::ErrorKind::OutOfMemory => RunFault::NoMemory,
        _ => RunFault::StoreLost(error),
    }
}

/// The paths that a fault may be about.
#[derive(Clone, Copy)]
pub struct Paths<'a> {
    /// The store's.
    pub store: &'a str,
    /// The path of the file of accounts.
    pub accounts: &'a str,
    /// The path of the file of the secrets of links.
    pub secrets: &'a str,
    /// The path of the control socket.
    pub control: &'a str,
}

fn plain(alloc: Global, text: &str) -> Result<String, AllocError> {
    let mut all = String::new(alloc);
    all.push_str(text)?;
    Ok(all)
}

fn ahead_text(alloc: Global, clock: ClockBehind) -> Result<String, AllocError> {
    let newest = text_of(alloc, clock.newest)?;
    let now = text_of(alloc, clock.now)?;
    Ok(format!(in alloc;
        "smscd: the clock shows {now}, but the store has rows of {newest}: set the clock, or start with --ahead\n"
    )?)
}

fn line_text(alloc: Global, number: usize, path: &str) -> Result<String, AllocError> {
    Ok(format!(in alloc; "smscd: line {number} of {path} is no account\n")?)
}

fn starred_text(alloc: Global, number: usize, path: &str) -> Result<String, AllocError> {
    Ok(format!(in alloc;
        "smscd: line {number} of {path}: a source ends in an asterisk and is no number's beginning: leave sources out for any\n"
    )?)
}

fn accounts_text(alloc: Global, path: &str, fault: &RunFault) -> Result<String, AllocError> {
    Ok(format!(in alloc; "smscd: the accounts {path}: {fault}\n")?)
}

fn no_text(alloc: Global, path: &str) -> Result<String, AllocError> {
    Ok(format!(in alloc; "smscd: the accounts {path} are no text\n")?)
}

fn unread_text(alloc: Global, path: &str, error: &io::Error) -> Result<String, AllocError> {
    Ok(format!(in alloc; "smscd: the accounts {path} can't be read: {error}\n")?)
}

fn secret_line_text(alloc: Global, number: usize, path: &str) -> Result<String, AllocError> {
    Ok(format!(in alloc; "smscd: line {number} of {path} is no number and secret\n")?)
}

fn secrets_text(alloc: Global, path: &str, fault: &RunFault) -> Result<String, AllocError> {
    Ok(format!(in alloc; "smscd: {path}: {fault}\n")?)
}

fn control_text(alloc: Global, path: &str, fault: &RunFault) -> Result<String, AllocError> {
    Ok(format!(in alloc; "smscd: the control socket {path}: {fault}\n")?)
}

fn store_text(alloc: Global, path: &str, fault: &RunFault) -> Result<String, AllocError> {
    Ok(format!(in alloc; "smscd: the store {path}: {fault}\n")?)
}

fn fault_text(alloc: Global, fault: &RunFault) -> Result<String, AllocError> {
    Ok(format!(in alloc; "smscd: {fault}\n")?)
}

impl RunFault {
    /// The exit status.
    pub fn status(&self) -> u8 {
        match self {
            RunFault::Words(_)
            | RunFault::NoWords
            | RunFault::Accounts
            | RunFault::AccountLine(_)
            | RunFault::StarredSource(_)
            | RunFault::OtherAccount(_)
            | RunFault::NoTables
            | RunFault::OpenToOthers(_)
            | RunFault::NoPassword
            | RunFault::NoText
            | RunFault::SecretLine(_)
            | RunFault::SecretsNoText => 2,
            RunFault::NoMemory => 3,
            RunFault::BadRows
            | RunFault::NotThisStore
            | RunFault::OldVersion
            | RunFault::Store(_)
            | RunFault::Broken
            | RunFault::StoreReplaced
            | RunFault::StoreLost(_)
            | RunFault::NotLeft(_)
            | RunFault::Ahead(_) => 4,
            RunFault::NoAccounts(_)
            | RunFault::NoSecrets(_)
            | RunFault::Port(_, _)
            | RunFault::Control(_)
            | RunFault::ControlTaken
            | RunFault::NoFile
            | RunFault::NoOrders
            | RunFault::NotDone(_)
            | RunFault::Refused
            | RunFault::NotEnded(_)
            | RunFault::NoThread
            | RunFault::NoClock
            | RunFault::Input(_)
            | RunFault::Output
            | RunFault::Copy(_) => 5,
        }
    }

    /// The lines on standard error.
    pub fn text(&self, alloc: Global, paths: &Paths<'_>) -> Result<String, AllocError> {
        match self {
            RunFault::Words(text) | RunFault::NotDone(text) => plain(alloc, text.as_str()),
            RunFault::AccountLine(number) => line_text(alloc, *number, paths.accounts),
            RunFault::StarredSource(number) => starred_text(alloc, *number, paths.accounts),
            RunFault::NoTables | RunFault::OtherAccount(_) | RunFault::OpenToOthers(_) => {
                accounts_text(alloc, paths.accounts, self)
            }
            RunFault::NoText => no_text(alloc, paths.accounts),
            RunFault::NoAccounts(error) => unread_text(alloc, paths.accounts, error),
            RunFault::SecretLine(number) => secret_line_text(alloc, *number, paths.secrets),
            RunFault::SecretsNoText | RunFault::NoSecrets(_) => {
                secrets_text(alloc, paths.secrets, self)
            }
            RunFault::Ahead(clock) => ahead_text(alloc, *clock),
            RunFault::Control(_) | RunFault::ControlTaken => {
                control_text(alloc, paths.control, self)
            }
            RunFault::BadRows
            | RunFault::NotThisStore
            | RunFault::OldVersion
            | RunFault::Store(_)
            | RunFault::Broken
            | RunFault::StoreReplaced
            | RunFault::StoreLost(_)
            | RunFault::NotLeft(_) => store_text(alloc, paths.store, self),
            fault => fault_text(alloc, fault),
        }
    }
}

impl From<AllocError> for RunFault {
    fn from(_error: AllocError) -> RunFault {
        RunFault::NoMemory
    }
}

impl<T: Drop> From<AllocFailed<T>> for RunFault {
    fn from(error: AllocFailed<T>) -> RunFault {
        drop(error);
        RunFault::NoMemory
    }
}

impl From<KeepError> for RunFault {
    fn from(error: KeepError) -> RunFault {
        match error {
            KeepError::OldVersion => RunFault::OldVersion,
            KeepError::NotThisStore => RunFault::NotThisStore,
            KeepError::NoMemory => RunFault::NoMemory,
            KeepError::Full => RunFault::Store(StoreFault::Full),
            KeepError::Disk | KeepError::Interrupted | KeepError::Closed => {
                RunFault::Store(StoreFault::Other)
            }
        }
    }
}

/// Why words are refused that ask nothing of the server.
pub fn words_fault(alloc: Global, words: &[&str], fault: WordsFault) -> RunFault {
    match fault {
        WordsFault::BadWords => match why_no_server_words(alloc, words) {
            Ok(text) => RunFault::Words(text),
            Err(_) => RunFault::NoMemory,
        },
        WordsFault::NoMemory => RunFault::NoMemory,
    }
}
