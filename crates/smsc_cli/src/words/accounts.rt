//! Several accounts.
ghost use Rattle.std.specs.Prelude.{◌≡◌, ◌+◌, ◌<◌, ◌^◌, ℕ, List, [], length, map, Err, IfErr, IfNone, IfOk, IfSome, OnErr, OnOk};
ghost use Rattle.std.specs.Str.Iter.{LacksByte};
ghost use Rattle.smsc_cli.specs.words.Accounts.{AddsAccount, AddsAll, AddsNone, IsCutAt, StopsAt, bare_of, lines_of};
ghost use Rattle.smsc_cli.specs.declared.words.account.AccountWords.{AccountWords as AccountWordsOf};
ghost use Rattle.smsc_cli.specs.declared.words.accounts.FileFault.TheVariants.{BadLine, NoMemory as NoMemoryOfFile};
ghost use Rattle.smsc_cli.specs.declared.words.fault.WordsFault.TheVariants.{BadWords, NoMemory};

use crate::words::account::{AccountWords, account_of};
use crate::words::fault::WordsFault;
use crate::words::several::{Named, has_room};
use std::alloc::Global;
use thiserror::Error;

/// How many accounts there may be.
const MOST_ACCOUNTS: usize = 32;

impl Named for AccountWords<'_> {
    ghost name = { λ some. some.name.now };

    fn has_name(&self, text: &str) -> bool {
        self.name == text
    }
}

// The account that the text spells, if it may be added.
fn add<'a>(accounts: &mut Vec<AccountWords<'a>>, text: &'a str) -> Result<(), WordsFault>
    ensures ok { OnOk result (AddsAccount text.entry.now accounts.old.items accounts.new.items) }
    ensures err { OnErr result (accounts.new.items ≡ accounts.old.items) }
    ensures bad { result ≡ Err BadWords → AddsNone text.entry.now accounts.old.items }
    ensures memory { result ≡ Err NoMemory → ¬ AddsNone text.entry.now accounts.old.items }
{
    match account_of(text) {
        Some(account) => {
            if !has_room(MOST_ACCOUNTS, account.name, accounts.as_slice()) {
                return Err(WordsFault::BadWords);
            }
            match accounts.push(account) {
                Ok(()) => Ok(()),
                Err(_) => Err(WordsFault::NoMemory),
            }
        }
        None => Err(WordsFault::BadWords),
    }
}

// An account for each text, in order. The calls in one another are no more than the accounts.
fn add_all<'a>(accounts: &mut Vec<AccountWords<'a>>, texts: &[&'a str]) -> Result<(), WordsFault>
    ensures ok { OnOk result (AddsAll (map (λ text. text.now) texts.now) accounts.old.items accounts.new.items) }
    ensures bad { result ≡ Err BadWords → (place : ℕ) × StopsAt place (map (λ text. text.now) texts.now) accounts.old.items accounts.new.items }
{
    match texts.split_first() {
        Some((first, others)) => match add(accounts, first) {
            Ok(()) => add_all(accounts, others),
            Err(fault) => Err(fault),
        },
        None => Ok(()),
    }
}

/// The text before its first line feed, and the text behind it.
pub(crate) fn at_line_feed<'a>(text: &'a str) -> Option<(&'a str, &'a str)>
    ensures cut { IfSome result (λ cut. IsCutAt 10 text.entry.now cut.0.now cut.1.now) }
    ensures shorter { IfSome result (λ cut. length cut.1.now < length text.entry.now) }
    ensures none { IfNone result (LacksByte 10 text.entry.now) }
{
    text.split_once('\n')
}

/// The line without a carriage return at its end.
pub(crate) fn bare<'a>(line: &'a str) -> &'a str
    ensures { result.now ≡ bare_of line.entry.now }
{
    match line.strip_suffix('\r') {
        Some(bare) => bare,
        None => line,
    }
}

/// Why the lines of a file are no accounts, or no secrets.
#[derive(Clone, Copy, Debug, PartialEq, Eq, Error)]
pub enum FileFault {
    /// The line of this number, from 1, is no account or no secret, or one too many, or has a name or number that is there.
    #[error("line {0}: bad line")]
    BadLine(usize),
    /// There was no memory.
    #[error("out of memory")]
    NoMemory,
}

/// The fault of the line of this number.
pub(crate) fn line_fault(fault: WordsFault, number: usize) -> FileFault
    ensures bad { fault ≡ BadWords → result ≡ BadLine number }
    ensures memory { fault ≡ NoMemory → result ≡ NoMemoryOfFile }
{
    match fault {
        WordsFault::BadWords => FileFault::BadLine(number),
        WordsFault::NoMemory => FileFault::NoMemory,
    }
}

// The account of the line of this number.
fn add_line<'a>(
    accounts: &mut Vec<AccountWords<'a>>,
    line: &'a str,
    number: usize,
) -> Result<(), FileFault>
    ensures ok { OnOk result (AddsAccount line.entry.now accounts.old.items accounts.new.items) }
    ensures err { OnErr result (accounts.new.items ≡ accounts.old.items) }
    ensures bad { (bad : ℕ) → result ≡ Err (BadLine bad) → (bad ≡ number) × AddsNone line.entry.now accounts.old.items }
{
    match add(accounts, line) {
        Ok(()) => Ok(()),
        Err(fault) => Err(line_fault(fault, number)),
    }
}

// The accounts of these lines, of which the first has that number.
fn add_from<'a>(
    accounts: &mut Vec<AccountWords<'a>>,
    file: &'a str,
    number: usize,
) -> Result<(), FileFault>
    requires { number + length file.now < 2 ^ 64 }
    ensures ok { OnOk result (AddsAll (lines_of file.entry.now) accounts.old.items accounts.new.items) }
    ensures bad { (bad : ℕ) → result ≡ Err (BadLine bad) →
        (place : ℕ) × (bad ≡ place + number) × StopsAt place (lines_of file.entry.now) accounts.old.items accounts.new.items }
{
    if file.is_empty() {
        return Ok(());
    }
    match at_line_feed(file) {
        Some((line, rest)) => match add_line(accounts, bare(line), number) {
            Ok(()) => add_from(accounts, rest, number + 1),
            Err(fault) => Err(fault),
        },
        None => add_line(accounts, file, number),
    }
}

/// The accounts of a file, one a line, behind these: 32 at most, no two of one name.
///
/// The last line may lack its end. A bad line is the first that spells no account more. The lines before it have theirs.
pub fn add_lines<'a>(accounts: &mut Vec<AccountWords<'a>>, file: &'a str) -> Result<(), FileFault>
    ensures ok { OnOk result (AddsAll (lines_of file.entry.now) accounts.old.items accounts.new.items) }
    ensures bad { (bad : ℕ) → result ≡ Err (BadLine bad) →
        (place : ℕ) × (bad ≡ place + 1) × StopsAt place (lines_of file.entry.now) accounts.old.items accounts.new.items }
{
    add_from(accounts, file, 1)
}

/// The number, from 1, of the first of these texts that spells no account more; none where each does, or memory lacks.
pub(crate) fn first_bad(alloc: Global, texts: &[&str]) -> Option<usize>
    ensures { IfSome result (λ number. (place : ℕ) × (number ≡ place + 1)
        × ((last : List AccountWordsOf) × StopsAt place (map (λ text. text.now) texts.now) [] last)) }
{
    let mut accounts = Vec::new(alloc);
    match add_all(&mut accounts, texts) {
        Ok(()) => None,
        Err(WordsFault::BadWords) => Some(accounts.as_slice().len() + 1),
        Err(WordsFault::NoMemory) => None,
    }
}

/// The accounts that these texts spell.
pub(crate) fn accounts_of<'a>(
    alloc: Global,
    texts: &[&'a str],
) -> Result<Vec<AccountWords<'a>>, WordsFault>
    ensures ok { IfOk result (λ accounts. AddsAll (map (λ text. text.now) texts.now) [] accounts.items) }
    ensures bad { IfErr result (λ fault. fault ≡ BadWords → (accounts : List AccountWordsOf) → ¬ AddsAll (map (λ text. text.now) texts.now) [] accounts) }
{
    let mut accounts = Vec::new(alloc);
    match add_all(&mut accounts, texts) {
        Ok(()) => Ok(accounts),
        Err(fault) => Err(fault),
    }
}
