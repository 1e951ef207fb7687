//! Accounts in TOML.
ghost use Rattle.std.specs.Prelude.{◌≡◌, ◌≢◌, ◌↔◌, ◌+◌, ◌<◌, ◌^◌, ℕ, List, Bool, true, false, None, Some, Option, codes, length, option_map, Err, IfNone};
ghost use Rattle.std.specs.Prelude.{IfSome, MatchOption, OnErr, OnOk};
ghost use Rattle.std.specs.List.{list_all};
ghost use Rattle.toml.specs.Data.{Items, as_array, as_str, get_member, no_items};
ghost use Rattle.toml.specs.View.{items_view, table_view, view};
ghost use Rattle.toml.specs.declared.value.Value.{Value as ValueOf};
ghost use Rattle.smsc_cli.specs.words.AccountTables.{AddsNoValue, AddsValue, AddsValues, AreSources, HasValues, IsSalt, IsUpTo};
ghost use Rattle.smsc_cli.specs.words.AccountTables.{SaysPassword, SaysRate, SaysSessions, SaysSources, SaysSuspended};
ghost use Rattle.smsc_cli.specs.words.AccountTables.{SpellsDigest, SpellsName, SpellsPassword, SpellsSalt, SpellsSource, SpellsTable, SpellsValue};
ghost use Rattle.smsc_cli.specs.words.AccountTables.{StopsAtValue};
ghost use Rattle.smsc_cli.specs.words.AccountTables.{are_account_keys, are_file_keys, ends_starred, is_name_text as is_name_text_of, is_prefix};
ghost use Rattle.smsc_cli.specs.words.AccountTables.{is_source as is_source_of, is_text_of_source, unstarred as unstarred_of};
ghost use Rattle.smsc_cli.specs.words.AccountTables.{is_account_key as is_account_key_of, is_file_key as is_file_key_of, is_limit_key as is_limit_key_of};
ghost use Rattle.smsc_cli.specs.words.AccountTables.{is_password_key as is_password_key_of, text_at as text_in};
ghost use Rattle.smsc_cli.specs.words.Secrets.{is_number_text as is_number_of};
ghost use Rattle.smsc_cli.specs.words.SimWords.{Gives, Spells, SpellsNumber};
ghost use Rattle.smsc_cli.specs.declared.words.account_tables.PasswordWords.{PasswordWords as PasswordWordsOf};
ghost use Rattle.smsc_cli.specs.declared.words.account_tables.TableAccount.{TableAccount as TableAccountOf};
ghost use Rattle.smsc_cli.specs.declared.words.account_tables.TableFault.TheVariants.{BadAccount, NoAccounts, NoMemory as NoMemoryOfFile};
ghost use Rattle.smsc_cli.specs.declared.words.fault.WordsFault.TheVariants.{BadWords, NoMemory};

use crate::words::account::{USUAL_SESSIONS, name_in, password_in};
use crate::words::fault::WordsFault;
use crate::words::number::address_of;
use crate::words::secrets::is_number_text;
use crate::words::several::{Named, has_room};
use hex::FromHex;
use sms_base::Address;
use thiserror::Error;
use toml::{Table, Value};

/// The password of an account, as it is written.
#[derive(Clone, Copy)]
pub enum PasswordWords<'a> {
    /// Itself: up to 8 ASCII characters.
    Plain(&'a str),
    /// What SHA-256 makes of a salt and the password behind it.
    Salted {
        /// 1 to 64 ASCII characters.
        salt: &'a str,
        /// What was made of both.
        digest: [u8; 32],
    },
}

/// An account as a table in TOML has it.
#[derive(Clone, Copy)]
pub struct TableAccount<'a> {
    /// The system_id: 1 to 15 ASCII characters.
    pub name: &'a str,
    /// The account's password, or what was made of it.
    pub password: PasswordWords<'a>,
    /// The source of its messages that name none.
    pub address: Address,
    /// How many sessions it may have at once, 1 to 32.
    pub sessions: u8,
    /// How many requests it may put in a second; as many as it likes where this is none.
    pub rate: Option<u32>,
    /// The account may have no session for now.
    pub is_suspended: bool,
    /// The sources that its messages may name beside its number, each a text that `source_of` knows; any where there are none.
    pub sources: &'a [Value],
}

/// A source that an account may give, as it is written.
#[derive(Clone, Copy, PartialEq, Eq)]
pub enum SourceWords<'a> {
    /// A number, by its digits.
    Number(&'a str),
    /// The numbers that begin with these digits: an asterisk is behind them.
    Prefix(&'a str),
    /// An alphanumeric originator, as it is spelled.
    Name(&'a str),
}

// ---- keys

fn is_password_key(key: &str) -> bool
    ensures { result ≡ is_password_key_of key.now }
{
    (key == "password" || key == "salt") || key == "hash"
}

fn is_limit_key(key: &str) -> bool
    ensures { result ≡ is_limit_key_of key.now }
{
    (key == "sessions" || key == "rate") || (key == "suspended" || key == "sources")
}

fn is_account_key(key: &str) -> bool
    ensures { result ≡ is_account_key_of key.now }
{
    ((key == "name" || key == "number") || is_password_key(key)) || is_limit_key(key)
}

fn is_file_key(key: &str) -> bool
    ensures { result ≡ is_file_key_of key.now }
{
    key == "account"
}

fn has_account_keys(table: &Table) -> bool
    ensures { result ≡ are_account_keys (table_view table.now) }
{
    'members: for (key, _value) in table.iter() {
        if !is_account_key(key.as_str()) {
            return false;
        }
    }
    true
}

fn has_file_keys(table: &Table) -> bool
    ensures { result ≡ are_file_keys (table_view table.now) }
{
    'members: for (key, _value) in table.iter() {
        if !is_file_key(key.as_str()) {
            return false;
        }
    }
    true
}

// The value at a key.
fn value_at<'a>(table: &'a Table, key: &str) -> Option<&'a Value>
    ensures { option_map (λ value. view value.now) result ≡ get_member key.now (table_view table.entry.now) }
{
    table.get(key)
}

// The text at a key.
fn text_at<'a>(table: &'a Table, key: &str) -> Option<&'a str>
    ensures { option_map (λ text. text.now) result ≡ text_in key.now (table_view table.entry.now) }
{
    match value_at(table, key) {
        Some(value) => value.as_str(),
        None => None,
    }
}

// ---- values

fn name_by<'a>(text: Option<&'a str>) -> Option<&'a str>
    ensures found { IfSome result (λ name. Gives SpellsName (option_map (λ s. s.now) text.entry) name.now) }
    ensures none { IfNone result (¬ Spells SpellsName (option_map (λ s. s.now) text.entry)) }
{
    match text {
        Some(text) => name_in(text),
        None => None,
    }
}

fn plain_by<'a>(text: Option<&'a str>) -> Option<&'a str>
    ensures found { IfSome result (λ password. Gives SpellsPassword (option_map (λ s. s.now) text.entry) password.now) }
    ensures none { IfNone result (¬ Spells SpellsPassword (option_map (λ s. s.now) text.entry)) }
{
    match text {
        Some(text) => password_in(text),
        None => None,
    }
}

// The text, where it is a salt.
fn salt_in<'a>(text: &'a str) -> Option<&'a str>
    ensures found { IfSome result (λ salt. (salt.now ≡ text.entry.now) × IsSalt text.entry.now) }
    ensures none { IfNone result (¬ IsSalt text.entry.now) }
{
    if text.is_empty() || text.len() > 64 || !text.is_ascii() {
        return None;
    }
    Some(text)
}

fn salt_by<'a>(text: Option<&'a str>) -> Option<&'a str>
    ensures found { IfSome result (λ salt. Gives SpellsSalt (option_map (λ s. s.now) text.entry) salt.now) }
    ensures none { IfNone result (¬ Spells SpellsSalt (option_map (λ s. s.now) text.entry)) }
{
    match text {
        Some(text) => salt_in(text),
        None => None,
    }
}

fn digest_in(text: &str) -> Option<[u8; 32]>
    ensures found { IfSome result (λ digest. SpellsDigest text.now digest) }
    ensures none { IfNone result ((digest : List ℕ) → ¬ SpellsDigest text.now digest) }
{
    <[u8; 32] as FromHex>::from_hex(text).ok()
}

fn digest_by(text: Option<&str>) -> Option<[u8; 32]>
    ensures found { IfSome result (λ digest. Gives SpellsDigest (option_map (λ s. s.now) text.entry) digest) }
    ensures none { IfNone result (¬ Spells SpellsDigest (option_map (λ s. s.now) text.entry)) }
{
    match text {
        Some(text) => digest_in(text),
        None => None,
    }
}

// A password that the table has itself.
fn plain_at<'a>(table: &'a Table) -> Option<PasswordWords<'a>>
    requires { get_member (codes "password") (table_view table.now) ≢ None }
    ensures found { IfSome result (SaysPassword (table_view table.entry.now)) }
    ensures none { IfNone result ((password : PasswordWordsOf) → ¬ SaysPassword (table_view table.entry.now) password) }
{
    if value_at(table, "salt").is_some() || value_at(table, "hash").is_some() {
        return None;
    }
    let password = plain_by(text_at(table, "password"))?;
    Some(PasswordWords::Plain(password))
}

// A password of which the table has a digest.
fn salted_at<'a>(table: &'a Table) -> Option<PasswordWords<'a>>
    requires { get_member (codes "password") (table_view table.now) ≡ None }
    ensures found { IfSome result (SaysPassword (table_view table.entry.now)) }
    ensures none { IfNone result ((password : PasswordWordsOf) → ¬ SaysPassword (table_view table.entry.now) password) }
{
    let salt = salt_by(text_at(table, "salt"))?;
    let digest = digest_by(text_at(table, "hash"))?;
    Some(PasswordWords::Salted { salt, digest })
}

fn password_at<'a>(table: &'a Table) -> Option<PasswordWords<'a>>
    ensures found { IfSome result (SaysPassword (table_view table.entry.now)) }
    ensures none { IfNone result ((password : PasswordWordsOf) → ¬ SaysPassword (table_view table.entry.now) password) }
{
    match value_at(table, "password") {
        Some(_) => plain_at(table),
        None => salted_at(table),
    }
}

fn number_by(text: Option<&str>) -> Option<Address>
    ensures found { IfSome result (λ address. Gives SpellsNumber (option_map (λ s. s.now) text.entry) address) }
    ensures none { IfNone result (¬ Spells SpellsNumber (option_map (λ s. s.now) text.entry)) }
{
    match text {
        Some(text) => address_of(text),
        None => None,
    }
}

// The integer from 1 on that is not above the most.
fn up_to(most: u32, value: &Value) -> Option<u32>
    ensures found { IfSome result (λ number. IsUpTo most (view value.now) number) }
    ensures none { IfNone result ((number : ℕ) → ¬ IsUpTo most (view value.now) number) }
{
    match value.as_integer() {
        Some(number) if 1 <= number && number <= i64::from(most) => Some(number as u32),
        _ => None,
    }
}

fn sessions_by(value: Option<&Value>) -> Option<u8>
    ensures found { IfSome result (λ sessions. SaysSessions (option_map (λ v. view v.now) value.entry) sessions) }
    ensures none { IfNone result ((sessions : ℕ) → ¬ SaysSessions (option_map (λ v. view v.now) value.entry) sessions) }
{
    match value {
        Some(value) => {
            let sessions = up_to(32, value)?;
            Some(sessions as u8)
        }
        None => Some(USUAL_SESSIONS),
    }
}

fn rate_by(value: Option<&Value>) -> Option<Option<u32>>
    ensures found { IfSome result (λ rate. SaysRate (option_map (λ v. view v.now) value.entry) rate) }
    ensures none { IfNone result ((rate : Option ℕ) → ¬ SaysRate (option_map (λ v. view v.now) value.entry) rate) }
{
    match value {
        Some(value) => {
            let rate = up_to(1_000_000, value)?;
            Some(Some(rate))
        }
        None => Some(None),
    }
}

fn suspended_by(value: Option<&Value>) -> Option<bool>
    ensures found { IfSome result (λ suspended. SaysSuspended (option_map (λ v. view v.now) value.entry) suspended) }
    ensures none { IfNone result ((suspended : Bool) → ¬ SaysSuspended (option_map (λ v. view v.now) value.entry) suspended) }
{
    match value {
        Some(value) => value.as_bool(),
        None => Some(false),
    }
}

// ---- sources

// The text before an asterisk at its end.
fn unstarred<'a>(text: &'a str) -> Option<&'a str>
    ensures { MatchOption result (ends_starred text.entry.now ≡ false)
        (λ front. (front.now ≡ unstarred_of text.entry.now) × (ends_starred text.entry.now ≡ true)) }
{
    match text.strip_suffix('*') {
        Some(front) => Some(front),
        None => None,
    }
}

fn is_name_text(text: &str) -> bool
    ensures { result ≡ is_name_text_of text.now }
{
    match unstarred(text) {
        Some(_front) => false,
        None => Address::new(5, 0, text).is_ok(),
    }
}

// The digits before an asterisk at the end.
fn prefix_in<'a>(text: &'a str) -> Option<&'a str>
    ensures found { IfSome result (λ digits. (digits.now ≡ unstarred_of text.entry.now) × (is_prefix text.entry.now ≡ true)) }
    ensures none { IfNone result (is_prefix text.entry.now ≡ false) }
{
    let digits = unstarred(text)?;
    if is_number_text(digits) {
        return Some(digits);
    }
    None
}

// The source of a text that is neither a number nor the front of one.
fn name_in_text<'a>(text: &'a str) -> Option<SourceWords<'a>>
    requires number { is_number_of text.now ≡ false }
    requires prefix { is_prefix text.now ≡ false }
    ensures found { IfSome result (SpellsSource text.entry.now) }
    ensures none { IfNone result (is_source_of text.entry.now ≡ false) }
{
    if is_name_text(text) {
        return Some(SourceWords::Name(text));
    }
    None
}

// The source of a text that is no number.
fn no_number<'a>(text: &'a str) -> Option<SourceWords<'a>>
    requires number { is_number_of text.now ≡ false }
    ensures found { IfSome result (SpellsSource text.entry.now) }
    ensures none { IfNone result (is_source_of text.entry.now ≡ false) }
{
    match prefix_in(text) {
        Some(digits) => Some(SourceWords::Prefix(digits)),
        None => name_in_text(text),
    }
}

/// The source that the text spells: a number of 1 to 20 digits, such digits and an asterisk, or a name, at whose end is no asterisk.
pub fn source_of<'a>(text: &'a str) -> Option<SourceWords<'a>>
    ensures found { IfSome result (SpellsSource text.entry.now) }
    ensures none { IfNone result (is_source_of text.entry.now ≡ false) }
{
    if is_number_text(text) {
        return Some(SourceWords::Number(text));
    }
    no_number(text)
}

#[tactic(auto, using(crate::proofs::words::SourceTexts::spelled_source))]
fn is_source_text(text: &str) -> bool
    ensures { result ≡ is_source_of text.now }
{
    match source_of(text) {
        Some(_source) => true,
        None => false,
    }
}

fn is_source(value: &Value) -> bool
    ensures { result ≡ is_text_of_source (as_str (view value.now)) }
{
    match value.as_str() {
        Some(text) => is_source_text(text),
        None => false,
    }
}

fn are_all_sources(values: &[Value]) -> bool
    ensures { result ≡ list_all (λ (value : ValueOf). is_text_of_source (as_str (view value))) values.now }
{
    values.iter().all(|value| is_source(value))
}

#[tactic(auto, using(crate::proofs::words::SourceTexts::all_sources))]
fn are_sources(values: &[Value]) -> bool
    ensures { (result ≡ true) ↔ AreSources (items_view values.now) }
{
    are_all_sources(values)
}

#[tactic(auto, using(crate::proofs::words::SourceTexts::some_items))]
fn some_sources(values: &[Value]) -> Option<&[Value]>
    ensures found { IfSome result (λ sources. (sources.now ≡ values.entry.now) × (items_view values.entry.now ≢ no_items)
        × AreSources (items_view values.entry.now)) }
    ensures none { IfNone result (¬ ((items_view values.entry.now ≢ no_items) × AreSources (items_view values.entry.now))) }
{
    if values.is_empty() || !are_sources(values) {
        return None;
    }
    Some(values)
}

fn sources_in(value: &Value) -> Option<&[Value]>
    ensures found { IfSome result (λ sources. SaysSources (Some (view value.entry.now)) (items_view sources.now)) }
    ensures none { IfNone result ((sources : Items) → ¬ SaysSources (Some (view value.entry.now)) sources) }
{
    match array_in(value) {
        Some(values) => some_sources(values),
        None => None,
    }
}

fn sources_by<'a>(value: Option<&'a Value>) -> Option<&'a [Value]>
    ensures found { IfSome result (λ sources. SaysSources (option_map (λ v. view v.now) value.entry) (items_view sources.now)) }
    ensures none { IfNone result ((sources : Items) → ¬ SaysSources (option_map (λ v. view v.now) value.entry) sources) }
{
    match value {
        Some(value) => sources_in(value),
        None => Some(&[]),
    }
}

// ---- an account

fn account_in<'a>(table: &'a Table) -> Option<TableAccount<'a>>
    ensures found { IfSome result (λ account. SpellsTable (table_view table.entry.now) account) }
    ensures none { IfNone result ((account : TableAccountOf) → ¬ SpellsTable (table_view table.entry.now) account) }
{
    if !has_account_keys(table) {
        return None;
    }
    let name = name_by(text_at(table, "name"))?;
    let password = password_at(table)?;
    let address = number_by(text_at(table, "number"))?;
    let sessions = sessions_by(value_at(table, "sessions"))?;
    let rate = rate_by(value_at(table, "rate"))?;
    let is_suspended = suspended_by(value_at(table, "suspended"))?;
    let sources = sources_by(value_at(table, "sources"))?;
    Some(TableAccount {
        name,
        password,
        address,
        sessions,
        rate,
        is_suspended,
        sources,
    })
}

// The account that the value spells, where it is a table.
fn account_by<'a>(value: &'a Value) -> Option<TableAccount<'a>>
    ensures found { IfSome result (λ account. SpellsValue (view value.entry.now) account) }
    ensures none { IfNone result ((account : TableAccountOf) → ¬ SpellsValue (view value.entry.now) account) }
{
    match value.as_table() {
        Some(table) => account_in(table),
        None => None,
    }
}

// ---- several

/// How many accounts there may be.
const MOST_ACCOUNTS: usize = 32;

impl Named for TableAccount<'_> {
    ghost name = { λ some. some.name.now };

    fn has_name(&self, text: &str) -> bool {
        self.name == text
    }
}

// The account that the value spells, if it may be added.
fn add_value<'a>(accounts: &mut Vec<TableAccount<'a>>, value: &'a Value) -> Result<(), WordsFault>
    ensures ok { OnOk result (AddsValue (view value.entry.now) accounts.old.items accounts.new.items) }
    ensures err { OnErr result (accounts.new.items ≡ accounts.old.items) }
    ensures bad { result ≡ Err BadWords → AddsNoValue (view value.entry.now) accounts.old.items }
    ensures memory { result ≡ Err NoMemory → ¬ AddsNoValue (view value.entry.now) accounts.old.items }
{
    match account_by(value) {
        Some(account) => {
            if !has_room(MOST_ACCOUNTS, account.name, accounts.as_slice()) {
                return Err(WordsFault::BadWords);
            }
            match accounts.push(account) {
                Ok(()) => Ok(()),
                Err(_) => Err(WordsFault::NoMemory),
            }
        }
        None => Err(WordsFault::BadWords),
    }
}

/// Why a file in TOML has no accounts to add.
#[derive(Clone, Copy, Debug, PartialEq, Eq, Error)]
pub enum TableFault {
    /// The text has another key than `account`, or that is no array.
    #[error("no accounts")]
    NoAccounts,
    /// The account of this number, from 1, is none, or one too many, or has a name that is there.
    #[error("account {0}: bad account")]
    BadAccount(usize),
    /// There was no memory.
    #[error("out of memory")]
    NoMemory,
}

// The fault of the account of this number.
fn account_fault(fault: WordsFault, number: usize) -> TableFault
    ensures bad { fault ≡ BadWords → result ≡ BadAccount number }
    ensures memory { fault ≡ NoMemory → result ≡ NoMemoryOfFile }
{
    match fault {
        WordsFault::BadWords => TableFault::BadAccount(number),
        WordsFault::NoMemory => TableFault::NoMemory,
    }
}

// The account of this number.
fn add_numbered<'a>(
    accounts: &mut Vec<TableAccount<'a>>,
    value: &'a Value,
    number: usize,
) -> Result<(), TableFault>
    ensures ok { OnOk result (AddsValue (view value.entry.now) accounts.old.items accounts.new.items) }
    ensures err { OnErr result (accounts.new.items ≡ accounts.old.items) }
    ensures bad { (bad : ℕ) → result ≡ Err (BadAccount bad) → (bad ≡ number) × AddsNoValue (view value.entry.now) accounts.old.items }
    ensures other { result ≢ Err NoAccounts }
{
    match add_value(accounts, value) {
        Ok(()) => Ok(()),
        Err(fault) => Err(account_fault(fault, number)),
    }
}

// The accounts of these values, of which the first has that number. The calls in one another are no more than the accounts.
fn add_values<'a>(
    accounts: &mut Vec<TableAccount<'a>>,
    values: &'a [Value],
    number: usize,
) -> Result<(), TableFault>
    requires { number + length values.now < 2 ^ 64 }
    ensures ok { OnOk result (AddsValues (items_view values.entry.now) accounts.old.items accounts.new.items) }
    ensures bad { (bad : ℕ) → result ≡ Err (BadAccount bad) →
        (place : ℕ) × (bad ≡ place + number) × StopsAtValue place (items_view values.entry.now) accounts.old.items accounts.new.items }
    ensures other { result ≢ Err NoAccounts }
{
    match values.split_first() {
        Some((first, others)) => match add_numbered(accounts, first, number) {
            Ok(()) => add_values(accounts, others, number + 1),
            Err(fault) => Err(fault),
        },
        None => Ok(()),
    }
}

// The values of an array.
fn array_in(value: &Value) -> Option<&[Value]>
    ensures { option_map (λ values. items_view values.now) result ≡ as_array (view value.entry.now) }
{
    match value.as_array() {
        Some(values) => Some(values.as_slice()),
        None => None,
    }
}

// The values of the accounts of a file.
fn values_in(file: &Table) -> Option<&[Value]>
    ensures found { IfSome result (λ values. HasValues (table_view file.entry.now) (items_view values.now)) }
    ensures none { IfNone result ((values : Items) → ¬ HasValues (table_view file.entry.now) values) }
{
    if !has_file_keys(file) {
        return None;
    }
    match value_at(file, "account") {
        Some(value) => array_in(value),
        None => Some(&[]),
    }
}

/// The accounts of a file in TOML, a table `[[account]]` each: 32 at most, no two of one name.
///
/// A bad account is the first that is none more. Those before it are there.
pub fn add_tables<'a>(
    accounts: &mut Vec<TableAccount<'a>>,
    file: &'a Table,
) -> Result<(), TableFault>
    ensures ok { OnOk result ((values : Items) × HasValues (table_view file.entry.now) values × AddsValues values accounts.old.items accounts.new.items) }
    ensures bad { (bad : ℕ) → result ≡ Err (BadAccount bad) → (values : Items) × HasValues (table_view file.entry.now) values
        × ((place : ℕ) × (bad ≡ place + 1) × StopsAtValue place values accounts.old.items accounts.new.items) }
    ensures none { result ≡ Err NoAccounts → (values : Items) → ¬ HasValues (table_view file.entry.now) values }
{
    match values_in(file) {
        Some(values) => add_values(accounts, values, 1),
        None => Err(TableFault::NoAccounts),
    }
}
