//! What a run begins with.
use smpp_session::{Account as Login, Password};
use sms_base::{Address, Digits, Listed, Moment, Octets};
use smsc_cli::words::{
    AccountWords, PasswordWords, ServerRun, SourceWords, TableAccount, source_of,
};
use smsc_endpoint::LinkAccess;
use smsc_server::Allowance;
use smsc_service::{AllowedSource, CentreAccount, Setup};
use std::alloc::{AllocError, Global};
use toml::Value;

/// How many accounts there may be.
pub const MOST_ACCOUNTS: usize = 32;

/// Who may connect to a run, as each part of it wants it.
#[derive(Drop)]
pub struct RunAccounts {
    /// Who may bind.
    pub logins: Vec<Login>,
    /// The names, for an operator.
    pub names: Vec<String>,
    /// Whose messages the centre takes.
    pub accounts: Vec<CentreAccount>,
    /// Who may have the link of a number.
    pub access: LinkAccess,
    /// How many sessions each may have at once.
    pub limits: Vec<u8>,
    /// What else each may do, which a run takes over anew as it goes on.
    pub allowed: Vec<Allowance>,
    /// What a run knows of each, by which it compares the file that it reads again.
    pub known: Vec<KnownAccount>,
    /// How many are of words, and whether there is a file of others.
    pub of_words: usize,
    pub has_file: bool,
}

/// An account as a run knows it.
#[derive(Drop)]
pub struct KnownAccount {
    /// As the centre has it.
    pub account: CentreAccount,
    /// How it bound first.
    pub login: Login,
    pub sessions: u8,
    pub rate: Option<u32>,
}

fn password_of(alloc: Global, words: PasswordWords<'_>) -> Result<Password, AllocError> {
    match words {
        PasswordWords::Plain(password) => {
            let octets = Octets::copy_of(alloc, password.as_bytes())?;
            Ok(Password::Plain(octets))
        }
        PasswordWords::Salted { salt, digest } => {
            let salt = Octets::copy_of(alloc, salt.as_bytes())?;
            Ok(Password::Salted { salt, digest })
        }
    }
}

/// Who may bind as the account.
pub fn login_of(alloc: Global, account: &TableAccount<'_>) -> Result<Login, AllocError> {
    Ok(Login {
        name: Octets::copy_of(alloc, account.name.as_bytes())?,
        password: password_of(alloc, account.password)?,
    })
}

fn name_of(alloc: Global, account: &TableAccount<'_>) -> Result<String, AllocError> {
    let mut name = String::new(alloc);
    name.push_str(account.name)?;
    Ok(name)
}

// The characters of an address of that kind; none where it is no address.
fn digits_of(ton: u8, text: &str) -> Option<Digits> {
    match Address::new(ton, 1, text) {
        Ok(address) => Some(address.digits),
        Err(_) => None,
    }
}

fn source_in(words: SourceWords<'_>) -> Option<AllowedSource> {
    match words {
        SourceWords::Number(text) => Some(AllowedSource::Number(digits_of(1, text)?)),
        SourceWords::Prefix(text) => Some(AllowedSource::Prefix(digits_of(1, text)?)),
        SourceWords::Name(text) => Some(AllowedSource::Name(digits_of(5, text)?)),
    }
}

/// The source that the value spells.
pub fn source_at(value: &Value) -> Option<AllowedSource> {
    source_in(source_of(value.as_str()?)?)
}

fn sources_of(
    alloc: Global,
    account: &TableAccount<'_>,
) -> Result<Listed<AllowedSource>, AllocError> {
    let mut sources = Vec::new(alloc);
    for value in account.sources {
        if let Some(source) = source_at(value) {
            sources.push(source)?;
        }
    }
    Ok(Listed::from_vec(sources))
}

fn account_of(alloc: Global, account: &TableAccount<'_>) -> Result<CentreAccount, AllocError> {
    Ok(CentreAccount {
        name: Octets::copy_of(alloc, account.name.as_bytes())?,
        address: account.address,
        sources: sources_of(alloc, account)?,
    })
}

/// The account, as a run knows it from now on.
pub fn known_of(alloc: Global, account: &TableAccount<'_>) -> Result<KnownAccount, AllocError> {
    Ok(KnownAccount {
        account: account_of(alloc, account)?,
        login: login_of(alloc, account)?,
        sessions: account.sessions,
        rate: account.rate,
    })
}

/// What the account may do, which a run takes over anew as it goes on.
pub fn allowance_of(account: &TableAccount<'_>) -> Allowance {
    Allowance {
        is_suspended: account.is_suspended,
        rate: account.rate,
    }
}

impl RunAccounts {
    /// No account, and links by that access.
    pub fn new(alloc: Global, access: LinkAccess) -> RunAccounts {
        RunAccounts {
            logins: Vec::new(alloc),
            names: Vec::new(alloc),
            accounts: Vec::new(alloc),
            access,
            limits: Vec::new(alloc),
            allowed: Vec::new(alloc),
            known: Vec::new(alloc),
            of_words: 0,
            has_file: false,
        }
    }

    fn has(&self, name: &str) -> bool {
        self.names.iter().any(|known| known.as_str() == name)
    }

    /// Adds the account behind those that are there. False where there are as many as may be, or one has its name.
    pub fn add_table(
        &mut self,
        alloc: Global,
        account: &TableAccount<'_>,
    ) -> Result<bool, AllocError> {
        if self.names.len() >= MOST_ACCOUNTS || self.has(account.name) {
            return Ok(false);
        }
        self.logins.push(login_of(alloc, account)?)?;
        self.names.push(name_of(alloc, account)?)?;
        self.accounts.push(account_of(alloc, account)?)?;
        self.limits.push(account.sessions)?;
        self.allowed.push(allowance_of(account))?;
        self.known.push(known_of(alloc, account)?)?;
        Ok(true)
    }

    /// Adds the account of a word or a line, as `add_table` does. It has no rate, and is not suspended.
    pub fn add(&mut self, alloc: Global, account: &AccountWords<'_>) -> Result<bool, AllocError> {
        let table = TableAccount {
            name: account.name,
            password: PasswordWords::Plain(account.password),
            address: account.address,
            sessions: account.sessions,
            rate: None,
            is_suspended: false,
            sources: &[],
        };
        self.add_table(alloc, &table)
    }
}

/// The setup with which a store is opened: it has no accounts.
pub fn setup_of(alloc: Global, run: &ServerRun<'_>, start: Moment) -> Setup {
    Setup {
        centre: run.centre,
        start,
        first: 1,
        accounts: Listed::new(alloc),
    }
}
