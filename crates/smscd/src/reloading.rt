//! The accounts' file, read again as the run goes on.
//!
//! A run takes over what accounts may do, their rates and which are suspended, and their passwords. An account that has gone from the file is
//! suspended until it comes again. One that the run does not know comes behind those that it knows: the centre takes it first, and only then
//! it may bind. All else of an account a run has from its beginning. So a file that says something else of an account changes nothing, as one
//! with a fault does.
use crate::setup::{KnownAccount, MOST_ACCOUNTS, allowance_of, known_of, login_of, source_at};
use smpp_session::{Account as Login, Password};
use sms_base::Octets;
use sms_centre_spec::octets::copy_of_account;
use smsc_cli::words::{ServerRun, TableAccount};
use smsc_operation::account_file::{accounts_in, document_of, judge_file, line_at, read_file};
use smsc_operation::account_names::AccountNames;
use smsc_operation::run_fault::RunFault;
use smsc_server::{AccountBook, Allowance, Allowances, Orders};
use smsc_service::{AllowedSource, CentreAccount, OrderOutcome};
use std::alloc::{AllocError, Global};
use std::sync::{Arc, Wait};
use std::time::Clock;
use toml::{Table, Value};

/// Who reads the accounts' file again.
#[derive(Drop)]
pub struct Reloader {
    host: HostRuntime,
    path: String,
    opens_accounts: bool,
    // How many accounts are of words, before those of the file.
    of_words: usize,
    // The accounts of the run, by their places.
    known: Vec<KnownAccount>,
    allowances: Arc<Allowances>,
    book: Arc<AccountBook>,
    names: Arc<AccountNames>,
    // Those that are to come, the last one first, and what is taken over once they have.
    coming: Vec<KnownAccount>,
    renewal: Option<Renewal>,
    // The name of the last one that is known, where the centre has not said yet that it has come.
    ordered: Option<String>,
}

// What a run takes over of a file, by the places of accounts.
#[derive(Drop)]
struct Renewal {
    allowed: Vec<Allowance>,
    logins: Vec<Login>,
    limits: Vec<u8>,
}

impl Renewal {
    fn new(alloc: Global) -> Renewal {
        Renewal {
            allowed: Vec::new(alloc),
            logins: Vec::new(alloc),
            limits: Vec::new(alloc),
        }
    }

    fn put(&mut self, allowance: Allowance, login: Login, limit: u8) -> Result<(), AllocError> {
        self.allowed.push(allowance)?;
        self.logins.push(login)?;
        self.limits.push(limit)?;
        Ok(())
    }
}

// ---- whether an account is still what it was

fn are_same_sources(before: &[AllowedSource], now: &[Value]) -> bool {
    before.len() == now.len()
        && before
            .iter()
            .zip(now.iter())
            .all(|(before, now)| source_at(now) == Some(*before))
}

// Whether all is the same but what a run takes over.
fn is_same(before: &KnownAccount, now: &TableAccount<'_>) -> bool {
    before.account.address == now.address
        && before.sessions == now.sessions
        && are_same_sources(before.account.sources.as_slice(), now.sources)
}

fn is_named(account: &KnownAccount, name: &str) -> bool {
    account.account.name.as_slice() == name.as_bytes()
}

// The place of the account of that name, if the run knows it.
fn place_of(known: &[KnownAccount], name: &str) -> Option<usize> {
    known.iter().position(|account| is_named(account, name))
}

// The account of that name, if the file has it.
fn named<'b, 'a>(
    accounts: &'b [TableAccount<'a>],
    known: &KnownAccount,
) -> Option<&'b TableAccount<'a>> {
    accounts
        .iter()
        .find(|account| is_named(known, account.name))
}

fn count_named(accounts: &[TableAccount<'_>], name: &str) -> usize {
    accounts
        .iter()
        .filter(|account| account.name == name)
        .count()
}

// Whether the file may have the account: the run knows it so, of its file, or does not know it at all.
fn may_stand(known: &[KnownAccount], of_words: usize, now: &TableAccount<'_>) -> bool {
    match place_of(known, now.name) {
        Some(place) if place < of_words => false,
        Some(place) => known.get(place).is_some_and(|before| is_same(before, now)),
        None => true,
    }
}

// The number of the first account that the run knows otherwise, or whose name another one has too, from 1.
fn first_other(known: &[KnownAccount], of_words: usize, now: &[TableAccount<'_>]) -> Option<usize> {
    let mut number = 0usize;
    for account in now {
        number = number.saturating_add(1);
        if !may_stand(known, of_words, account) || count_named(now, account.name) > 1 {
            return Some(number);
        }
    }
    None
}

// ---- those that come

fn is_new(known: &[KnownAccount], account: &TableAccount<'_>) -> bool {
    place_of(known, account.name).is_none()
}

// The number of the first account for which a run has no place, from 1.
fn first_beyond(known: &[KnownAccount], now: &[TableAccount<'_>]) -> Option<usize> {
    let mut number = 0usize;
    let mut places = known.len();
    for account in now {
        number = number.saturating_add(1);
        if is_new(known, account) {
            places = places.saturating_add(1);
        }
        if places > MOST_ACCOUNTS {
            return Some(number);
        }
    }
    None
}

// The accounts that the run does not know, the last one first.
fn coming_in(
    alloc: Global,
    known: &[KnownAccount],
    now: &[TableAccount<'_>],
) -> Result<Vec<KnownAccount>, AllocError> {
    let mut coming = Vec::new(alloc);
    for account in now.iter().rev() {
        if is_new(known, account) {
            coming.push(known_of(alloc, account)?)?;
        }
    }
    Ok(coming)
}

// ---- what the file allows

// What an account may do that the run knows; no session of it is bound once the file has it no more.
fn allowance_in(before: &KnownAccount, now: Option<&TableAccount<'_>>) -> Allowance {
    match now {
        Some(now) => allowance_of(now),
        None => Allowance {
            is_suspended: true,
            rate: before.rate,
        },
    }
}

// ---- passwords

fn copy_of_password(alloc: Global, password: &Password) -> Result<Password, AllocError> {
    match password {
        Password::Plain(password) => {
            let octets = Octets::copy_of(alloc, password.as_slice())?;
            Ok(Password::Plain(octets))
        }
        Password::Salted { salt, digest } => {
            let salt = Octets::copy_of(alloc, salt.as_slice())?;
            Ok(Password::Salted {
                salt,
                digest: *digest,
            })
        }
    }
}

fn copy_of(alloc: Global, login: &Login) -> Result<Login, AllocError> {
    Ok(Login {
        name: Octets::copy_of(alloc, login.name.as_slice())?,
        password: copy_of_password(alloc, &login.password)?,
    })
}

// How an account binds that the run knows; one that the file has no more is suspended, whatever its password.
fn login_in(
    alloc: Global,
    before: &KnownAccount,
    now: Option<&TableAccount<'_>>,
) -> Result<Login, AllocError> {
    match now {
        Some(now) => login_of(alloc, now),
        None => copy_of(alloc, &before.login),
    }
}

// ---- all of it

fn put_words(
    alloc: Global,
    known: &[KnownAccount],
    of_words: usize,
    renewal: &mut Renewal,
) -> Result<(), AllocError> {
    for account in known.iter().take(of_words) {
        let allowance = Allowance {
            is_suspended: false,
            rate: None,
        };
        renewal.put(allowance, copy_of(alloc, &account.login)?, account.sessions)?;
    }
    Ok(())
}

fn put_known(
    alloc: Global,
    known: &[KnownAccount],
    of_words: usize,
    now: &[TableAccount<'_>],
    renewal: &mut Renewal,
) -> Result<(), AllocError> {
    for account in known.iter().skip(of_words) {
        let now = named(now, account);
        let login = login_in(alloc, account, now)?;
        renewal.put(allowance_in(account, now), login, account.sessions)?;
    }
    Ok(())
}

fn put_new(
    alloc: Global,
    known: &[KnownAccount],
    now: &[TableAccount<'_>],
    renewal: &mut Renewal,
) -> Result<(), AllocError> {
    for account in now {
        if is_new(known, account) {
            let login = login_of(alloc, account)?;
            renewal.put(allowance_of(account), login, account.sessions)?;
        }
    }
    Ok(())
}

fn name_of(alloc: Global, account: &CentreAccount) -> Result<String, AllocError> {
    let mut name = String::new(alloc);
    name.push_str(std::str::from_utf8(account.name.as_slice()).unwrap_or(""))?;
    Ok(name)
}

fn no_place_text(alloc: Global, path: &str, line: usize) -> Result<String, AllocError> {
    Ok(format!(in alloc;
        "smscd: line {line} of {path}: a run has 32 accounts at most, with those that have gone\n"
    )?)
}

// That the account at this line has no place.
fn no_place(alloc: Global, path: &str, line: usize) -> RunFault {
    match no_place_text(alloc, path, line) {
        Ok(text) => RunFault::NotDone(text),
        Err(_) => RunFault::NoMemory,
    }
}

// That the centre has not taken an account.
fn not_taken(alloc: Global) -> RunFault {
    let mut text = String::new(alloc);
    match text.push_str("smscd: the centre has not taken a new account\n") {
        Ok(()) => RunFault::NotDone(text),
        Err(_) => RunFault::NoMemory,
    }
}

impl Reloader {
    /// For a run that has a file of accounts; none where it has no file. It knows those accounts, of which the first are of words.
    pub fn of(
        host: HostRuntime,
        run: &ServerRun<'_>,
        known: Vec<KnownAccount>,
        of_words: usize,
        allowances: &Arc<Allowances>,
        book: &Arc<AccountBook>,
        names: &Arc<AccountNames>,
    ) -> Result<Option<Reloader>, AllocError> {
        match run.accounts {
            Some(path) => {
                let reloader = Reloader::new(
                    host, run, path, known, of_words, allowances, book, names,
                )?;
                Ok(Some(reloader))
            }
            None => {
                drop(known);
                Ok(None)
            }
        }
    }

    fn new(
        host: HostRuntime,
        run: &ServerRun<'_>,
        path: &str,
        known: Vec<KnownAccount>,
        of_words: usize,
        allowances: &Arc<Allowances>,
        book: &Arc<AccountBook>,
        names: &Arc<AccountNames>,
    ) -> Result<Reloader, AllocError> {
        let mut own = String::new(host.alloc());
        own.push_str(path)?;
        let allowances = Arc::try_clone(allowances)?;
        let book = Arc::try_clone(book)?;
        let names = Arc::try_clone(names)?;
        Ok(Reloader {
            host,
            path: own,
            opens_accounts: run.opens_accounts,
            of_words,
            known,
            allowances,
            book,
            names,
            coming: Vec::new(host.alloc()),
            renewal: None,
            ordered: None,
        })
    }

    /// The path of the file.
    pub fn path(&self) -> &str {
        self.path.as_str()
    }

    // ---- what the file says

    // What is taken over by these of the file.
    fn renewal_to(&self, now: &[TableAccount<'_>]) -> Result<Renewal, AllocError> {
        let alloc = self.host.alloc();
        let known = self.known.as_slice();
        let mut renewal = Renewal::new(alloc);
        put_words(alloc, known, self.of_words, &mut renewal)?;
        put_known(alloc, known, self.of_words, now, &mut renewal)?;
        put_new(alloc, known, now, &mut renewal)?;
        Ok(renewal)
    }

    // Whether the file may be taken over: what it says of an account that the run knows is what it said before, and there is room.
    fn judge(&self, file: &str, now: &[TableAccount<'_>]) -> Result<(), RunFault> {
        let known = self.known.as_slice();
        if let Some(number) = first_other(known, self.of_words, now) {
            return Err(RunFault::OtherAccount(line_at(self.path.as_str(), file, number)));
        }
        match first_beyond(known, now) {
            Some(number) => Err(no_place(
                self.host.alloc(),
                self.path.as_str(),
                line_at(self.path.as_str(), file, number),
            )),
            None => Ok(()),
        }
    }

    // Keeps what is to come and to be taken over by these of the file.
    fn keep(&mut self, file: &str, now: &[TableAccount<'_>]) -> Result<(), RunFault> {
        self.judge(file, now)?;
        let coming = coming_in(self.host.alloc(), self.known.as_slice(), now)?;
        let renewal = self.renewal_to(now)?;
        self.coming = coming;
        self.renewal = Some(renewal);
        Ok(())
    }

    fn keep_spelled(&mut self, file: &str, document: &Table) -> Result<(), RunFault> {
        let accounts = accounts_in(self.host.alloc(), self.path.as_str(), file, document)?;
        self.keep(file, accounts.as_slice())
    }

    fn read_again(&mut self) -> Result<(), RunFault> {
        judge_file(&self.host, self.path.as_str(), self.opens_accounts)?;
        let file = read_file(&self.host, self.path.as_str())?;
        let document = document_of(self.host.alloc(), self.path.as_str(), file.as_str())?;
        let kept = self.keep_spelled(file.as_str(), &document);
        drop(document);
        kept
    }

    // ---- what the run does with it

    fn take_over<R: Wait + Clock>(
        &self,
        rt: &R,
        orders: &Orders,
        renewal: Renewal,
    ) -> Result<(), RunFault> {
        let Renewal {
            allowed,
            logins,
            limits,
        } = renewal;
        let is_taken = self
            .allowances
            .change(rt, orders, limits.as_slice(), allowed.as_slice());
        drop(allowed);
        drop(limits);
        if !is_taken {
            drop(logins);
            return Err(RunFault::NoOrders);
        }
        if self.book.renew(rt, self.host.alloc(), logins)? {
            Ok(())
        } else {
            Err(RunFault::NoOrders)
        }
    }

    /// Whether a file that was read is not taken over yet.
    pub fn is_busy(&self) -> bool {
        self.renewal.is_some()
    }

    /// Reads the file again. Where it has a fault nothing changes.
    pub fn begin(&mut self) -> Result<(), RunFault> {
        self.read_again()
    }

    // A copy of the next one that is to come, if there is one.
    fn next(&self) -> Result<Option<CentreAccount>, AllocError> {
        match self.coming.last() {
            Some(next) => Ok(Some(copy_of_account(self.host.alloc(), &next.account)?)),
            None => Ok(None),
        }
    }

    // Orders of the centre that this one comes, if it takes an order now. The run knows it from then on.
    fn order(&mut self, orders: &Orders, account: CentreAccount) -> Result<(), AllocError> {
        let name = name_of(self.host.alloc(), &account)?;
        self.known.reserve(1)?;
        if !orders.enrol(account) {
            return Ok(());
        }
        self.ordered = Some(name);
        if let Some(comer) = self.coming.pop() {
            self.known.push(comer)?;
        }
        Ok(())
    }

    // The centre has said what came of the one of that name, which was ordered. Once it has come it is called so.
    fn note(&mut self, name: String, outcome: OrderOutcome) -> Result<(), RunFault> {
        if outcome == OrderOutcome::Enrolled {
            self.names.put(self.known.len().saturating_sub(1), name);
            return Ok(());
        }
        drop(name);
        drop(self.known.pop());
        Err(not_taken(self.host.alloc()))
    }

    // Notes what came of the one that was ordered. False where the centre has not said it yet.
    fn hear(&mut self, orders: &Orders) -> Result<bool, RunFault> {
        let Some(name) = self.ordered.take() else {
            return Ok(true);
        };
        match orders.outcome() {
            Some(outcome) => {
                self.note(name, outcome)?;
                Ok(true)
            }
            None => {
                self.ordered = Some(name);
                Ok(false)
            }
        }
    }

    // Goes on with what was read. It is done where nothing is to come any more.
    fn go_on<R: Wait + Clock>(&mut self, rt: &R, orders: &Orders) -> Result<bool, RunFault> {
        if !self.hear(orders)? {
            return Ok(false);
        }
        if let Some(account) = self.next()? {
            self.order(orders, account)?;
            return Ok(false);
        }
        match self.renewal.take() {
            Some(renewal) => self.take_over(rt, orders, renewal)?,
            None => (),
        }
        Ok(true)
    }

    /// Goes on with the file that was read, and says how that ended once it has. The accounts that come are ordered of the centre one by one. Once
    /// all have come, the run takes over what the file allows, and the passwords. Those that have come by then stay, whatever becomes of the others.
    pub fn pursue<R: Wait + Clock>(
        &mut self,
        rt: &R,
        orders: &Orders,
    ) -> Option<Result<(), RunFault>> {
        match self.go_on(rt, orders) {
            Ok(false) => None,
            Ok(true) => Some(Ok(())),
            Err(fault) => {
                drop(self.renewal.take());
                self.coming.clear();
                Some(Err(fault))
            }
        }
    }
}
