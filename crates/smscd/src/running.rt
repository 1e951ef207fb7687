//! A run of the server.
ghost use Rattle.std.specs.Prelude.{IsSome};
ghost use Rattle.smsc_operation.specs.Loading.{read_in};

use crate::account_book::book_of;
use crate::control::Control;
use crate::forgetting::{FileArchive, forgetting_of};
use crate::ports::{listen, ports_of};
use crate::reloading::Reloader;
use crate::setup::{KnownAccount, MOST_ACCOUNTS, RunAccounts, setup_of};
use crate::status::{self, About, Pages};
use crate::watchers::{Watchers, log_alone, log_and_page};
use crate::watching::{FileWatch, Guard};
use smpp_session::Account as Login;
use sms_base::{Address, Moment};
use sms_centre_spec::numbers::first_number;
use sms_keeper::Gate;
use sms_store_files::{LogFinding, LogJudgement};
use smsc_cli::words::{AccountWords, LogDetail, ServerRun};
use smsc_endpoint::LinkAccess;
use smsc_operation::account_names::AccountNames;
use smsc_operation::feed::Source;
use smsc_operation::loaded_keep::LoadedKeep;
use smsc_operation::logging::{self, Log, LogThread};
use smsc_operation::moments::{now, text_of};
use smsc_operation::opening::{FoundStore, open_store};
use smsc_operation::preparing::leave_after;
use smsc_operation::readiness;
use smsc_operation::run_fault::{ClockBehind, RunFault};
use smsc_operation::store_files::{StorePaths, open_mode_at, public_mode_at};
use smsc_operation::summary::{Files, Summary, summary_of};
use smsc_server::{
    AccountBook, Allowance, Allowances, Clocks, Given, ObservedKeep, Orders, Ports, RunClock,
    ServeFault, serve,
};
use smsc_service::{CentreAccount, CentreStore, Forgetting, LinkBoard, Setup};
use std::alloc::{AllocError, Global};
use std::io;
use std::net::TcpListener;
use std::sync::atomic::{AtomicBool, Ordering};
use std::sync::{Arc, Wait};
use std::thread::{self, JoinHandle, Threads};
use std::time::Clock;

// So many seconds the rows may be ahead of the clock.
const MOST_AHEAD: u64 = 600;

// The product's gate returns at once.
#[derive(Clone, Copy)]
struct OpenGate;

impl Gate for OpenGate {
    fn pass(&self) {}
}

/// Serves the connections that the words ask for, with the accounts of the words and of their file.
pub fn run_words<R: Threads + Wait + Clock + Copy + Send + Sync + 'static>(
    host: HostRuntime,
    rt: R,
    run: &ServerRun<'_>,
    accounts: &[AccountWords<'_>],
) -> Result<(), RunFault> {
    let book = book_of(&host, run, accounts)?;
    // A run of no connection opens nothing.
    if run.sessions == Some(0) {
        return Ok(());
    }
    match now(&host) {
        Some(start) => serve_book(host, rt, run, book, start),
        None => Err(RunFault::NoClock),
    }
}

// ---- the log

fn start_log<R: Threads + Wait + Clock + Copy + Send + Sync + 'static>(
    host: HostRuntime,
    rt: R,
    names: &Arc<AccountNames>,
) -> Result<(Arc<Log<R>>, LogThread), RunFault> {
    let names = Arc::try_clone(names)?;
    logging::start(host, rt, names)
}

fn serve_book<R: Threads + Wait + Clock + Copy + Send + Sync + 'static>(
    host: HostRuntime,
    rt: R,
    run: &ServerRun<'_>,
    book: RunAccounts,
    start: Moment,
) -> Result<(), RunFault> {
    let RunAccounts {
        logins,
        names,
        accounts,
        access,
        limits,
        allowed,
        known,
        of_words,
        has_file,
    } = book;
    let names = AccountNames::new(host.alloc(), names, MOST_ACCOUNTS)?;
    let names = Arc::new(host.alloc(), names)?;
    let limits = limits_of(
        host,
        run,
        logins,
        limits.as_slice(),
        allowed.as_slice(),
        known,
        of_words,
        has_file,
        &names,
    )?;
    let setup = setup_of(host.alloc(), run, start);
    let (log, thread) = start_log(host, rt, &names)?;
    let ended = match parts_of(host.alloc(), access, accounts, limits, names, &log) {
        Ok(parts) => serve_store(host, rt, run, parts, setup),
        Err(_) => Err(RunFault::NoMemory),
    };
    end_log(&rt, log, thread);
    ended
}

fn end_log<R: Threads + Wait + Clock + Copy>(rt: &R, log: Arc<Log<R>>, thread: LogThread) {
    drop(log);
    thread.end(rt);
}

// Who may bind, what the accounts may do, and who reads that again.
#[derive(Drop)]
struct Limits {
    book: Arc<AccountBook>,
    allowances: Arc<Allowances>,
    reloader: Option<Reloader>,
}

// With so many places as there may be accounts, of which the last are for those that come.
fn all_places<T: Copy + Drop>(alloc: Global, first: &[T], rest: T) -> Result<Vec<T>, AllocError> {
    let mut all = Vec::new(alloc);
    all.extend_from_slice(first)?;
    for _ in first.len()..MOST_ACCOUNTS {
        all.push(rest)?;
    }
    Ok(all)
}

// An account that has not come has no session.
fn allowances_of(
    alloc: Global,
    limits: &[u8],
    allowed: &[Allowance],
) -> Result<Allowances, AllocError> {
    let limits = all_places(alloc, limits, 0)?;
    let none = Allowance {
        is_suspended: false,
        rate: None,
    };
    let allowed = all_places(alloc, allowed, none)?;
    Allowances::new(alloc, limits.as_slice(), allowed.as_slice())
}

fn limits_of(
    host: HostRuntime,
    run: &ServerRun<'_>,
    logins: Vec<Login>,
    limits: &[u8],
    allowed: &[Allowance],
    known: Vec<KnownAccount>,
    of_words: usize,
    has_file: bool,
    names: &Arc<AccountNames>,
) -> Result<Limits, AllocError> {
    let alloc = host.alloc();
    let allowances = allowances_of(alloc, limits, allowed)?;
    let allowances = Arc::new(alloc, allowances)?;
    let book = AccountBook::new(alloc, logins, has_file)?;
    let book = Arc::new(alloc, book)?;
    let reloader = Reloader::of(host, run, known, of_words, &allowances, &book, names)?;
    Ok(Limits {
        book,
        allowances,
        reloader,
    })
}

// What a run has beside its store.
#[derive(Drop)]
struct RunParts<R: Wait> {
    access: LinkAccess,
    // Whose messages the centre takes.
    accounts: Vec<CentreAccount>,
    limits: Limits,
    names: Arc<AccountNames>,
    log: Arc<Log<R>>,
    orders: Arc<Orders>,
}

fn orders(alloc: Global) -> Result<Arc<Orders>, AllocError> {
    let orders = Orders::new(alloc)?;
    Ok(Arc::new(alloc, orders)?)
}

fn parts_of<R: Wait>(
    alloc: Global,
    access: LinkAccess,
    accounts: Vec<CentreAccount>,
    limits: Limits,
    names: Arc<AccountNames>,
    log: &Arc<Log<R>>,
) -> Result<RunParts<R>, AllocError> {
    let orders = orders(alloc)?;
    let log = Arc::try_clone(log)?;
    Ok(RunParts {
        access,
        accounts,
        limits,
        names,
        log,
        orders,
    })
}

// What the thread of the status page is to have, where there is one.
#[derive(Drop)]
struct StatusPart {
    port: u16,
    source: Source,
    links: Arc<LinkBoard>,
    names: Arc<AccountNames>,
}

// What the centre and the threads beside the server are to have.
#[derive(Drop)]
struct Beside {
    accounts: Vec<CentreAccount>,
    status: Option<StatusPart>,
    reloader: Option<Reloader>,
}

// The observers of the run, and what the thread of the status page is to have.
fn watchers_of<R: Wait + Copy>(
    rt: R,
    alloc: Global,
    run: &ServerRun<'_>,
    log: Arc<Log<R>>,
    names: Arc<AccountNames>,
    board: Arc<LinkBoard>,
    guard: Arc<Guard>,
) -> Result<(Watchers<R>, Option<StatusPart>), AllocError> {
    let Some(port) = run.status else {
        return Ok((log_alone(rt, alloc, log, run.log, board, guard), None));
    };
    let links = Arc::try_clone(&board)?;
    let (watchers, source) = log_and_page(rt, alloc, log, run.log, board, guard)?;
    let part = StatusPart {
        port,
        source,
        links,
        names,
    };
    Ok((watchers, Some(part)))
}

// The board, where the status page or the access log looks at it.
fn board_of(
    run: &ServerRun<'_>,
    board: &Arc<LinkBoard>,
) -> Result<Option<Arc<LinkBoard>>, AllocError> {
    if run.status.is_some() || run.log == LogDetail::Access {
        Ok(Some(Arc::try_clone(board)?))
    } else {
        Ok(None)
    }
}

fn given_of<R: Wait + Copy>(
    host: HostRuntime,
    rt: R,
    run: &ServerRun<'_>,
    parts: RunParts<R>,
    guard: Arc<Guard>,
) -> Result<(Given<Watchers<R>>, Beside), AllocError> {
    let alloc = host.alloc();
    let RunParts {
        access,
        accounts,
        limits,
        names,
        log,
        orders,
    } = parts;
    let board = Arc::new(alloc, LinkBoard::new(alloc)?)?;
    let links = board_of(run, &board)?;
    let (watchers, status) = watchers_of(rt, alloc, run, log, names, board, guard)?;
    let access = Arc::new(alloc, access)?;
    let observer = Arc::new(alloc, watchers)?;
    let Limits {
        book,
        allowances,
        reloader,
    } = limits;
    Ok((
        Given {
            accounts: book,
            access,
            observer,
            orders,
            links,
            sessions: run.sessions,
            allowances,
        },
        Beside {
            accounts,
            status,
            reloader,
        },
    ))
}

// ---- the store

// The store is opened before the ports.
fn serve_store<R: Threads + Wait + Clock + Copy + Send + Sync + 'static>(
    host: HostRuntime,
    rt: R,
    run: &ServerRun<'_>,
    parts: RunParts<R>,
    setup: Setup,
) -> Result<(), RunFault> {
    let start = setup.start;
    match open_store(&host, run, setup) {
        Ok((keep, found)) => {
            let ended = serve_found(host, rt, run, parts, keep, &found, start);
            leave_after(&host, &found, ended)
        }
        Err(fault) => Err(fault),
    }
}

fn guard_of(
    host: HostRuntime,
    found: &FoundStore,
    orders: &Arc<Orders>,
) -> Result<Arc<Guard>, AllocError> {
    let paths = found.paths.copy(host.alloc())?;
    let guard = Guard::new(host, paths, found.opened, Arc::try_clone(orders)?);
    Ok(Arc::new(host.alloc(), guard)?)
}

fn say_open_mode<R: Wait + Copy>(
    alloc: Global,
    log: &Log<R>,
    event: &str,
    name: &str,
    mode: Option<u32>,
) -> Result<(), AllocError> {
    let Some(mode) = mode else {
        return Ok(());
    };
    let text = format!(in alloc; "event={event} file={name} mode={mode:o}")?;
    log.put("warn", text.as_str());
    Ok(())
}

// Warns where others than its owner may read or write the store.
fn say_open_modes<R: Wait + Copy>(
    host: &HostRuntime,
    log: &Log<R>,
    paths: &StorePaths,
) -> Result<(), AllocError> {
    let file = open_mode_at(host, paths.file.as_str());
    say_open_mode(host.alloc(), log, "store_open_to_others", "store", file)?;
    let behind = open_mode_at(host, paths.log.as_str());
    say_open_mode(host.alloc(), log, "store_open_to_others", "log", behind)
}

fn say_open_file<R: Wait + Copy>(
    host: &HostRuntime,
    log: &Log<R>,
    name: &str,
    path: Option<&str>,
) -> Result<(), AllocError> {
    let Some(path) = path else {
        return Ok(());
    };
    let mode = public_mode_at(host, path);
    say_open_mode(host.alloc(), log, "secrets_open_to_others", name, mode)
}

// Warns where every user may read or write a file with passwords or secrets.
fn say_open_files<R: Wait + Copy>(
    host: &HostRuntime,
    log: &Log<R>,
    run: &ServerRun<'_>,
) -> Result<(), AllocError> {
    say_open_file(host, log, "accounts", run.accounts)?;
    say_open_file(host, log, "link_secrets", run.link_secrets)
}

fn serve_found<R: Threads + Wait + Clock + Copy + Send + Sync + 'static, K: CentreStore + Drop>(
    host: HostRuntime,
    rt: R,
    run: &ServerRun<'_>,
    parts: RunParts<R>,
    keep: K,
    found: &FoundStore,
    start: Moment,
) -> Result<K, RunFault> {
    say_open_modes(&host, &*parts.log, &found.paths)?;
    say_open_files(&host, &*parts.log, run)?;
    let guard = guard_of(host, found, &parts.orders)?;
    let (given, beside) = given_of(host, rt, run, parts, guard)?;
    serve_keep(host, rt, run, &given, beside, keep, found, start)
}

// The level at which a start says what its log held, and whether that ended cut.
fn level_of(finding: LogFinding) -> (&'static str, &'static str) {
    match finding {
        LogFinding::Missing | LogFinding::Emptied | LogFinding::Emptying | LogFinding::Whole => {
            ("info", "no")
        }
        LogFinding::Torn | LogFinding::Damaged | LogFinding::Unsigned => ("warn", "yes"),
    }
}

fn say_store<R: Wait + Copy>(
    alloc: Global,
    log: &Log<R>,
    found: &FoundStore,
    summary: &Summary,
) -> Result<(), AllocError> {
    let Files {
        is_there,
        log_octets,
    } = found.files;
    let word = if is_there { "found" } else { "new" };
    let LogJudgement { finding, taken, .. } = found.begun.finding.log;
    let (level, cut) = level_of(finding);
    let last_run = found.begun.last_run();
    let first = first_number(found.begun.step);
    let Summary {
        open,
        all,
        greatest,
        newest,
        ..
    } = *summary;
    let newest = text_of(alloc, newest)?;
    let text = format!(in alloc;
        "event=store version=3 state={word} open={open} messages={all} greatest_id={greatest} newest={newest} log_octets={log_octets} log_frames={taken} log_cut={cut} last_run={last_run} first_id={first}"
    )?;
    log.put(level, text.as_str());
    Ok(())
}

// Logs what was read of the store, and gives it. Rows that the last run left in order were not judged as the store was opened, and are now.
fn look_at<R: Wait + Copy, K: CentreStore + Drop>(
    host: &HostRuntime,
    watchers: &Watchers<R>,
    keep: &mut LoadedKeep<K>,
    found: &FoundStore,
    start: Moment,
) -> Result<Summary, RunFault>
    requires { IsSome (read_in keep.old) }
{
    let rows = keep.rows();
    let summary = summary_of(rows, start);
    watchers.begin(rows);
    say_store(host.alloc(), &*watchers.log, found, &summary)?;
    if found.begun.is_of_order() {
        keep.judge(host.alloc())?;
    }
    Ok(summary)
}

// The clock of the run, once the store was read, which may take long. Its time begins at the time of day, or at the newest moment of the
// rows where they are ahead of it. A time that began before them would seem to rest until it had caught up, and nothing would expire
// meanwhile. Rows that are too far ahead are refused.
fn clock_of<R: Clock + Copy>(
    rt: R,
    newest: Moment,
    may_be_ahead: bool,
) -> Result<RunClock<R>, RunFault> {
    let Some(clocks) = Clocks::read(rt) else {
        return Err(RunFault::NoClock);
    };
    let ahead = newest.seconds().saturating_sub(clocks.day.seconds());
    if ahead > MOST_AHEAD && !may_be_ahead {
        return Err(RunFault::Ahead(ClockBehind {
            newest,
            now: clocks.day,
        }));
    }
    Ok(clocks.from(newest))
}

// The keep, whose commits are observed: the store's files are looked at before each and after it.
fn observed<'a, K: CentreStore, R: Wait>(
    keep: K,
    given: &'a Given<Watchers<R>>,
) -> ObservedKeep<'a, K, Watchers<R>> {
    ObservedKeep {
        keep,
        observer: Some(&*given.observer),
    }
}

// Why the server ended, as a run says it.
fn fault_of(fault: ServeFault) -> RunFault {
    match fault {
        ServeFault::NoMemory => RunFault::NoMemory,
        ServeFault::NoThread => RunFault::NoThread,
        ServeFault::BadRows => RunFault::BadRows,
        ServeFault::Store(error) => RunFault::from(error),
        ServeFault::Broken => RunFault::Broken,
    }
}

// How the run ended, once the threads beside it have.
fn end_run<R: Threads + Wait + Copy, K: Drop>(
    rt: &R,
    helpers: Helpers,
    watchers: &Watchers<R>,
    ended: Result<K, ServeFault>,
) -> Result<K, RunFault> {
    helpers.end(rt);
    watchers.log.put("info", "event=ended_run");
    if let Some(fault) = watchers.guard.fault() {
        drop(ended);
        return Err(fault);
    }
    match ended {
        Ok(keep) => Ok(keep),
        Err(fault) => Err(fault_of(fault)),
    }
}

// The keep itself, once nobody observes it any more.
fn unobserved<K, T>(observed: ObservedKeep<'_, K, T>) -> K {
    let ObservedKeep { keep, observer: _ } = observed;
    keep
}

// What follows from here on is the same over any keep, and then over any machine, so that its proof need not look into the store or the
// centre.
fn serve_open<R: Threads + Wait + Clock + Copy + Send + Sync + 'static, K: CentreStore + Drop>(
    rt: R,
    alloc: Global,
    given: &Given<Watchers<R>>,
    keep: K,
    accounts: Vec<CentreAccount>,
    forgetting: Forgetting<FileArchive<R>>,
    ports: Ports<TcpListener>,
    clock: &RunClock<R>,
) -> Result<K, ServeFault> {
    let keep = observed(keep, given);
    let (doors, keep, archive) = serve(
        rt, alloc, keep, accounts, forgetting, &OpenGate, clock, ports, given,
    )?;
    drop(doors);
    archive.end();
    Ok(unobserved(keep))
}

fn serve_ports<R: Threads + Wait + Clock + Copy + Send + Sync + 'static, K: CentreStore + Drop>(
    host: HostRuntime,
    rt: R,
    run: &ServerRun<'_>,
    given: &Given<Watchers<R>>,
    beside: Beside,
    keep: K,
    ports: Ports<TcpListener>,
    summary: &Summary,
    clock: &RunClock<R>,
) -> Result<K, RunFault> {
    let watchers = &*given.observer;
    let forgetting = forgetting_of(&host, rt, watchers, run, clock.start, summary.newest)?;
    let mut helpers = Helpers::new(host.alloc())?;
    let Beside {
        accounts,
        status,
        reloader,
    } = beside;
    helpers.start_all(host, rt, run, given, status, reloader, summary, clock.start)?;
    let alloc = host.alloc();
    let ended = serve_open(rt, alloc, given, keep, accounts, forgetting, ports, clock);
    end_run(&rt, helpers, &*given.observer, ended)
}

// What was read of the store, the clock that goes on from there, and the ports.
fn begin<R: Wait + Clock + Copy, K: CentreStore + Drop>(
    host: &HostRuntime,
    rt: R,
    run: &ServerRun<'_>,
    watchers: &Watchers<R>,
    keep: &mut LoadedKeep<K>,
    found: &FoundStore,
    start: Moment,
) -> Result<(Summary, RunClock<R>, Ports<TcpListener>), RunFault>
    requires { IsSome (read_in keep.old) }
{
    let summary = look_at(host, watchers, keep, found, start)?;
    let clock = clock_of(rt, summary.newest, run.is_ahead)?;
    let ports = open_ports(host, run)?;
    Ok((summary, clock, ports))
}

// The store is read once: what is said of it and what the centre starts on are the same rows.
fn serve_keep<R: Threads + Wait + Clock + Copy + Send + Sync + 'static, K: CentreStore + Drop>(
    host: HostRuntime,
    rt: R,
    run: &ServerRun<'_>,
    given: &Given<Watchers<R>>,
    beside: Beside,
    keep: K,
    found: &FoundStore,
    start: Moment,
) -> Result<K, RunFault> {
    let mut keep = LoadedKeep::of(keep)?;
    match begin(&host, rt, run, &*given.observer, &mut keep, found, start) {
        Ok((summary, clock, ports)) => {
            let keep = serve_ports(host, rt, run, given, beside, keep, ports, &summary, &clock)?;
            Ok(keep.into_store())
        }
        Err(fault) => {
            drop(keep);
            Err(fault)
        }
    }
}

fn ports_fault(error: io::Error) -> RunFault {
    match error.kind() {
        io::ErrorKind::OutOfMemory => RunFault::NoMemory,
        _ => RunFault::NoThread,
    }
}

fn control_fault(error: io::Error) -> RunFault {
    match error.kind() {
        io::ErrorKind::OutOfMemory => RunFault::NoMemory,
        io::ErrorKind::AddrInUse => RunFault::ControlTaken,
        _ => RunFault::Control(error),
    }
}

fn listen_at(host: &HostRuntime, port: u16) -> Result<TcpListener, RunFault> {
    listen(host, port).map_err(|error| RunFault::Port(port, error))
}

fn open_ports(host: &HostRuntime, run: &ServerRun<'_>) -> Result<Ports<TcpListener>, RunFault> {
    let applications = listen_at(host, run.smpp)?;
    let handsets = listen_at(host, run.links)?;
    ports_of(host, applications, handsets).map_err(ports_fault)
}

fn listening_text(alloc: Global, run: &ServerRun<'_>) -> Result<String, AllocError> {
    let (smpp, links) = (run.smpp, run.links);
    match run.status {
        Some(status) => Ok(format!(in alloc;
            "event=listening smpp={smpp} links={links} status={status}"
        )?),
        None => Ok(format!(in alloc; "event=listening smpp={smpp} links={links}")?),
    }
}

fn say_listening<R: Wait + Copy>(
    alloc: Global,
    run: &ServerRun<'_>,
    log: &Log<R>,
) -> Result<(), AllocError> {
    let text = listening_text(alloc, run)?;
    log.put("info", text.as_str());
    Ok(())
}

// ---- the threads beside the server

// The thread that watches the store's files, the one that takes orders, and the one of the status page.
#[derive(Drop)]
struct Helpers {
    over: Arc<AtomicBool>,
    threads: Vec<JoinHandle<()>>,
}

fn digits_of(alloc: Global, address: &Address) -> Result<String, AllocError> {
    let mut text = String::new(alloc);
    for digit in address.digits.as_slice() {
        text.push(*digit)?;
    }
    Ok(text)
}

fn about_of(
    alloc: Global,
    run: &ServerRun<'_>,
    names: Arc<AccountNames>,
    links: Arc<LinkBoard>,
    paths: &StorePaths,
    summary: &Summary,
    start: Moment,
) -> Result<About, AllocError> {
    Ok(About {
        centre: digits_of(alloc, &run.centre)?,
        start,
        messages: summary.messages,
        paths: paths.copy(alloc)?,
        names,
        links,
    })
}

impl Helpers {
    fn new(alloc: Global) -> Result<Helpers, AllocError> {
        Ok(Helpers {
            over: Arc::new(alloc, AtomicBool::new(false))?,
            threads: Vec::with_capacity(alloc, 3)?,
        })
    }

    fn watch_of(&self, host: HostRuntime, guard: &Arc<Guard>) -> Result<FileWatch, AllocError> {
        Ok(FileWatch {
            host,
            guard: Arc::try_clone(guard)?,
            over: Arc::try_clone(&self.over)?,
        })
    }

    fn keep_thread(&mut self, thread: Option<JoinHandle<()>>) -> Result<(), RunFault> {
        match thread {
            Some(thread) => {
                self.threads.push(thread)?;
                Ok(())
            }
            None => Err(RunFault::NoThread),
        }
    }

    fn start_watch<R: Threads>(&mut self, rt: &R, watch: FileWatch) -> Result<(), RunFault> {
        self.keep_thread(thread::spawn(rt, move || watch.look()).ok())
    }

    fn start_pages<R: Threads + Wait + Clock + Copy + Send + Sync + 'static>(
        &mut self,
        rt: &R,
        pages: Pages<R>,
    ) -> Result<(), RunFault> {
        let mut pages = pages;
        self.keep_thread(thread::spawn(rt, move || pages.serve_all()).ok())
    }

    fn pages_of<R: Clock + Copy>(
        &self,
        host: HostRuntime,
        rt: R,
        run: &ServerRun<'_>,
        part: StatusPart,
        paths: &StorePaths,
        summary: &Summary,
        start: Moment,
    ) -> Result<Pages<R>, RunFault> {
        let StatusPart {
            port,
            source,
            links,
            names,
        } = part;
        let about = about_of(host.alloc(), run, names, links, paths, summary, start)?;
        let over = Arc::try_clone(&self.over)?;
        status::open(host, rt, port, about, source, over).map_err(|error| RunFault::Port(
            port, error,
        ))
    }

    fn start_status<R: Threads + Wait + Clock + Copy + Send + Sync + 'static>(
        &mut self,
        host: HostRuntime,
        rt: R,
        run: &ServerRun<'_>,
        part: Option<StatusPart>,
        paths: &StorePaths,
        summary: &Summary,
        start: Moment,
    ) -> Result<(), RunFault> {
        match part {
            Some(part) => {
                let pages = self.pages_of(host, rt, run, part, paths, summary, start)?;
                self.start_pages(&rt, pages)
            }
            None => Ok(()),
        }
    }

    fn control_of(
        &self,
        host: HostRuntime,
        path: &str,
        orders: &Arc<Orders>,
        reloader: Option<Reloader>,
    ) -> Result<Control, RunFault> {
        let orders = Arc::try_clone(orders)?;
        let over = Arc::try_clone(&self.over)?;
        Control::open(host, path, orders, reloader, over).map_err(control_fault)
    }

    fn start_attending<R: Threads + Wait + Clock + Copy + Send + Sync + 'static>(
        &mut self,
        rt: &R,
        control: Control,
    ) -> Result<(), RunFault> {
        let mut control = control;
        let own = *rt;
        self.keep_thread(thread::spawn(rt, move || control.attend_all(&own)).ok())
    }

    fn start_control<R: Threads + Wait + Clock + Copy + Send + Sync + 'static>(
        &mut self,
        host: HostRuntime,
        rt: &R,
        path: &str,
        orders: &Arc<Orders>,
        reloader: Option<Reloader>,
    ) -> Result<(), RunFault> {
        let control = self.control_of(host, path, orders, reloader)?;
        self.start_attending(rt, control)
    }

    fn start<R: Threads + Wait + Clock + Copy + Send + Sync + 'static>(
        &mut self,
        host: HostRuntime,
        rt: &R,
        run: &ServerRun<'_>,
        guard: &Arc<Guard>,
        orders: &Arc<Orders>,
        reloader: Option<Reloader>,
    ) -> Result<(), RunFault> {
        let watch = self.watch_of(host, guard)?;
        self.start_watch(rt, watch)?;
        match run.control {
            Some(path) => self.start_control(host, rt, path, orders, reloader),
            None => Ok(()),
        }
    }

    // Starts them, and says then that the ports are open.
    fn start_all<R: Threads + Wait + Clock + Copy + Send + Sync + 'static>(
        &mut self,
        host: HostRuntime,
        rt: R,
        run: &ServerRun<'_>,
        given: &Given<Watchers<R>>,
        status: Option<StatusPart>,
        reloader: Option<Reloader>,
        summary: &Summary,
        start: Moment,
    ) -> Result<(), RunFault> {
        let guard = &given.observer.guard;
        self.start_status(host, rt, run, status, &guard.paths, summary, start)?;
        self.start(host, &rt, run, guard, &given.orders, reloader)?;
        say_listening(host.alloc(), run, &*given.observer.log)?;
        readiness::tell(&host, readiness::LISTENS);
        Ok(())
    }

    // Ends them.
    fn end<R: Threads>(self, rt: &R) {
        let Helpers { over, threads } = self;
        over.store(true, Ordering::SeqCst);
        for thread in threads {
            thread.join(rt);
        }
    }
}
