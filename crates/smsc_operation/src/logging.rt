//! The log: lines in a ring, which a thread of its own writes to standard error.
use crate::account_names::AccountNames;
use crate::lines::{Line, line_of, refusals_text};
use crate::moments::{now, text_of};
use crate::run_fault::RunFault;
use crossbeam_channel::{Receiver, RecvTimeoutError, Sender, bounded};
use sms_base::Moment;
use smsc_observer::{Event, Observer, RefusalTable, Refusals};
use std::alloc::{AllocError, Global};
use std::io::Print;
use std::sync::atomic::{AtomicBool, AtomicU64, Ordering};
use std::sync::{Arc, Wait};
use std::thread::{self, JoinHandle, Threads};
use std::time::{Clock, Duration};

// So many lines wait at most. What finds no room is counted.
const MOST_LINES: usize = 1024;

// So many thousandths of a second the thread waits for a line, and then looks at what was counted.
const PAUSE: u64 = 1000;

// So many times a hundredth of a second the end of a run waits for the last lines.
const MOST_WAITS: u32 = 100;

/// What is counted until the thread has written it.
#[derive(Drop)]
struct Counted {
    // Lines that found no room or could not be written, since the log last said so.
    lost: AtomicU64,
    // All of them in the run.
    all_lost: Arc<AtomicU64>,
    // Connections that never said who they are.
    unknown: AtomicU64,
    // Refused submit_sm.
    refused: RefusalTable,
    // The thread has ended.
    is_done: AtomicBool,
}

impl Counted {
    // One more line is lost.
    fn lose(&self) {
        self.lost.fetch_add(1, Ordering::SeqCst);
        self.all_lost.fetch_add(1, Ordering::SeqCst);
    }
}

/// The log of a run.
#[derive(Drop)]
pub struct Log<R: Wait> {
    host: HostRuntime,
    rt: R,
    names: Arc<AccountNames>,
    lines: Sender<String>,
    counted: Arc<Counted>,
}

// What the thread that writes the log has.
#[derive(Drop)]
struct Writer<R> {
    host: HostRuntime,
    rt: R,
    names: Arc<AccountNames>,
    lines: Receiver<String>,
    counted: Arc<Counted>,
}

fn timed_line(
    alloc: Global,
    moment: Moment,
    level: &str,
    text: &str,
) -> Result<String, AllocError> {
    let time = text_of(alloc, moment)?;
    Ok(format!(in alloc; "{time} level={level} {text}\n")?)
}

// A whole line: the time at UTC, the level, and the text.
fn whole_line(host: &HostRuntime, level: &str, text: &str) -> Result<String, AllocError> {
    let alloc = host.alloc();
    match now(host) {
        Some(moment) => timed_line(alloc, moment, level, text),
        None => Ok(format!(in alloc; "? level={level} {text}\n")?),
    }
}

impl<R: Wait + Clock> Writer<R> {
    // Says whether the line is written.
    fn write(&self, line: &str) -> bool {
        eprint!(self.host; "{line}").is_ok()
    }

    fn is_count_written(&self, level: &str, event: &str, count: u64) -> bool {
        let alloc = self.host.alloc();
        let Ok(text) = format!(in alloc; "event={event} count={count}") else {
            return false;
        };
        match whole_line(&self.host, level, text.as_str()) {
            Ok(line) => self.write(line.as_str()),
            Err(_) => false,
        }
    }

    // What was counted. It stays counted until the log has said so.
    fn write_count(&self, level: &str, event: &str, counter: &AtomicU64) {
        let count = counter.swap(0, Ordering::SeqCst);
        if count > 0 && !self.is_count_written(level, event, count) {
            counter.fetch_add(count, Ordering::SeqCst);
        }
    }

    fn are_refusals_written(&self, refusals: &Refusals) -> bool {
        let alloc = self.host.alloc();
        let Ok(text) = refusals_text(alloc, &*self.names, refusals) else {
            return false;
        };
        match whole_line(&self.host, "warn", text.as_str()) {
            Ok(line) => self.write(line.as_str()),
            Err(_) => false,
        }
    }

    // What was refused since the last time, a line for each account and status.
    fn write_refused(&self) {
        for kind in 0..self.counted.refused.kinds() {
            if let Some(refusals) = self.counted.refused.take(kind) {
                if !self.are_refusals_written(&refusals) {
                    self.counted.lose();
                }
            }
        }
    }

    fn write_counts(&self) {
        self.write_refused();
        self.write_count("info", "unknown_connections", &self.counted.unknown);
        self.write_count("warn", "lines_lost", &self.counted.lost);
    }

    // The second that the monotonic clock is in; 0 where it can't be read.
    fn second(&self) -> u64 {
        match self.rt.monotonic() {
            Ok(since) => since.as_secs(),
            Err(_) => 0,
        }
    }

    // Writes lines until there will be none any more, and once a second what was counted, however many lines there are.
    fn write_all(&self) {
        let mut counted_in = self.second();
        for _ in self.rt.forever() {
            match self
                .lines
                .recv_timeout(&self.rt, Duration::from_millis(PAUSE))
            {
                Ok(line) => {
                    if !self.write(line.as_str()) {
                        self.counted.lose();
                    }
                }
                Err(RecvTimeoutError::Timeout) => {}
                Err(RecvTimeoutError::Disconnected) => {
                    self.write_counts();
                    self.counted.is_done.store(true, Ordering::SeqCst);
                    return;
                }
            }
            let second = self.second();
            if second != counted_in {
                counted_in = second;
                self.write_counts();
            }
        }
    }
}

impl<R: Wait + Copy> Log<R> {
    /// A line could not be made.
    pub fn lose(&self) {
        self.counted.lose();
    }

    /// Puts a line into the ring, or counts it where there is no room.
    pub fn put(&self, level: &str, text: &str) {
        let kept = match whole_line(&self.host, level, text) {
            Ok(line) => self.lines.try_send(&self.rt, line).is_ok(),
            Err(_) => false,
        };
        if !kept {
            self.counted.lose();
        }
    }

    /// How many lines found no room or could not be written, as long as the run lasts.
    pub fn lost_lines(&self) -> Result<Arc<AtomicU64>, AllocError> {
        Arc::try_clone(&self.counted.all_lost)
    }

    fn put_event(&self, event: &Event) -> Result<(), AllocError> {
        if let Event::SubmitRefused(account, status) = event {
            self.counted.refused.count(*account, *status);
            return Ok(());
        }
        match line_of(self.host.alloc(), &*self.names, event)? {
            Some(Line { level, text }) => self.put(level, text.as_str()),
            None => {
                self.counted.unknown.fetch_add(1, Ordering::SeqCst);
            }
        }
        Ok(())
    }
}

impl<R: Wait + Copy> Observer for Log<R> {
    fn observe(&self, event: &Event) {
        if self.put_event(event).is_err() {
            self.counted.lose();
        }
    }
}

/// The thread of a log.
#[derive(Drop)]
pub struct LogThread {
    thread: JoinHandle<()>,
    counted: Arc<Counted>,
}

impl LogThread {
    /// Waits until the last lines are written, a second at most: where nobody reads them they are let go. All that write to the log
    /// have ended.
    pub fn end<R: Threads + Clock>(self, rt: &R) {
        let LogThread { thread, counted } = self;
        for _ in 0..MOST_WAITS {
            if counted.is_done.load(Ordering::SeqCst) {
                thread.join(rt);
                return;
            }
            thread::sleep(rt, Duration::from_millis(10));
        }
    }
}

fn no_counts(alloc: Global) -> Result<Arc<Counted>, AllocError> {
    let all_lost = Arc::new(alloc, AtomicU64::new(0))?;
    let counted = Arc::new(
        alloc,
        Counted {
            lost: AtomicU64::new(0),
            all_lost,
            unknown: AtomicU64::new(0),
            refused: RefusalTable::new(alloc)?,
            is_done: AtomicBool::new(false),
        },
    )?;
    Ok(counted)
}

fn log_of<R: Wait + Copy>(
    host: HostRuntime,
    rt: R,
    names: Arc<AccountNames>,
    lines: Sender<String>,
    counted: &Arc<Counted>,
) -> Result<Arc<Log<R>>, AllocError> {
    let counted = Arc::try_clone(counted)?;
    Ok(Arc::new(
        host.alloc(),
        Log {
            host,
            rt,
            names,
            lines,
            counted,
        },
    )?)
}

fn writer_of<R: Copy>(
    host: HostRuntime,
    rt: R,
    names: &Arc<AccountNames>,
    lines: Receiver<String>,
    counted: &Arc<Counted>,
) -> Result<Writer<R>, AllocError> {
    let counted = Arc::try_clone(counted)?;
    let names = Arc::try_clone(names)?;
    Ok(Writer {
        host,
        rt,
        names,
        lines,
        counted,
    })
}

fn start_writer<R: Threads + Wait + Clock + Copy + Send + Sync + 'static>(
    rt: &R,
    writer: Writer<R>,
    counted: Arc<Counted>,
) -> Result<LogThread, RunFault> {
    match thread::spawn(rt, move || writer.write_all()) {
        Ok(thread) => Ok(LogThread { thread, counted }),
        Err(_) => Err(RunFault::NoThread),
    }
}

// The thread of a log whose lines come there.
fn start_thread<R: Threads + Wait + Clock + Copy + Send + Sync + 'static>(
    host: HostRuntime,
    rt: R,
    names: &Arc<AccountNames>,
    lines: Receiver<String>,
    counted: Arc<Counted>,
) -> Result<LogThread, RunFault> {
    let writer = writer_of(host, rt, names, lines, &counted)?;
    start_writer(&rt, writer, counted)
}

/// Starts a log: the names are those of the accounts, by their places.
pub fn start<R: Threads + Wait + Clock + Copy + Send + Sync + 'static>(
    host: HostRuntime,
    rt: R,
    names: Arc<AccountNames>,
) -> Result<(Arc<Log<R>>, LogThread), RunFault> {
    let counted = no_counts(host.alloc())?;
    let (sender, receiver) = bounded::<String, _>(host.alloc(), MOST_LINES)?;
    let log = log_of(host, rt, Arc::try_clone(&names)?, sender, &counted)?;
    let thread = start_thread(host, rt, &names, receiver, counted)?;
    Ok((log, thread))
}
