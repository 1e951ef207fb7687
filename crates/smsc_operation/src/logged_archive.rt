//! The archive of a run, of which the log says how many messages went.
ghost use Rattle.std.specs.Prelude.{◌≡◌, OnOk};
ghost use Rattle.sms_centre.specs.Archiving.{Stays};
ghost use Rattle.smsc_operation.specs.Archiving.{HasMessage, archive_in};

use crate::gone::Gone;
use crate::logging::Log;
use sms_centre::{Archive, NotArchived};
use sms_centre_rows::messages::MessageRow;
use std::alloc::{AllocError, Global};
use std::sync::{Arc, Wait};
use std::time::Clock;

// So many seconds lie between two lines of the log that say how many messages went.
const MINUTE: u64 = 60;

/// The archive of a run. Where it can't be written nothing goes, and the log says so once. It says once a minute at most how many messages
/// went.
#[derive(Drop)]
pub struct LoggedArchive<A: Archive + Drop, R: Wait> {
    alloc: Global,
    // None where it could not be opened.
    pub(crate) archive: Option<A>,
    log: Arc<Log<R>>,
    rt: R,
    gone: Option<Arc<Gone>>,
    // The log has said that nothing goes.
    is_refused: bool,
    // So many messages went since the log said so.
    count: u64,
    // The second of the system's clock from which on it says so again.
    due: u64,
}

fn second_of<R: Clock>(rt: &R) -> u64 {
    match rt.monotonic() {
        Ok(since) => since.as_secs(),
        Err(_) => 0,
    }
}

fn say_refused<R: Wait + Copy>(log: &Log<R>) {
    log.put("warn", "event=not_forgotten reason=archive");
}

fn take_in<A: Archive>(
    archive: &mut Option<A>,
    message: &MessageRow,
    parts: usize,
) -> Result<(), NotArchived>
    ensures took { OnOk result (HasMessage A.took archive.new message.now parts) }
    ensures others { Stays (HasMessage A.took archive.old) (HasMessage A.took archive.new) }
    ensures kept { Stays (HasMessage A.keeps archive.old) (HasMessage A.keeps archive.new) }
{
    match archive {
        Some(archive) => archive.take(message, parts),
        None => Err(NotArchived),
    }
}

fn sync_in<A: Archive>(archive: &mut Option<A>) -> Result<(), NotArchived>
    ensures synced { OnOk result (Stays (HasMessage A.took archive.old) (HasMessage A.keeps archive.new)) }
    ensures kept { Stays (HasMessage A.keeps archive.old) (HasMessage A.keeps archive.new) }
{
    match archive {
        Some(archive) => archive.sync(),
        None => Err(NotArchived),
    }
}

impl<A: Archive + Drop, R: Wait + Copy> LoggedArchive<A, R> {
    /// Nothing went yet. Where the archive could not be opened, the log says so now, and nothing will go.
    pub fn new(
        alloc: Global,
        archive: Option<A>,
        log: Arc<Log<R>>,
        rt: R,
        gone: Option<Arc<Gone>>,
    ) -> LoggedArchive<A, R>
        ensures { archive_in result ≡ archive }
    {
        let is_refused = archive.is_none();
        if is_refused {
            say_refused(&*log);
        }
        LoggedArchive {
            alloc,
            archive,
            log,
            rt,
            gone,
            is_refused,
            count: 0,
            due: 0,
        }
    }

    fn say_count(&mut self) -> Result<(), AllocError>
        ensures { self.new.archive ≡ self.old.archive }
    {
        let (alloc, count) = (self.alloc, self.count);
        let text = format!(in alloc; "event=forgotten messages={count}")?;
        self.log.put("info", text.as_str());
        self.count = 0;
        Ok(())
    }

    // What finds no memory is said with the next line.
    fn say_rest(&mut self)
        ensures { self.new.archive ≡ self.old.archive }
    {
        if self.count != 0 {
            let _ = self.say_count();
        }
    }

    /// The run has ended. The log says what it has not said yet.
    pub fn end(self) {
        let mut archive = self;
        archive.say_rest();
        drop(archive);
    }

    fn judge(&mut self, done: Result<(), NotArchived>) -> Result<(), NotArchived>
        ensures same { result ≡ done }
        ensures archive { self.new.archive ≡ self.old.archive }
    {
        if done.is_err() && !self.is_refused {
            say_refused(&*self.log);
        }
        self.is_refused = done.is_err();
        done
    }

    // One that finds no room is not counted as it goes.
    fn note(&mut self, message: &MessageRow)
        ensures { self.new.archive ≡ self.old.archive }
    {
        if let Some(gone) = &self.gone {
            let _ = gone.note(&self.rt, message);
        }
        self.count = self.count.saturating_add(1);
    }
}

impl<A: Archive + Drop, R: Wait + Clock + Copy> LoggedArchive<A, R> {
    fn say_by_the_minute(&mut self)
        ensures { self.new.archive ≡ self.old.archive }
    {
        let now = second_of(&self.rt);
        if self.due <= now {
            self.say_rest();
            self.due = now.saturating_add(MINUTE);
        }
    }
}

impl<A: Archive + Drop, R: Wait + Clock + Copy> Archive for LoggedArchive<A, R> {
    ghost took = { λ logged message parts. HasMessage A.took logged.archive message parts };

    ghost keeps = { λ logged message parts. HasMessage A.keeps logged.archive message parts };

    fn take(&mut self, message: &MessageRow, parts: usize) -> Result<(), NotArchived> {
        let done = take_in(&mut self.archive, message, parts);
        if done.is_ok() {
            self.note(message);
        }
        self.judge(done)
    }

    fn sync(&mut self) -> Result<(), NotArchived> {
        let done = sync_in(&mut self.archive);
        if done.is_ok() {
            self.say_by_the_minute();
        }
        self.judge(done)
    }
}
